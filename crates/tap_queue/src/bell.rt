//! How the threads at both ends of a ring wait for each other. No contract rests on it: whoever waits
//! looks again.

use std::sync::Wait;
use std::sync::atomic::{AtomicBool, Ordering};
use std::thread::Parker;
use std::time::Duration;

/// After so many milliseconds a thread that waits looks again unasked.
const LONGEST: u64 = 10;

/// Wakes the thread at one end of a ring.
#[derive(Drop)]
pub(crate) struct Bell {
    waits: AtomicBool,
    parker: Parker,
}

impl Bell {
    fn new() -> Bell {
        Bell {
            waits: AtomicBool::new(false),
            parker: Parker::new(),
        }
    }

    /// This thread is about to wait. It has to look at the ring once more before it does.
    pub(crate) fn listen(&self) {
        self.waits.store(true, Ordering::SeqCst);
    }

    /// Sleeps until it is woken.
    pub(crate) fn sleep<R: Wait>(&self, rt: &R) {
        self.parker.park_timeout(rt, Duration::from_millis(LONGEST));
    }

    /// This thread no longer waits.
    pub(crate) fn awake(&self) {
        self.waits.store(false, Ordering::SeqCst);
    }

    /// Wakes the thread if it waits.
    #[inline]
    pub(crate) fn wake(&self) {
        if self.waits.load(Ordering::SeqCst) {
            self.parker.unpark();
        }
    }
}

/// The bells of a ring's two threads.
#[derive(Drop)]
pub(crate) struct Bells {
    /// Of the thread that takes.
    pub(crate) taker: Bell,
    /// Of the thread that puts.
    pub(crate) putter: Bell,
    /// Nothing more is wanted.
    stopped: AtomicBool,
}

impl Bells {
    pub(crate) fn new() -> Bells {
        Bells {
            taker: Bell::new(),
            putter: Bell::new(),
            stopped: AtomicBool::new(false),
        }
    }

    /// Has the thread that puts come to its end.
    pub(crate) fn stop(&self) {
        self.stopped.store(true, Ordering::SeqCst);
        self.putter.wake();
    }

    /// True if nothing more is wanted.
    #[inline]
    pub(crate) fn is_stopped(&self) -> bool {
        self.stopped.load(Ordering::SeqCst)
    }
}
