//! How the threads at both ends of a ring wait for each other. No contract rests on it: whoever waits
//! looks again.
ghost use Rattle.std.specs.Prelude.{◌≡◌, IfSome};
ghost use Rattle.rtrb.specs.Ring.{SameConsumer, received};

use rtrb::{Consumer, Protocol};
use std::alloc::Global;
use std::hint::spin_loop;
use std::sync::Wait;
use std::sync::atomic::{AtomicBool, Ordering};
use std::thread::Parker;
use std::time::Duration;

/// After so many milliseconds a thread that waits looks again unasked.
const LONGEST: u64 = 10;

/// How often a thread looks again before it sleeps: some microseconds, less than a sleep costs.
const SPINS: u32 = 64;

/// Wakes one thread.
#[derive(Drop)]
pub(crate) struct Bell {
    waits: AtomicBool,
    parker: Parker,
}

impl Bell {
    fn new() -> Bell {
        Bell {
            waits: AtomicBool::new(false),
            parker: Parker::new(),
        }
    }

    /// This thread is about to wait. It has to look at its ring once more before it does.
    fn listen(&self) {
        self.waits.store(true, Ordering::SeqCst);
    }

    /// Sleeps until it is woken.
    fn sleep<R: Wait>(&self, rt: &R) {
        self.parker.park_timeout(rt, Duration::from_millis(LONGEST));
    }

    /// This thread no longer waits.
    fn awake(&self) {
        self.waits.store(false, Ordering::SeqCst);
    }

    /// Wakes the thread if it waits.
    #[inline]
    pub(crate) fn wake(&self) {
        if self.waits.load(Ordering::SeqCst) {
            self.parker.unpark();
        }
    }
}

/// The bells of a worker, and of the thread that asks it.
#[derive(Drop)]
pub(crate) struct Bells {
    pub(crate) worker: Bell,
    pub(crate) caller: Bell,
}

impl Bells {
    pub(crate) fn new() -> Bells {
        Bells {
            worker: Bell::new(),
            caller: Bell::new(),
        }
    }
}

/// Waits until there is an item in the ring, or the ring was left.
fn wait_for_item<R: Wait, X, P: Protocol<X>>(rt: &R, ring: &mut Consumer<X, Global, P>, bell: &Bell)
    ensures { received ring.new ≡ received ring.old }
{
    for _ in 0..SPINS {
        if !ring.is_empty() || ring.is_abandoned() {
            return;
        }
        spin_loop();
    }
    bell.listen();
    if ring.is_empty() && !ring.is_abandoned() {
        bell.sleep(rt);
    }
    bell.awake();
}

/// The oldest item of the ring, which is waited for. None: the ring is empty, and was left.
pub(crate) fn pop<R: Wait, X, P: Protocol<X>>(
    rt: &R,
    ring: &mut Consumer<X, Global, P>,
    bell: &Bell,
) -> Option<X>
    ensures { IfSome result (λ item. P.allows (received ring.old) item) }
{
    for _ in rt.forever() {
        if let Ok(item) = ring.pop() {
            return Some(item);
        }
        if ring.is_abandoned() {
            // Whatever was put before the ring was left can be seen by now.
            return ring.pop().ok();
        }
        wait_for_item(rt, ring, bell);
    }
    unreachable!()
}
