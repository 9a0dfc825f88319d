//! Tells a person at a terminal where one recording gives nothing while the other isn't read. Two pipes that
//! one program fills, one after the other, would wait for ever.
use crate::progress::ERASE;
use afdx_frame::Network;
use command_line::{WatchArguments, is_standard};
use std::fmt::{Display, Formatter};
use std::io::IsTerminal;
use std::sync::Wait;
use std::sync::atomic::{AtomicBool, AtomicU64, Ordering};
use std::thread::Parker;
use std::time::{Duration, Instant};
use std::{fmt, fs};

/// After how many seconds in which a recording gave nothing it is told.
const LONGEST: u64 = 10;

/// For how many milliseconds the other one isn't read by then.
const IDLE: u64 = 1000;

/// How many milliseconds lie between two looks.
const PERIOD: u64 = 100;

/// The use that is made of a recording.
#[derive(Clone, Copy, PartialEq, Eq)]
enum Doing {
    /// Nothing, since so many milliseconds after the start.
    Nothing(u64),
    /// It is opened or read, since then.
    Reading(u64),
    /// It has come to its end.
    Ended,
}

impl Doing {
    /// As one number, which threads share.
    fn number(self) -> u64 {
        match self {
            Doing::Nothing(since) => since.saturating_mul(2),
            Doing::Reading(since) => since.saturating_mul(2) | 1,
            Doing::Ended => u64::MAX,
        }
    }

    fn of_number(number: u64) -> Doing {
        if number == u64::MAX {
            Doing::Ended
        } else if number % 2 == 0 {
            Doing::Nothing(number / 2)
        } else {
            Doing::Reading(number / 2)
        }
    }
}

/// Since when each of two recordings is read, or isn't.
#[derive(Drop)]
pub struct Pauses {
    started: Instant,
    a: AtomicU64,
    b: AtomicU64,
    is_over: AtomicBool,
    bell: Parker,
}

/// May the file of this path have to be waited for?
fn may_pause(rt: &HostRuntime, path: &str) -> bool {
    let path = if is_standard(path) {
        "/dev/stdin"
    } else {
        path
    };
    match fs::metadata(rt, path) {
        Ok(found) => !found.is_file() && !found.is_dir(),
        Err(_) => false,
    }
}

impl Pauses {
    /// Of two recordings that may pause. None where standard error is no terminal, or isn't to be told.
    pub fn begin(rt: &HostRuntime, given: &WatchArguments<'_>) -> Option<Pauses> {
        let (a, b) = (given.a?, given.b?);
        if given.quiet || !rt.stderr().is_terminal() || !may_pause(rt, a) || !may_pause(rt, b) {
            return None;
        }
        Some(Pauses {
            started: Instant::now(rt).ok()?,
            a: AtomicU64::new(Doing::Nothing(0).number()),
            b: AtomicU64::new(Doing::Nothing(0).number()),
            is_over: AtomicBool::new(false),
            bell: Parker::new(),
        })
    }

    /// How many milliseconds it is since the start.
    fn now(&self, rt: &HostRuntime) -> u64 {
        match self.started.elapsed(rt) {
            Ok(elapsed) => u64::try_from(elapsed.as_millis()).unwrap_or(0),
            Err(_) => 0,
        }
    }

    fn of(&self, network: Network) -> &AtomicU64 {
        match network {
            Network::A => &self.a,
            Network::B => &self.b,
        }
    }

    /// A network's recording is about to be opened or read.
    pub fn begin_read(&self, rt: &HostRuntime, network: Network) {
        let doing = Doing::Reading(self.now(rt));
        self.of(network).store(doing.number(), Ordering::Relaxed);
    }

    /// It was opened, or has given something, or has come to its end.
    pub fn end_read(&self, rt: &HostRuntime, network: Network, has_ended: bool) {
        let doing = if has_ended {
            Doing::Ended
        } else {
            Doing::Nothing(self.now(rt))
        };
        self.of(network).store(doing.number(), Ordering::Relaxed);
    }

    /// The recordings aren't waited for any more.
    pub fn end(&self) {
        self.is_over.store(true, Ordering::SeqCst);
        self.bell.unpark();
    }

    /// Since when a network has given nothing, if that is long enough and the other one isn't read.
    fn since(&self, now: u64, silent: Network, other: Network) -> Option<u64> {
        let silent = Doing::of_number(self.of(silent).load(Ordering::Relaxed));
        let other = Doing::of_number(self.of(other).load(Ordering::Relaxed));
        match (silent, other) {
            (Doing::Reading(since), Doing::Nothing(from))
                if now.saturating_sub(since) >= LONGEST * 1000
                    && now.saturating_sub(from) >= IDLE => { Some(since) }
            _ => None,
        }
    }

    /// The pause that there is now, and since when.
    fn pause(&self, now: u64) -> Option<(Pause, u64)> {
        let (a, b) = (Network::A, Network::B);
        if let Some(since) = self.since(now, a, b) {
            return Some((Pause::OfA, since));
        }
        match self.since(now, b, a) {
            Some(since) => Some((Pause::OfB, since)),
            None => None,
        }
    }

    /// Tells of each pause once, until the recordings aren't waited for any more.
    pub fn tell<R: Wait>(&self, rt: &HostRuntime, thread: &R) {
        let mut told = None;
        for _ in 0..u64::MAX {
            self.bell
                .park_timeout(thread, Duration::from_millis(PERIOD));
            if self.is_over.load(Ordering::SeqCst) {
                break;
            }
            let pause = self.pause(self.now(rt));
            if let Some((network, _)) = pause
                && pause != told
            {
                let _ = rt.eprint(ERASE);
                let _ = rt.eprintln(network);
                told = pause;
            }
        }
    }
}

/// Which network gives nothing.
#[derive(Clone, Copy, PartialEq, Eq)]
enum Pause {
    OfA,
    OfB,
}

impl Display for Pause {
    fn fmt<W: fmt::Write>(&self, f: &mut Formatter<W>) -> fmt::Result {
        let (silent, other) = match self {
            Pause::OfA => ('A', 'B'),
            Pause::OfB => ('B', 'A'),
        };
        write!(
            f,
            "afdxmon: network {silent} has given nothing for {LONGEST} s, and network {other} is not read \
             meanwhile: are both written by one program, one after the other?"
        )
    }
}
