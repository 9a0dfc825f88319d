//! How often a link's frames come, where that is proven. Bursts and sporadic links are sound, and their
//! pauses mean nothing; so a pause is told only of a link that is periodic, or is far longer than any before.
use crate::long::{Long, Time, ZERO};

/// So many intervals in a row, each within half and one and a half of their mean, prove a link periodic,
const RUN: u64 = 64;
/// or so many within an eighth of it, where the mean is at least one and a half BAG: a shaped burst comes at
/// the BAG.
const TIGHT_RUN: u64 = 15;

/// A run is halved when it is so long, so that the mean follows.
const LONGEST_RUN: u64 = 512;

/// A link without proof has a limit after so many intervals: so many times the longest one.
const UNPROVEN: u64 = 127;

const LONGEST_TIMES: i64 = 8;

/// The intervals of a link.
#[derive(Clone, Copy)]
pub struct Rate {
    bag: Time,
    /// The interval of a link that is proven periodic.
    pub interval: Option<Time>,
    /// A time without a frame that is told, if there is one.
    pub limit: Option<Time>,
    /// After so long a step isn't just the next.
    pub long: Time,
    /// The longest interval of a link without proof, and how many it had.
    pub longest: Time,
    intervals: u64,
    /// The run: how many, how many of the last are tight, their sum, and when it began.
    run: u64,
    tight: u64,
    sum: Time,
    run_from: Time,
    /// How many of the latest intervals are above the mean by more than a fifth, and how many below.
    above: u64,
    below: u64,
    /// When they began.
    other_from: Time,
}

/// So many in a row are another rate, though each of them may be jitter.
const OTHER: u64 = 8;

/// A proof of an interval, and when its run began.
#[derive(Clone, Copy)]
pub struct Proof {
    pub interval: Time,
    pub from: Time,
    /// The interval that was proven before.
    pub before: Option<Time>,
}

impl Proof {
    /// Is it another interval than before: by more than a quarter?
    pub fn is_change(&self) -> bool {
        let of = |before: Time| {
            self.interval * 4 > before * 5 || self.interval * 5 < before * 4
        };
        self.before.is_some_and(of)
    }
}

impl Rate {
    /// A rate of which only the BAG is known.
    pub fn new(bag: Time) -> Rate {
        Rate {
            bag,
            interval: None,
            limit: None,
            long: bag * 64,
            longest: ZERO,
            intervals: 0,
            run: 0,
            tight: 0,
            sum: ZERO,
            run_from: ZERO,
            above: 0,
            below: 0,
            other_from: ZERO,
        }
    }

    /// The usual interval, or the least that is allowed.
    pub fn usual(&self) -> Time {
        self.interval.unwrap_or(self.bag)
    }

    /// The usual interval, or the longest one where that has a limit, or the least that is allowed.
    pub fn typical(&self) -> Time {
        match (self.interval, self.limit) {
            (Some(interval), _) => interval,
            (None, Some(_)) => self.longest,
            (None, None) => self.bag,
        }
    }

    /// How many intervals a time has, to the nearest.
    pub fn intervals_in(&self, time: Time) -> Option<Long> {
        let interval = self.interval?;
        Some((time + interval / 2) / interval)
    }

    /// Notes an interval of a link without proof.
    fn note_unproven(&mut self, interval: Time) {
        self.intervals = self.intervals.saturating_add(1);
        self.longest = self.longest.max(interval);
        if self.intervals >= UNPROVEN {
            self.limit = Some(self.longest * LONGEST_TIMES);
        }
    }

    /// Begins a run anew.
    fn begin_run(&mut self, interval: Time, from: Time) {
        self.run = 1;
        self.tight = 0;
        self.sum = interval;
        self.run_from = from;
        self.above = 0;
        self.below = 0;
    }

    /// Do intervals lie beyond a fifth of the mean, on the same side, in a row?
    fn is_other(&mut self, interval: Time, mean: Time, from: Time) -> bool {
        let (above, below) = (interval * 5 > mean * 6, interval * 5 < mean * 4);
        if above && self.above == 0 || below && self.below == 0 {
            self.other_from = from;
        }
        self.above = if above {
            self.above.saturating_add(1)
        } else {
            0
        };
        self.below = if below {
            self.below.saturating_add(1)
        } else {
            0
        };
        self.above >= OTHER || self.below >= OTHER
    }

    /// Notes an interval from a moment on. `pauses`: it is told as an outage. Some: it proves what is usual.
    pub fn note(&mut self, interval: Time, from: Time, pauses: bool) -> Option<Proof> {
        if self.interval.is_none() && !pauses {
            self.note_unproven(interval);
        }
        let mean = self.sum / Long::of(self.run);
        let is_other = self.is_other(interval, mean, from);
        if self.run == 0 || interval * 2 < mean || interval * 2 > mean * 3 {
            self.begin_run(interval, from);
            return None;
        }
        if is_other {
            let since = self.other_from;
            self.begin_run(interval, since);
            return None;
        }
        self.run = self.run.saturating_add(1);
        self.sum = self.sum + interval;
        let is_tight = ((interval - mean) * 8).is_within(mean);
        self.tight = if is_tight {
            self.tight.saturating_add(1)
        } else {
            0
        };
        if self.run >= LONGEST_RUN {
            self.run = LONGEST_RUN / 2;
            self.sum = self.sum / 2;
        }
        let tight = self.tight >= TIGHT_RUN && mean * 2 >= self.bag * 3;
        if self.run % 16 == 0 && (self.run >= RUN || tight) {
            Some(self.prove(mean))
        } else {
            None
        }
    }

    /// Takes a mean for the interval.
    fn prove(&mut self, interval: Time) -> Proof {
        let before = self.interval.replace(interval);
        self.limit = Some(interval * 4);
        self.long = interval.max(self.bag) * 64;
        Proof {
            interval,
            from: self.run_from,
            before,
        }
    }
}
