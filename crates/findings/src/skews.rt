//! The times of a link's two networks: its skews, and which of its frames are late by what.
use crate::accounts::Handle;
use crate::long::{Long, SECOND, Time, ZERO};
use crate::samples::Samples;

/// A link's skew has moved where so many medians of 5 in a row are beyond a quarter of SkewMax.
const MOVED: usize = 8;

/// A SkewMax below this counts as this: what is less may be jitter.
const LEAST_SKEW_MAX: Time = Long(400_000);

/// A run of late frames that ended, and the skew of the pair that ended it.
#[derive(Clone, Copy)]
pub struct EndedRun {
    pub account: Handle,
    pub skew: Long,
}

/// The pairs of a link, by their skews.
#[derive(Clone, Copy)]
pub struct SkewState {
    pub skew_max: Time,
    /// The usual skew at first, less what the clocks say.
    pub usual: Option<Long>,
    firsts: Samples<5>,
    five: Samples<5>,
    five_at: Samples<5>,
    moved: Samples<MOVED>,
    moved_at: Samples<MOVED>,
    /// How far the link's skew has moved since; when it did last, how far it had before, and the account of
    /// the move.
    pub level: Long,
    moved_when: Option<Time>,
    level_before: Long,
    pub move_account: Option<Handle>,
    /// The block of skews that it gave its last one to.
    pub block: u64,
    /// Late frames in a row, and those before.
    pub run: Option<Handle>,
    pub ended: Option<EndedRun>,
    /// The greatest skew of a late frame.
    pub late_most: Long,
    /// The networks count apart.
    pub apart: Option<Handle>,
    /// By how much the numbers of frames differ that come at the same time, of how many in a row, since when.
    pub difference: Long,
    pub alike: u64,
    pub alike_since: Time,
}

/// A link's skew moved: when at first, and by how much.
#[derive(Clone, Copy)]
pub struct Move {
    pub at: Time,
    pub before: Long,
    pub after: Long,
}

impl SkewState {
    /// A link's skew before its first pair, with the greatest that the table allows.
    pub fn new(skew_max: Time) -> SkewState {
        SkewState {
            skew_max,
            usual: None,
            firsts: Samples::none(),
            five: Samples::none(),
            five_at: Samples::none(),
            moved: Samples::none(),
            moved_at: Samples::none(),
            level: ZERO,
            moved_when: None,
            level_before: ZERO,
            move_account: None,
            block: 0,
            run: None,
            ended: None,
            late_most: ZERO,
            apart: None,
            difference: ZERO,
            alike: 0,
            alike_since: ZERO,
        }
    }

    /// Forgets what is usual.
    pub fn forget(&mut self) {
        self.usual = None;
        self.firsts = Samples::none();
    }

    /// Forgets the latest skews.
    pub fn forget_samples(&mut self) {
        self.five = Samples::none();
        self.five_at = Samples::none();
        self.moved = Samples::none();
        self.moved_at = Samples::none();
    }

    /// Takes a move since a time back: it was all skews' step. The move's account.
    pub fn take_move_back(&mut self, since: Time) -> Option<Handle> {
        let _when = self.moved_when.filter(|when| *when + SECOND >= since)?;
        self.level = self.level_before;
        self.moved_when = None;
        self.move_account.take()
    }

    /// Forgets how its skew moved.
    pub fn forget_moves(&mut self) {
        self.forget_samples();
        self.level = ZERO;
    }

    /// Notes a skew, less what the clocks say. Some: the link's skew has moved.
    pub fn note(&mut self, skew: Long, at: Time) -> Option<Move> {
        let Some(usual) = self.usual else {
            self.firsts.put(skew);
            if self.firsts.is_full() {
                self.usual = Some(self.firsts.median());
            }
            return None;
        };
        self.five.put(skew - usual - self.level);
        self.five_at.put(at);
        if !self.five.is_full() {
            return None;
        }
        let (median, since) = (self.five.median(), self.first_beyond());
        self.five = Samples::none();
        self.five_at = Samples::none();
        self.note_median(usual, median, since.unwrap_or(at))
    }

    /// How far a skew may be from what is usual.
    fn bound(&self) -> Long {
        self.skew_max.max(LEAST_SKEW_MAX)
    }

    /// When the first of five came that is beyond a quarter of that.
    fn first_beyond(&self) -> Option<Time> {
        let bound = self.bound();
        let five = self.five.values().iter();
        let mut beyond = five
            .zip(self.five_at.values().iter())
            .filter(|(skew, _)| skew.abs() * 4 > bound);
        beyond.next().map(|(_, at)| *at)
    }

    /// Notes a median of five: is it the last of enough that are beyond a quarter of SkewMax, and alike?
    fn note_median(&mut self, usual: Long, median: Long, at: Time) -> Option<Move> {
        let bound = self.bound();
        if median.abs() * 4 <= bound {
            self.moved = Samples::none();
            self.moved_at = Samples::none();
            return None;
        }
        self.moved.put(median);
        self.moved_at.put(at);
        if !self.moved.is_full() {
            return None;
        }
        let (least, greatest) = (self.moved.least(), self.moved.greatest());
        if greatest - least > bound / 8 {
            self.moved.drop_first();
            self.moved_at.drop_first();
            return None;
        }
        let size = (self.moved.at(3, MOVED) + self.moved.at(4, MOVED)) / 2;
        let found = Move {
            at: self.moved_at.least(),
            before: usual + self.level,
            after: usual + self.level + size,
        };
        self.moved_when = Some(found.at);
        self.level_before = self.level;
        self.level = self.level + size;
        self.moved = Samples::none();
        self.moved_at = Samples::none();
        Some(found)
    }

    /// Notes that frames came at the same time whose numbers differ by so much. Some: by how much the counts
    /// differ, once enough say so.
    pub fn note_difference(&mut self, difference: Long, at: Time) -> Option<Long> {
        if difference == self.difference && self.alike > 0 {
            self.alike = self.alike.saturating_add(1);
            let long = at - self.alike_since >= Long(2_000_000_000);
            return (self.alike >= 32 && long).then_some(difference);
        }
        self.difference = difference;
        self.alike = 1;
        self.alike_since = at;
        None
    }
}
