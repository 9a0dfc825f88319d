//! A link on one network.

use crate::activity::{Activation, Activity};
use crate::anomalies::{Anomalies, Anomaly};
use crate::bounds::LINK_BINS;
use crate::moment::LinePlace;
use std::alloc::{AllocError, Global};

/// The check sequence, which recordings don't hold.
pub(crate) const CHECK_BYTES: u64 = 4;

/// The lines of one link on one network. Of these only the lines of class `toolong` and `regular`
/// count.
#[derive(Drop)]
pub struct LaneReport {
    /// How many lines it has.
    pub frames: u64,
    /// Their bytes, as far as they are told, each with its check sequence.
    pub bytes: u64,
    /// The timestamps of the first and the last line; of no use where there is none.
    pub first: u64,
    pub last: u64,
    /// The least, the greatest and the sum of the intervals, and how many there are.
    pub least: u64,
    pub greatest: u64,
    pub interval_sum: u64,
    pub intervals: u64,
    /// By how much an `excess` came closer to the line before than BAG less jitter, at most.
    pub excess_lead: u64,
    pub signs: Anomalies,
    pub activity: Activity,
}

/// A seen line, as its lane takes it.
#[derive(Clone, Copy)]
pub struct LaneLine {
    pub at: LinePlace,
    /// The rule by which its frame is discarded.
    pub rule: Option<Anomaly>,
    /// How many bytes its frame has, as far as the line tells them.
    pub size: Option<u32>,
    /// How much later than its delivery a copy came.
    pub skew: Option<u64>,
}

impl LaneReport {
    /// Of no line. Allocates nothing.
    pub(crate) fn new(alloc: Global) -> LaneReport {
        LaneReport {
            frames: 0,
            bytes: 0,
            first: 0,
            last: 0,
            least: u64::MAX,
            greatest: 0,
            interval_sum: 0,
            intervals: 0,
            excess_lead: 0,
            signs: Anomalies::new(alloc, LINK_BINS),
            activity: Activity::new(alloc),
        }
    }

    /// Notes a line of class `toolong` or `regular`. `least` is BAG less jitter, in nanoseconds.
    #[inline]
    pub(crate) fn note(&mut self, line: &LaneLine, least: u64) -> Result<(), AllocError> {
        let interval = self.note_interval(line, least);
        self.note_line(line, interval)?;
        match line.rule {
            Some(rule) => self.signs.hit(rule, &line.at, 1),
            None => Ok(()),
        }
    }

    /// Notes the interval to the line before, if there is one.
    #[inline]
    fn note_interval(&mut self, line: &LaneLine, least: u64) -> Option<u64> {
        if self.frames == 0 {
            return None;
        }
        let interval = line.at.place.stamp.saturating_sub(self.last);
        self.least = self.least.min(interval);
        self.greatest = self.greatest.max(interval);
        self.interval_sum = self.interval_sum.saturating_add(interval);
        self.intervals = self.intervals.saturating_add(1);
        if line.rule == Some(Anomaly::Excess) {
            self.excess_lead = self.excess_lead.max(least.saturating_sub(interval));
        }
        Some(interval)
    }

    /// Notes the line itself, which came so long after the one before.
    #[inline]
    fn note_line(&mut self, line: &LaneLine, interval: Option<u64>) -> Result<(), AllocError> {
        let at = &line.at;
        if self.frames == 0 {
            self.first = at.place.stamp;
        }
        self.last = at.place.stamp;
        self.frames = self.frames.saturating_add(1);
        let bytes = line.size.map_or(0, |size| u64::from(size) + CHECK_BYTES);
        self.bytes = self.bytes.saturating_add(bytes);
        let skew = line.skew;
        self.activity.put(
            at.tick,
            &Activation {
                bytes,
                interval,
                skew,
            },
        )
    }

    /// Doubles the width of all bins so often in all.
    pub(crate) fn align(&mut self, doublings: u32) {
        self.signs.align(doublings);
        self.activity.align(doublings);
    }
}
