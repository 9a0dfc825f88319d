//! The counts of a lane or a network, with their first and last places and their bins.

use crate::moment::{FramePlace, LinePlace};
use crate::series::{Merge, Series};
use integrity::Integrity;
use policing::Policing;
use std::alloc::{AllocError, Global};
use vl_config::Class;

/// The signs that a report counts beside frames, as its page and its JSON call them.
#[derive(Clone, Copy, PartialEq, Eq)]
pub enum Anomaly {
    Cut,
    Runt,
    Oversize,
    Foreign,
    Unconfigured,
    TooLong,
    Excess,
    Out,
    Lost,
    Repeat,
    Reset,
    Alone,
    Late,
    Early,
}

impl Anomaly {
    /// The word of the sign: that of the ledger, where it has one.
    pub fn word(self) -> &'static str {
        match self {
            Anomaly::Cut => Class::Cut.word(),
            Anomaly::Runt => Class::Runt.word(),
            Anomaly::Oversize => Class::Oversize.word(),
            Anomaly::Foreign => Class::Foreign.word(),
            Anomaly::Unconfigured => Class::Unconfigured.word(),
            Anomaly::TooLong => Class::TooLong.word(),
            Anomaly::Excess => Policing::Excess.word(),
            Anomaly::Out => Integrity::Out.word(),
            Anomaly::Lost => "lost",
            Anomaly::Repeat => "repeat",
            Anomaly::Reset => Integrity::Reset.word(),
            Anomaly::Alone => "alone",
            Anomaly::Late => "late",
            Anomaly::Early => "early",
        }
    }
}

/// A count, with the places of the first and the last frame, and its bins.
#[derive(Drop)]
pub struct AnomalyTally {
    pub count: u64,
    pub first: Option<FramePlace>,
    pub last: Option<FramePlace>,
    pub bins: Series,
}

/// The earlier of two places.
fn earlier(a: Option<FramePlace>, b: Option<FramePlace>) -> Option<FramePlace> {
    match (a, b) {
        (Some(a), Some(b)) => Some(a.min(b)),
        (a, b) => a.or(b),
    }
}

impl AnomalyTally {
    fn new(alloc: Global, bins: usize) -> AnomalyTally {
        AnomalyTally {
            count: 0,
            first: None,
            last: None,
            bins: Series::new(alloc, Merge::Sum, bins),
        }
    }

    /// Counts a line so often.
    fn hit(&mut self, at: &LinePlace, amount: u64) -> Result<(), AllocError> {
        self.count = self.count.saturating_add(amount);
        self.first = earlier(self.first, Some(at.place));
        self.last = self.last.max(Some(at.place));
        self.bins.put(at.tick, amount)
    }

    /// Takes so many back.
    fn take_back(&mut self, tick: u64, amount: u64) {
        self.count = self.count.saturating_sub(amount);
        self.bins.take_back(tick, amount);
    }
}

/// A sign with its mark.
#[derive(Drop)]
struct Mark {
    sign: Anomaly,
    tally: AnomalyTally,
}

/// The marks of a lane or a network by their signs. A sign takes memory once it came.
#[derive(Drop)]
pub struct Anomalies {
    alloc: Global,
    /// How many bins each has.
    bins: usize,
    /// Of the signs that came, in the order in which they first did.
    marks: Vec<Mark>,
    /// The mark of a sign that never came.
    none: AnomalyTally,
}

impl Anomalies {
    /// Of no line, each with so many bins. Allocates nothing.
    pub(crate) fn new(alloc: Global, bins: usize) -> Anomalies {
        Anomalies {
            alloc,
            bins,
            marks: Vec::new(alloc),
            none: AnomalyTally::new(alloc, bins),
        }
    }

    /// The mark of a sign.
    pub fn of(&self, sign: Anomaly) -> &AnomalyTally {
        match self.marks.iter().find(|mark| mark.sign == sign) {
            Some(mark) => &mark.tally,
            None => &self.none,
        }
    }

    /// Where the mark of a sign stands, which is made where it has none.
    fn place_of(&mut self, sign: Anomaly) -> Result<usize, AllocError> {
        if let Some(place) = self.marks.iter().position(|mark| mark.sign == sign) {
            return Ok(place);
        }
        self.marks.push(Mark {
            sign,
            tally: AnomalyTally::new(self.alloc, self.bins),
        })?;
        Ok(self.marks.len().saturating_sub(1))
    }

    /// Counts a line so often for a sign.
    #[inline]
    pub(crate) fn hit(
        &mut self,
        sign: Anomaly,
        at: &LinePlace,
        amount: u64,
    ) -> Result<(), AllocError> {
        let place = self.place_of(sign)?;
        match self.marks.get_mut(place) {
            Some(mark) => mark.tally.hit(at, amount),
            None => Ok(()),
        }
    }

    /// Counts a line for a sign so often, or takes it back where that is less than 0.
    pub(crate) fn note(
        &mut self,
        sign: Anomaly,
        at: &LinePlace,
        count: i64,
    ) -> Result<(), AllocError> {
        if count >= 0 {
            return self.hit(sign, at, count.unsigned_abs());
        }
        self.take_back(sign, at.tick, count.unsigned_abs());
        Ok(())
    }

    /// Takes so many of a sign back.
    fn take_back(&mut self, sign: Anomaly, tick: u64, amount: u64) {
        if let Some(mark) = self.marks.iter_mut().find(|mark| mark.sign == sign) {
            mark.tally.take_back(tick, amount);
        }
    }

    /// Doubles the width of all bins so often in all.
    pub(crate) fn align(&mut self, doublings: u32) {
        for mark in self.marks.iter_mut() {
            mark.tally.bins.align(doublings);
        }
    }
}
