//! The lines of a ledger that are taken.

use crate::outcomes::OutcomeSet;
use afdx_frame::Stamp;
use ledger_text::{LinkSet, Moment};
use transit_ledger::TransitLine;

/// Which lines of frames are taken: those that meet each part that is given.
#[derive(Drop)]
pub struct TransitSelection {
    /// The line has a link, and it is in the set.
    pub links: Option<LinkSet>,
    /// The line's outcome is in the set.
    pub outcomes: Option<OutcomeSet>,
    /// The line's time is not below this moment.
    pub from: Option<Moment>,
    /// The line's time is not above this moment.
    pub to: Option<Moment>,
}

impl TransitSelection {
    /// Is the line taken? `first` is the time of the ledger's first frame, which moments count from.
    pub(crate) fn takes(&self, first: Stamp, line: &TransitLine) -> bool {
        self.has_link(line) && self.has_outcome(line) && self.is_within(first, line.time)
    }

    fn has_link(&self, line: &TransitLine) -> bool {
        match (&self.links, line.link) {
            (None, _) => true,
            (Some(set), Some(id)) => set.contains(id),
            (Some(_), None) => false,
        }
    }

    fn has_outcome(&self, line: &TransitLine) -> bool {
        match self.outcomes {
            None => true,
            Some(set) => set.contains(line.outcome),
        }
    }

    fn is_within(&self, first: Stamp, time: u64) -> bool {
        let time = u128::from(time);
        let is_since = match self.from {
            None => true,
            Some(moment) => moment.nanoseconds(first) <= time,
        };
        let is_until = match self.to {
            None => true,
            Some(moment) => time <= moment.nanoseconds(first),
        };
        is_since && is_until
    }
}
