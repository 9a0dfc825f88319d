//! The frames of one link.

use afdx_frame::VlId;
use transit_ledger::{LatencyFigures, LatencyLine, Outcome, OutcomeCounts, TransitLine};

/// How long frames took, in nanoseconds: how many there are, their sum, the shortest and the longest.
#[derive(Clone, Copy, PartialEq, Eq)]
pub(crate) struct Transits {
    count: u64,
    sum: i128,
    range: Option<(i64, i64)>,
}

/// The transits of no frame.
const NO_TRANSITS: Transits = Transits {
    count: 0,
    sum: 0,
    range: None,
};

impl Transits {
    /// Of no frame.
    pub(crate) fn new() -> Transits {
        NO_TRANSITS
    }

    /// The same of a line of the ledger.
    fn of(line: &LatencyLine) -> Transits {
        match line.figures {
            Some(figures) => Transits {
                count: figures.count,
                sum: figures.sum,
                range: Some((figures.least, figures.greatest)),
            },
            None => NO_TRANSITS,
        }
    }

    /// Adds the frame of a line, if it came out unchanged.
    pub(crate) fn add(&mut self, line: &TransitLine) {
        let Some(latency) = line.latency else {
            return;
        };
        if line.outcome == Outcome::Changed {
            return;
        }
        self.count = self.count.saturating_add(1);
        self.sum = self.sum.saturating_add(i128::from(latency));
        self.range = match self.range {
            Some((least, greatest)) => Some((least.min(latency), greatest.max(latency))),
            None => Some((latency, latency)),
        };
    }

    /// Does a line of the ledger say so of them?
    pub(crate) fn is_as(&self, line: &LatencyLine) -> bool {
        *self == Transits::of(line)
    }
}

/// The frames of one link.
#[derive(Clone, Copy)]
pub struct LinkTransits {
    /// None: they are frames whose bytes hold no link.
    pub id: Option<VlId>,
    pub counts: OutcomeCounts,
    /// How long they took, if some came out, where the table has the link.
    pub latency: Option<LatencyFigures>,
    pub(crate) transits: Transits,
    /// The rows of dropped and of new frames in which one of the link stands last, counted from 1; 0: none.
    pub(crate) dropped_row: u64,
    pub(crate) new_row: u64,
}

impl LinkTransits {
    /// Of no frame.
    pub(crate) fn new(id: Option<VlId>) -> LinkTransits {
        LinkTransits {
            id,
            counts: OutcomeCounts::new(),
            latency: None,
            transits: Transits::new(),
            dropped_row: 0,
            new_row: 0,
        }
    }

    /// Counts the frame of a line.
    pub(crate) fn count(&mut self, line: &TransitLine) {
        self.counts.count(line);
        self.transits.add(line);
    }
}
