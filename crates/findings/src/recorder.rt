//! The facts on a recording that its ledger doesn't tell, as the manifest of its run has them.
use crate::accounts::Span;
use crate::long::Long;
use afdx_frame::VlId;
use std::alloc::Global;

/// A time that a recording lacks: a file of it is torn, and it goes on with the next file.
#[derive(Clone, Copy)]
pub struct Hole {
    /// The greatest timestamp before it, and the first one behind it, in nanoseconds since 1970.
    pub from: u64,
    pub to: u64,
}

/// The frames of a link on a network whose source addresses name the other one.
#[derive(Clone, Copy)]
pub struct Crossing {
    pub link: VlId,
    pub frames: u64,
    /// The timestamps of the first and the last, in nanoseconds since 1970.
    pub from: u64,
    pub to: u64,
}

/// The facts on a network's recording beside the ledger's lines.
#[derive(Drop)]
pub struct RecorderFacts {
    /// The times that it lacks, in their order.
    pub holes: Vec<Hole>,
    /// How many packets its recorder says that it dropped.
    pub dropped: u64,
    /// How many frames have an 802.1Q tag.
    pub tagged: u64,
    /// How many foreign frames are of an expected kind.
    pub expected: u64,
    pub crossed: Vec<Crossing>,
}

/// The span of timestamps that count from some moment.
fn span(from: u64, to: u64) -> Span {
    Span {
        from: Long::of(from),
        to: Long::of(to),
    }
}

impl Hole {
    /// Its time, where timestamps count from the ledger's first line.
    pub(crate) fn span(self) -> Span {
        span(self.from, self.to)
    }
}

impl Crossing {
    /// The same.
    pub(crate) fn span(self) -> Span {
        span(self.from, self.to)
    }
}

impl RecorderFacts {
    /// Nothing is known.
    pub fn none(alloc: Global) -> RecorderFacts {
        RecorderFacts {
            holes: Vec::new(alloc),
            dropped: 0,
            tagged: 0,
            expected: 0,
            crossed: Vec::new(alloc),
        }
    }

    /// Its timestamps count from this moment on.
    pub(crate) fn count_from(&mut self, start: u64) {
        for hole in self.holes.iter_mut() {
            hole.from = hole.from.saturating_sub(start);
            hole.to = hole.to.saturating_sub(start);
        }
        for crossing in self.crossed.iter_mut() {
            crossing.from = crossing.from.saturating_sub(start);
            crossing.to = crossing.to.saturating_sub(start);
        }
    }
}
