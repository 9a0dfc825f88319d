//! The numbers of a network.

use crate::anomalies::Anomalies;
use crate::bounds::BINS;
use crate::lane::CHECK_BYTES;
use crate::moment::LinePlace;
use crate::series::{Merge, Series};
use std::alloc::{AllocError, Global};

/// Preamble, start of frame, check sequence and least gap: what a frame takes on the wire beside its bytes.
const WIRE_BYTES: u64 = 24;

/// The lines of one network.
#[derive(Drop)]
pub struct NetworkReport {
    /// How many lines it has.
    pub frames: u64,
    /// The timestamps of its first and its last line; of no use where it has none.
    pub first: u64,
    pub last: u64,
    /// The bytes of all its frames, as far as they are told, each with its check sequence.
    pub bytes: u64,
    /// The same with all that frames take on the wire.
    pub wire_bytes: u64,
    /// Lines of each sign; of links' signs the sums.
    pub signs: Anomalies,
    /// Lines, and their bytes, by time; the greatest skew of a copy that came on this network.
    pub lines: Series,
    pub loads: Series,
    pub skews: Series,
    /// The number of its latest line.
    pub(crate) number: u32,
}

impl NetworkReport {
    /// Of no line. Allocates nothing.
    pub(crate) fn new(alloc: Global) -> NetworkReport {
        NetworkReport {
            frames: 0,
            first: 0,
            last: 0,
            bytes: 0,
            wire_bytes: 0,
            signs: Anomalies::new(alloc, BINS),
            lines: Series::new(alloc, Merge::Sum, BINS),
            loads: Series::new(alloc, Merge::Sum, BINS),
            skews: Series::new(alloc, Merge::Greatest, BINS),
            number: 0,
        }
    }

    /// Notes a line of the network.
    #[inline]
    pub(crate) fn note(&mut self, at: &LinePlace, size: Option<u32>) -> Result<(), AllocError> {
        if self.frames == 0 {
            self.first = at.place.stamp;
        }
        self.last = at.place.stamp;
        self.number = at.place.number;
        self.frames = self.frames.saturating_add(1);
        self.put_line(at.tick, size)
    }

    /// Counts a line and its bytes, where they are known, by time.
    #[inline]
    fn put_line(&mut self, tick: u64, size: Option<u32>) -> Result<(), AllocError> {
        self.lines.put(tick, 1)?;
        if let Some(size) = size {
            let (held, taken) = (u64::from(size) + CHECK_BYTES, u64::from(size) + WIRE_BYTES);
            self.bytes = self.bytes.saturating_add(held);
            self.wire_bytes = self.wire_bytes.saturating_add(taken);
            self.loads.put(tick, taken)?;
        }
        Ok(())
    }

    /// Doubles the width of all bins so often in all.
    pub(crate) fn align(&mut self, doublings: u32) {
        self.signs.align(doublings);
        self.lines.align(doublings);
        self.loads.align(doublings);
        self.skews.align(doublings);
    }
}
