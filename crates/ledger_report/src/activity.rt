//! The lines of a lane by time.

use crate::bounds::LINK_BINS;
use crate::series::{bin_of, doublings_for};
use std::alloc::{AllocError, Global};

/// The most that a number of a bin is.
const MOST: u32 = u32::MAX - 1;

/// No interval.
const NONE: u32 = u32::MAX;

/// The numbers of a bin.
#[derive(Clone, Copy)]
pub enum Measure {
    Lines,
    Bytes,
    Least,
    Greatest,
    Skew,
}

/// A line of a lane, as its bin takes it.
#[derive(Clone, Copy)]
pub struct Activation {
    /// Its bytes, 0 where they aren't told.
    pub bytes: u64,
    /// The interval to the line before, if there is one.
    pub interval: Option<u64>,
    /// The skew of a copy.
    pub skew: Option<u64>,
}

/// The lines of a lane in a bin of time. No number goes above [`MOST`]: no drawing tells greater ones apart.
#[derive(Clone, Copy)]
pub struct Bin {
    lines: u32,
    /// Their bytes, as far as they are told, each frame with its check sequence.
    bytes: u32,
    /// The least and the greatest interval, in nanoseconds.
    least: u32,
    greatest: u32,
    /// The greatest skew of a copy, in nanoseconds.
    skew: u32,
}

const EMPTY: Bin = Bin {
    lines: 0,
    bytes: 0,
    least: NONE,
    greatest: 0,
    skew: 0,
};

/// A number in 32 bits.
#[inline]
fn narrow(number: u64) -> u32 {
    u32::try_from(number).unwrap_or(MOST).min(MOST)
}

impl Bin {
    /// Notes a line.
    #[inline]
    fn note(&mut self, line: &Activation) {
        self.lines = self.lines.saturating_add(1).min(MOST);
        self.bytes = self.bytes.saturating_add(narrow(line.bytes)).min(MOST);
        if let Some(interval) = line.interval {
            self.least = self.least.min(narrow(interval));
            self.greatest = self.greatest.max(narrow(interval));
        }
        if let Some(skew) = line.skew {
            self.skew = self.skew.max(narrow(skew));
        }
    }

    /// The lines of both.
    fn with(self, other: Bin) -> Bin {
        Bin {
            lines: self.lines.saturating_add(other.lines).min(MOST),
            bytes: self.bytes.saturating_add(other.bytes).min(MOST),
            least: self.least.min(other.least),
            greatest: self.greatest.max(other.greatest),
            skew: self.skew.max(other.skew),
        }
    }

    /// One of its numbers; 2^64 - 1 for a least interval where there is none.
    pub fn number(&self, measure: Measure) -> u64 {
        match measure {
            Measure::Lines => u64::from(self.lines),
            Measure::Bytes => u64::from(self.bytes),
            Measure::Least if self.least == NONE => u64::MAX,
            Measure::Least => u64::from(self.least),
            Measure::Greatest => u64::from(self.greatest),
            Measure::Skew => u64::from(self.skew),
        }
    }
}

/// The lines of a lane by time, in [`LINK_BINS`] bins; none where no line came.
#[derive(Drop)]
pub struct Activity {
    /// How often the width of its bins was doubled: 2^doublings ticks.
    doublings: u32,
    bins: Vec<Bin>,
}

impl Activity {
    /// Of no line. Allocates nothing.
    pub(crate) fn new(alloc: Global) -> Activity {
        Activity {
            doublings: 0,
            bins: Vec::new(alloc),
        }
    }

    /// Notes a line in the bin of its tick. Allocates at the first one alone.
    #[inline]
    pub(crate) fn put(&mut self, tick: u64, line: &Activation) -> Result<(), AllocError> {
        if bin_of(tick, self.doublings) >= LINK_BINS {
            self.align(doublings_for(tick, LINK_BINS));
        }
        if self.bins.is_empty() {
            self.bins.resize(LINK_BINS, EMPTY)?;
        }
        if let Some(bin) = self.bins.get_mut(bin_of(tick, self.doublings)) {
            bin.note(line);
        }
        Ok(())
    }

    /// Doubles the width so often in all.
    pub(crate) fn align(&mut self, doublings: u32) {
        for _ in self.doublings..doublings {
            self.double();
        }
    }

    /// A bin, an empty one where there is none.
    fn at(&self, bin: usize) -> Bin {
        self.bins.get(bin).copied().unwrap_or(EMPTY)
    }

    /// Doubles the width: each two bins become one.
    fn double(&mut self) {
        self.doublings = self.doublings.saturating_add(1);
        for bin in 0..self.bins.len() {
            let first = bin.saturating_mul(2);
            let both = self.at(first).with(self.at(first.saturating_add(1)));
            if let Some(held) = self.bins.get_mut(bin) {
                *held = both;
            }
        }
    }

    /// The bins, none where no line came.
    pub fn bins(&self) -> &[Bin] {
        self.bins.as_slice()
    }
}
