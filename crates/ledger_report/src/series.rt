//! Numbers by time.

use std::alloc::{AllocError, Global};

/// How two bins become one.
#[derive(Clone, Copy)]
pub enum Merge {
    Sum,
    Greatest,
}

impl Merge {
    #[inline(always)]
    fn of(self, first: u64, second: u64) -> u64 {
        match self {
            Merge::Sum => first.saturating_add(second),
            Merge::Greatest => first.max(second),
        }
    }
}

/// A number for each bin of time, so many of them; none where nothing ever came.
#[derive(Drop)]
pub struct Series {
    merge: Merge,
    count: usize,
    /// How often the width of its bins was doubled: 2^doublings ticks.
    doublings: u32,
    bins: Vec<u64>,
}

/// How often bins of a tick are doubled, so that one of so many holds this tick.
pub fn doublings_for(tick: u64, count: usize) -> u32 {
    for doublings in 0..64u32 {
        if bin_of(tick, doublings) < count {
            return doublings;
        }
    }
    64
}

/// The bin of a tick.
#[inline]
pub fn bin_of(tick: u64, doublings: u32) -> usize {
    tick.checked_shr(doublings).unwrap_or(0) as usize
}

impl Series {
    /// A series of so many bins, in which nothing came. Allocates nothing.
    pub(crate) fn new(alloc: Global, merge: Merge, count: usize) -> Series {
        Series {
            merge,
            count,
            doublings: 0,
            bins: Vec::new(alloc),
        }
    }

    /// Merges a number into the bin of a tick. Allocates at the first one alone.
    #[inline]
    pub(crate) fn put(&mut self, tick: u64, value: u64) -> Result<(), AllocError> {
        if bin_of(tick, self.doublings) >= self.count {
            self.align(doublings_for(tick, self.count));
        }
        if self.bins.is_empty() {
            self.bins.resize(self.count, 0)?;
        }
        let merge = self.merge;
        if let Some(held) = self.bins.get_mut(bin_of(tick, self.doublings)) {
            *held = merge.of(*held, value);
        }
        Ok(())
    }

    /// Takes a part of a sum back, out of the bin of a tick.
    pub(crate) fn take_back(&mut self, tick: u64, value: u64) {
        let bin = bin_of(tick, self.doublings);
        if let Some(held) = self.bins.get_mut(bin) {
            *held = held.saturating_sub(value);
        }
    }

    /// Doubles the width so often in all.
    pub(crate) fn align(&mut self, doublings: u32) {
        for _ in self.doublings..doublings {
            self.double();
        }
    }

    /// The number of a bin, 0 of one that there isn't.
    fn at(&self, bin: usize) -> u64 {
        self.bins.get(bin).copied().unwrap_or(0)
    }

    /// Doubles the width: each two bins become one.
    fn double(&mut self) {
        self.doublings = self.doublings.saturating_add(1);
        for bin in 0..self.bins.len() {
            let first = bin.saturating_mul(2);
            let merged = self
                .merge
                .of(self.at(first), self.at(first.saturating_add(1)));
            if let Some(held) = self.bins.get_mut(bin) {
                *held = merged;
            }
        }
    }

    /// The bins, none where nothing ever came. A bin in which nothing came has 0.
    pub fn bins(&self) -> &[u64] {
        self.bins.as_slice()
    }
}
