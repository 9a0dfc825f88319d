//! The gaps between frames, by a histogram of fixed size.

ghost use Rattle.std.specs.Prelude.{◌<◌, ◌≤◌};

/// The unit of the histogram in nanoseconds, some two microseconds.
const UNIT: u64 = 2048;
/// The buckets: 64 of one unit, 32 for each further power of 2, and the last. That has the gaps of 2^19
/// units, 2^30 ns, or more.
const BUCKETS: usize = 481;

/// From one time up to another, in nanoseconds: the upper end is left out.
#[derive(Clone, Copy, Debug)]
pub struct Range {
    pub from: u64,
    pub to: u64,
}

/// The gaps between a link's frames on one network, in nanoseconds: their least, their greatest, and how
/// many there are in each bucket. A bucket is no wider than 2048 ns or a thirty-second of its gaps.
#[derive(Drop)]
pub struct Gaps {
    count: u64,
    /// The least gap. 2^64 - 1 where there is none.
    pub least: u64,
    /// The greatest gap. 0 where there is none.
    pub greatest: u64,
    counts: [u32; 481],
}

impl Gaps {
    /// No gap.
    pub(crate) fn new() -> Gaps {
        Gaps {
            count: 0,
            least: u64::MAX,
            greatest: 0,
            counts: [0; BUCKETS],
        }
    }

    /// Counts a gap.
    #[inline(always)]
    pub(crate) fn step(&mut self, gap: u64) {
        self.count = self.count.saturating_add(1);
        self.least = self.least.min(gap);
        self.greatest = self.greatest.max(gap);
        let index = index_of(gap / UNIT);
        self.counts[index] = self.counts[index].saturating_add(1);
    }

    /// The bucket of the median: of n gaps in rising order that at (n - 1) / 2, from 0. None where there is
    /// no gap.
    pub fn median(&self) -> Option<Range> {
        let rank = self.count.checked_sub(1)? / 2;
        let mut below = 0u64;
        for index in 0..BUCKETS {
            below = below.saturating_add(u64::from(self.counts[index]));
            if below > rank {
                return Some(range_at(index));
            }
        }
        None
    }
}

/// The index of the bucket of a gap of so many units. A bucket has one number of units divided by 2^shift.
#[inline(always)]
fn index_of(units: u64) -> usize
    ensures { result < 481 }
{
    let shift = (units / 32).max(1).ilog2();
    let part = (units >> shift) as usize;
    part.saturating_add(shift as usize * 32).min(BUCKETS - 1)
}

/// Where the bucket at an index begins, in nanoseconds.
fn start_of(index: usize) -> u64
    requires { index ≤ 481 }
{
    let shift = (index / 32).saturating_sub(1);
    let part = index.saturating_sub(shift * 32) as u64;
    (part << shift).saturating_mul(UNIT)
}

/// The gaps of the bucket at an index.
fn range_at(index: usize) -> Range
    requires { index < 481 }
{
    Range {
        from: start_of(index),
        to: if index < BUCKETS - 1 {
            start_of(index + 1)
        } else {
            u64::MAX
        },
    }
}
