//! A logarithmic scale.

/// How wide the scale is drawn.
pub(crate) const WIDTH: u64 = 1000;

/// So many binary digits after the point has a logarithm.
const DIGITS: u32 = 10;

/// The logarithm of a number to base 2, in 1024ths, rounded down; 0 of 0.
fn log_of(value: u64) -> u64 {
    let zeros = value.max(1).leading_zeros();
    // The number without its power of two, from 1 to 2, as 2^31 to 2^32.
    let mut part = value.max(1).wrapping_shl(zeros).wrapping_shr(32);
    let mut log = u64::from(63_u32.saturating_sub(zeros));
    for _ in 0..DIGITS {
        let square = part.wrapping_mul(part).wrapping_shr(31);
        let is_two = square >= 1 << 32;
        part = if is_two {
            square.wrapping_shr(1)
        } else {
            square
        };
        log = log.saturating_mul(2).saturating_add(u64::from(is_two));
    }
    log
}

/// A scale from a power of ten to a later one, in nanoseconds.
#[derive(Clone, Copy)]
pub(crate) struct LogScale {
    low: u64,
    high: u64,
}

impl LogScale {
    /// The shortest scale that has both, a power of ten long at least.
    pub(crate) fn of(least: u64, greatest: u64) -> LogScale {
        let mut low = 1u64;
        for _ in 0..17 {
            if low.saturating_mul(10) <= least {
                low = low.saturating_mul(10);
            }
        }
        let mut high = low.saturating_mul(10);
        for _ in 0..17 {
            if high < greatest {
                high = high.saturating_mul(10);
            }
        }
        LogScale { low, high }
    }

    /// The place of a number, from 0 to the width.
    pub(crate) fn place(self, value: u64) -> u64 {
        let low = log_of(self.low);
        let span = log_of(self.high).saturating_sub(low);
        let above = log_of(value.max(self.low).min(self.high)).saturating_sub(low);
        above
            .saturating_mul(WIDTH)
            .checked_div(span)
            .unwrap_or(0)
            .min(WIDTH)
    }

    /// The power of ten that stands so many powers above the first, if it is on the scale.
    pub(crate) fn mark(self, powers: u32) -> Option<u64> {
        let mark = self.low.saturating_mul(10_u64.saturating_pow(powers));
        if mark <= self.high { Some(mark) } else { None }
    }
}
