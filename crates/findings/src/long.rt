//! Integers that no ledger makes overflow.
use std::ops::{Add, Div, Mul, Neg, Sub};

/// An integer whose operators stop at the ends of its type. Divided by 0 it is 0.
#[derive(Clone, Copy, PartialEq, Eq, PartialOrd, Ord)]
pub struct Long(pub i64);

/// A time: nanoseconds since the ledger's first line, or between two lines.
pub type Time = Long;

/// A place in the row of a sender's frames.
pub type Position = Long;

pub const ZERO: Long = Long(0);

pub const MILLISECOND: Time = Long(1_000_000);

pub const SECOND: Time = Long(1_000_000_000);

impl Long {
    /// A number that may be greater.
    #[inline]
    pub fn of(number: u64) -> Long {
        Long(i64::try_from(number).unwrap_or(i64::MAX))
    }

    /// The number, 0 where it is negative.
    #[inline]
    pub fn count(self) -> u64 {
        u64::try_from(self.0).unwrap_or(0)
    }

    /// The number without its sign.
    #[inline]
    pub fn abs(self) -> Long {
        Long(self.0.saturating_abs())
    }

    /// Is it between the other's negative and the other?
    #[inline]
    pub fn is_within(self, bound: Long) -> bool {
        self.abs() <= bound
    }
}

impl Add<Long> for Long {
    type Output = Long;

    #[inline]
    fn add(self, other: Long) -> Long {
        Long(self.0.saturating_add(other.0))
    }
}

impl Add<i64> for Long {
    type Output = Long;

    #[inline]
    fn add(self, other: i64) -> Long {
        Long(self.0.saturating_add(other))
    }
}

impl Sub<Long> for Long {
    type Output = Long;

    #[inline]
    fn sub(self, other: Long) -> Long {
        Long(self.0.saturating_sub(other.0))
    }
}

impl Sub<i64> for Long {
    type Output = Long;

    #[inline]
    fn sub(self, other: i64) -> Long {
        Long(self.0.saturating_sub(other))
    }
}

impl Mul<Long> for Long {
    type Output = Long;

    #[inline]
    fn mul(self, other: Long) -> Long {
        Long(self.0.saturating_mul(other.0))
    }
}

impl Mul<i64> for Long {
    type Output = Long;

    #[inline]
    fn mul(self, other: i64) -> Long {
        Long(self.0.saturating_mul(other))
    }
}

impl Div<Long> for Long {
    type Output = Long;

    #[inline]
    fn div(self, other: Long) -> Long {
        Long(self.0.checked_div(other.0).unwrap_or(0))
    }
}

impl Div<i64> for Long {
    type Output = Long;

    #[inline]
    fn div(self, other: i64) -> Long {
        Long(self.0.checked_div(other).unwrap_or(0))
    }
}

impl Neg for Long {
    type Output = Long;

    #[inline]
    fn neg(self) -> Long {
        Long(self.0.saturating_neg())
    }
}
