//! Arithmetic of a page.

/// Nanoseconds in a second.
pub const SECOND: u64 = 1_000_000_000;

/// Nanoseconds in a minute.
pub const MINUTE: u64 = 60_000_000_000;

/// A quotient, 0 where there is nothing to divide by.
#[inline]
pub fn quotient(value: u64, by: u64) -> u64 {
    value.checked_div(by).unwrap_or(0)
}

/// `value * of / by`, rounded down, at most 2^64 - 1; 0 where there is nothing to divide by.
pub fn share(value: u64, of: u64, by: u64) -> u64 {
    divided(u128::from(value) * u128::from(of), by)
}

/// `value * of / by`, rounded half up, at most 2^64 - 1; 0 where there is nothing to divide by.
pub fn rounded(value: u64, of: u64, by: u64) -> u64 {
    divided(u128::from(value) * u128::from(of) + u128::from(by / 2), by)
}

fn divided(product: u128, by: u64) -> u64 {
    let wide = product.checked_div(u128::from(by)).unwrap_or(0);
    u64::try_from(wide).unwrap_or(u64::MAX)
}
