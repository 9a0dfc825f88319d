//! Numbers as a ledger writes them: decimal, with no leading zero.

/// True if these are digits alone, with no leading zero but that of 0.
fn is_plain(field: &[u8]) -> bool {
    let has_zero = field.len() > 1 && field.first() == Some(&b'0');
    !field.is_empty() && !has_zero && field.iter().all(u8::is_ascii_digit)
}

/// The number whose digits these are.
pub(crate) fn number_of(field: &[u8]) -> Option<u64> {
    if !is_plain(field) {
        return None;
    }
    let mut value: u64 = 0;
    for byte in field {
        let digit = u64::from(byte.wrapping_sub(b'0'));
        value = value.checked_mul(10)?.checked_add(digit)?;
    }
    Some(value)
}

/// The number, which may be below 0.
pub(crate) fn signed_of(field: &[u8]) -> Option<i64> {
    match field.strip_prefix(b"-".as_slice()) {
        Some(b"0") => None,
        Some(digits) => 0_i64.checked_sub(i64::try_from(number_of(digits)?).ok()?),
        None => i64::try_from(number_of(field)?).ok(),
    }
}

/// The sum of numbers, which may be below 0.
pub(crate) fn sum_of(field: &[u8]) -> Option<i128> {
    let digits = field.strip_prefix(b"-".as_slice()).unwrap_or(field);
    let is_negative = digits.len() < field.len();
    if !is_plain(digits) || (is_negative && digits == b"0".as_slice()) {
        return None;
    }
    let mut value: i128 = 0;
    for byte in digits {
        let digit = i128::from(byte.wrapping_sub(b'0'));
        value = value.checked_mul(10)?.checked_add(digit)?;
    }
    if is_negative {
        0_i128.checked_sub(value)
    } else {
        Some(value)
    }
}
