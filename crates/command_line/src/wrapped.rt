//! Lines that are broken where they are too long.

use std::alloc::AllocError;

/// Appends a line, set in by so many blanks, in pieces of at most so many columns, broken at blanks; each but
/// the first is set in by two.
///
/// # Errors
///
/// `AllocError` if the system is out of memory.
pub fn push_wrapped(
    out: &mut String,
    columns: usize,
    first: usize,
    line: &str,
) -> Result<(), AllocError> {
    for _ in 0..first {
        out.push_str(" ")?;
    }
    let mut column = first;
    let mut is_first = true;
    for word in line.split(' ') {
        let len = word.chars().count();
        if !is_first && column.saturating_add(len) >= columns {
            out.push_str("\n ")?;
            column = 1;
        }
        if !is_first {
            out.push_str(" ")?;
            column = column.saturating_add(1);
        }
        is_first = false;
        out.push_str(word)?;
        column = column.saturating_add(len);
    }
    out.push_str("\n")
}

/// Appends lines of advice, each set in by two blanks.
///
/// # Errors
///
/// `AllocError` if the system is out of memory.
pub fn push_advice(out: &mut String, advice: &str) -> Result<(), AllocError> {
    for line in advice.lines() {
        out.push_str("  ")?;
        out.push_str(line)?;
        out.push_str("\n")?;
    }
    Ok(())
}

/// Appends lines of advice to a text, as one line with it.
///
/// # Errors
///
/// `AllocError` if the system is out of memory.
pub fn join_advice(out: &mut String, advice: &str) -> Result<(), AllocError> {
    for line in advice.lines() {
        out.push_str(" ")?;
        out.push_str(line)?;
    }
    Ok(())
}
