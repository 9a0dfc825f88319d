//! The values of cells.

use std::alloc::{AllocError, Global};
use toml::Value;
use vl_config::Key;

/// Why a cell has no value.
#[derive(Clone, Copy)]
pub enum CellFault {
    /// It has none of its column's values.
    Value,
    Memory,
}

impl From<AllocError> for CellFault {
    fn from(_e: AllocError) -> CellFault {
        CellFault::Memory
    }
}

/// The whole number in a spreadsheet's cell, without a fraction of one or two zeros: `4` of `4.0`, and
/// where commas separate no cells of `4,0`. Three zeros may be thousands, and stay.
fn whole_of(cell: &str, has_decimal_commas: bool) -> &str {
    let parts = match cell.split_once('.') {
        None if has_decimal_commas => cell.split_once(','),
        parts => parts,
    };
    match parts {
        Some((whole, "0" | "00")) if whole.bytes().all(|byte| byte.is_ascii_digit()) => whole,
        _ => cell,
    }
}

/// The value that a text writes as a table does, or in hexadecimal digits after `0X`.
fn value_of(alloc: Global, text: &str) -> Result<Value, CellFault> {
    let read = match text.strip_prefix("0X") {
        Some(digits) => {
            let text = format!(in alloc; "0x{digits}")?;
            Value::from_str(alloc, &text)
        }
        None => Value::from_str(alloc, text),
    };
    match read {
        Ok(value) => Ok(value),
        Err(error) if error.is_memory() => Err(CellFault::Memory),
        Err(_) => Err(CellFault::Value),
    }
}

/// The number in a cell of a key's column, written as in a table; None where it is blank.
pub fn number_of(
    alloc: Global,
    key: Key,
    cell: &str,
    has_decimal_commas: bool,
) -> Result<Option<u64>, CellFault> {
    if cell.is_empty() {
        return Ok(None);
    }
    let value = value_of(alloc, whole_of(cell, has_decimal_commas))?;
    if !key.is_kind(&value) || !key.is_in_range(&value) {
        return Err(CellFault::Value);
    }
    match value.as_integer() {
        Some(number) if number >= 0 => Ok(Some(number as u64)),
        _ => Err(CellFault::Value),
    }
}

/// The flag in a cell, in any case: `true`, `yes` or `1`, `false`, `no` or `0`; None where it is blank.
pub fn flag_of(cell: &str, has_decimal_commas: bool) -> Result<Option<bool>, CellFault> {
    let cell = whole_of(cell, has_decimal_commas);
    if cell.is_empty() {
        Ok(None)
    } else if is_one_of(cell, &["true", "yes", "1"]) {
        Ok(Some(true))
    } else if is_one_of(cell, &["false", "no", "0"]) {
        Ok(Some(false))
    } else {
        Err(CellFault::Value)
    }
}

/// Is the text one of the words, in any case?
fn is_one_of(text: &str, words: &[&str]) -> bool {
    words.iter().any(|word| text.eq_ignore_ascii_case(word))
}
