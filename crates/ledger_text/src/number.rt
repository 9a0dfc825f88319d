//! Numbers as a ledger writes them: decimal, with no leading zero.
ghost use Rattle.std.specs.Prelude.{◌≡◌, ◌^◌, ◌≤◌, length, decimal, IsTrue, ◌↔◌};
ghost use Rattle.std.specs.Char.{is_ascii_digit};
ghost use Rattle.std.specs.List.{list_all};
ghost use Rattle.std.specs.Str.Parse.{digits_value, AllDigits};
ghost use Rattle.ledger_text.specs.Numbers.{IsPlain};
ghost use Rattle.ledger_text.specs.Reads.{Reads, Below};

/// The most digits of a number that is read: any such number is below 2^64.
const MAX_DIGITS: usize = 19;

/// The value of at most 19 decimal digits.
#[inline]
fn value_of(digits: &[u8]) -> u64
    requires digits { AllDigits 10 digits.now }
    requires few { length digits.now ≤ 19 }
    ensures { result ≡ digits_value 10 digits.now }
{
    let mut value: u64 = 0;
    for digit in digits {
        value = value * 10 + u64::from(*digit - b'0');
    }
    value
}

/// True if these are decimal digits alone.
#[inline]
fn are_digits(bytes: &[u8]) -> bool
    ensures { result ≡ list_all is_ascii_digit bytes.now }
{
    bytes.iter().all(u8::is_ascii_digit)
}

/// True if these are digits alone, at most 19, with no leading zero but that of 0.
#[inline]
fn is_plain(field: &[u8]) -> bool
    ensures { IsTrue result ↔ IsPlain field.now }
{
    if field.is_empty() || field.len() > MAX_DIGITS {
        return false;
    }
    if field[0] == b'0' && field.len() > 1 {
        return false;
    }
    are_digits(field)
}

/// The number below a bound whose text these bytes are.
#[inline]
pub fn number_of(field: &[u8], bound: u64) -> Option<u64>
    requires { bound ≤ 10 ^ 19 }
    ensures { Reads (Below bound) decimal field.now result }
{
    if !is_plain(field) {
        return None;
    }
    let value = value_of(field);
    if value < bound { Some(value) } else { None }
}
