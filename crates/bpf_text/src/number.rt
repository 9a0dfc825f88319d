//! The radixes of `bpf_asm`: decimal, and hexadecimal, binary or octal by the first bytes.

ghost use Rattle.std.specs.Prelude.{◌≡◌, ◌≤◌, ◌^◌, min};
ghost use Rattle.std.specs.List.{list_all};
ghost use Rattle.std.specs.Char.{digit_value, is_digit};
ghost use Rattle.std.specs.Str.Parse.{digits_value};
ghost use Rattle.bpf_text.specs.Numbers.{radix_of, digits_of, is_numeral, number_of, too_large};

/// The least value that no 32-bit number has. It stands for any larger value too.
const TOO_LARGE: u64 = 1 << 32;

/// The radix that the token's first bytes name, and its digits. A leading `0` of an octal number
/// is one of its digits.
fn split_radix(word: &[u8]) -> (u32, &[u8])
    ensures radix { result.0 ≡ radix_of word.now }
    ensures digits { result.1.now ≡ digits_of word.now }
{
    match word {
        [b'0', b'x' | b'X', digits @ ..] => (16, digits),
        [b'0', b'b' | b'B', digits @ ..] => (2, digits),
        [b'0', ..] => (8, word),
        _ => (10, word),
    }
}

/// True if these are one digit or more, and nothing else.
fn is_numeral(radix: u32, digits: &[u8]) -> bool
    requires low { 2 ≤ radix }
    requires high { radix ≤ 36 }
    ensures { result ≡ is_numeral radix digits.now }
{
    !digits.is_empty() && are_digits(radix, digits)
}

fn are_digits(radix: u32, digits: &[u8]) -> bool
    requires low { 2 ≤ radix }
    requires high { radix ≤ 36 }
    ensures { result ≡ list_all (λ digit. is_digit digit radix) digits.now }
{
    digits.iter().all(|digit| (*digit as char).is_digit(radix))
}

/// The digit's value, 0 to 35, and 36 for a byte that is no digit.
fn digit_value(digit: u8) -> u32
    ensures value { result ≡ digit_value digit }
    ensures bound { result ≤ 36 }
{
    (digit as char).to_digit(36).unwrap_or(36)
}

/// The value of the digits, or [`TOO_LARGE`] where it is larger.
fn value_of(radix: u32, digits: &[u8]) -> u64
    requires low { 2 ≤ radix }
    requires high { radix ≤ 36 }
    ensures { result ≡ min (digits_value radix digits.now) too_large }
{
    let mut value: u64 = 0;
    for digit in digits {
        let next = value * u64::from(radix) + u64::from(digit_value(*digit));
        value = next.min(TOO_LARGE);
    }
    value
}

/// The value of a number token, or [`TOO_LARGE`] where it is larger. None where it is malformed.
#[tactic(auto, unfolding(crate::specs::Numbers::number_of))]
pub(crate) fn number_of(word: &[u8]) -> Option<u64>
    ensures { result ≡ number_of word.now }
{
    let (radix, digits) = split_radix(word);
    if is_numeral(radix, digits) {
        Some(value_of(radix, digits))
    } else {
        None
    }
}
