//! Masks of filters, from text.
ghost use Rattle.std.specs.Prelude.{◌<◌, MatchOption, ℕ};
ghost use Rattle.std.specs.Char.{digit_value};
ghost use Rattle.std.specs.Option.{SomeIff};
ghost use Rattle.ledger_text.specs.Mask.{IsMaskText};

/// The value of a hexadecimal digit, of either case.
fn hex_value(byte: u8) -> Option<u8>
    ensures { SomeIff result (digit_value byte < 16) (digit_value byte) }
{
    match byte {
        b'0'..=b'9' => Some(byte - b'0'),
        b'A'..=b'F' => Some(byte - b'A' + 10),
        b'a'..=b'f' => Some(byte - b'a' + 10),
        _ => None,
    }
}

/// The mask of filters that one or two hexadecimal digits write, of either case. None where the text is
/// anything else, or the mask is 0.
pub fn read_mask(text: &str) -> Option<u8>
    ensures { MatchOption result ((mask : ℕ) → IsMaskText text.now mask → ⊥) (IsMaskText text.now) }
{
    let mask = match text.as_bytes() {
        [low] => hex_value(*low)?,
        [high, low] => 16 * hex_value(*high)? + hex_value(*low)?,
        _ => return None,
    };
    if mask == 0 { None } else { Some(mask) }
}
