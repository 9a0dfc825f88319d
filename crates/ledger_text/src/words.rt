//! The words of a frame's line.
ghost use Rattle.std.specs.Prelude.{◌≡◌, ◌∷◌, ◌^◌, [], false};
ghost use Rattle.std.specs.Option.{option_map_or};
ghost use Rattle.integrity.specs.Sequence.{is_valid};
ghost use Rattle.vl_judge.specs.Judgement.{is_regular, is_within};
ghost use Rattle.policing.specs.Word.{policing_word};
ghost use Rattle.integrity.specs.Word.{integrity_word};
ghost use Rattle.redundancy.specs.Word.{redundancy_word};
ghost use Rattle.verdict_ledger.specs.Text.{mask_text};
ghost use Rattle.ledger_text.specs.Reads.{Any, Below, Optional, Reads, dash_or, hex_text};

use integrity::Integrity;
use policing::Policing;
use redundancy::Redundancy;
use vl_config::Class;

/// Does policing see a frame of this class?
#[inline]
fn is_regular(class: Class) -> bool
    ensures { result ≡ is_regular class }
{
    matches!(class, Class::Regular)
}

/// Does integrity checking see a frame after this?
#[inline]
fn is_within(policing: Option<Policing>) -> bool
    ensures { result ≡ option_map_or is_within policing false }
{
    matches!(policing, Some(Policing::Within))
}

/// Does redundancy management see a frame after this?
#[inline]
fn is_valid(integrity: Option<Integrity>) -> bool
    ensures { result ≡ option_map_or is_valid integrity false }
{
    !matches!(integrity, None | Some(Integrity::Out))
}

/// The verdict of policing by the bytes; a dash where the class is not regular.
#[inline]
pub fn policing_of(field: &[u8], class: Class) -> Option<Option<Policing>>
    ensures { Reads (Optional Any (is_regular class)) (dash_or policing_word) field.now result }
{
    match field {
        _ if is_regular(class) => Some(Some(Policing::from_word(field)?)),
        b"-" => Some(None),
        _ => None,
    }
}

/// The verdict of integrity checking by the bytes; a dash where policing doesn't say `within`.
#[inline]
pub fn integrity_of(field: &[u8], policing: Option<Policing>) -> Option<Option<Integrity>>
    ensures { Reads (Optional Any (option_map_or is_within policing false))
        (dash_or integrity_word) field.now result }
{
    match field {
        _ if is_within(policing) => Some(Some(Integrity::from_word(field)?)),
        b"-" => Some(None),
        _ => None,
    }
}

/// The verdict of redundancy management by the bytes; a dash where the frame is invalid.
#[inline]
pub fn redundancy_of(field: &[u8], integrity: Option<Integrity>) -> Option<Option<Redundancy>>
    ensures { Reads (Optional Any (option_map_or is_valid integrity false))
        (dash_or redundancy_word) field.now result }
{
    match field {
        _ if is_valid(integrity) => Some(Some(Redundancy::from_word(field)?)),
        b"-" => Some(None),
        _ => None,
    }
}

/// The value of a hexadecimal digit, in lower case.
#[inline]
fn hex_value(digit: u8) -> Option<u8>
    ensures { Reads (Below 16) hex_text (digit ∷ []) result }
{
    match digit {
        b'0'..=b'9' => Some(digit - b'0'),
        b'a'..=b'f' => Some(digit - b'a' + 10),
        _ => None,
    }
}

/// The mask whose two hexadecimal digits the bytes are.
#[inline]
pub fn mask_of(field: &[u8]) -> Option<u8>
    ensures { Reads (Below (2 ^ 8)) mask_text field.now result }
{
    let [high, low] = field else {
        return None;
    };
    Some(16 * hex_value(*high)? + hex_value(*low)?)
}
