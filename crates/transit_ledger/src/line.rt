//! The line of a frame.

use crate::fields::Fields;
use crate::number::{number_of, signed_of};
use crate::outcome::Outcome;
use crate::words::PolicingWord;
use afdx_frame::{Network, VlId};
use vl_config::Class;

/// A frame's line of a ledger of transits.
#[derive(Clone, Copy, PartialEq, Eq)]
pub struct TransitLine {
    /// When it went in or came out, in nanoseconds since 1970.
    pub time: u64,
    /// A: it went in. B: it came out, and has no partner.
    pub side: Network,
    /// The frame's index in its recording, from 0.
    pub number: u64,
    /// The virtual link, where the class has one.
    pub link: Option<VlId>,
    /// The sequence number, where the class has a link.
    pub sequence: Option<u8>,
    pub outcome: Outcome,
    pub class: Class,
    pub policing: PolicingWord,
    /// The index of its partner in the recording at the port out.
    pub other: Option<u64>,
    /// How long it took, in nanoseconds; below 0 where clocks are apart.
    pub latency: Option<i64>,
    /// Of a changed frame the first byte that differs, from 0.
    pub differs: Option<u32>,
}

/// The fields of a frame's line, in their order. The first at which a line departs from every frame's line
/// is its fault.
#[derive(Clone, Copy, PartialEq, Eq)]
pub enum Field {
    Time,
    Side,
    Number,
    Link,
    Sequence,
    Class,
    Policing,
    Outcome,
    Other,
    Latency,
    Differs,
    /// More stands after the eleventh.
    Rest,
}

impl Field {
    /// The word for it.
    pub fn word(self) -> &'static str {
        match self {
            Field::Time => "time",
            Field::Side => "side",
            Field::Number => "number",
            Field::Link => "link",
            Field::Sequence => "sequence",
            Field::Class => "class",
            Field::Policing => "policing",
            Field::Outcome => "outcome",
            Field::Other => "other",
            Field::Latency => "latency",
            Field::Differs => "differs",
            Field::Rest => "fields",
        }
    }
}

/// Timestamps are below 2^32 seconds, in nanoseconds.
const STAMP_BOUND: u64 = 1_000_000_000 << 32;

/// A recording has at most so many frames.
const FRAME_BOUND: u64 = 1 << 32;

/// The number below a bound.
fn below(field: &[u8], bound: u64) -> Option<u64> {
    let number = number_of(field)?;
    if number < bound { Some(number) } else { None }
}

/// The value where one has to stand, and a dash elsewhere.
fn present(field: &[u8], has_value: bool) -> Option<Option<&[u8]>> {
    let is_dash = field == b"-".as_slice();
    match (has_value, is_dash) {
        (true, false) => Some(Some(field)),
        (false, true) => Some(None),
        (true, true) | (false, false) => None,
    }
}

fn side_of(field: &[u8]) -> Option<Network> {
    match field {
        b"before" => Some(Network::A),
        b"after" => Some(Network::B),
        _ => None,
    }
}

/// The link of this identifier.
pub(crate) fn id_of(field: &[u8]) -> Option<VlId> {
    Some(VlId(u16::try_from(number_of(field)?).ok()?))
}

fn link_of(field: &[u8]) -> Option<Option<VlId>> {
    match field {
        b"-" => Some(None),
        _ => Some(Some(id_of(field)?)),
    }
}

fn sequence_of(field: &[u8], link: Option<VlId>) -> Option<Option<u8>> {
    match present(field, link.is_some())? {
        Some(digits) => Some(Some(u8::try_from(number_of(digits)?).ok()?)),
        None => Some(None),
    }
}

/// A class that has a link, or one that has none, as the line does.
fn class_of(field: &[u8], link: Option<VlId>) -> Option<Class> {
    let class = Class::from_word(field)?;
    if class.is_addressed() == link.is_some() {
        Some(class)
    } else {
        None
    }
}

/// Policing sees the regular frames that went in.
fn policing_of(field: &[u8], side: Network, class: Class) -> Option<PolicingWord> {
    let is_seen = side == Network::A && class == Class::Regular;
    let word = PolicingWord::from_word(field)?;
    if is_seen == (word != PolicingWord::None) {
        Some(word)
    } else {
        None
    }
}

/// An outcome that such a frame may have.
fn outcome_of(
    field: &[u8],
    side: Network,
    class: Class,
    policing: PolicingWord,
) -> Option<Outcome> {
    let outcome = Outcome::from_word(field)?;
    if outcome.is_of(side) && outcome.fits(class, policing) {
        Some(outcome)
    } else {
        None
    }
}

fn other_of(field: &[u8], outcome: Outcome) -> Option<Option<u64>> {
    match present(field, outcome.is_paired())? {
        Some(digits) => Some(Some(below(digits, FRAME_BOUND)?)),
        None => Some(None),
    }
}

fn latency_of(field: &[u8], outcome: Outcome) -> Option<Option<i64>> {
    match present(field, outcome.is_paired())? {
        Some(digits) => Some(Some(signed_of(digits)?)),
        None => Some(None),
    }
}

fn differs_of(field: &[u8], outcome: Outcome) -> Option<Option<u32>> {
    match present(field, outcome == Outcome::Changed)? {
        Some(digits) => Some(Some(u32::try_from(number_of(digits)?).ok()?)),
        None => Some(None),
    }
}

/// The next field, empty where there is none.
fn next_of<'a>(fields: &mut Fields<'a>) -> &'a [u8] {
    fields.next().unwrap_or(&[])
}

/// Reads the line of a frame, without its newline.
///
/// # Errors
///
/// The first field at which it departs from a line that the ledger may have.
pub fn read_line(line: &[u8]) -> Result<TransitLine, Field> {
    let mut fields = Fields::new(line);
    let time = below(next_of(&mut fields), STAMP_BOUND).ok_or(Field::Time)?;
    let side = side_of(next_of(&mut fields)).ok_or(Field::Side)?;
    let number = below(next_of(&mut fields), FRAME_BOUND).ok_or(Field::Number)?;
    let link = link_of(next_of(&mut fields)).ok_or(Field::Link)?;
    let sequence = sequence_of(next_of(&mut fields), link).ok_or(Field::Sequence)?;
    let class = class_of(next_of(&mut fields), link).ok_or(Field::Class)?;
    let policing = policing_of(next_of(&mut fields), side, class).ok_or(Field::Policing)?;
    let word = next_of(&mut fields);
    let outcome = outcome_of(word, side, class, policing).ok_or(Field::Outcome)?;
    let other = other_of(next_of(&mut fields), outcome).ok_or(Field::Other)?;
    let latency = latency_of(next_of(&mut fields), outcome).ok_or(Field::Latency)?;
    let differs = differs_of(next_of(&mut fields), outcome).ok_or(Field::Differs)?;
    if !fields.is_at_end() {
        return Err(Field::Rest);
    }
    Ok(TransitLine {
        time,
        side,
        number,
        link,
        sequence,
        outcome,
        class,
        policing,
        other,
        latency,
        differs,
    })
}

/// The values of a frame's line, without its newline. None: it isn't one that the ledger may have.
pub fn parse_line(line: &[u8]) -> Option<TransitLine> {
    read_line(line).ok()
}
