//! The heads of columns, by which each says which key it has.

use std::alloc::{AllocError, Global};
use vl_config::Key;

/// How a head names a key.
#[derive(Clone, Copy, PartialEq, Eq)]
pub enum Naming {
    /// By the key's name, or as a person says.
    Exact,
    /// By a synonym, with the key's unit where it has to say one.
    Synonym,
    /// By a synonym, with another unit, or without one that it has to say.
    OtherUnit,
}

/// The heads of a key beside its name: words, and after them a unit. An empty unit is none.
#[derive(Clone, Copy)]
struct Synonyms {
    words: &'static [&'static str],
    units: &'static [&'static str],
    /// The units in which the column isn't read.
    others: &'static [&'static str],
}

/// No unit.
const NONE: &[&str] = &[""];

/// The units of time in which jitter and skew aren't read. Without a unit they may be in milliseconds.
const NOT_MICROSECONDS: &[&str] = &["", "s", "ms", "ns"];

const MICROSECONDS: &[&str] = &["us"];

/// The synonyms of a key, in the letters and digits that [`plain_of`] leaves.
fn synonyms_of(key: Key) -> Synonyms {
    let (words, units, others): (&[&str], &[&str], &[&str]) = match key {
        Key::Id => (
            &["id", "vl", "vlid", "virtuallink", "virtuallinkid"],
            NONE,
            &[],
        ),
        Key::Name => (&["name", "vlname", "virtuallinkname"], NONE, &[]),
        Key::BagMs => (
            &["bag", "bandwidthallocationgap"],
            &["", "ms"],
            &["s", "us", "ns", "hz"],
        ),
        Key::JitterUs => (
            &["jitter", "maxjitter", "jittermax"],
            MICROSECONDS,
            NOT_MICROSECONDS,
        ),
        Key::Smax => (
            &["smax", "lmax", "maxframesize", "maxframelength"],
            &["", "bytes", "byte", "octets"],
            &["bits", "bit", "words", "kb"],
        ),
        Key::Integrity => (&["integrity", "integritychecking"], NONE, &[]),
        Key::Redundancy => (&["redundancy", "redundancymanagement"], NONE, &[]),
        Key::SkewUs => (
            &["skew", "maxskew", "skewmax"],
            MICROSECONDS,
            NOT_MICROSECONDS,
        ),
        Key::Group => (&["group", "lru", "port", "equipment"], NONE, &[]),
        _ => (&[], NONE, &[]),
    };
    Synonyms {
        words,
        units,
        others,
    }
}

/// The letters and digits of a head, which are compared: those of ASCII, in lower case, and for a micro sign
/// `u`.
pub fn plain_of(alloc: Global, head: &str) -> Result<String, AllocError> {
    let mut plain = String::new(alloc);
    for character in head.chars() {
        match character {
            'µ' | 'μ' => plain.push('u')?,
            _ if character.is_ascii_alphanumeric() => plain.push(character.to_ascii_lowercase())?,
            _ => {}
        }
    }
    Ok(plain)
}

/// Is a text one of these words with one of these units after it?
fn is_made_of(plain: &str, words: &[&str], units: &[&str]) -> bool {
    words.iter().any(|word| match plain.strip_prefix(*word) {
        Some(unit) => units.contains(&unit),
        None => false,
    })
}

/// How a head names a key, if it does: by the head that is given for the key alone, where one is.
pub fn naming_of(
    alloc: Global,
    key: Key,
    given: Option<&str>,
    head: &str,
) -> Result<Option<Naming>, AllocError> {
    let exact = given.unwrap_or(key.name());
    if head.eq_ignore_ascii_case(exact) {
        return Ok(Some(Naming::Exact));
    }
    if given.is_some() {
        return Ok(None);
    }
    let (plain, synonyms) = (plain_of(alloc, head)?, synonyms_of(key));
    if is_made_of(&plain, synonyms.words, synonyms.units) {
        Ok(Some(Naming::Synonym))
    } else if is_made_of(&plain, synonyms.words, synonyms.others) {
        Ok(Some(Naming::OtherUnit))
    } else {
        Ok(None)
    }
}
