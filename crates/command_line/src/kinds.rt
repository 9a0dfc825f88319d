//! The kinds of other traffic that a network is to have, as a person writes them.

use std::alloc::{AllocError, Global};

/// The least EtherType: a lower number is a length (IEEE 802.3).
const LEAST_TYPE: u16 = 0x0600;

/// The EtherType of a number in hexadecimal digits after `0x`.
fn number_of(word: &str) -> Option<u16> {
    match u16::from_str_radix(word.strip_prefix("0x")?, 16) {
        Ok(number) if LEAST_TYPE <= number => Some(number),
        Ok(_) | Err(_) => None,
    }
}

/// The EtherType of a kind. 0 stands for all frames that have a length in its place.
fn kind_of(word: &str) -> Option<u16> {
    match word {
        "arp" => Some(0x0806),
        "ipv4" => Some(0x0800),
        "ipv6" => Some(0x86dd),
        "lldp" => Some(0x88cc),
        "ptp" => Some(0x88f7),
        "802.1q" => Some(0x8100),
        "802.3" => Some(0),
        _ => number_of(word),
    }
}

/// Is a text a list of kinds, with commas between them?
pub(crate) fn are_kinds(text: &str) -> bool {
    text.split(',').all(|word| kind_of(word).is_some())
}

/// The EtherTypes of a list of kinds, each once. 0 stands for a length.
///
/// # Errors
///
/// `AllocError` if the system is out of memory.
pub fn kinds_in(alloc: Global, text: &str) -> Result<Vec<u16>, AllocError> {
    let mut kinds: Vec<u16> = Vec::new(alloc);
    for word in text.split(',') {
        match kind_of(word) {
            Some(kind) if !kinds.contains(&kind) => kinds.push(kind)?,
            Some(_) | None => {}
        }
    }
    Ok(kinds)
}
