//! Names that a table can hold, of those that a document has.

use afdx_frame::VlId;
use std::alloc::{AllocError, Global};
use toml::Value;
use vl_config::Key;

/// The most bytes of a name.
const MAX_NAME: usize = 32;

/// Can a table hold this name?
pub fn is_held(alloc: Global, name: &str) -> Result<bool, AllocError> {
    Ok(Key::Name.is_in_range(&Value::String(String::from_str(alloc, name)?)))
}

/// The letters for a Latin one with a mark, and `_` for any other character that names don't have.
fn letters_for(character: char) -> &'static str {
    match character {
        'ä' | 'æ' => "ae",
        'ö' | 'œ' => "oe",
        'ü' => "ue",
        'Ä' | 'Æ' => "Ae",
        'Ö' | 'Œ' => "Oe",
        'Ü' => "Ue",
        'ß' => "ss",
        'à'..='å' => "a",
        'ç' => "c",
        'è'..='ë' => "e",
        'ì'..='ï' => "i",
        'ñ' => "n",
        'ò'..='õ' | 'ø' => "o",
        'ù'..='û' | 'µ' | 'μ' => "u",
        'ý' | 'ÿ' => "y",
        'À'..='Å' => "A",
        'Ç' => "C",
        'È'..='Ë' => "E",
        'Ì'..='Ï' => "I",
        'Ñ' => "N",
        'Ò'..='Õ' | 'Ø' => "O",
        'Ù'..='Û' => "U",
        'Ý' | 'Ÿ' => "Y",
        _ => "_",
    }
}

fn is_name_character(character: char) -> bool {
    character.is_ascii_alphanumeric() || character == '_' || character == '-'
}

/// Adds a character to a name of at most so many bytes; several in a row that names don't have become one
/// `_`. False: it has no room.
fn add_character(name: &mut String, character: char, room: usize) -> Result<bool, AllocError> {
    if is_name_character(character) {
        if name.len() >= room {
            return Ok(false);
        }
        name.push(character)?;
        return Ok(true);
    }
    let letters = letters_for(character);
    if letters == "_" && (name.is_empty() || name.ends_with('_')) {
        return Ok(true);
    }
    if name.len().saturating_add(letters.len()) > room {
        return Ok(false);
    }
    name.push_str(letters)?;
    Ok(true)
}

/// A group that a table holds, of the text that a document has: what it can hold of its letters, and `_`.
/// Empty: nothing is left. Texts that differ only beyond that have one group.
pub fn group_of(alloc: Global, original: &str) -> Result<String, AllocError> {
    let mut group = String::new(alloc);
    for character in original.chars() {
        if !add_character(&mut group, character, MAX_NAME)? {
            break;
        }
    }
    Ok(group)
}

/// A name that a table holds, of one that it can't hold: what it can hold of its letters, `_`, and the
/// identifier, so that no two are the same.
pub fn made_of(alloc: Global, original: &str, id: VlId) -> Result<String, AllocError> {
    let suffix = format!(in alloc; "{}", id.0)?;
    let room = MAX_NAME.saturating_sub(suffix.len()).saturating_sub(1);
    let mut name = String::new(alloc);
    for character in original.chars() {
        if !add_character(&mut name, character, room)? {
            break;
        }
    }
    if name.is_empty() {
        name.push_str("vl")?;
    }
    if !name.ends_with('_') {
        name.push('_')?;
    }
    name.push_str(&suffix)?;
    Ok(name)
}
