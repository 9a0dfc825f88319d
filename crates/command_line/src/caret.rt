//! A place in a text, shown to a person: the number of its line, its column, and the line with a caret under
//! the place.

use crate::shown::is_unseen;
use std::alloc::{AllocError, Global};
use std::fmt;
use std::fmt::{Display, Formatter};

/// A place in a text: the number of its line, and its column there in characters, both from 1.
#[derive(Clone, Copy, PartialEq, Eq)]
pub struct Place {
    pub line: usize,
    pub column: usize,
}

impl Display for Place {
    fn fmt<W: fmt::Write>(&self, f: &mut Formatter<W>) -> fmt::Result {
        let (line, column) = (self.line, self.column);
        write!(f, "{line}:{column}")
    }
}

/// A line of a text, and under it a caret.
#[derive(Drop)]
pub struct Caret<'a> {
    line: &'a str,
    /// Blanks as wide as what stands before the caret.
    indent: String,
}

impl Display for Caret<'_> {
    fn fmt<W: fmt::Write>(&self, f: &mut Formatter<W>) -> fmt::Result {
        let (line, indent) = (self.line, self.indent.as_str());
        write!(f, "{line}\n{indent}^")
    }
}

/// Does the line go on with the byte? A carriage return ends it too, before its line feed.
fn is_in_line(byte: u8) -> bool {
    byte != b'\n' && byte != b'\r'
}

/// How many of the last bytes are of one line.
fn line_before(bytes: &[u8]) -> usize {
    bytes
        .iter()
        .rev()
        .take_while(|byte| is_in_line(**byte))
        .count()
}

/// How many of the first bytes are of one line.
fn line_after(bytes: &[u8]) -> usize {
    bytes.iter().take_while(|byte| is_in_line(**byte)).count()
}

/// Is the byte the first of a character?
fn begins_character(byte: u8) -> bool {
    byte < 0x80 || byte >= 0xc0
}

/// A tab for a tab, and a space for any other.
fn blank_for(byte: u8) -> u8 {
    if byte == b'\t' { b'\t' } else { b' ' }
}

/// Blanks as wide as the text of these bytes.
fn blank_bytes(alloc: Global, bytes: &[u8]) -> Result<Vec<u8>, AllocError> {
    bytes
        .iter()
        .filter(|byte| begins_character(**byte))
        .map(|byte| blank_for(*byte))
        .collect(alloc)
}

/// Blanks as wide as the text.
fn blanks_for(alloc: Global, text: &str) -> Option<String> {
    let blanks = blank_bytes(alloc, text.as_bytes()).ok()?;
    match String::from_utf8(blanks) {
        Ok(blanks) => Some(blanks),
        Err(_) => None,
    }
}

fn lines_in(bytes: &[u8]) -> usize {
    bytes.iter().filter(|byte| **byte == b'\n').count()
}

fn characters_in(bytes: &[u8]) -> usize {
    bytes.iter().filter(|byte| begins_character(**byte)).count()
}

/// The place of a byte of the text. None: the byte is within a character or past the end.
pub fn place_at(text: &str, at: usize) -> Option<Place> {
    let (before, _) = text.split_at_checked(at)?;
    let start = at.checked_sub(line_before(before.as_bytes()))?;
    Some(Place {
        line: lines_in(before.as_bytes()).checked_add(1)?,
        column: characters_in(text.get(start..at)?.as_bytes()).checked_add(1)?,
    })
}

/// The longest line that is shown, in bytes: one that a terminal shows on few lines.
const MAX_SHOWN: usize = 200;

/// Can the line be shown as it is? A control character would move what stands before the caret, or more.
fn is_shown(line: &str) -> bool {
    line.len() <= MAX_SHOWN
        && line
            .chars()
            .all(|character| character == '\t' || !is_unseen(character))
}

/// The line of a text with the byte, and a caret under it. None: the line is longer than 200 bytes or has a
/// control character, the byte is within a character or past the end, or there is no memory.
pub fn caret_at<'a>(alloc: Global, text: &'a str, at: usize) -> Option<Caret<'a>> {
    let (before, after) = text.split_at_checked(at)?;
    let start = at.checked_sub(line_before(before.as_bytes()))?;
    let end = at.checked_add(line_after(after.as_bytes()))?;
    let line = text.get(start..end)?;
    if !is_shown(line) {
        return None;
    }
    let indent = blanks_for(alloc, text.get(start..at)?)?;
    Some(Caret { line, indent })
}
