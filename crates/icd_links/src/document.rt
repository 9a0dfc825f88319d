//! The text of a document: what stands before its rows, what separates its cells, and its rows.

use csv::{Error, Position, ReaderBuilder, StringRecord};
use std::alloc::Global;

/// A document without what a spreadsheet puts before its rows: a byte order mark, and a line as `sep=;`.
#[derive(Clone, Copy)]
pub struct Document<'a> {
    /// The rows.
    pub text: &'a str,
    /// The byte that separates their cells.
    pub separator: u8,
    /// How many lines stand before them.
    before: u64,
}

/// The separator that the first line says, as `sep=;`, and the text after that line.
fn said_separator(text: &str) -> Option<(u8, &str)> {
    let (line, rest) = text.split_once('\n')?;
    let line = line.strip_suffix('\r').unwrap_or(line);
    match line.as_bytes() {
        [b's' | b'S', b'e' | b'E', b'p' | b'P', b'=', separator] if is_separator(*separator) => {
            Some((*separator, rest))
        }
        _ => None,
    }
}

/// True if a first line may name the byte as its separator.
fn is_separator(byte: u8) -> bool {
    matches!(byte, b',' | b';' | b'\t' | b'|')
}

/// The first comma, semicolon or tab of the first line that isn't blank, outside quotes; else a comma.
fn first_separator(text: &str) -> u8 {
    let mut is_quoted = false;
    for byte in text.trim_start().as_bytes() {
        match *byte {
            b'"' => is_quoted = !is_quoted,
            _ if is_quoted => {}
            b',' | b';' | b'\t' => return *byte,
            b'\n' => return b',',
            _ => {}
        }
    }
    b','
}

fn byte_of(place: Option<Position>) -> u64 {
    place.map_or(0, |place| place.byte())
}

/// The line, from 1, of what begins at this byte, or after line breaks that stand there.
fn line_at(bytes: &[u8], at: u64) -> u64 {
    let at = bytes.len().min(at as usize);
    let breaks = bytes[at..]
        .iter()
        .take_while(|byte| matches!(**byte, b'\r' | b'\n'))
        .count();
    let before = bytes[..at + breaks]
        .iter()
        .filter(|byte| **byte == b'\n')
        .count();
    before as u64 + 1
}

impl<'a> Document<'a> {
    /// The document of a text.
    pub fn of(text: &'a str) -> Document<'a> {
        let text = text.strip_prefix('\u{feff}').unwrap_or(text);
        match said_separator(text) {
            Some((separator, rest)) => Document {
                text: rest,
                separator,
                before: 1,
            },
            None => Document {
                text,
                separator: first_separator(text),
                before: 0,
            },
        }
    }

    /// The line of the whole text, from 1, of what begins at this byte of the rows, or after line breaks that
    /// stand there.
    pub fn line_at(&self, at: u64) -> u64 {
        line_at(self.text.as_bytes(), at).saturating_add(self.before)
    }

    /// May a comma begin a number's fraction? It may where it separates no cells.
    pub fn has_decimal_commas(&self) -> bool {
        self.separator != b','
    }

    /// The rows, of whatever lengths.
    pub fn rows(&self, alloc: Global) -> Result<Vec<StringRecord>, Error> {
        let reader = ReaderBuilder::new()
            .has_headers(false)
            .flexible(true)
            .delimiter(self.separator)
            .from_reader(alloc, self.text.as_bytes());
        let mut rows = Vec::new(alloc);
        for row in reader.into_records() {
            if rows.push(row?).is_err() {
                return Err(Error::out_of_memory());
            }
        }
        Ok(rows)
    }
}

/// Where a row begins.
pub fn start_of(row: &StringRecord) -> u64 {
    byte_of(row.position())
}

/// The text of a cell without the white space around it; of no column it is blank.
pub fn cell_at(row: &StringRecord, place: Option<usize>) -> &str {
    match place {
        Some(place) => row.get(place).unwrap_or("").trim(),
        None => "",
    }
}

/// Are all cells of a row blank?
pub fn is_blank(row: &StringRecord) -> bool {
    row.iter().all(|cell| cell.trim().is_empty())
}
