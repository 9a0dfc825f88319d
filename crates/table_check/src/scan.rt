//! Walks over the top level of a TOML document, to the place of a key. The keys and strings are read by the
//! same parser as the document.

use std::alloc::Global;
use toml_parser::text::{byte_at, first, skip_blank, skip_ws};
use toml_parser::{Key, dotted_key, quoted, starts_string};

/// The things that a walk meets at the top level of a document.
#[derive(Drop)]
enum Entry {
    /// The header of the next link, `[[link]]`.
    Link,
    /// The header of another table.
    Other,
    /// A key with its value, by the first part of the key.
    Pair(String),
}

/// The table that the walk is in.
#[derive(Clone, Copy, PartialEq, Eq)]
enum Inside {
    Top,
    Link(u32),
    Other,
}

/// After an unquoted value, or what stands for one.
fn skip_word(text: &str) -> Option<&str> {
    let len = text
        .as_bytes()
        .iter()
        .take_while(|byte| !matches!(**byte, b',' | b']' | b'}' | b'=' | b'\n' | b'#'))
        .count();
    text.get(len..)
}

/// After a token of a value, and how many brackets are open then.
fn skip_token(alloc: Global, text: &str, open: u32) -> Option<(&str, u32)> {
    if starts_string(text) {
        let (_, rest) = quoted(alloc, text).ok()?;
        return Some((rest, open));
    }
    match first(text) {
        b'[' | b'{' => Some((text.get(1..)?, open.checked_add(1)?)),
        b']' | b'}' => Some((text.get(1..)?, open.checked_sub(1)?)),
        b',' | b'=' => Some((text.get(1..)?, open)),
        _ => Some((skip_word(text)?, open)),
    }
}

/// After the value that the text begins with.
fn skip_value(alloc: Global, text: &str) -> Option<&str> {
    let (mut rest, mut open) = (text, 0);
    for _ in 0..text.len() {
        (rest, open) = skip_token(alloc, rest, open)?;
        if open == 0 {
            return Some(rest);
        }
        rest = skip_blank(rest, true);
    }
    None
}

/// The first part of a key.
fn first_part(key: Key) -> String {
    let Key { path, last } = key;
    match path.into_iter().next() {
        Some(part) => part,
        None => last,
    }
}

/// The header that the text begins with, and what is after it.
fn header_entry(alloc: Global, text: &str) -> Option<(Entry, &str)> {
    let is_array = byte_at(text, 1) == b'[';
    let (open, close) = if is_array { (2, "]]") } else { (1, "]") };
    let (key, rest) = dotted_key(alloc, skip_ws(text.get(open..)?)).ok()?;
    let rest = rest.strip_prefix(close)?;
    if is_array && key.path.is_empty() && key.last.as_str() == "link" {
        Some((Entry::Link, rest))
    } else {
        Some((Entry::Other, rest))
    }
}

/// The entry that the text begins with, and what is after it.
fn next_entry(alloc: Global, text: &str) -> Option<(Entry, &str)> {
    if first(text) == b'[' {
        return header_entry(alloc, text);
    }
    let (key, rest) = dotted_key(alloc, text).ok()?;
    let value = skip_ws(rest.strip_prefix("=")?);
    Some((Entry::Pair(first_part(key)), skip_value(alloc, value)?))
}

/// The table that an entry begins or stands in, after `inside`.
fn inside_after(entry: &Entry, inside: Inside, links: u32) -> Inside {
    match entry {
        Entry::Link => Inside::Link(links),
        Entry::Other => Inside::Other,
        Entry::Pair(_) => inside,
    }
}

/// Is an entry the one that is looked for: the key of this name in the table, or without a name the header?
fn is_sought(entry: &Entry, name: Option<&str>) -> bool {
    match (entry, name) {
        (Entry::Pair(part), Some(name)) => part.as_str() == name,
        (Entry::Link, None) => true,
        _ => false,
    }
}

/// The byte offset of the entry that is looked for in a table.
fn entry_offset(alloc: Global, text: &str, table: Inside, name: Option<&str>) -> Option<usize> {
    let (mut rest, mut inside, mut links) = (text, Inside::Top, 0);
    for _ in 0..text.len() {
        rest = skip_blank(rest, true);
        let at = text.len().checked_sub(rest.len())?;
        let (entry, after) = next_entry(alloc, rest)?;
        inside = inside_after(&entry, inside, links);
        if let Entry::Link = entry {
            links = links.checked_add(1)?;
        }
        if inside == table && is_sought(&entry, name) {
            return Some(at);
        }
        rest = after;
    }
    None
}

/// The table of the network, or a link of this index.
fn table_of(link: Option<u32>) -> Inside {
    match link {
        Some(index) => Inside::Link(index),
        None => Inside::Top,
    }
}

/// Does the text begin with a key of this name, without further parts?
fn begins_with_key(alloc: Global, text: &str, name: &str) -> bool {
    match dotted_key(alloc, text) {
        Ok((key, _)) => key.path.is_empty() && key.last.as_str() == name,
        Err(_) => false,
    }
}

/// From the element at an index on, of the array that the text begins with.
fn element_at(alloc: Global, text: &str, index: u32) -> Option<&str> {
    let mut rest = skip_blank(text.strip_prefix("[")?, true);
    for _ in 0..index {
        let after = skip_blank(skip_value(alloc, rest)?, true);
        rest = skip_blank(after.strip_prefix(",")?, true);
    }
    Some(rest)
}

/// From the link at an index on, where the links are inline tables in one array.
fn inline_link<'a>(alloc: Global, text: &'a str, index: u32) -> Option<&'a str> {
    let at = entry_offset(alloc, text, Inside::Top, Some("link"))?;
    let (_, rest) = dotted_key(alloc, text.get(at..)?).ok()?;
    element_at(alloc, skip_ws(rest.strip_prefix("=")?), index)
}

/// From the key of this name on, in the inline table that the text begins with.
fn inline_key<'a>(alloc: Global, table: &'a str, name: &str) -> Option<&'a str> {
    let mut rest = skip_blank(table.strip_prefix("{")?, true);
    for _ in 0..table.len() {
        let (key, after) = dotted_key(alloc, rest).ok()?;
        if first_part(key).as_str() == name {
            return Some(rest);
        }
        let after = skip_value(alloc, skip_ws(after.strip_prefix("=")?))?;
        rest = skip_blank(skip_blank(after, true).strip_prefix(",")?, true);
    }
    None
}

/// The byte offset of a key of the link at an index, where the links are inline tables, or without a name of
/// that link.
fn inline_offset(alloc: Global, text: &str, link: u32, name: Option<&str>) -> Option<usize> {
    let table = inline_link(alloc, text, link)?;
    let found = match name {
        Some(name) => inline_key(alloc, table, name)?,
        None => table,
    };
    text.len().checked_sub(found.len())
}

/// The byte offset of the key of this name, in whatever form the links are written.
fn offset_in_either(alloc: Global, text: &str, link: Option<u32>, name: &str) -> Option<usize> {
    match entry_offset(alloc, text, table_of(link), Some(name)) {
        Some(at) => Some(at),
        None => inline_offset(alloc, text, link?, Some(name)),
    }
}

/// The byte offset of a key of the network's table, or of the link at an index. None: the document has no
/// such key, or writes it in a form that isn't looked for, as in a table's header; or there is no memory.
pub fn key_offset(alloc: Global, text: &str, link: Option<u32>, name: &str) -> Option<usize> {
    let at = offset_in_either(alloc, text, link, name)?;
    // The walk may be wrong of a form that it doesn't know: the key is read at its place again.
    if begins_with_key(alloc, text.get(at..)?, name) {
        Some(at)
    } else {
        None
    }
}

/// The byte offset of the header of the link at an index, or of its inline table.
pub fn link_offset(alloc: Global, text: &str, link: u32) -> Option<usize> {
    match entry_offset(alloc, text, Inside::Link(link), None) {
        Some(at) => Some(at),
        None => inline_offset(alloc, text, link, None),
    }
}
