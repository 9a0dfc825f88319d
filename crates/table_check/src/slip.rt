//! The fault of a table in words: which key of which link, what stands there and what is allowed.

use crate::scan::{key_offset, link_offset};
use std::alloc::{AllocError, Global};
use std::fmt;
use std::fmt::{Display, Formatter};
use toml::{Table, Value};
use vl_config::{ConfigFault, FaultyKey, Key, MAX_LINKS, MAX_TABLE_FILTERS, faulty_key};

/// A fault of a table, told to a person.
#[derive(Drop)]
pub struct Slip {
    /// The byte offset of the key, or of the link's header where the key is missing. None: it isn't found.
    pub at: Option<usize>,
    /// The text that stands there.
    pub found: String,
    /// The values that are allowed there.
    pub allowed: String,
}

/// How many bytes of a string are shown.
const MAX_SHOWN: usize = 64;

/// A value that is shown as it is: a number, a boolean or a short string.
fn is_plain(value: &Value) -> bool {
    match value.as_str() {
        Some(text) => text.len() <= MAX_SHOWN,
        None => value.is_integer() || value.is_bool(),
    }
}

/// A key and its value, or the type of a value that may be long.
#[derive(Clone, Copy)]
struct Pair<'a>(&'a str, &'a Value);

impl Display for Pair<'_> {
    fn fmt<W: fmt::Write>(&self, f: &mut Formatter<W>) -> fmt::Result {
        let (name, value) = (self.0, self.1);
        if is_plain(value) {
            write!(f, "{name} = {value}")
        } else {
            let kind = value.type_str();
            write!(f, "{name} = a value of type {kind}")
        }
    }
}

/// A link by its index, and its identifier and name where it has them.
#[derive(Clone, Copy)]
struct LinkPart<'a>(u32, &'a Table);

impl Display for LinkPart<'_> {
    fn fmt<W: fmt::Write>(&self, f: &mut Formatter<W>) -> fmt::Result {
        let (index, table) = (self.0, self.1);
        write!(f, "link {index}")?;
        for key in [Key::Id, Key::Name] {
            let name = key.name();
            match table.get(name) {
                Some(value) if is_plain(value) => write!(f, ", {name} {value}")?,
                Some(_) | None => {}
            }
        }
        Ok(())
    }
}

/// The table that a fault is in: that of the network, or of a link.
#[derive(Clone, Copy)]
struct Subject<'a> {
    link: Option<u32>,
    table: &'a Table,
}

impl Display for Subject<'_> {
    fn fmt<W: fmt::Write>(&self, f: &mut Formatter<W>) -> fmt::Result {
        match self.link {
            Some(index) => {
                let link = LinkPart(index, self.table);
                write!(f, "{link}: ")
            }
            None => Ok(()),
        }
    }
}

/// The tables of the document's links.
fn links_of(document: &Table) -> Option<&[Value]> {
    Some(document.get(Key::Link.name())?.as_array()?.as_slice())
}

/// The table of a link, by its index in the document.
pub fn link_table(document: &Table, index: u32) -> Option<&Table> {
    links_of(document)?.get(index as usize)?.as_table()
}

/// The index of the link that a fault names. None: it names the network's table.
pub fn link_of(fault: ConfigFault) -> Option<u32> {
    match fault {
        ConfigFault::Missing { link }
        | ConfigFault::Kind { link }
        | ConfigFault::Range { link }
        | ConfigFault::UnknownKey { link }
        | ConfigFault::TwiceId { link }
        | ConfigFault::TwiceName { link } => link,
        ConfigFault::Text | ConfigFault::TooMany | ConfigFault::Memory => None,
    }
}

fn subject_of(document: &Table, fault: ConfigFault) -> Option<Subject<'_>> {
    let link = link_of(fault);
    let table = match link {
        Some(index) => link_table(document, index)?,
        None => document,
    };
    Some(Subject { link, table })
}

/// The first link that has the same value at a key.
fn first_with<'a>(document: &'a Table, key: Key, value: &Value) -> Option<(u32, &'a Table)> {
    for (index, link) in links_of(document)?.iter().enumerate() {
        match link.as_table() {
            Some(table) if has_same(table, key, value) => {
                return Some((u32::try_from(index).ok()?, table));
            }
            Some(_) | None => {}
        }
    }
    None
}

/// Has a link the same value at a key?
fn has_same(link: &Table, key: Key, value: &Value) -> bool {
    match link.get(key.name()) {
        Some(own) => is_same(own, value),
        None => false,
    }
}

/// Are both the same integer, or the same string?
fn is_same(one: &Value, other: &Value) -> bool {
    match (one.as_integer(), other.as_integer()) {
        (Some(one), Some(other)) => one == other,
        _ => match (one.as_str(), other.as_str()) {
            (Some(one), Some(other)) => one == other,
            _ => false,
        },
    }
}

/// The text that stands at the key that a fault is about.
fn found_at(alloc: Global, subject: Subject<'_>, key: FaultyKey<'_>) -> Result<String, AllocError> {
    let key = match key {
        FaultyKey::Unknown(name) => return format!(in alloc; "{subject}unknown key {name}"),
        FaultyKey::Known(key) => key.name(),
    };
    match subject.table.get(key) {
        Some(value) => {
            let pair = Pair(key, value);
            format!(in alloc; "{subject}{pair}")
        }
        None => format!(in alloc; "{subject}{key} is missing"),
    }
}

/// Which link has the same value at a key that each link has to have for itself.
fn taken_by(alloc: Global, document: &Table, table: &Table, key: Key) -> Option<String> {
    let (index, earlier) = first_with(document, key, table.get(key.name())?)?;
    let (link, name) = (LinkPart(index, earlier), key.name());
    format!(in alloc; "{link} has it too: each link has its own {name}").ok()
}

/// The keys of the network's table, or of a link.
fn known_keys(link: Option<u32>) -> &'static str {
    match link {
        Some(_) => {
            "a link has id, name, bag_ms, jitter_us, smax, integrity, redundancy, skew_us and group"
        }
        None => "the table has constant, late_us, filters and the links",
    }
}

/// The values that are allowed at the key that a fault is about.
fn allowed_at(
    alloc: Global,
    document: &Table,
    fault: ConfigFault,
    key: FaultyKey<'_>,
) -> Option<String> {
    let words = match (fault, key) {
        (ConfigFault::TwiceId { .. } | ConfigFault::TwiceName { .. }, FaultyKey::Known(key)) => {
            return taken_by(alloc, document, subject_of(document, fault)?.table, key);
        }
        (_, FaultyKey::Known(key)) => key.allowed(),
        (_, FaultyKey::Unknown(_)) => known_keys(link_of(fault)),
    };
    String::from_str(alloc, words).ok()
}

/// Where a key stands, or where it is missing the header of the link.
fn offset_of(alloc: Global, text: &str, link: Option<u32>, key: FaultyKey<'_>) -> Option<usize> {
    let name = match key {
        FaultyKey::Known(key) => key.name(),
        FaultyKey::Unknown(name) => name,
    };
    match key_offset(alloc, text, link, name) {
        Some(at) => Some(at),
        None => link_offset(alloc, text, link?),
    }
}

/// The first fault of its kind of the keys of a table.
fn slip_of_key(alloc: Global, text: &str, document: &Table, fault: ConfigFault) -> Option<Slip> {
    let subject = subject_of(document, fault)?;
    let key = faulty_key(fault, subject.table)?;
    slip_at(alloc, text, document, fault, key)
}

/// The words for the fault of one key, in a table's text and the document that it is. None: there
/// is no memory for it, or the document has no such link.
pub fn slip_at(
    alloc: Global,
    text: &str,
    document: &Table,
    fault: ConfigFault,
    key: FaultyKey<'_>,
) -> Option<Slip> {
    let subject = subject_of(document, fault)?;
    Some(Slip {
        at: offset_of(alloc, text, subject.link, key),
        found: found_at(alloc, subject, key).ok()?,
        allowed: allowed_at(alloc, document, fault, key)?,
    })
}

/// How many elements the array at a key has, 0 where there is none.
fn count_at(document: &Table, key: Key) -> usize {
    match document.get(key.name()) {
        Some(value) => value.as_array().map_or(0, |values| values.len()),
        None => 0,
    }
}

/// So many things of a kind, which has its plural by an s.
#[derive(Clone, Copy)]
struct Counted(usize, &'static str);

impl Display for Counted {
    fn fmt<W: fmt::Write>(&self, f: &mut Formatter<W>) -> fmt::Result {
        let (count, kind) = (self.0, self.1);
        let ending = if count == 1 { "" } else { "s" };
        write!(f, "{count} {kind}{ending}")
    }
}

/// More links or filters than a table may have.
fn slip_of_count(alloc: Global, text: &str, document: &Table) -> Option<Slip> {
    let links = count_at(document, Key::Link);
    let filters = count_at(document, Key::Filters);
    let (of_links, of_filters) = (Counted(links, "link"), Counted(filters, "filter"));
    let found = format!(in alloc; "{of_links} and {of_filters}").ok()?;
    let allowed = format!(in alloc;
        "at most {MAX_LINKS} links and {MAX_TABLE_FILTERS} filters"
    ).ok()?;
    let at = if links > MAX_LINKS {
        link_offset(alloc, text, MAX_LINKS as u32)
    } else {
        key_offset(alloc, text, None, Key::Filters.name())
    };
    Some(Slip { at, found, allowed })
}

/// A text that is no TOML document.
fn slip_of_text(alloc: Global, error: toml::de::Error) -> Option<Slip> {
    Some(Slip {
        at: Some(error.span()?.start),
        found: String::from_str(alloc, error.message()).ok()?,
        allowed: String::from_str(alloc, "the table is a TOML document").ok()?,
    })
}

/// The words for the first fault of a table's text. None: there is no memory for them, or nothing
/// more is known of the fault than its line says.
pub fn slip_of(alloc: Global, text: &str, fault: ConfigFault) -> Option<Slip> {
    let document = match toml::table_from_str(alloc, text) {
        Ok(document) => document,
        Err(error) => return slip_of_text(alloc, error),
    };
    match fault {
        ConfigFault::TooMany => slip_of_count(alloc, text, &document),
        _ => slip_of_key(alloc, text, &document, fault),
    }
}
