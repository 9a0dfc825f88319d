//! The faults of a table, each with its place in the text and in words.

use crate::words::fault_word;
use command_line::{Place, place_at};
use std::alloc::{AllocError, Global};
use table_check::{Slip, TableFault, link_of, link_table, slip_at, slip_of};
use toml::Table;
use vl_config::{FaultyKey, Key};

/// How many faults of a table are told at most: each is looked for in the text.
pub const MAX_TOLD: usize = 100;

/// A fault of the table as it is told.
#[derive(Drop)]
pub struct ToldFault {
    pub place: Option<Place>,
    /// The name of the fault.
    pub word: &'static str,
    /// The index of the link.
    pub link: Option<u32>,
    /// The identifier and the name of the link, where it has them.
    pub id: Option<i64>,
    pub name: Option<String>,
    pub key: Option<String>,
    pub found: String,
    pub allowed: String,
}

fn id_of(link: Option<&Table>) -> Option<i64> {
    link?.get(Key::Id.name())?.as_integer()
}

fn name_of(alloc: Global, link: Option<&Table>) -> Result<Option<String>, AllocError> {
    let name = match link {
        Some(table) => match table.get(Key::Name.name()) {
            Some(value) => value.as_str(),
            None => None,
        },
        None => None,
    };
    match name {
        Some(name) => Ok(Some(String::from_str(alloc, name)?)),
        None => Ok(None),
    }
}

/// The key that a fault is about.
fn faulty_key(fault: &TableFault) -> Option<FaultyKey<'_>> {
    match fault.key {
        Some(key) => Some(FaultyKey::Known(key)),
        None if fault.unknown.is_empty() => None,
        None => Some(FaultyKey::Unknown(fault.unknown.as_str())),
    }
}

fn key_of(alloc: Global, fault: &TableFault) -> Result<Option<String>, AllocError> {
    let name = match faulty_key(fault) {
        Some(FaultyKey::Known(key)) => key.name(),
        Some(FaultyKey::Unknown(name)) => name,
        None => return Ok(None),
    };
    Ok(Some(String::from_str(alloc, name)?))
}

/// The place and the words of a fault.
fn slip_in(
    alloc: Global,
    text: &str,
    document: Option<&Table>,
    fault: &TableFault,
) -> Option<Slip> {
    match (document, faulty_key(fault)) {
        (Some(document), Some(key)) => slip_at(alloc, text, document, fault.fault, key),
        _ => slip_of(alloc, text, fault.fault),
    }
}

fn told(
    alloc: Global,
    text: &str,
    document: Option<&Table>,
    fault: &TableFault,
) -> Result<ToldFault, AllocError> {
    let link = link_of(fault.fault);
    let table = match (document, link) {
        (Some(document), Some(index)) => link_table(document, index),
        _ => None,
    };
    let (at, found, allowed) = match slip_in(alloc, text, document, fault) {
        Some(Slip { at, found, allowed }) => (at, found, allowed),
        None => (None, String::new(alloc), String::new(alloc)),
    };
    Ok(ToldFault {
        place: at.and_then(|at| place_at(text, at)),
        word: fault_word(fault.fault),
        link,
        id: id_of(table),
        name: name_of(alloc, table)?,
        key: key_of(alloc, fault)?,
        found,
        allowed,
    })
}

/// The first faults of a table's text, as they are told.
///
/// # Errors
///
/// `AllocError` if the system is out of memory.
pub fn told_faults(
    alloc: Global,
    text: &str,
    faults: &[TableFault],
) -> Result<Vec<ToldFault>, AllocError> {
    let document = match toml::table_from_str(alloc, text) {
        Ok(document) => Some(document),
        Err(_) => None,
    };
    let mut list = Vec::new(alloc);
    for fault in faults.iter().take(MAX_TOLD) {
        list.push(told(alloc, text, document.as_ref(), fault)?)?;
    }
    Ok(list)
}
