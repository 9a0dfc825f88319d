//! The entry point: the text of a table comes in here, and all its faults come out.

use crate::fault::{TableFault, of_whole};
use crate::keys::tell_keys;
use crate::links::{owns_of, tell_links, tell_twice};
use std::alloc::{AllocError, Global};
use toml::Table;
use vl_config::{ConfigFault, Key, MAX_LINKS, MAX_TABLE_FILTERS, TOP_KEYS, values_at};

/// All faults of the text of a table, in the order in which [`vl_config::Config::read`] looks for the first.
/// That takes the text exactly where there is none. Of more links than a table may have none is looked at.
///
/// # Errors
///
/// `AllocError` if the system is out of memory.
pub fn table_faults(alloc: Global, text: &str) -> Result<Vec<TableFault>, AllocError> {
    let mut faults = Vec::new(alloc);
    match toml::table_from_str(alloc, text) {
        Ok(table) => tell_document(alloc, &mut faults, &table)?,
        Err(error) if error.is_memory() => return Err(AllocError),
        Err(_) => faults.push(of_whole(alloc, ConfigFault::Text))?,
    }
    Ok(faults)
}

/// Adds all faults of a document's top table and its links.
fn tell_document(
    alloc: Global,
    faults: &mut Vec<TableFault>,
    table: &Table,
) -> Result<(), AllocError> {
    tell_keys(alloc, faults, &TOP_KEYS, None, table)?;
    let links = values_at(table, Key::Link);
    let filters = values_at(table, Key::Filters).len();
    if links.len() > MAX_LINKS || filters > MAX_TABLE_FILTERS {
        faults.push(of_whole(alloc, ConfigFault::TooMany))?;
    }
    if links.len() > MAX_LINKS {
        return Ok(());
    }
    tell_links(alloc, faults, links)?;
    let owns = owns_of(alloc, links)?;
    tell_twice(alloc, faults, &owns)
}
