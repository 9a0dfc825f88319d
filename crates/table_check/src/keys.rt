//! The faults of the keys of one table.

use crate::fault::{TableFault, of_key};
use std::alloc::{AllocError, Global};
use toml::Table;
use vl_config::{ConfigFault, Key, is_missing, is_other_kind, is_out_of_range, is_unknown};

/// Is the key there, with a value of its type and in its range?
pub fn is_good(table: &Table, key: Key) -> bool {
    !is_missing(table, key) && !is_other_kind(table, key) && !is_out_of_range(table, key)
}

/// Has a table this fault at a key? A value of another type is not out of its range too.
fn has_fault(table: &Table, key: Key, fault: ConfigFault) -> bool {
    match fault {
        ConfigFault::Missing { .. } => is_missing(table, key),
        ConfigFault::Kind { .. } => is_other_kind(table, key),
        ConfigFault::Range { .. } => { !is_other_kind(table, key) && is_out_of_range(table, key) }
        _ => false,
    }
}

/// Adds this fault of each key that has it.
fn tell_each(
    alloc: Global,
    faults: &mut Vec<TableFault>,
    keys: &[Key],
    fault: ConfigFault,
    table: &Table,
) -> Result<(), AllocError> {
    for key in keys {
        if has_fault(table, *key, fault) {
            faults.push(of_key(alloc, fault, *key))?;
        }
    }
    Ok(())
}

/// Adds the names in the table, in the order of their bytes, that are none of the keys.
fn tell_unknown(
    alloc: Global,
    faults: &mut Vec<TableFault>,
    keys: &[Key],
    link: Option<u32>,
    table: &Table,
) -> Result<(), AllocError> {
    for name in table.keys() {
        if is_unknown(keys, name.as_str()) {
            faults.push(TableFault {
                fault: ConfigFault::UnknownKey { link },
                key: None,
                unknown: String::from_str(alloc, name.as_str())?,
            })?;
        }
    }
    Ok(())
}

/// Adds all faults of the keys of a table: of the top table, or of the link at an index.
pub fn tell_keys(
    alloc: Global,
    faults: &mut Vec<TableFault>,
    keys: &[Key],
    link: Option<u32>,
    table: &Table,
) -> Result<(), AllocError> {
    tell_each(alloc, faults, keys, ConfigFault::Missing { link }, table)?;
    tell_each(alloc, faults, keys, ConfigFault::Kind { link }, table)?;
    tell_each(alloc, faults, keys, ConfigFault::Range { link }, table)?;
    tell_unknown(alloc, faults, keys, link, table)
}
