//! The faults of links: of their keys, and what an earlier link has too.

use crate::fault::{TableFault, of_key};
use crate::keys::{is_good, tell_keys};
use std::alloc::{AllocError, Global};
use toml::Value;
use vl_config::{ConfigFault, Key, LINK_KEYS, number_at, text_at};

/// The index of a link in the document, as a fault tells it.
fn place_of(index: usize) -> Option<u32> {
    u32::try_from(index).ok()
}

/// Adds the faults of the keys of links.
pub fn tell_links(
    alloc: Global,
    faults: &mut Vec<TableFault>,
    values: &[Value],
) -> Result<(), AllocError> {
    for (index, value) in values.iter().enumerate() {
        if let Some(table) = value.as_table() {
            tell_keys(alloc, faults, &LINK_KEYS, place_of(index), table)?;
        }
    }
    Ok(())
}

/// The values that no two links may share, where a link has them.
#[derive(Clone, Copy, Debug)]
pub struct Own<'a> {
    id: Option<u64>,
    name: Option<&'a str>,
}

impl<'a> Own<'a> {
    /// The values that a link has for itself.
    fn of(value: &'a Value) -> Own<'a> {
        let mut own = Own {
            id: None,
            name: None,
        };
        if let Some(table) = value.as_table() {
            if is_good(table, Key::Id) {
                own.id = Some(number_at(table, Key::Id));
            }
            if is_good(table, Key::Name) {
                own.name = Some(text_at(table, Key::Name));
            }
        }
        own
    }

    /// Has an earlier link the identifier of this one?
    fn has_id_of(&self, earlier: &[Own<'_>]) -> bool {
        self.id.is_some() && earlier.iter().any(|own| own.id == self.id)
    }

    /// Has an earlier link the name of this one?
    fn has_name_of(&self, earlier: &[Own<'_>]) -> bool {
        self.name.is_some() && earlier.iter().any(|own| own.name == self.name)
    }
}

/// The values that each of the links has for itself.
pub fn owns_of(alloc: Global, values: &[Value]) -> Result<Vec<Own<'_>>, AllocError> {
    let mut owns = Vec::new(alloc);
    for value in values {
        owns.push(Own::of(value))?;
    }
    Ok(owns)
}

/// Adds a fault for each link whose identifier or name an earlier one has.
pub fn tell_twice(
    alloc: Global,
    faults: &mut Vec<TableFault>,
    owns: &[Own<'_>],
) -> Result<(), AllocError> {
    for (index, own) in owns.iter().enumerate() {
        let (earlier, link) = (&owns[..index], place_of(index));
        if own.has_id_of(earlier) {
            faults.push(of_key(alloc, ConfigFault::TwiceId { link }, Key::Id))?;
        }
        if own.has_name_of(earlier) {
            faults.push(of_key(alloc, ConfigFault::TwiceName { link }, Key::Name))?;
        }
    }
    Ok(())
}
