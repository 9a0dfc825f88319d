//! Which key a fault of a table is about, for a message that names it.

ghost use Rattle.std.specs.Prelude.{◌≡◌, true, IfSome, find};
ghost use Rattle.toml.specs.View.{table_view};
ghost use Rattle.vl_config.specs.Keys.{is_missing, is_other_kind, is_out_of_range, is_unknown};

use crate::fault::ConfigFault;
use crate::key::{Key, LINK_KEYS, TOP_KEYS};
use crate::tables::{is_missing, is_other_kind, is_out_of_range, is_unknown};
use toml::Table;

/// The subject of a fault of a table: one of its keys, or a name that is none of them.
#[derive(Clone, Copy)]
pub enum FaultyKey<'a> {
    Known(Key),
    Unknown(&'a str),
}

/// The first of the keys that the table has to have and hasn't.
fn first_missing(keys: &[Key], table: &Table) -> Option<Key>
    ensures { result ≡ find (is_missing (table_view table.now)) keys.now }
{
    keys.iter().copied().find(|key| is_missing(table, *key))
}

/// The first of the keys whose value has another type.
fn first_other_kind(keys: &[Key], table: &Table) -> Option<Key>
    ensures { result ≡ find (is_other_kind (table_view table.now)) keys.now }
{
    keys.iter().copied().find(|key| is_other_kind(table, *key))
}

/// The first of the keys whose value is out of its range.
fn first_out_of_range(keys: &[Key], table: &Table) -> Option<Key>
    ensures { result ≡ find (is_out_of_range (table_view table.now)) keys.now }
{
    keys.iter()
        .copied()
        .find(|key| is_out_of_range(table, *key))
}

/// The first name in the table, in the order of their bytes, that is none of the keys.
fn first_unknown<'a>(keys: &[Key], table: &'a Table) -> Option<&'a str>
    ensures { IfSome result (λ name. is_unknown keys.now name.now ≡ true) }
{
    for name in table.keys() {
        if is_unknown(keys, name.as_str()) {
            return Some(name.as_str());
        }
    }
    None
}

/// The subject of a fault in the table that it names: that of the link, or of the network. None: it is about
/// no single key, or the table has no such fault.
pub fn faulty_key<'a>(fault: ConfigFault, table: &'a Table) -> Option<FaultyKey<'a>> {
    let key = match fault {
        ConfigFault::Missing { link } => first_missing(keys_of(link), table)?,
        ConfigFault::Kind { link } => first_other_kind(keys_of(link), table)?,
        ConfigFault::Range { link } => first_out_of_range(keys_of(link), table)?,
        ConfigFault::UnknownKey { link } => {
            return Some(FaultyKey::Unknown(first_unknown(keys_of(link), table)?));
        }
        ConfigFault::TwiceId { .. } => Key::Id,
        ConfigFault::TwiceName { .. } => Key::Name,
        ConfigFault::Text | ConfigFault::TooMany | ConfigFault::Memory => return None,
    };
    Some(FaultyKey::Known(key))
}

fn keys_of(link: Option<u32>) -> &'static [Key] {
    match link {
        Some(_) => &LINK_KEYS,
        None => &TOP_KEYS,
    }
}
