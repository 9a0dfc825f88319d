//! The first fault of the keys of a table, and the values at keys.

ghost use Rattle.std.specs.Prelude.{◌≡◌, ◌≢◌, Some, None, IfErr, MatchResult, map, nat_eq, string_bytes};
ghost use Rattle.std.specs.Option.{option_map};
ghost use Rattle.std.specs.List.{list_any};
ghost use Rattle.std.specs.Map.{keys_of};
ghost use Rattle.std.specs.Cmp.Lexicographic.{pointwise};
ghost use Rattle.toml.specs.Data.{get_member};
ghost use Rattle.toml.specs.View.{view, table_view};
ghost use Rattle.vl_config.specs.Keys.{key_name, is_missing, is_other_kind, is_out_of_range, is_known, is_unknown, has_unknown, keys_fault};
ghost use Rattle.vl_config.specs.Document.{number_at, text_at, text_if_at, flag_at, items_at};

use crate::fault::ConfigFault;
use crate::key::{Key, natural};
use toml::{Table, Value};

/// Finds the first fault of the keys of a table, of the top table or of the link at this index.
pub fn check_keys(keys: &[Key], link: Option<u32>, table: &Table) -> Result<(), ConfigFault>
    ensures first { MatchResult result
        (λ _. keys_fault keys.now link (table_view table.now) ≡ None)
        (λ fault. keys_fault keys.now link (table_view table.now) ≡ Some fault) }
    ensures no_memory { IfErr result (λ fault. fault ≢ ConfigFault.Memory) }
{
    if is_any_missing(keys, table) {
        return Err(ConfigFault::Missing { link });
    }
    if is_any_other_kind(keys, table) {
        return Err(ConfigFault::Kind { link });
    }
    if is_any_out_of_range(keys, table) {
        return Err(ConfigFault::Range { link });
    }
    if has_unknown(keys, table) {
        return Err(ConfigFault::UnknownKey { link });
    }
    Ok(())
}

fn is_any_missing(keys: &[Key], table: &Table) -> bool
    ensures { result ≡ list_any (is_missing (table_view table.now)) keys.now }
{
    keys.iter().any(|key| is_missing(table, *key))
}

fn is_any_other_kind(keys: &[Key], table: &Table) -> bool
    ensures { result ≡ list_any (is_other_kind (table_view table.now)) keys.now }
{
    keys.iter().any(|key| is_other_kind(table, *key))
}

fn is_any_out_of_range(keys: &[Key], table: &Table) -> bool
    ensures { result ≡ list_any (is_out_of_range (table_view table.now)) keys.now }
{
    keys.iter().any(|key| is_out_of_range(table, *key))
}

/// True if the table lacks a key that it must have.
pub fn is_missing(table: &Table, key: Key) -> bool
    ensures { result ≡ is_missing (table_view table.now) key }
{
    key.is_required() && value_at(table, key).is_none()
}

/// True if the key has a value of another kind than its own in the table.
pub fn is_other_kind(table: &Table, key: Key) -> bool
    ensures { result ≡ is_other_kind (table_view table.now) key }
{
    match value_at(table, key) {
        Some(value) => !key.is_kind(value),
        None => false,
    }
}

/// True if the key has a value out of its range in the table.
pub fn is_out_of_range(table: &Table, key: Key) -> bool
    ensures { result ≡ is_out_of_range (table_view table.now) key }
{
    match value_at(table, key) {
        Some(value) => !key.is_in_range(value),
        None => false,
    }
}

#[tactic(auto, using(crate::proofs::Items::has_unknown_view))]
fn has_unknown(keys: &[Key], table: &Table) -> bool
    ensures { result ≡ has_unknown keys.now (table_view table.now) }
{
    is_any_unknown(keys, table)
}

fn is_any_unknown(keys: &[Key], table: &Table) -> bool
    ensures { result ≡ list_any (λ name. is_unknown keys.now (string_bytes name))
        (keys_of table.now.entries) }
{
    table.keys().any(|name| is_unknown(keys, name.as_str()))
}

/// True if the name is that of none of these keys.
pub fn is_unknown(keys: &[Key], name: &str) -> bool
    ensures { result ≡ is_unknown keys.now name.now }
{
    !is_known(keys, name)
}

fn is_known(keys: &[Key], name: &str) -> bool
    ensures { result ≡ is_known keys.now name.now }
{
    keys.iter().any(|key| has_name(*key, name))
}

fn has_name(key: Key, name: &str) -> bool
    ensures { result ≡ pointwise nat_eq (key_name key) name.now }
{
    key.name() == name
}

/// The value at a key.
fn value_at(table: &Table, key: Key) -> Option<&Value>
    ensures { option_map (λ value. view value.now) result
        ≡ get_member (key_name key) (table_view table.now) }
{
    table.get(key.name())
}

/// The number at a key, 0 where there is none.
pub fn number_at(table: &Table, key: Key) -> u64
    ensures { result ≡ number_at key (table_view table.now) }
{
    match value_at(table, key) {
        Some(value) => natural(value).unwrap_or(0),
        None => 0,
    }
}

/// The string at a key, empty where there is none.
pub fn text_at(table: &Table, key: Key) -> &str
    ensures { result.now ≡ text_at key (table_view table.now) }
{
    match value_at(table, key) {
        Some(value) => value.as_str().unwrap_or(""),
        None => "",
    }
}

/// The string at a key, if there is a value.
pub fn text_if_at(table: &Table, key: Key) -> Option<&str>
    ensures { option_map (λ text. text.now) result ≡ text_if_at key (table_view table.now) }
{
    let value = value_at(table, key)?;
    Some(value.as_str().unwrap_or(""))
}

/// The boolean at a key, false where there is none.
pub fn flag_at(table: &Table, key: Key) -> bool
    ensures { result ≡ flag_at key (table_view table.now) }
{
    match value_at(table, key) {
        Some(value) => value.as_bool().unwrap_or(false),
        None => false,
    }
}

/// The items of the array at a key, none where there is no array.
pub fn values_at(table: &Table, key: Key) -> &[Value]
    ensures { map view result.now ≡ items_at key (table_view table.now) }
{
    let Some(value) = value_at(table, key) else {
        return &[];
    };
    match value.as_array() {
        Some(values) => values.as_slice(),
        None => &[],
    }
}
