//! The links and the filters of the document.

ghost use Rattle.std.specs.Prelude.{◌≡◌, ◌≢◌, ◌≤◌, Some, None, IfOk, IfErr, OnOk, MatchResult, [], map, length, string_bytes, IsPermutation};
ghost use Rattle.std.specs.List.Sorted.{IsNonDecreasingBy};
ghost use Rattle.toml.specs.View.{view, table_view};
ghost use Rattle.vl_config.specs.Document.{link_of, link_in, link_fault, links_fault, twice_in, twice_fault, text_of, has_id, has_same_id, has_name, HasRanges};
ghost use Rattle.std.specs.List.{list_any, IsDistinct};
ghost use Rattle.vl_config.specs.declared.config.TheConstants.{MAX_LINKS};

use crate::fault::ConfigFault;
use crate::key::{Key, LINK_KEYS};
use crate::link::Link;
use crate::tables::{check_keys, flag_at, number_at, text_at, text_if_at};
use afdx_frame::VlId;
use std::alloc::Global;
use toml::{Table, Value};

/// Nanoseconds.
const MILLISECOND: u64 = 1_000_000;
/// Nanoseconds.
pub const MICROSECOND: u64 = 1000;

/// Reads the links in the order of the document, or finds the first fault of their keys.
#[tactic(auto, using(crate::proofs::Steps::links_fault_more))]
pub fn read_links(alloc: Global, values: &[Value]) -> Result<Vec<Link>, ConfigFault>
    requires { length values.now ≤ MAX_LINKS }
    ensures links { IfOk result (λ links. links.items ≡ map link_in (map view values.now)) }
    ensures len { IfOk result (λ links. length links.items ≡ length values.now) }
    ensures no_fault { OnOk result (links_fault 0 (map view values.now) ≡ None) }
    ensures fault { IfErr result (λ fault. fault ≢ ConfigFault.Memory →
        links_fault 0 (map view values.now) ≡ Some fault) }
{
    let mut links = Vec::new(alloc);
    for (index, value) in values.iter().enumerate() {
        let link = read_link(alloc, value, index as u32)?;
        links.push(link)?;
    }
    Ok(links)
}

/// Reads the link at an index, or finds the first fault of its keys.
#[tactic(auto, using(crate::proofs::Ranges::link_ranges))]
fn read_link(alloc: Global, value: &Value, index: u32) -> Result<Link, ConfigFault>
    ensures link { IfOk result (λ link. link ≡ link_in (view value.now)) }
    ensures no_fault { OnOk result (link_fault index (view value.now) ≡ None) }
    ensures fault { IfErr result (λ fault. fault ≢ ConfigFault.Memory →
        link_fault index (view value.now) ≡ Some fault) }
{
    let Some(table) = value.as_table() else {
        return Err(ConfigFault::Kind { link: None });
    };
    check_keys(&LINK_KEYS, Some(index), table)?;
    make_link(alloc, table)
}

/// Makes a link of a table without a fault.
fn make_link(alloc: Global, table: &Table) -> Result<Link, ConfigFault>
    requires { HasRanges (table_view table.now) }
    ensures link { IfOk result (λ link. link ≡ link_of (table_view table.now)) }
    ensures memory { IfErr result (λ fault. fault ≡ ConfigFault.Memory) }
{
    let name = String::from_str(alloc, text_at(table, Key::Name))?;
    let group = match text_if_at(table, Key::Group) {
        Some(group) => Some(String::from_str(alloc, group)?),
        None => None,
    };
    Ok(Link {
        id: VlId(number_at(table, Key::Id) as u16),
        name,
        bag: number_at(table, Key::BagMs) * MILLISECOND,
        jitter: number_at(table, Key::JitterUs) * MICROSECOND,
        smax: number_at(table, Key::Smax) as u32,
        integrity: flag_at(table, Key::Integrity),
        redundancy: flag_at(table, Key::Redundancy),
        skew: number_at(table, Key::SkewUs) * MICROSECOND,
        group,
    })
}

/// Finds the first link whose identifier or name an earlier one has.
#[tactic(auto, using(crate::proofs::Steps::twice_fault_more, crate::proofs::Distinct::links_distinct))]
pub fn check_twice(links: &[Link]) -> Result<(), ConfigFault>
    requires { length links.now ≤ MAX_LINKS }
    ensures first { MatchResult result
        (λ _. twice_fault 0 [] links.now ≡ None)
        (λ fault. twice_fault 0 [] links.now ≡ Some fault) }
    ensures distinct { OnOk result (IsDistinct has_same_id links.now) }
{
    for (index, link) in links.iter().enumerate() {
        check_link_twice(&links[..index], link, index as u32)?;
    }
    Ok(())
}

fn check_link_twice(earlier: &[Link], link: &Link, index: u32) -> Result<(), ConfigFault>
    ensures { MatchResult result
        (λ _. twice_in index earlier.now link.now ≡ None)
        (λ fault. twice_in index earlier.now link.now ≡ Some fault) }
{
    let twice = Some(index);
    if is_any_with_id(earlier, link.id) {
        return Err(ConfigFault::TwiceId { link: twice });
    }
    if is_any_with_name(earlier, link.name.as_str()) {
        return Err(ConfigFault::TwiceName { link: twice });
    }
    Ok(())
}

fn is_any_with_id(links: &[Link], id: VlId) -> bool
    ensures { result ≡ list_any (has_id id) links.now }
{
    links.iter().any(|link| link.id == id)
}

fn is_any_with_name(links: &[Link], name: &str) -> bool
    ensures { result ≡ list_any (has_name name.now) links.now }
{
    links.iter().any(|link| link.name.as_str() == name)
}

/// Sorts links by rising identifier.
pub fn sort_by_id(links: &mut Vec<Link>) -> Result<(), ConfigFault>
    ensures permutation { IsPermutation links.old.items links.new.items }
    ensures len { length links.new.items ≡ length links.old.items }
    ensures rising { OnOk result (IsNonDecreasingBy (λ link. link.id.0) links.new.items) }
    ensures distinct { IsDistinct has_same_id links.old.items →
        IsDistinct has_same_id links.new.items }
    ensures memory { IfErr result (λ fault. fault ≡ ConfigFault.Memory) }
{
    links.sort_by_key(|link| link.id.0)?;
    Ok(())
}

/// Reads the filters, each as its text.
pub fn read_filters(alloc: Global, values: &[Value]) -> Result<Vec<String>, ConfigFault>
    ensures len { IfOk result (λ filters. length filters.items ≡ length values.now) }
    ensures filters { IfOk result (λ filters.
        map string_bytes filters.items ≡ map text_of (map view values.now)) }
    ensures memory { IfErr result (λ fault. fault ≡ ConfigFault.Memory) }
{
    let mut filters = Vec::new(alloc);
    for value in values {
        let text = value.as_str().unwrap_or("");
        let filter = String::from_str(alloc, text)?;
        filters.push(filter)?;
    }
    Ok(filters)
}
