//! The check of a draft: the table that its text is read back as is the one that the draft says.

ghost use Rattle.std.specs.Prelude.{◌≡◌, ◌*◌, true, string_bytes};
ghost use Rattle.std.specs.Option.{option_map};
ghost use Rattle.table_draft.specs.Drafts.{AreLinksOf, HasValues, IsLinkOf, IsTableOf};

use crate::draft::Draft;
use crate::estimate::Estimate;
use crate::known::Drafted;
use vl_config::{Config, Link};

/// Is the table the one that a draft says?
pub fn is_table_of(table: &Config, draft: &Draft) -> bool
    ensures { result ≡ true → IsTableOf draft.now table.now }
{
    if table.constant() != draft.constant || !table.filters().is_empty() {
        return false;
    }
    if !is_times(table.late(), draft.late_us, 1000) {
        return false;
    }
    are_links_of(table.links(), draft.links.as_slice())
}

/// Is it so many times the unit?
fn is_times(nanos: u64, count: u64, unit: u64) -> bool
    ensures { result ≡ true → nanos ≡ count * unit }
{
    match count.checked_mul(unit) {
        Some(product) => product == nanos,
        None => false,
    }
}

fn are_links_of(links: &[Link], drafted: &[Drafted]) -> bool
    ensures { result ≡ true → AreLinksOf drafted.now links.now }
{
    if links.len() != drafted.len() {
        return false;
    }
    for index in 0..links.len() {
        if !is_link_of(&links[index], &drafted[index]) {
            return false;
        }
    }
    true
}

fn is_link_of(link: &Link, drafted: &Drafted) -> bool
    ensures { result ≡ true → IsLinkOf drafted.now link.now }
{
    if link.id != drafted.id || link.name.as_str() != drafted.name.as_str() {
        return false;
    }
    if !is_group_of(&link.group, &drafted.group) {
        return false;
    }
    has_values(link, drafted.values)
}

fn is_group_of(group: &Option<String>, drafted: &Option<String>) -> bool
    ensures { result ≡ true → option_map string_bytes group.now ≡ option_map string_bytes drafted.now }
{
    match (group, drafted) {
        (Some(group), Some(drafted)) => group.as_str() == drafted.as_str(),
        (None, None) => true,
        _ => false,
    }
}

fn has_values(link: &Link, values: Estimate) -> bool
    ensures { result ≡ true → HasValues values link.now }
{
    if u64::from(link.smax) != values.smax || link.integrity != values.integrity {
        return false;
    }
    if link.redundancy != values.redundancy || !is_times(link.bag, values.bag_ms, 1_000_000) {
        return false;
    }
    is_times(link.jitter, values.jitter_us, 1000) && is_times(link.skew, values.skew_us, 1000)
}
