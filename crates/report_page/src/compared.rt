//! Two flights: what is otherwise in their tables, and what is found in one of them alone.

use crate::groups::group_of;
use crate::view::View;
use afdx_frame::VlId;
use findings::{Finding, Findings, Kind};
use ledger_report::Report;
use vl_config::{Config, Link};

/// The link of a table that has this identifier.
pub fn link_in(config: &Config, id: VlId) -> Option<&Link> {
    let place = config.links().binary_search_by_key(&id.0, |link| link.id.0);
    config.links().get(place.ok()?)
}

/// How a link's rows in two tables differ.
#[derive(Clone, Copy, PartialEq, Eq)]
pub enum Revision {
    /// Only today's table has it.
    Added,
    /// Only the baseline's table has it.
    Removed,
    Renamed,
    /// Another key is otherwise.
    Changed,
}

pub const REVISIONS: [Revision; 4] = [
    Revision::Added,
    Revision::Removed,
    Revision::Renamed,
    Revision::Changed,
];

impl Revision {
    /// Its word in the page, in texts and in JSON.
    pub fn word(self) -> &'static str {
        match self {
            Revision::Added => "added",
            Revision::Removed => "removed",
            Revision::Renamed => "renamed",
            Revision::Changed => "changed",
        }
    }

    /// Do the rows of a link differ so?
    fn is_of(self, today: Option<&Link>, before: Option<&Link>) -> bool {
        match (self, today, before) {
            (Revision::Added, Some(_), None) | (Revision::Removed, None, Some(_)) => true,
            (Revision::Renamed, Some(today), Some(before)) => today.name != before.name,
            (Revision::Changed, Some(today), Some(before)) => {
                keys_of(today, before).iter().any(|key| key.1)
            }
            _ => false,
        }
    }
}

/// The keys of a link's row but its name, and whether they are otherwise.
pub fn keys_of(today: &Link, before: &Link) -> [(&'static str, bool); 7] {
    [
        ("bag_ms", today.bag != before.bag),
        ("jitter_us", today.jitter != before.jitter),
        ("smax", today.smax != before.smax),
        ("integrity", today.integrity != before.integrity),
        ("redundancy", today.redundancy != before.redundancy),
        ("skew_us", today.skew != before.skew),
        ("group", group_of(today) != group_of(before)),
    ]
}

/// The links of the table in which tables may differ so.
pub fn links_for<'a>(today: &'a Config, before: &'a Config, how: Revision) -> &'a [Link] {
    match how {
        Revision::Removed => before.links(),
        _ => today.links(),
    }
}

/// Do the tables differ so on the link of this identifier?
pub fn is_revised(today: &Config, before: &Config, how: Revision, id: VlId) -> bool {
    how.is_of(link_in(today, id), link_in(before, id))
}

/// Is a finding about one of the links of another, or are both about no link?
fn share_links(one: &Finding, other: &Finding) -> bool {
    if one.links.is_empty() || other.links.is_empty() {
        return one.links.is_empty() && other.links.is_empty();
    }
    let among = |id: &VlId| other
        .links
        .binary_search_by_key(&id.0, |held| held.0)
        .is_ok();
    one.links.iter().any(among)
}

/// Has a flight a finding of the same kind and networks, about one of the same links?
pub fn is_among(finding: &Finding, others: &Findings) -> bool {
    let mut same = others.all.iter().filter(|other| other.kind == finding.kind
        && other.side == finding.side);
    same.any(|other| share_links(finding, other))
}

/// Is a finding told of one of two flights alone?
pub fn is_only_in(finding: &Finding, others: &Findings) -> bool {
    !finding.is_rest && !is_among(finding, others)
}

/// How many findings of a flight are only in this one.
pub fn only_in(findings: &Findings, others: &Findings) -> u64 {
    let only = findings.all.iter().filter(|one| is_only_in(one, others));
    only.count() as u64
}

/// How many findings there are of a kind.
pub fn count_of(findings: &Findings, kind: Kind) -> u64 {
    findings.all.iter().filter(|one| one.kind == kind).count() as u64
}

/// Is the finding at a place the first of its kind?
pub fn is_first(findings: &Findings, at: usize) -> bool {
    let Some(finding) = findings.all.get(at) else {
        return false;
    };
    let before = findings.all.iter().take(at);
    before.filter(|one| one.kind == finding.kind).count() == 0
}

/// Is a finding new since the baseline, if there is one?
pub fn is_new(view: &View<'_>, finding: &Finding) -> bool {
    view.baseline
        .is_some_and(|baseline| is_only_in(finding, &baseline.findings))
}
