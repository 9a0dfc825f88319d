//! The groups of links, as an LRU or a port, that the table says.

use crate::compared::link_in;
use crate::view::View;
use afdx_frame::VlId;
use findings::Finding;
use vl_config::Link;

/// The group of a link, if it has one.
pub fn group_of(link: &Link) -> Option<&str> {
    let group = link.group.as_ref()?;
    Some(group.as_str())
}

/// Has a link of the table a group?
pub fn has_groups(view: &View<'_>) -> bool {
    view.config.links().iter().any(|link| link.group.is_some())
}

/// How many links of the table are of a group.
pub fn links_in(view: &View<'_>, group: &str) -> usize {
    let links = view.config.links().iter();
    links.filter(|link| group_of(link) == Some(group)).count()
}

/// The group of the link that has this identifier, if it has one.
fn group_at<'a>(view: &View<'a>, id: VlId) -> Option<&'a str> {
    group_of(link_in(view.config, id)?)
}

/// The group of which all links of a finding are, if there is one.
pub fn shared_group<'a>(view: &View<'a>, finding: &Finding) -> Option<&'a str> {
    let group = group_at(view, *finding.links.first()?)?;
    let mut links = finding.links.iter();
    let shared = links.all(|id| group_at(view, *id) == Some(group));
    shared.then_some(group)
}
