//! The part of a table of virtual links that a ledger keeps.
ghost use Rattle.std.specs.Prelude.{◌≡◌, [], IfOk};
ghost use Rattle.verdict_ledger.specs.Ledger.{IsTallyOf};

use crate::tally::Tally;
use std::alloc::{AllocError, Global};
use vl_config::{Config, Link};

/// The links, and the counts of no frame.
pub fn kept_of(alloc: Global, config: &Config) -> Result<(Vec<Link>, Tally), AllocError>
    ensures links { IfOk result (λ kept. kept.0.items ≡ config.now.links) }
    ensures tally { IfOk result (λ kept. IsTallyOf [] kept.1) }
{
    Ok((copies_of(alloc, config.links())?, Tally::new(alloc)?))
}

fn copies_of(alloc: Global, links: &[Link]) -> Result<Vec<Link>, AllocError>
    ensures { IfOk result (λ copies. copies.items ≡ links.now) }
{
    let mut copies = Vec::with_capacity(alloc, links.len())?;
    for link in links {
        copies.push(copy_of(alloc, link)?)?;
    }
    Ok(copies)
}

fn copy_of(alloc: Global, link: &Link) -> Result<Link, AllocError>
    ensures { IfOk result (λ copy. copy ≡ link.now) }
{
    let group = match &link.group {
        Some(group) => Some(String::from_str(alloc, group)?),
        None => None,
    };
    Ok(Link {
        id: link.id,
        name: String::from_str(alloc, &link.name)?,
        bag: link.bag,
        jitter: link.jitter,
        smax: link.smax,
        integrity: link.integrity,
        redundancy: link.redundancy,
        skew: link.skew,
        group,
    })
}
