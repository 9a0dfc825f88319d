//! The knowledge of a link: what a document specifies, what was seen, and which of both a draft has.

use crate::estimate::{Estimate, greatest_size, jitter_us, skew_us};
use afdx_frame::VlId;
use icd_links::IcdLink;
use std::alloc::{AllocError, Global};
use traffic_survey::{Arrivals, LinkSurvey};

/// A link that a document specifies, or of which frames were seen.
#[derive(Clone, Copy)]
pub struct Known<'a> {
    pub id: VlId,
    pub specified: Option<&'a IcdLink>,
    pub seen: Option<&'a LinkSurvey>,
}

/// A link as a draft has it.
#[derive(Drop)]
pub struct Drafted {
    pub id: VlId,
    pub name: String,
    /// The group that it belongs to, if a document says one.
    pub group: Option<String>,
    pub values: Estimate,
}

/// The values of a link by recordings. None: they don't say.
#[derive(Clone, Copy)]
pub struct Seen {
    pub bag_ms: Option<u64>,
    /// The jitter at this BAG, and that which the frames need at the draft's.
    pub jitter_us: Option<u64>,
    pub needed_us: Option<u64>,
    pub smax: Option<u64>,
    pub integrity: Option<bool>,
    pub redundancy: Option<bool>,
    pub skew_us: Option<u64>,
}

fn has_gaps(arrivals: &Arrivals) -> bool {
    arrivals.gaps.median().is_some()
}

/// Does a sequence number follow another, or not?
fn has_steps(arrivals: &Arrivals) -> bool {
    arrivals.numbering.next > 0 || arrivals.numbering.others > 0
}

impl Known<'_> {
    /// Is it specified or seen?
    pub fn is_any(&self) -> bool {
        self.specified.is_some() || self.seen.is_some()
    }

    /// The link as the draft has it. The name is the specified one, or else `vl_` and the identifier.
    pub fn drafted(&self, alloc: Global) -> Result<Drafted, AllocError> {
        let id = self.id;
        let name = match self.specified.and_then(|specified| specified.name.as_ref()) {
            Some(name) => String::from_str(alloc, name.as_str())?,
            None => format!(in alloc; "vl_{}", id.0)?,
        };
        let group = match self
            .specified
            .and_then(|specified| specified.group.as_ref())
        {
            Some(group) => Some(String::from_str(alloc, group.as_str())?),
            None => None,
        };
        Ok(Drafted {
            id,
            name,
            group,
            values: self.values(),
        })
    }

    /// The estimate of the frames, with the jitter that they need at a BAG.
    fn estimate_at(&self, bag_ms: Option<u64>) -> Estimate {
        match self.seen {
            Some(link) => Estimate::of(link, bag_ms),
            None => Estimate::UNKNOWN,
        }
    }

    /// The values in the draft: of each key the one that is specified, and otherwise the one that was seen.
    /// The jitter that was seen is that which the frames need at the draft's BAG.
    fn values(&self) -> Estimate {
        let Some(specified) = self.specified else {
            return self.estimate_at(None);
        };
        let seen = self.estimate_at(specified.bag_ms);
        let redundancy = specified.redundancy.unwrap_or(seen.redundancy);
        let skew_us = match self.seen {
            Some(link) if redundancy => skew_us(link),
            _ => 0,
        };
        Estimate {
            bag_ms: specified.bag_ms.unwrap_or(seen.bag_ms),
            jitter_us: specified.jitter_us.unwrap_or(seen.jitter_us),
            smax: specified.smax.unwrap_or(seen.smax),
            integrity: specified.integrity.unwrap_or(seen.integrity),
            redundancy,
            skew_us: specified.skew_us.unwrap_or(skew_us),
        }
    }

    /// The values of a link by its frames, beside the draft's BAG. Where one network alone is recorded they
    /// don't say whether the other brings the link too.
    pub fn seen_beside(&self, bag_ms: u64, both: bool) -> Seen {
        let Some(link) = self.seen else {
            return Seen {
                bag_ms: None,
                jitter_us: None,
                needed_us: None,
                smax: None,
                integrity: None,
                redundancy: None,
                skew_us: None,
            };
        };
        let estimate = Estimate::of(link, None);
        let has_gaps = has_gaps(&link.a) || has_gaps(&link.b);
        let has_steps = has_steps(&link.a) || has_steps(&link.b);
        let has_copies = link.copies.count > 0;
        Seen {
            bag_ms: given_if(has_gaps, estimate.bag_ms),
            jitter_us: given_if(has_gaps, estimate.jitter_us),
            needed_us: given_if(has_gaps, jitter_us(link, bag_ms)),
            // A draft's Smax is rounded up, and isn't what was seen.
            smax: Some(greatest_size(link)),
            integrity: given_if(has_steps, estimate.integrity),
            redundancy: given_if(both, estimate.redundancy),
            skew_us: given_if(has_copies, skew_us(link)),
        }
    }
}

fn given_if<T: Copy>(is: bool, value: T) -> Option<T> {
    if is { Some(value) } else { None }
}
