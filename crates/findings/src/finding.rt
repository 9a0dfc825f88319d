//! A finding: a cause, and the signs that it explains.
use crate::accounts::{Facts, Span};
use crate::kind::{Kind, Level};
use crate::network::Outside;
use crate::rate::Rate;
use crate::signs::{Side, Signs};
use afdx_frame::VlId;
use std::alloc::Global;

/// A cause, and the signs that it explains.
#[derive(Drop)]
pub struct Finding {
    pub kind: Kind,
    pub level: Level,
    pub side: Side,
    /// The links that it is about, by identifier; none where it is about a network.
    pub links: Vec<VlId>,
    /// How many links it is about, those of a network too.
    pub of_links: u64,
    /// Its first and its last sign, since the ledger's first line.
    pub span: Span,
    /// How many there are: of which signs its kind says.
    pub count: u64,
    pub signs: Signs,
    pub facts: Facts,
    /// How many times it happened, and when at first.
    pub times: u64,
    pub spans: Vec<Span>,
    /// How many frames its links have on its networks.
    pub frames: u64,
    /// Its link's BAG, jitter, SkewMax and rate, where it is about one.
    pub rate: Option<LinkRate>,
    /// Did it happen to its links at the same time?
    pub together: bool,
    /// Did the links begin anew with number 0 after it?
    pub anew: bool,
    /// Does it stand for so many that aren't told one by one?
    pub is_rest: bool,
}

/// The rate of the link that a finding is about.
#[derive(Clone, Copy)]
pub struct LinkRate {
    pub bag: u64,
    pub jitter: u64,
    pub skew_max: u64,
    /// The interval that is proven, and the longest one.
    pub interval: Option<u64>,
    pub longest: u64,
    /// The number of its first frame.
    pub first_number: u8,
    /// How often number 0 came after 255.
    pub wraps: u64,
    /// The usual skew, B less A.
    pub skew: Option<i64>,
}

/// How bad a link of the table is.
#[derive(Clone, Copy)]
pub struct LinkLevel {
    pub id: VlId,
    pub level: Level,
    /// The greatest skew of its frames that are late, in nanoseconds.
    pub late_skew: u64,
}

/// All that is found.
#[derive(Drop)]
pub struct Findings {
    /// Worst first.
    pub all: Vec<Finding>,
    /// How many signs there are in all.
    pub totals: Signs,
    /// By a link's place in the table.
    pub levels: Vec<LinkLevel>,
    /// Links outside the table with their frames, by network.
    pub outside_a: Vec<Outside>,
    pub outside_b: Vec<Outside>,
}

impl Findings {
    /// Of no ledger.
    pub fn none(alloc: Global) -> Findings {
        Findings {
            all: Vec::new(alloc),
            totals: Signs::none(alloc),
            levels: Vec::new(alloc),
            outside_a: Vec::new(alloc),
            outside_b: Vec::new(alloc),
        }
    }
}
