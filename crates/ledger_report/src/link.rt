//! A link on both networks.

use crate::deliveries::Delivered;
use crate::lane::{LaneLine, LaneReport};
use crate::median::Classes;
use crate::moment::LinePlace;
use crate::statistics::{rule_of, size_of};
use afdx_frame::VlId;
use findings::PerNetwork;
use ledger_text::FrameLine;
use std::alloc::{AllocError, Global};
use vl_config::Link;

/// The lines of one link.
#[derive(Drop)]
pub struct LinkReport {
    pub id: VlId,
    /// BAG, jitter and SkewMax in nanoseconds, Smax in bytes, from the table.
    pub bag: u64,
    pub jitter: u64,
    pub skew_max: u64,
    pub smax: u32,
    pub integrity: bool,
    pub redundancy: bool,
    pub lanes: PerNetwork<LaneReport>,
    /// Lines `copy`: the sum and the greatest of their skews, and the median, rounded down to its five
    /// leading binary digits.
    pub copies: u64,
    pub skew_sum: u64,
    pub skew_greatest: u64,
    pub skew_median: u64,
    /// The greatest skew of a second delivery beyond SkewMax.
    pub late_greatest: u64,
    /// Numbers lost on both networks.
    pub lost_both: u64,
    classes: Classes,
}

impl LinkReport {
    /// Of no line. Allocates nothing.
    pub(crate) fn new(alloc: Global, link: &Link) -> LinkReport {
        LinkReport {
            id: link.id,
            bag: link.bag,
            jitter: link.jitter,
            skew_max: link.skew,
            smax: link.smax,
            integrity: link.integrity,
            redundancy: link.redundancy,
            lanes: PerNetwork {
                a: LaneReport::new(alloc),
                b: LaneReport::new(alloc),
            },
            copies: 0,
            skew_sum: 0,
            skew_greatest: 0,
            skew_median: 0,
            late_greatest: 0,
            lost_both: 0,
            classes: Classes::new(alloc),
        }
    }

    /// Notes a line of class `toolong` or `regular`, with the latest delivery of its number, which stands
    /// before a copy. How much later a copy came.
    pub(crate) fn note(
        &mut self,
        line: &FrameLine,
        at: &LinePlace,
        delivery: Option<Delivered>,
    ) -> Result<Option<u64>, AllocError> {
        let skew = match delivery {
            Some(delivery) if line.verdict.is_copy() => Some(
                at.place.stamp.saturating_sub(delivery.stamp),
            ),
            _ => None,
        };
        let seen = LaneLine {
            at: *at,
            rule: rule_of(line),
            size: size_of(line),
            skew,
        };
        let least = self.bag.saturating_sub(self.jitter);
        self.lanes.of_mut(at.network).note(&seen, least)?;
        if let Some(skew) = skew {
            self.note_copy(skew)?;
        }
        Ok(skew)
    }

    /// Notes a copy that came so much later than its delivery.
    #[inline]
    fn note_copy(&mut self, skew: u64) -> Result<(), AllocError> {
        self.copies = self.copies.saturating_add(1);
        self.skew_sum = self.skew_sum.saturating_add(skew);
        self.skew_greatest = self.skew_greatest.max(skew);
        self.classes.add(skew)
    }

    /// Counts numbers that are missing on both networks, or takes them back.
    pub(crate) fn note_both(&mut self, count: i64) {
        self.lost_both = self.lost_both.saturating_add_signed(count);
    }

    /// Settles what is left once the ledger has ended.
    pub(crate) fn end(&mut self) {
        self.skew_median = self.classes.median(self.copies);
    }

    /// Doubles the width of all bins so often in all.
    pub(crate) fn align(&mut self, doublings: u32) {
        self.lanes.a.align(doublings);
        self.lanes.b.align(doublings);
    }
}
