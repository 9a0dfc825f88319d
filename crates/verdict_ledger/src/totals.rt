//! The counts of the line `total` and of the lines `filter`.
ghost use Rattle.std.specs.Prelude.{◌≡◌, ◌<◌, List, [], ◌∷◌, ◌++◌, length};
ghost use Rattle.verdict_ledger.specs.Entry.{Entry};
ghost use Rattle.verdict_ledger.specs.Tally.{totals_of, has_bit, filter_count};
ghost use Rattle.verdict_ledger.specs.declared.bounds.TheConstants.{MAX_LINES};

use crate::bounds::MAX_FILTERS;
use crate::link_counts::{count_where, is_class, plus};
use vl_config::Class;
use vl_judge::Verdict;

/// The counts of all frames of a ledger. `frames` is the sum of all from `cut` to `delivered`.
#[derive(Clone, Copy, Debug, PartialEq, Eq)]
pub struct Totals {
    /// All frames.
    pub frames: u64,
    /// The frames that a filter accepts.
    pub accepted: u64,
    /// The frames of the class `Cut`.
    pub cut: u64,
    /// The frames of the class `Runt`.
    pub runt: u64,
    /// The frames of the class `Oversize`.
    pub oversize: u64,
    /// The frames of the class `Foreign`.
    pub foreign: u64,
    /// The frames of the class `Unconfigured`.
    pub unconfigured: u64,
    /// The frames of the class `TooLong`.
    pub toolong: u64,
    /// The frames that policing drops.
    pub excess: u64,
    /// The frames that integrity checking drops.
    pub out: u64,
    /// The second ones of pairs, which redundancy management drops.
    pub copy: u64,
    /// The frames that are delivered.
    pub delivered: u64,
    /// By a filter's number, those whose mask has its bit.
    pub filters: [u64; MAX_FILTERS],
}

impl Totals {
    /// The counts of no frame.
    #[tactic(auto, unfolding(crate::specs::Tally::totals_of))]
    pub fn new() -> Totals
        ensures { result ≡ totals_of [] }
    {
        Totals {
            frames: 0,
            accepted: 0,
            cut: 0,
            runt: 0,
            oversize: 0,
            foreign: 0,
            unconfigured: 0,
            toolong: 0,
            excess: 0,
            out: 0,
            copy: 0,
            delivered: 0,
            filters: [0; MAX_FILTERS],
        }
    }

    /// Counts one more frame: its verdict, how many bytes of it a filter keeps, and the mask of the filters
    /// that accept it.
    #[inline]
    pub fn count(&mut self, verdict: &Verdict, keep: Option<u32>, mask: u8)
        ensures { (entries : List Entry) (e : Entry) → length entries < MAX_LINES
            → verdict.now ≡ e.verdict → keep ≡ e.keep → mask ≡ e.mask
            → self.old ≡ totals_of entries
            → self.new ≡ totals_of (entries ++ e ∷ []) }
    {
        let class = verdict.class;
        count_where(&mut self.frames, true);
        count_where(&mut self.accepted, keep.is_some());
        count_where(&mut self.cut, is_class(Class::Cut, class));
        count_where(&mut self.runt, is_class(Class::Runt, class));
        count_where(&mut self.oversize, is_class(Class::Oversize, class));
        count_where(&mut self.foreign, is_class(Class::Foreign, class));
        count_where(&mut self.unconfigured, is_class(Class::Unconfigured, class));
        count_where(&mut self.toolong, is_class(Class::TooLong, class));
        count_where(&mut self.excess, verdict.is_excess());
        count_where(&mut self.out, verdict.is_out());
        count_where(&mut self.copy, verdict.is_copy());
        count_where(&mut self.delivered, verdict.is_delivered());
        count_filters(&mut self.filters, mask);
    }
}

/// Is bit `filter` of the mask set?
#[inline(always)]
fn has_bit(filter: u32, mask: u8) -> bool
    requires { filter < MAX_FILTERS }
    ensures { result ≡ has_bit filter mask }
{
    (mask >> filter) & 1 == 1
}

/// Counts one more frame for the filters that accept it.
#[inline]
fn count_filters(counts: &mut [u64; MAX_FILTERS], mask: u8)
    ensures { (entries : List Entry) (e : Entry) → length entries < MAX_LINES
        → mask ≡ e.mask → counts.old ≡ (totals_of entries).filters
        → counts.new ≡ (totals_of (entries ++ e ∷ [])).filters }
{
    if mask == 0 {
        return;
    }
    *counts = filters_with(counts, mask);
}

/// The counts of filters with one more frame.
#[inline]
fn filters_with(counts: &[u64; MAX_FILTERS], mask: u8) -> [u64; MAX_FILTERS]
    ensures { (entries : List Entry) (e : Entry) → length entries < MAX_LINES
        → mask ≡ e.mask → counts.now ≡ (totals_of entries).filters
        → result ≡ (totals_of (entries ++ e ∷ [])).filters }
{
    [
        plus(counts[0], has_bit(0, mask)),
        plus(counts[1], has_bit(1, mask)),
        plus(counts[2], has_bit(2, mask)),
        plus(counts[3], has_bit(3, mask)),
        plus(counts[4], has_bit(4, mask)),
        plus(counts[5], has_bit(5, mask)),
        plus(counts[6], has_bit(6, mask)),
        plus(counts[7], has_bit(7, mask)),
    ]
}
