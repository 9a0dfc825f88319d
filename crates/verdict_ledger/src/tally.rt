//! The counts that a ledger keeps.
ghost use Rattle.std.specs.Prelude.{◌≡◌, ◌<◌, ◌≤◌, ◌+◌, List, [], ◌∷◌, ◌++◌, length, None, IfOk, vec_len, if◌then◌else◌};
ghost use Rattle.afdx_frame.specs.View.{link_of};
ghost use Rattle.vl_config.specs.Class.{is_on_a_link};
ghost use Rattle.verdict_ledger.specs.Tally.{link_counts};
ghost use Rattle.afdx_frame.specs.declared.key.TheConstants.{VL_ID_COUNT};
ghost use Rattle.verdict_ledger.specs.declared.bounds.TheConstants.{MAX_LINES};

use crate::link_counts::LinkCounts;
use crate::totals::Totals;
use afdx_frame::{LentFrame, VL_ID_COUNT, VlId};
use frame_batch::Round;
use std::alloc::{AllocError, Global};
use vl_judge::Verdict;

/// The counts of all frames, and those of each identifier, so that a frame costs the same whatever the
/// number of links.
#[derive(Debug, Drop)]
pub struct Tally {
    totals: Totals,
    /// The counts of the frames of configured links, by their identifiers.
    counts: Vec<LinkCounts>,
    ghost complete: { vec_len counts ≡ VL_ID_COUNT },
}

impl Tally {
    ghost use Rattle.verdict_ledger.specs.Entry.{Entry, entry_with, entries_of};
    ghost use Rattle.verdict_ledger.specs.Ledger.{IsTallyOf};

    /// The counts of no frame.
    pub fn new(alloc: Global) -> Result<Tally, AllocError>
        ensures { IfOk result (IsTallyOf []) }
    {
        Ok(Tally {
            totals: Totals::new(),
            counts: vec![in alloc; LinkCounts::new(); VL_ID_COUNT]?,
        })
    }

    /// The counts of all frames.
    pub fn totals(&self) -> &Totals
        ensures { result.now ≡ self.now.totals }
    {
        &self.totals
    }

    /// The counts of a link.
    pub fn link(&self, id: VlId) -> &LinkCounts
        ensures { (entries : List Entry) → IsTallyOf entries self.now
            → result.now ≡ link_counts entries id }
    {
        &self.counts[usize::from(id.0)]
    }

    /// Counts a frame.
    #[inline]
    pub fn count(&mut self, frame: &LentFrame<'_>, verdict: &Verdict, keep: Option<u32>, mask: u8)
        ensures { (entries : List Entry) → length entries < MAX_LINES → IsTallyOf entries self.old
            → IsTallyOf (entries ++ entry_with frame.now verdict.now keep mask ∷ []) self.new }
    {
        self.count_by(frame.link(), verdict, keep, mask);
    }

    /// Counts a frame by what its line says: its link, its verdict, how many bytes of it are kept, and the
    /// mask of the filters that accept it.
    #[inline]
    pub fn count_by(&mut self, link: Option<VlId>, verdict: &Verdict, keep: Option<u32>, mask: u8)
        ensures { (entries : List Entry) (e : Entry) → length entries < MAX_LINES
            → link ≡ link_of e.frame.bytes → verdict.now ≡ e.verdict → keep ≡ e.keep → mask ≡ e.mask
            → IsTallyOf entries self.old → IsTallyOf (entries ++ e ∷ []) self.new }
    {
        self.totals.count(verdict, keep, mask);
        if let Some(id) = counted_link(link, verdict) {
            self.counts[usize::from(id.0)].count(verdict, keep);
        }
    }

    /// Counts the frames of a round.
    pub fn count_round(
        &mut self,
        frames: &Round,
        verdicts: &[Verdict],
        keeps: &[Option<u32>],
        masks: &[u8],
    )
        requires verdicts { length verdicts.now ≡ length frames.now }
        requires keeps { length keeps.now ≡ length frames.now }
        requires masks { length masks.now ≡ length frames.now }
        ensures { (entries : List Entry) → length entries + length frames.now ≤ MAX_LINES
            → IsTallyOf entries self.old → IsTallyOf
            (entries ++ entries_of frames.now verdicts.now keeps.now masks.now) self.new }
    {
        for index in 0..frames.len() {
            self.count(
                &frames.frame(index),
                &verdicts[index],
                keeps[index],
                masks[index],
            );
        }
    }
}

/// The link of a frame, where it is configured.
#[inline]
fn counted_link(link: Option<VlId>, verdict: &Verdict) -> Option<VlId>
    ensures { result ≡ (if is_on_a_link verdict.now.class then link else None) }
{
    if verdict.class.is_on_a_link() {
        link
    } else {
        None
    }
}
