//! The entries of frames, made in memory: on the calling thread for a whole round, or by workers for its
//! chunks, which are then put together.
ghost use Rattle.std.specs.Prelude.{◌≡◌, ◌≤◌, ◌++◌, ◌∷◌, [], IfOk, OnOk, length, map};
ghost use Rattle.filter_workers.specs.Filters.{mask_by};
ghost use Rattle.filter_workers.specs.declared.decision.TheConstants.{MAX_FILTERS};
ghost use Rattle.watch_run.specs.Entries.{AreEntries, AreJoined, AreNone};
ghost use Rattle.watch_run.specs.Filters.{entry_packet, keep_by, keep_of, making_of, packets_of};
ghost use Rattle.verdict_ledger.specs.Entry.{entries_of, entry_with};

use crate::plan::Plan;
use afdx_frame::LentFrame;
use filter_workers::filter_frame;
use frame_batch::RoundPart;
use ledger_text::FrameLine;
use std::alloc::{AllocError, Global};
use verdict_ledger::append_lines;
use vl_judge::Verdict;

/// The text that is written of frames, in their order.
#[derive(Drop)]
pub struct Entries {
    /// How many bytes are kept of each frame. None: it is rejected.
    pub keeps: Vec<Option<u32>>,
    /// Which filters accept each frame.
    pub masks: Vec<u8>,
    /// The packets of the frames that are kept.
    pub packets: Vec<u8>,
    /// The lines of all frames.
    pub lines: Vec<u8>,
    /// Memory for the comment of a packet.
    pub comment: Vec<u8>,
}

/// How many bytes are kept of a frame, by the greatest return value. None: it is rejected.
#[inline]
fn keep_of(answer: u32, frame: &LentFrame<'_>) -> Option<u32>
    ensures { result ≡ keep_of answer frame.now }
{
    if answer == 0 {
        return None;
    }
    Some(answer.min(frame.view().bytes().len() as u32))
}

impl Entries {
    /// The entries of no frame. Allocates nothing.
    pub fn new(alloc: Global) -> Entries
        ensures { AreNone result }
    {
        Entries {
            keeps: Vec::new(alloc),
            masks: Vec::new(alloc),
            packets: Vec::new(alloc),
            lines: Vec::new(alloc),
            comment: Vec::new(alloc),
        }
    }

    /// Makes them those of no frame, in the same memory.
    pub fn clear(&mut self)
        ensures { AreNone self.new }
    {
        self.keeps.clear();
        self.masks.clear();
        self.packets.clear();
        self.lines.clear();
    }

    /// Runs the filters on a frame, and adds what they say of it and its packet.
    #[inline]
    fn add_frame(
        &mut self,
        plan: &Plan<'_>,
        frame: &LentFrame<'_>,
        verdict: &Verdict,
    ) -> Result<(), AllocError>
        requires { length plan.now.programs.now ≤ MAX_FILTERS }
        ensures keeps { OnOk result (self.new.keeps.items
            ≡ self.old.keeps.items ++ keep_by plan.now.programs.now frame.now ∷ []) }
        ensures masks { OnOk result (self.new.masks.items
            ≡ self.old.masks.items ++ mask_by plan.now.programs.now frame.now ∷ []) }
        ensures packets { OnOk result (self.new.packets.items ≡ self.old.packets.items
            ++ entry_packet (making_of plan.now).format (entry_with frame.now verdict.now
            (keep_by plan.now.programs.now frame.now) (mask_by plan.now.programs.now frame.now))) }
        ensures lines { self.new.lines ≡ self.old.lines }
    {
        let decision = filter_frame(plan.programs, frame);
        let keep = keep_of(decision.answer, frame);
        self.keeps.push(keep)?;
        self.masks.push(decision.mask)?;
        let Some(kept) = keep else {
            return Ok(());
        };
        let line = FrameLine::of(frame, verdict, keep, decision.mask);
        let Entries {
            packets,
            comment,
            ..
        } = self;
        plan.format
            .append_packet(packets, comment, frame, kept, Some(&line))
    }

    /// Runs the filters on frames, and adds what they say of them and their packets.
    fn add_frames(
        &mut self,
        plan: &Plan<'_>,
        frames: &RoundPart<'_>,
        verdicts: &[Verdict],
    ) -> Result<(), AllocError>
        requires few { length plan.now.programs.now ≤ MAX_FILTERS }
        requires verdicts { length verdicts.now ≡ length frames.now }
        requires none { AreNone self.old }
        ensures keeps { OnOk result (self.new.keeps.items ≡ map (keep_by plan.now.programs.now) frames.now) }
        ensures masks { OnOk result (self.new.masks.items ≡ map (mask_by plan.now.programs.now) frames.now) }
        ensures packets { OnOk result (self.new.packets.items ≡ packets_of (making_of plan.now).format
            (entries_of frames.now verdicts.now self.new.keeps.items self.new.masks.items)) }
        ensures lines { self.new.lines ≡ self.old.lines }
    {
        for index in 0..frames.len() {
            self.add_frame(plan, &frames.frame(index), &verdicts[index])?;
        }
        Ok(())
    }

    /// Makes what is written of these frames, of which these are the verdicts, in place of what was there.
    ///
    /// # Errors
    ///
    /// There is no memory for it.
    pub fn fill(
        &mut self,
        plan: &Plan<'_>,
        frames: &RoundPart<'_>,
        verdicts: &[Verdict],
    ) -> Result<(), AllocError>
        requires few { length plan.now.programs.now ≤ MAX_FILTERS }
        requires verdicts { length verdicts.now ≡ length frames.now }
        ensures { OnOk result (AreEntries (making_of plan.now) frames.now verdicts.now self.new) }
    {
        self.clear();
        self.add_frames(plan, frames, verdicts)?;
        append_lines(
            &mut self.lines,
            plan.version,
            frames,
            verdicts,
            &self.keeps,
            &self.masks,
        )
    }

    /// Adds those of further frames.
    ///
    /// # Errors
    ///
    /// There is no memory for them.
    pub fn append(&mut self, more: &Entries) -> Result<(), AllocError>
        ensures { OnOk result (AreJoined self.old more.now self.new) }
    {
        self.keeps.extend_from_slice(&more.keeps)?;
        self.masks.extend_from_slice(&more.masks)?;
        self.packets.extend_from_slice(&more.packets)?;
        self.lines.extend_from_slice(&more.lines)
    }
}
