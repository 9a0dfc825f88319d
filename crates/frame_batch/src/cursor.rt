//! A place in a queue, from which its frames are copied.
ghost use Rattle.std.specs.Prelude.{◌≡◌, ◌-◌, ◌<◌, ◌≤◌, ◌++◌, [], List, ℕ, IfOk, IfSome, OnOk, drop, length, slice_get, take};
ghost use Rattle.std.specs.Option.{option_map};
ghost use Rattle.afdx_frame.specs.Frame.{key_of};
ghost use Rattle.frame_batch.specs.Queue.{count_in};
ghost use Rattle.frame_batch.specs.Round.{IsBlockAt, draft_frames};

use crate::batch::FrameBatch;
use crate::draft::RoundDraft;
use afdx_frame::Key;
use std::alloc::{AllocError, Global};
use std::collections::VecDeque;

/// The index that the block of a batch has in a draft: the one that is known, or else that of a share of it
/// that is added.
#[inline(always)]
fn place_block(
    alloc: Global,
    known: Option<usize>,
    batch: &FrameBatch,
    draft: &mut RoundDraft,
) -> Result<usize, AllocError>
    requires { IfSome known (λ k. IsBlockAt draft.old.blocks k batch.now.block) }
    ensures here { IfOk result (λ k. IsBlockAt draft.new.blocks k batch.now.block) }
    ensures blocks { OnOk result ((more : List (List ℕ))
        × (draft.new.blocks ≡ draft.old.blocks ++ more)) }
    ensures frames { OnOk result (draft_frames draft.new ≡ draft_frames draft.old) }
{
    match known {
        Some(index) => Ok(index),
        None => draft.add_block(batch.share(alloc)?),
    }
}

/// A place in a queue, from which its frames are copied into a draft, one after another.
#[derive(Clone, Copy)]
pub struct QueueCursor<'a> {
    batches: &'a VecDeque<FrameBatch>,
    batch: usize,
    at: usize,
    /// The index that the batch's block has in the draft, once it was added.
    block: Option<usize>,
    ghost within: { at ≤ count_in batches.now.items batch - 1 },
    ghost bounded: { batch ≤ length batches.now.items },
}

impl<'a> QueueCursor<'a> {
    ghost use Rattle.frame_batch.specs.Cursor.{IsAmong, cursor_left};
    ghost use Rattle.frame_batch.specs.Queue.{queue_frames};

    /// At the first frame of these batches.
    pub(crate) fn at_first(batches: &'a VecDeque<FrameBatch>) -> QueueCursor<'a>
        ensures left { cursor_left result ≡ queue_frames batches.now.items }
        ensures block { IsAmong result [] }
    {
        QueueCursor {
            batches,
            batch: 0,
            at: 0,
            block: None,
        }
    }

    /// The key of the frame at this place. None: no frame is left.
    #[inline(always)]
    pub fn first_key(&self) -> Option<Key>
        ensures { result ≡ option_map key_of (slice_get (cursor_left self.now) 0) }
    {
        if self.batch == self.batches.len() {
            return None;
        }
        let batch = &self.batches[self.batch];
        let _count = batch.count();
        Some(batch.entry(self.at).key())
    }

    /// Copies the frame at this place into the draft, with a share of its block, unless that was added, and
    /// goes on to the next one.
    ///
    /// # Errors
    ///
    /// `AllocError` if there is no memory for it.
    #[inline(always)]
    pub fn copy_first(&mut self, alloc: Global, draft: &mut RoundDraft) -> Result<(), AllocError>
        requires some { 0 < length (cursor_left self.old) }
        requires among { IsAmong self.old draft.old.blocks }
        ensures frames { OnOk result (draft_frames draft.new
            ≡ draft_frames draft.old ++ take 1 (cursor_left self.old)) }
        ensures blocks { OnOk result ((more : List (List ℕ))
            × (draft.new.blocks ≡ draft.old.blocks ++ more)) }
        ensures left { OnOk result (cursor_left self.new ≡ drop 1 (cursor_left self.old)) }
        ensures among { OnOk result (IsAmong self.new draft.new.blocks) }
    {
        let batch = &self.batches[self.batch];
        let count = batch.count();
        let block = place_block(alloc, self.block, batch, draft)?;
        draft.add(block, *batch.entry(self.at))?;
        if self.at + 1 < count {
            self.at += 1;
            self.block = Some(block);
        } else {
            self.batch += 1;
            self.at = 0;
            self.block = None;
        }
        Ok(())
    }
}
