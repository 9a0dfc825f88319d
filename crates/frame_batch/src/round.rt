//! The frames of a round.
ghost use Rattle.std.specs.Prelude.{◌≡◌, ◌<◌, IfOk, IsTrue, ◌↔◌, [], Some, get_or, length, slice_get};
ghost use Rattle.frame_batch.specs.Round.{draft_frames};

use crate::draft::{Placed, RoundDraft};
use afdx_frame::{LentFrame, TapFrame};
use std::alloc::{AllocError, Global};
use std::marker::Model;

/// Frames in an order, by records in the blocks that hold their bytes.
#[derive(Drop)]
pub struct Round {
    pub(crate) draft: RoundDraft,
}

impl Model for Round {
    ghost use Rattle.std.specs.Prelude.{List};
    ghost use Rattle.afdx_frame.specs.Frame.{Frame};
    ghost use Rattle.frame_batch.specs.Round.{draft_frames};

    ghost Value = { List Frame };

    ghost view = { λ r. draft_frames r.draft };
}

impl Round {
    /// No frames. Allocates nothing.
    pub fn new(alloc: Global) -> Round
        ensures { result ≡ [] }
    {
        Round {
            draft: RoundDraft::new(alloc),
        }
    }

    /// The frames of a draft.
    pub fn of(draft: RoundDraft) -> Round
        ensures { result ≡ draft_frames draft }
    {
        Round { draft }
    }

    /// These frames.
    ///
    /// # Errors
    ///
    /// `AllocError` if there is no memory for them.
    pub fn from_frames(alloc: Global, frames: Vec<TapFrame>) -> Result<Round, AllocError>
        ensures { IfOk result (λ round. round ≡ frames.items) }
    {
        let mut draft = RoundDraft::with_capacity(alloc, frames.len())?;
        for frame in frames {
            draft.add_frame(frame)?;
        }
        Ok(Round { draft })
    }

    /// The frames, each with a share of its block.
    ///
    /// # Errors
    ///
    /// `AllocError` if there is no memory for them.
    pub fn to_frames(&self, alloc: Global) -> Result<Vec<TapFrame>, AllocError>
        ensures { IfOk result (λ frames. frames.items ≡ self.now) }
    {
        let mut frames = Vec::with_capacity(alloc, self.len())?;
        for index in 0..self.len() {
            frames.push(self.owned(index, alloc)?)?;
        }
        Ok(frames)
    }

    /// The frame of an index, with a share of its block.
    fn owned(&self, index: usize, alloc: Global) -> Result<TapFrame, AllocError>
        requires { index < length self.now }
        ensures { IfOk result (λ frame. slice_get self.now index ≡ Some frame) }
    {
        let Placed { entry, block } = &self.draft.places[index];
        Ok(entry.frame(self.draft.blocks[*block].share(alloc)?))
    }

    /// How many frames there are.
    #[inline(always)]
    pub fn len(&self) -> usize
        ensures { result ≡ length self.now }
    {
        self.draft.places.len()
    }

    /// True if there is no frame.
    #[inline(always)]
    pub fn is_empty(&self) -> bool
        ensures { IsTrue result ↔ self.now ≡ [] }
    {
        self.draft.places.is_empty()
    }

    /// The frame of an index.
    #[inline(always)]
    pub fn frame(&self, index: usize) -> LentFrame<'_>
        requires { index < length self.now }
        ensures { result ≡ get_or self.now index result }
    {
        let Placed { entry, block } = &self.draft.places[index];
        entry.lent(self.draft.blocks[*block].bytes())
    }
}
