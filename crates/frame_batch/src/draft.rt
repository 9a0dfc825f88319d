//! A round that is being made.
ghost use Rattle.std.specs.Prelude.{◌≡◌, ◌<◌, ◌++◌, ◌∷◌, [], List, ℕ, OnOk, IfOk, length, get_or};
ghost use Rattle.afdx_frame.specs.FrameBytes.{block_bytes};
ghost use Rattle.frame_batch.specs.Batch.{IsRecordOf, record_frame};
ghost use Rattle.frame_batch.specs.Round.{draft_frames};

use crate::frame_record::FrameRecord;
use afdx_frame::{FrameBlock, TapFrame};
use std::alloc::{AllocError, Global};
use std::marker::Model;

/// A frame of a round: its record, and the index of its block.
#[derive(Clone, Copy)]
pub struct Placed {
    pub(crate) entry: FrameRecord,
    pub(crate) block: usize,
}

/// A round that is being made, frame by frame.
#[derive(Drop)]
pub struct RoundDraft {
    pub(crate) blocks: Vec<FrameBlock>,
    pub(crate) places: Vec<Placed>,
}

impl Model for RoundDraft {
    ghost use Rattle.std.specs.Prelude.{map};
    ghost use Rattle.std.specs.List.{AllByRecursion};
    ghost use Rattle.afdx_frame.specs.FrameBytes.{block_bytes};
    ghost use Rattle.frame_batch.specs.Round.{DraftState, IsPlaced};

    ghost Value = { DraftState };

    ghost view = { λ d. record {
      blocks = map block_bytes d.blocks.items;
      places = d.places.items;
    } };

    ghost invariant = { λ d. AllByRecursion (IsPlaced (map block_bytes d.blocks.items)) d.places.items };
}

impl RoundDraft {
    /// No frames yet. Allocates nothing.
    pub fn new(alloc: Global) -> RoundDraft
        ensures { result ≡ record { blocks = []; places = [] } }
    {
        RoundDraft {
            blocks: Vec::new(alloc),
            places: Vec::new(alloc),
        }
    }

    /// No frames yet, with room for so many.
    pub fn with_capacity(alloc: Global, frames: usize) -> Result<RoundDraft, AllocError>
        ensures { IfOk result (λ draft. draft ≡ record { blocks = []; places = [] }) }
    {
        Ok(RoundDraft {
            blocks: Vec::new(alloc),
            places: Vec::with_capacity(alloc, frames)?,
        })
    }

    /// Adds a block, and returns its index.
    ///
    /// # Errors
    ///
    /// `AllocError` if there is no memory for it.
    pub fn add_block(&mut self, block: FrameBlock) -> Result<usize, AllocError>
        ensures index { IfOk result (λ index. index ≡ length self.old.blocks) }
        ensures blocks { OnOk result (self.new.blocks ≡ self.old.blocks ++ block_bytes block ∷ []) }
        ensures frames { OnOk result (draft_frames self.new ≡ draft_frames self.old) }
    {
        let index = self.blocks.len();
        self.blocks.push(block)?;
        Ok(index)
    }

    /// Adds the frame of a record in the block of an index.
    ///
    /// # Errors
    ///
    /// `AllocError` if there is no memory for it.
    #[inline(always)]
    pub fn add(&mut self, block: usize, entry: FrameRecord) -> Result<(), AllocError>
        requires index { block < length self.old.blocks }
        requires fits { IsRecordOf (get_or self.old.blocks block []) entry }
        ensures blocks { OnOk result (self.new.blocks ≡ self.old.blocks) }
        ensures frames { OnOk result (draft_frames self.new
            ≡ draft_frames self.old ++ record_frame (get_or self.old.blocks block []) entry ∷ []) }
    {
        self.places.push(Placed { entry, block })?;
        Ok(())
    }

    /// Adds a frame with its block.
    ///
    /// # Errors
    ///
    /// `AllocError` if there is no memory for it.
    pub fn add_frame(&mut self, frame: TapFrame) -> Result<(), AllocError>
        ensures blocks { OnOk result ((more : List (List ℕ)) × (self.new.blocks ≡ self.old.blocks ++ more)) }
        ensures frames { OnOk result (draft_frames self.new ≡ draft_frames self.old ++ frame ∷ []) }
    {
        let Ok((block, entry)) = FrameRecord::of(frame) else {
            return Err(AllocError);
        };
        let index = self.add_block(block)?;
        self.add(index, entry)
    }
}
