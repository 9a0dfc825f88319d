//! The frames of a block.
ghost use Rattle.std.specs.Prelude.{◌≡◌, ◌-◌, ◌<◌, ◌++◌, ◌∷◌, [], IfErr, IfOk, IsFalse, IsTrue, Some, drop, length, slice_get};
ghost use Rattle.afdx_frame.specs.FrameBytes.{block_bytes};
ghost use Rattle.frame_batch.specs.Batch.{IsRecordOf, batch_frames, frames_left};

use crate::frame_record::FrameRecord;
use afdx_frame::{FrameBlock, LentFrame, TapFrame};
use std::alloc::{AllocError, Global};
use std::marker::Model;

/// Frames of a recording that stand in one block, one after another. At least one is left.
#[derive(Drop)]
pub struct FrameBatch {
    block: FrameBlock,
    first: FrameRecord,
    more: Vec<FrameRecord>,
    /// How many were taken out.
    taken: usize,
}

impl Model for FrameBatch {
    ghost use Rattle.std.specs.Prelude.{◌≤◌, ◌∷◌, drop, length};
    ghost use Rattle.afdx_frame.specs.FrameBytes.{block_bytes};
    ghost use Rattle.frame_batch.specs.Batch.{AreRecordsOf, BatchState};

    ghost Value = { BatchState };

    ghost view = { λ b. record {
      block = block_bytes b.block;
      left = drop b.taken (b.first ∷ b.more.items);
    } };

    ghost invariant = { λ b. AreRecordsOf (block_bytes b.block) (b.first ∷ b.more.items)
        × (b.taken ≤ length b.more.items) };
}

impl FrameBatch {
    /// A batch that begins with the frame of a record in a block, with room for some more where there is
    /// memory for them.
    #[inline]
    pub fn begin(alloc: Global, block: FrameBlock, first: FrameRecord, room: usize) -> FrameBatch
        requires { IsRecordOf (block_bytes block) first }
        ensures { result ≡ record { block = block_bytes block; left = first ∷ [] } }
    {
        FrameBatch {
            block,
            first,
            more: Vec::with_capacity(alloc, room).unwrap_or(Vec::new(alloc)),
            taken: 0,
        }
    }

    /// A batch of one frame. An `Err` gives it back: it stands beyond 4 GiB of its block.
    pub fn of(alloc: Global, frame: TapFrame) -> Result<FrameBatch, TapFrame>
        ensures frame { IfOk result (λ batch. batch_frames batch ≡ frame ∷ []) }
        ensures given_back { IfErr result (λ f. f ≡ frame) }
    {
        let (block, first) = FrameRecord::of(frame)?;
        Ok(FrameBatch::begin(alloc, block, first, 0))
    }

    /// The first frame that is left, with the block.
    pub fn into_first(self) -> TapFrame
        ensures { slice_get (batch_frames self) 0 ≡ Some result }
    {
        let _count = self.count();
        let first = *self.entry(0);
        first.frame(self.block)
    }

    /// The first frame that is left, with a share of the block.
    ///
    /// # Errors
    ///
    /// Those of [`FrameBlock::share`].
    pub fn first_frame(&self, alloc: Global) -> Result<TapFrame, AllocError>
        ensures { IfOk result (λ frame. slice_get (batch_frames self.now) 0 ≡ Some frame) }
    {
        let _count = self.count();
        Ok(self.entry(0).frame(self.share(alloc)?))
    }

    /// Adds the frame of a record in the same block. False: there is no room, and nothing has changed.
    #[inline(always)]
    pub fn push(&mut self, next: FrameRecord) -> bool
        requires { IsRecordOf self.old.block next }
        ensures added { IsTrue result → self.new ≡ record self.old { left = self.old.left ++ next ∷ [] } }
        ensures unchanged { IsFalse result → self.new ≡ self.old }
    {
        if self.more.len() == self.more.capacity() {
            return false;
        }
        self.more.push_reserved(next);
        true
    }

    /// The bytes of the block.
    #[inline(always)]
    pub fn bytes(&self) -> &[u8]
        ensures { result.now ≡ self.now.block }
    {
        self.block.bytes()
    }

    /// How many frames are left, at least one.
    #[inline(always)]
    pub fn count(&self) -> usize
        ensures count { result ≡ length self.now.left }
        ensures some { 0 < result }
    {
        self.more.len() - self.taken + 1
    }

    /// The record of a frame that is left.
    #[inline(always)]
    pub fn entry(&self, index: usize) -> &FrameRecord
        requires { index < length self.now.left }
        ensures entry { slice_get self.now.left index ≡ Some result.now }
        ensures fits { IsRecordOf self.now.block result.now }
    {
        let place = self.taken + index;
        if place == 0 {
            &self.first
        } else {
            &self.more[place - 1]
        }
    }

    /// A frame that is left.
    #[inline(always)]
    pub fn frame(&self, index: usize) -> LentFrame<'_>
        requires { index < length self.now.left }
        ensures { slice_get (batch_frames self.now) index ≡ Some result }
    {
        self.entry(index).lent(self.block.bytes())
    }

    /// The first frame that is left.
    #[inline(always)]
    pub fn first(&self) -> LentFrame<'_>
        ensures { slice_get (batch_frames self.now) 0 ≡ Some result }
    {
        let _count = self.count();
        self.frame(0)
    }

    /// The last frame.
    #[inline]
    pub fn last(&self) -> LentFrame<'_>
        ensures { slice_get (batch_frames self.now) (length (batch_frames self.now) - 1) ≡ Some result }
    {
        self.frame(self.count() - 1)
    }

    /// Takes out the first frames, so many that one is left.
    #[inline]
    pub fn skip(&mut self, count: usize)
        requires { count < length self.old.left }
        ensures { self.new ≡ record self.old { left = drop count self.old.left } }
    {
        self.taken += count;
    }

    /// The first frame that is left, and the others, where there are any.
    ///
    /// # Errors
    ///
    /// The same batch, if there is no further share of its block.
    pub fn split_first(self, alloc: Global) -> Result<(TapFrame, Option<FrameBatch>), FrameBatch>
        ensures split { IfOk result (λ parts. batch_frames self ≡ parts.0 ∷ frames_left parts.1) }
        ensures given_back { IfErr result (λ batch. batch ≡ self) }
    {
        if self.count() == 1 {
            return Ok((self.into_first(), None));
        }
        let Ok(block) = self.share(alloc) else {
            return Err(self);
        };
        let mut others = self;
        let first = *others.entry(0);
        others.skip(1);
        Ok((first.frame(block), Some(others)))
    }

    /// One more share of the block.
    ///
    /// # Errors
    ///
    /// Those of [`FrameBlock::share`].
    #[inline]
    pub fn share(&self, alloc: Global) -> Result<FrameBlock, AllocError>
        ensures { IfOk result (λ block. block_bytes block ≡ self.now.block) }
    {
        self.block.share(alloc)
    }
}
