//! The captured bytes of a frame, which may stand in a block that frames share.
ghost use Rattle.std.specs.Prelude.{◌≡◌, ◌≤◌, [], length, slice_range, IfOk};
ghost use Rattle.std.specs.Arc.{arc_value};
ghost use Rattle.afdx_frame.specs.FrameBytes.{block_bytes};

use std::alloc::{AllocError, Global};
use std::marker::Model;
use std::sync::Arc;

/// The memory that captured bytes stand in.
#[derive(Debug, Drop)]
pub enum FrameBlock {
    /// That of one frame.
    Own(Vec<u8>),
    /// A block that frames share, and that doesn't change while one does. It comes free with the last of
    /// them.
    Shared(Arc<Vec<u8>>),
}

impl FrameBlock {
    /// The bytes of the block.
    #[inline(always)]
    pub fn bytes(&self) -> &[u8]
        ensures { result.now ≡ block_bytes self.now }
    {
        match self {
            FrameBlock::Own(bytes) => bytes.as_slice(),
            FrameBlock::Shared(block) => block.as_slice(),
        }
    }

    /// The same bytes once more: a share of a block that is shared, or a copy.
    ///
    /// # Errors
    ///
    /// `AllocError` if there is no memory for a copy, or if the block has as many owners as can be counted,
    /// some 2^63.
    #[inline]
    pub fn share(&self, alloc: Global) -> Result<FrameBlock, AllocError>
        ensures { IfOk result (λ block. block_bytes block ≡ block_bytes self.now) }
    {
        match self {
            FrameBlock::Own(bytes) => Ok(FrameBlock::Own(Vec::from_slice(alloc, bytes)?)),
            FrameBlock::Shared(block) => Ok(FrameBlock::Shared(Arc::try_clone(block)?)),
        }
    }
}

/// The captured bytes of a frame: a part of a block.
#[derive(Debug, Drop)]
pub struct FrameBytes {
    block: FrameBlock,
    from: usize,
    to: usize,
}

impl Model for FrameBytes {
    ghost use Rattle.std.specs.Prelude.{ℕ, List, ◌≤◌, length, slice_range};
    ghost use Rattle.afdx_frame.specs.FrameBytes.{block_bytes};

    ghost Value = { List ℕ };

    ghost view = { λ b. slice_range (block_bytes b.block) b.from b.to };

    ghost invariant = { λ b. (b.from ≤ b.to) × (b.to ≤ length (block_bytes b.block)) };
}

impl FrameBytes {
    /// Bytes in memory of their own.
    #[inline(always)]
    pub fn own(bytes: Vec<u8>) -> FrameBytes
        ensures { result ≡ bytes.items }
    {
        let to = bytes.len();
        FrameBytes {
            block: FrameBlock::Own(bytes),
            from: 0,
            to,
        }
    }

    /// The bytes of a block from one index up to another. It copies none of them.
    ///
    /// # Errors
    ///
    /// `AllocError` if the block has as many owners as can be counted, some 2^63.
    #[inline(always)]
    pub fn part(block: &Arc<Vec<u8>>, from: usize, to: usize) -> Result<FrameBytes, AllocError>
        requires ordered { from ≤ to }
        requires within { to ≤ length (arc_value block.now).items }
        ensures { IfOk result (λ b. b ≡ slice_range (arc_value block.now).items from to) }
    {
        Ok(FrameBytes {
            block: FrameBlock::Shared(Arc::try_clone(block)?),
            from,
            to,
        })
    }

    /// The bytes from one index up to another of this block.
    #[inline(always)]
    pub fn of(block: FrameBlock, from: usize, to: usize) -> FrameBytes
        requires ordered { from ≤ to }
        requires within { to ≤ length (block_bytes block) }
        ensures { result ≡ slice_range (block_bytes block) from to }
    {
        FrameBytes { block, from, to }
    }

    /// The block that they stand in, and from which index up to which.
    #[inline(always)]
    pub fn into_parts(self) -> (FrameBlock, usize, usize)
        ensures bytes { slice_range (block_bytes result.0) result.1 result.2 ≡ self }
        ensures ordered { result.1 ≤ result.2 }
        ensures within { result.2 ≤ length (block_bytes result.0) }
    {
        let FrameBytes { block, from, to } = self;
        (block, from, to)
    }

    /// The same bytes once more.
    ///
    /// # Errors
    ///
    /// Those of [`FrameBlock::share`].
    pub fn share(&self, alloc: Global) -> Result<FrameBytes, AllocError>
        ensures { IfOk result (λ bytes. bytes ≡ self.now) }
    {
        Ok(FrameBytes {
            block: self.block.share(alloc)?,
            from: self.from,
            to: self.to,
        })
    }

    /// The bytes.
    #[inline(always)]
    pub fn as_slice(&self) -> &[u8]
        ensures { result.now ≡ self.now }
    {
        &self.block.bytes()[self.from..self.to]
    }
}
