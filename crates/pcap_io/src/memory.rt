//! The memory of a block of bytes, which frames may share.
ghost use Rattle.std.specs.Prelude.{◌≡◌, ◌≤◌, length, take, vec_len, IfOk, IsTrue};
ghost use Rattle.afdx_frame.specs.FrameBytes.{block_bytes};
ghost use Rattle.pcap_io.specs.Items.{items_of, IsUnshared};

use afdx_frame::FrameBlock;
use std::alloc::{AllocError, Global};
use std::collections::VecDeque;
use std::mem;
use std::sync::Arc;

/// How many blocks that frames share a source keeps at most, to fill them again: more than those of a round
/// of 1024 frames and of a ring, of 64 KiB each.
const MAX_SPARES: usize = 32;

/// The memory of a block: its source's alone until a frame shares it.
#[derive(Drop)]
pub enum BlockMemory {
    /// There is none yet.
    Empty,
    /// No frame shares it.
    Own(Vec<u8>),
    /// Frames may share it. It doesn't change while one does.
    Shared(Arc<Vec<u8>>),
}

/// A block of so many bytes.
fn new_block(alloc: Global, len: usize) -> Result<Vec<u8>, AllocError>
    ensures { IfOk result (λ block. vec_len block ≡ len) }
{
    let mut block = Vec::with_capacity(alloc, len)?;
    block.resize(len, 0)?;
    Ok(block)
}

/// Copies the bytes to the start of a block that has room for them.
pub fn copy_to_front(block: &mut [u8], bytes: &[u8])
    requires { length bytes.now ≤ length block.old }
    ensures bytes { take (length bytes.now) block.new ≡ bytes.now }
{
    block[..bytes.len()].copy_from_slice(bytes);
}

impl BlockMemory {
    /// The bytes of the block.
    #[inline(always)]
    pub fn bytes(&self) -> &[u8]
        ensures { result.now ≡ items_of self.now }
    {
        match self {
            BlockMemory::Empty => &[],
            BlockMemory::Own(block) => block.as_slice(),
            BlockMemory::Shared(block) => block.as_slice(),
        }
    }

    /// Takes the memory back, where no frame shares it any more. False: a frame still does.
    pub fn reclaim(&mut self) -> bool
        ensures same { items_of self.new ≡ items_of self.old }
        ensures own { IsTrue result → IsUnshared self.new }
    {
        match mem::replace(self, BlockMemory::Empty) {
            BlockMemory::Shared(block) => match Arc::try_unwrap(block) {
                Ok(block) => *self = BlockMemory::Own(block),
                Err(block) => {
                    *self = BlockMemory::Shared(block);
                    return false;
                }
            },
            own => *self = own,
        }
        true
    }

    /// Makes the memory one that frames can share.
    #[cold]
    #[inline(never)]
    fn open(&mut self, alloc: Global) -> Result<(), AllocError>
        ensures { items_of self.new ≡ items_of self.old }
    {
        match mem::replace(self, BlockMemory::Empty) {
            BlockMemory::Own(block) => match Arc::new(alloc, block) {
                Ok(block) => {
                    *self = BlockMemory::Shared(block);
                    Ok(())
                }
                Err(refused) => {
                    *self = BlockMemory::Own(refused.value);
                    Err(AllocError)
                }
            },
            other => {
                *self = other;
                Ok(())
            }
        }
    }

    /// A share of the block, for frames whose bytes stand there.
    #[inline(always)]
    pub fn share(&mut self, alloc: Global) -> Result<FrameBlock, AllocError>
        ensures same { items_of self.new ≡ items_of self.old }
        ensures block { IfOk result (λ block. block_bytes block ≡ items_of self.old) }
    {
        if let BlockMemory::Own(_) = self {
            self.open(alloc)?;
        }
        match self {
            BlockMemory::Shared(block) => Ok(FrameBlock::Shared(Arc::try_clone(block)?)),
            BlockMemory::Own(block) => Ok(FrameBlock::Own(Vec::from_slice(alloc, block)?)),
            BlockMemory::Empty => Ok(FrameBlock::Own(Vec::new(alloc))),
        }
    }
}

/// Blocks that were filled before, some of which frames may still share.
#[derive(Drop)]
pub struct Spares {
    blocks: Option<VecDeque<Arc<Vec<u8>>>>,
}

impl Spares {
    /// None yet. Allocates nothing.
    pub fn new() -> Spares {
        Spares { blocks: None }
    }

    /// Keeps a block that frames may share, unless there are enough.
    pub fn keep(&mut self, alloc: Global, block: BlockMemory) {
        let BlockMemory::Shared(block) = block else {
            return;
        };
        let blocks = self.blocks.get_or_insert_with(|| VecDeque::new(alloc));
        if blocks.len() < MAX_SPARES {
            // Where there is no memory for one more, the block is freed with its last frame.
            let _ = blocks.push_back(block);
        }
    }

    /// A block of `len` bytes that no frame shares: the oldest one, or a new one.
    pub fn take(&mut self, alloc: Global, len: usize) -> Result<Vec<u8>, AllocError>
        ensures { IfOk result (λ block. vec_len block ≡ len) }
    {
        let oldest = match &mut self.blocks {
            Some(blocks) => blocks.pop_front(),
            None => None,
        };
        if let Some(block) = oldest {
            match Arc::try_unwrap(block) {
                Ok(bytes) => {
                    if bytes.len() == len {
                        return Ok(bytes);
                    }
                }
                Err(block) => self.keep(alloc, BlockMemory::Shared(block)),
            }
        }
        new_block(alloc, len)
    }
}
