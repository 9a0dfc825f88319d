//! The items that go through a ring, one by one or in batches.
ghost use Rattle.std.specs.Prelude.{◌≡◌, ◌<◌, length};
ghost use Rattle.tap_queue.specs.Items.{is_over, items_of};

use afdx_frame::TapFrame;
use frame_batch::FrameBatch;
use pcap_io::{Batched, Ending, ReadFault};
use thiserror::Error;

/// One thing that a reader gave.
#[derive(Drop)]
pub enum TapItem {
    /// The next frame.
    Frame(TapFrame),
    /// The recording's ending. Nothing follows it.
    End(Ending),
    /// The reader failed. Nothing follows it.
    Failed(ReadFault),
}

/// Things that a reader gave together.
#[derive(Drop)]
pub enum TapBatch {
    /// The next frames, one after another.
    Frames(FrameBatch),
    /// The recording's ending. Nothing follows it.
    End(Ending),
    /// The reader failed. Nothing follows it.
    Failed(ReadFault),
}

impl TapBatch {
    ghost use Rattle.tap_queue.specs.Items.{batch_from};

    /// The batch of a reader's call.
    pub(crate) fn of(read: Result<Batched, ReadFault>) -> TapBatch
        ensures { result ≡ batch_from read }
    {
        match read {
            Ok(Batched::Frames(frames)) => TapBatch::Frames(frames),
            Ok(Batched::End(ending)) => TapBatch::End(ending),
            Err(fault) => TapBatch::Failed(fault),
        }
    }

    /// True if nothing follows it.
    pub fn is_last(&self) -> bool
        ensures { result ≡ is_over (items_of self.now) }
    {
        match self {
            TapBatch::Frames(_) => false,
            TapBatch::End(_) | TapBatch::Failed(_) => true,
        }
    }
}

/// The things that go through a ring at once, at least one.
#[derive(Drop)]
pub(crate) struct Batch {
    pub(crate) content: TapBatch,
    ghost some: { 0 < length (items_of content) },
}

/// The items taken of a ring can't be shown to be those that a reader put into it: the ring was left without
/// an ending, its ending or a fault was taken before, an item isn't the recording's next, or some are left.
#[derive(Clone, Copy, Debug, PartialEq, Eq, Error)]
#[error("the items of a ring were lost")]
pub struct RingLost;
