//! The items that a reader finds, and why it may find nothing.
ghost use Rattle.std.specs.Prelude.{◌≡◌};

use crate::device::DeviceFault;
use crate::recording::Ending;
use afdx_frame::{FrameBlock, TapFrame};
use frame_batch::{FrameBatch, FrameRecord};
use std::alloc::AllocError;
use thiserror::Error;

/// The next item of a recording, with a frame that lasts.
#[derive(Debug, Drop)]
pub enum Item {
    /// The next frame.
    Frame(TapFrame),
    /// The recording's ending, again at each later call.
    End(Ending),
}

/// The next frames of a recording, or what ends it.
#[derive(Drop)]
pub enum Batched {
    /// The next frames, one after another, at least one.
    Frames(FrameBatch),
    /// The recording's ending, again at each later call.
    End(Ending),
}

/// The next item of a recording, with a frame that stands in a block.
#[derive(Drop)]
pub enum Taken {
    Frame(FrameBlock, FrameRecord),
    End(Ending),
}

/// The kinds of things that stand at a reader's place.
#[derive(Clone, Copy, PartialEq, Eq)]
pub enum Found {
    /// A frame, which the reader lends until the next call.
    Frame,
    /// The recording's ending, again at each later call.
    End(Ending),
}

/// Why a reader found nothing.
#[derive(Clone, Copy, Debug, PartialEq, Eq, Error)]
pub enum ReadFault {
    /// The source failed.
    #[error("the device failed")]
    Device,
    /// There was no memory for a frame's bytes.
    #[error("out of memory")]
    Memory,
    /// The reader had failed before.
    #[error("the reader has failed before")]
    Failed,
}

impl From<DeviceFault> for ReadFault {
    ghost use Rattle.pcap_io.specs.declared.item.ReadFault.TheVariants.{Device};

    ghost from_gives = { λ _ e. e ≡ Device };

    fn from(_fault: DeviceFault) -> ReadFault {
        ReadFault::Device
    }
}

impl From<AllocError> for ReadFault {
    ghost use Rattle.pcap_io.specs.declared.item.ReadFault.TheVariants.{Memory};

    ghost from_gives = { λ _ e. e ≡ Memory };

    fn from(_fault: AllocError) -> ReadFault {
        ReadFault::Memory
    }
}
