//! The observer that is shown the frames of recordings.

use afdx_frame::{LentFrame, Network, Stamp, TapFrame};
use run_fault::WatchFault;
use std::alloc::{AllocError, Global};

/// An observer is shown the frames of both recordings, in the order of timestamp, network and number.
pub trait Observer {
    /// The part of a frame that waits until it is shown: all but some of its bytes.
    ///
    /// # Errors
    ///
    /// `AllocError` if the system is out of memory.
    fn keep(&mut self, alloc: Global, frame: TapFrame) -> Result<TapFrame, AllocError>;

    /// Hears when the next frame of a recording came, where frames are shown as they are read. The moment at
    /// which it is shown, below 2^32 seconds: those of a recording never fall.
    #[inline(always)]
    fn hear(&mut self, _network: Network, stamp: Stamp) -> Stamp {
        stamp
    }

    /// Sees the next frame, of which that was kept.
    ///
    /// # Errors
    ///
    /// `Memory` if the system is out of memory; `Write` if the observer writes, and can't.
    fn see(&mut self, alloc: Global, frame: &LentFrame<'_>) -> Result<(), WatchFault>;
}
