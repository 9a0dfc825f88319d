//! One recording as it is read.

use crate::observer::Observer;
use crate::progress::Progress;
use crate::recorded::Recorded;
use afdx_frame::{Network, TapFrame};
use ordered_merge::Merger;
use pcap_io::{Item, ReadFault, TapReader, TapSource};
use run_fault::WatchFault;
use std::alloc::Global;

/// A recording, and what was read of it so far.
#[derive(Drop)]
pub(crate) struct Tap<S> {
    reader: TapReader<S>,
    progress: Progress,
}

/// Merges what waits of a frame. A reader's frames come in its order, so that each may come next.
#[inline(always)]
fn merge<O: Observer>(
    alloc: Global,
    frame: TapFrame,
    merger: &mut Merger,
    observer: &mut O,
) -> Result<(), WatchFault> {
    let Ok(kept) = observer.keep(alloc, frame) else {
        return Err(WatchFault::Memory);
    };
    if merger.can_fetch(&kept) && merger.fetch(kept).is_err() {
        return Err(WatchFault::Memory);
    }
    Ok(())
}

impl<S: TapSource> Tap<S> {
    pub(crate) fn new(reader: TapReader<S>, room: u64) -> Tap<S> {
        Tap {
            reader,
            progress: Progress::new(room),
        }
    }

    /// Reads the next frame into the merger, or that there is none, or none that is wanted.
    #[inline]
    pub(crate) fn step<O: Observer>(
        &mut self,
        alloc: Global,
        network: Network,
        merger: &mut Merger,
        observer: &mut O,
    ) -> Result<(), WatchFault> {
        let frame = match self.reader.next(alloc) {
            Ok(Item::Frame(frame)) => frame,
            Ok(Item::End(ending)) => {
                self.progress.end(ending);
                merger.end(network);
                return Ok(());
            }
            Err(ReadFault::Memory) => return Err(WatchFault::Memory),
            Err(ReadFault::Device | ReadFault::Failed) => return Err(WatchFault::Read { network }),
        };
        if !self.progress.takes(frame.stamp()) {
            merger.end(network);
            return Ok(());
        }
        merge(alloc, frame, merger, observer)
    }

    /// The source, and what is told of the recording, of which so many frames were wanted. What was read
    /// ahead of the source is lost.
    pub(crate) fn finish(self, most: u64) -> (S, Recorded) {
        (self.reader.into_source(), self.progress.recorded(most))
    }
}
