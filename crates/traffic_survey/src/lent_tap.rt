//! One recording as its frames are lent.

ghost use Rattle.std.specs.Option.{ForSome};
ghost use Rattle.afdx_frame.specs.Frame.{IsFrame};
ghost use Rattle.pcap_io.specs.Reader.{lent_of};

use crate::observer::Observer;
use crate::progress::Progress;
use crate::recorded::Recorded;
use afdx_frame::{LentFrame, Network, Stamp};
use pcap_io::{Found, ReadFault, TapReader, TapSource};
use run_fault::WatchFault;
use std::alloc::Global;

/// A recording, what was read of it so far, and its frame that stands to be lent.
#[derive(Drop)]
pub(crate) struct LentTap<S> {
    reader: TapReader<S>,
    network: Network,
    progress: Progress,
    /// The moment of the frame. None: there is no further one, or none that is wanted.
    next: Option<Stamp>,
    ghost stands: { ForSome next (λ stamp. IsFrame (lent_of reader)) },
}

/// A frame at another moment. None: it is out of bounds.
#[inline(always)]
fn at_moment(frame: LentFrame<'_>, moment: Stamp) -> Option<LentFrame<'_>> {
    if frame.stamp() == moment {
        return Some(frame);
    }
    let bytes = frame.view().bytes();
    LentFrame::new(
        frame.network(),
        frame.number(),
        moment,
        frame.whole(),
        bytes,
    )
}

impl<S: TapSource> LentTap<S> {
    /// Before the first frame, of which so many are wanted.
    pub(crate) fn new(reader: TapReader<S>, network: Network, room: u64) -> LentTap<S> {
        LentTap {
            reader,
            network,
            progress: Progress::new(room),
            next: None,
        }
    }

    /// The moment of the frame that stands to be lent.
    #[inline(always)]
    pub(crate) fn next(&self) -> Option<Stamp> {
        self.next
    }

    /// That frame, at its moment.
    #[inline(always)]
    pub(crate) fn frame(&self) -> Option<LentFrame<'_>> {
        match self.next {
            Some(moment) => at_moment(self.reader.frame(), moment),
            None => None,
        }
    }

    /// Tells an observer of the frame that stands to be lent, which has the moment then that it says.
    #[inline(always)]
    pub(crate) fn tell<O: Observer>(&mut self, observer: &mut O) {
        match self.next {
            Some(stamp) => self.next = Some(observer.hear(self.network, stamp)),
            None => {}
        }
    }

    /// Goes on to the next frame.
    #[inline]
    pub(crate) fn advance(&mut self, alloc: Global) -> Result<(), WatchFault> {
        self.next = None;
        match self.reader.advance(alloc) {
            Ok(Found::Frame) => {
                let stamp = self.reader.frame().stamp();
                if self.progress.takes(stamp) {
                    self.next = Some(stamp);
                }
                Ok(())
            }
            Ok(Found::End(ending)) => {
                self.progress.end(ending);
                Ok(())
            }
            Err(ReadFault::Memory) => Err(WatchFault::Memory),
            Err(ReadFault::Device | ReadFault::Failed) => Err(WatchFault::Read {
                network: self.network,
            }),
        }
    }

    /// The source, and what is told of the recording, of which so many frames were wanted. What was read
    /// ahead of the source is lost.
    pub(crate) fn finish(self, most: u64) -> (S, Recorded) {
        let recorded = self.progress.recorded(most);
        (self.reader.into_source(), recorded)
    }
}
