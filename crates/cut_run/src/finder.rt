//! Finds frames in one pass.
ghost use Rattle.std.specs.Prelude.{◌≡◌, ◌≢◌, ◌<◌, ◌≤◌, [], length, List, Option, None, Some, Ok, Err, IfOk, IfErr, IsSome, MatchResult, false, true};
ghost use Rattle.afdx_frame.specs.Frame.{Frame};
ghost use Rattle.afdx_frame.specs.declared.bounds.TheConstants.{MAX_SNAPLEN};
ghost use Rattle.pcap_io.specs.Device.{TakesAtMost, TakesFewer};
ghost use Rattle.pcap_io.specs.Position.{IsOpenFault, Opens};
ghost use Rattle.pcap_io.specs.declared.layout.Layout.{Layout};
ghost use Rattle.pcap_io.specs.declared.layout.TheConstants.{FILE_HEADER_LEN};
ghost use Rattle.pcap_io.specs.declared.reader.OpenFault.TheVariants as opening;
ghost use Rattle.cut_run.specs.Finder.{Finds, HasRead, IsFindFault, Opening, fault_of, finder_source, finding_of, opening_of};
ghost use Rattle.cut_run.specs.Places.{IsAbove, place_at};
ghost use Rattle.cut_run.specs.declared.place.SearchPlace.{SearchPlace};

use crate::passed::{forget_below, keep_later, take_at};
use crate::place::{SearchPlace, is_of};
use afdx_frame::{Network, Stamp, TapFrame};
use pcap_io::{Item, OpenRefused, ReadFault, TapReader, TapSource};
use std::alloc::Global;
use std::collections::BTreeMap;
use thiserror::Error;

/// The most frames of a recording that are read.
const MAX_FRAMES: u64 = 1 << 32;

/// Why a frame wasn't found.
#[derive(Clone, Copy, Debug, PartialEq, Eq, Error)]
pub enum FindFault {
    /// The source failed.
    #[error("the device failed")]
    Device,
    /// There was no memory for a frame.
    #[error("out of memory")]
    Memory,
    /// The recording has no frame of this index, or one of another timestamp.
    #[error("no such frame")]
    Absent,
    /// The finder had failed before.
    #[error("the finder has failed before")]
    Failed,
}

/// The frames of one recording, found by timestamp and index, in rising order of both.
///
/// It reads the recording once. Frames that it passes are kept as long as they may still be asked for:
/// only those whose timestamp lies above the one that is asked for, while that of a higher index is.
#[derive(Drop)]
pub struct FrameFinder<S> {
    reader: TapReader<S>,
    passed: BTreeMap<SearchPlace, TapFrame>,
    /// The index of the next frame that is read.
    next: u64,
    /// The source failed, or there was no memory for a frame.
    failed: bool,
}

impl<S: TapSource> FrameFinder<S> {
    /// Opens a recording, whose timestamps may come in any order. A refusal gives the source back.
    /// Allocates nothing.
    pub fn open(
        alloc: Global,
        source: S,
        network: Network,
    ) -> Result<FrameFinder<S>, OpenRefused<S>>
        ensures opened { IfOk result (λ finder. HasRead
            (opening_of S.TapSource network source) [] None
            (finding_of S.TapSource finder)) }
        // Nothing more than the file header is gone.
        ensures fresh { IfOk result (λ finder. (layout : Layout)
            × Opens (S.told source) (S.remaining source) (S.remaining (finder_source finder)) layout) }
        ensures fault { IfErr result (λ e. IsOpenFault (S.told source) (S.remaining source)
            (S.failures source) (S.failures e.source) e.fault) }
        ensures taken { IfErr result (λ e.
            TakesAtMost FILE_HEADER_LEN (S.remaining source) (S.remaining e.source)) }
        ensures unfinished { IfErr result (λ e. e.fault ≡ opening.Device
            → TakesFewer FILE_HEADER_LEN (S.remaining source) (S.remaining e.source)) }
    {
        match TapReader::open(source, network, MAX_FRAMES, u64::MAX) {
            Ok(reader) => Ok(FrameFinder {
                reader,
                passed: BTreeMap::new(alloc),
                next: 0,
                failed: false,
            }),
            Err(refused) => Err(refused),
        }
    }

    /// The finder has failed.
    fn fail(&mut self, fault: ReadFault) -> FindFault
        ensures fault { result ≡ fault_of fault }
        ensures failed { self.new ≡ record self.old { failed = true } }
    {
        self.failed = true;
        match fault {
            ReadFault::Device => FindFault::Device,
            ReadFault::Memory => FindFault::Memory,
            ReadFault::Failed => FindFault::Failed,
        }
    }

    /// Reads on to the frame at the place, and keeps those that may still be asked for.
    fn read_to(&mut self, alloc: Global, place: SearchPlace) -> Result<TapFrame, FindFault>
        ensures found { (o : Opening) (frames : List Frame)
            → HasRead o frames (Some place) (finding_of S.TapSource self.old)
            → length frames ≤ place.number
            → MatchResult result
            (λ f. Finds o frames place f (finding_of S.TapSource self.new))
            (IsFindFault o frames place (finding_of S.TapSource self.new)) }
        // After a fault of the reader, or one of memory, it has failed.
        ensures failed { IfErr result (λ fault. fault ≢ FindFault.Absent → self.new.failed ≡ true) }
    {
        while self.next <= place.number {
            let frame = match self.reader.next(alloc) {
                Ok(Item::Frame(frame)) => frame,
                Ok(Item::End(_)) => return Err(FindFault::Absent),
                Err(fault) => return Err(self.fail(fault)),
            };
            self.next = frame.number() + 1;
            if is_of(&frame, place) {
                return Ok(frame);
            }
            if keep_later(&mut self.passed, place, frame).is_none() {
                return Err(self.fail(ReadFault::Memory));
            }
        }
        Err(FindFault::Absent)
    }

    /// The frame of this timestamp and index, which come later in order (timestamp, then index) than
    /// those that were asked for before. Reads on where the index wasn't read yet, and no further.
    ///
    /// Where timestamps come in order, it allocates nothing of its own: no frame is kept.
    ///
    /// # Errors
    ///
    /// `Absent` if the recording has no such frame; the next one may be asked for. `Device` if the source
    /// failed. `Memory` if there was none for a packet, or to keep a passed frame, which comes only where
    /// timestamps go back. After `Device` and `Memory` each later call returns `Failed`.
    #[inline]
    pub fn find(&mut self, alloc: Global, stamp: Stamp, number: u64) -> Result<TapFrame, FindFault>
        ensures found { (o : Opening) (frames : List Frame) (floor : Option SearchPlace)
            → HasRead o frames floor (finding_of S.TapSource self.old)
            → IsAbove floor (place_at stamp.0 number)
            → MatchResult result
            (λ f. Finds o frames (place_at stamp.0 number) f (finding_of S.TapSource self.new))
            (IsFindFault o frames (place_at stamp.0 number) (finding_of S.TapSource self.new)) }
        ensures failed { IfErr result (λ fault. fault ≢ FindFault.Absent
            → (finding_of S.TapSource self.new).failed ≡ true) }
        ensures refused { (finding_of S.TapSource self.old).failed ≡ true
            → (result ≡ Err FindFault.Failed) × (self.new ≡ self.old) }
    {
        if self.failed {
            return Err(FindFault::Failed);
        }
        let place = SearchPlace { stamp, number };
        forget_below(&mut self.passed, place);
        if number < self.next {
            return take_at(&mut self.passed, place).ok_or(FindFault::Absent);
        }
        self.read_to(alloc, place)
    }

    /// The source. What was read ahead is lost, at most [`MAX_SNAPLEN`](afdx_frame::MAX_SNAPLEN)
    /// bytes.
    pub fn into_source(self) -> S
        ensures source { result ≡ finder_source self }
        ensures lost { length (finding_of S.TapSource self).unread ≤ MAX_SNAPLEN }
    {
        self.reader.into_source()
    }
}
