//! Two recordings, read and merged.
ghost use Rattle.std.specs.Prelude.{◌≡◌, ◌+◌, ◌<◌, ◌≤◌, ◌++◌, ℕ, List, [], length, is_some, true, false, Some, None, Ok, IfErr, IfOk, OnOk};
ghost use Rattle.std.specs.Option.{option_map_or};
ghost use Rattle.afdx_frame.specs.Frame.{Frame};
ghost use Rattle.pcap_io.specs.Reader.{position_of, reading_of, source_of};
ghost use Rattle.pcap_io.specs.declared.recording.Stage.TheVariants.{Going};
ghost use Rattle.run_fault.specs.Device.{SourceView};
ghost use Rattle.tap_merge.specs.Taps.{Agrees, Fits, Merges, MergesNot};

use afdx_frame::Network;
use frame_batch::Round;
use ordered_merge::Merger;
use pcap_io::{Batched, Ending, OpenRefused, ReadFault, TapReader, TapSource};
use run_fault::{MAX_FRAMES, WatchFault, fault_of_open};
use std::alloc::{AllocError, Global};
use std::num::NonZeroUsize;

/// Merges the next frames of a network's reader, at most `most`, or its ending, which it returns.
fn merge_next<S: TapSource>(
    alloc: Global,
    most: usize,
    network: Network,
    reader: &mut TapReader<S>,
    merger: &mut Merger,
) -> Result<Option<Ending>, WatchFault>
    requires going { (position_of reader.old).stage ≡ Going }
    requires fits { Fits network (position_of reader.old) merger.old }
    ensures merged { IfOk result (λ end. Merges network end
        (reading_of S.remaining S.failures S.told reader.old)
        (reading_of S.remaining S.failures S.told reader.new) merger.old merger.new) }
    ensures no_failure { OnOk result
        (S.failures (source_of reader.new) ≡ S.failures (source_of reader.old)) }
    ensures agrees { IfOk result (λ end. Agrees network end (position_of reader.new) merger.new) }
    ensures stopped { IfErr result (λ fault. MergesNot network fault
        (reading_of S.remaining S.failures S.told reader.old)
        (reading_of S.remaining S.failures S.told reader.new) merger.old) }
{
    match reader.next_batch(alloc, most) {
        Ok(Batched::Frames(batch)) => {
            if merger.fetch_all(network, batch).is_err() {
                return Err(WatchFault::Memory);
            }
            Ok(None)
        }
        Ok(Batched::End(ending)) => {
            merger.end(network);
            Ok(Some(ending))
        }
        Err(ReadFault::Device) => Err(WatchFault::Read { network }),
        Err(ReadFault::Memory) => Err(WatchFault::Memory),
        Err(ReadFault::Failed) => unreachable!(),
    }
}

/// The readers of both networks, the merger of their frames, and the endings that were met.
#[derive(Drop)]
pub struct Taps<S, T> {
    pub a: TapReader<S>,
    pub b: TapReader<T>,
    pub merger: Merger,
    pub end_a: Option<Ending>,
    pub end_b: Option<Ending>,
}

/// Recordings that weren't opened, and why.
#[derive(Drop)]
pub struct Unopened<S, T> {
    pub fault: WatchFault,
    pub a: S,
    pub b: T,
}

/// How many frames a program merges before a round of them is cut, and the most frames of its rounds: so few
/// that they stay in the processor's cache from merging to writing.
pub const ROUND: usize = 1024;

impl<S: TapSource, T: TapSource> Taps<S, T> {
    ghost use Rattle.ordered_merge.specs.Merge.{cut_frames, new_state};
    ghost use Rattle.pcap_io.specs.Reader.{remaining_of, unread_of};
    ghost use Rattle.run_fault.specs.Recording.{LeavesUnread};
    ghost use Rattle.tap_merge.specs.Taps.{Agree, HasEnded, HasMerged, StopsMerging, work_left};
    ghost use Rattle.run_fault.specs.Device.{SinkView, source_at};
    ghost use Rattle.run_fault.specs.Opening.{AbortsAtOpening, watch_devices};

    /// Opens the recordings of networks A and B, in this order, which are read in blocks of so many bytes
    /// ([`TapReader::with_block_len`]). A stamp may lie by `late` nanoseconds below the greatest one of its
    /// recording before it. A refusal gives both back.
    pub fn open(
        alloc: Global,
        late: u64,
        block_len: usize,
        a: S,
        b: T,
    ) -> Result<Taps<S, T>, Unopened<S, T>>
        ensures opened { IfOk result (λ taps.
            HasMerged S.TapSource T.TapSource
            late (source_at S.TapSource a) (source_at T.TapSource b)
            [] [] [] taps) }
        ensures agree { IfOk result Agree }
        ensures merger { IfOk result (λ taps. taps.merger ≡ new_state late) }
        ensures fresh { IfOk result (λ taps. (unread_of taps.a ≡ []) × (unread_of taps.b ≡ [])) }
        ensures ends { IfOk result (λ taps. (taps.end_a ≡ None) × (taps.end_b ≡ None)) }
        ensures refused { IfErr result (λ e. (capture ledger : SinkView)
            → AbortsAtOpening e.fault
            (watch_devices (source_at S.TapSource a)
            (source_at T.TapSource b) capture ledger)
            (watch_devices (source_at S.TapSource e.a)
            (source_at T.TapSource e.b) capture ledger)) }
    {
        let a = match TapReader::open(a, Network::A, MAX_FRAMES, late) {
            Ok(reader) => reader.with_block_len(block_len),
            Err(OpenRefused { source, fault }) => {
                let fault = fault_of_open(Network::A, fault);
                return Err(Unopened {
                    fault,
                    a: source,
                    b,
                });
            }
        };
        let b = match TapReader::open(b, Network::B, MAX_FRAMES, late) {
            Ok(reader) => reader.with_block_len(block_len),
            Err(OpenRefused { source, fault }) => {
                let (fault, a) = (fault_of_open(Network::B, fault), a.into_source());
                return Err(Unopened {
                    fault,
                    a,
                    b: source,
                });
            }
        };
        Ok(Taps {
            a,
            b,
            merger: Merger::new(alloc, late),
            end_a: None,
            end_b: None,
        })
    }

    /// The sources. What was read ahead of them is lost.
    pub fn into_sources(self) -> (S, T)
        ensures a { LeavesUnread (unread_of self.a) (remaining_of S.remaining self.a) (S.remaining result.0) }
        ensures b { LeavesUnread (unread_of self.b) (remaining_of T.remaining self.b) (T.remaining result.1) }
        ensures a_failures { S.failures result.0 ≡ S.failures (source_of self.a) }
        ensures b_failures { T.failures result.1 ≡ T.failures (source_of self.b) }
    {
        let Taps {
            a,
            b,
            merger: _,
            end_a: _,
            end_b: _,
        } = self;
        (a.into_source(), b.into_source())
    }

    /// Merges what comes next of the network whose turn it is: at most `most` frames, or its ending.
    /// False: both have ended.
    fn merge_one(&mut self, alloc: Global, most: usize) -> Result<bool, WatchFault>
        requires { Agree self.old }
        ensures agree { OnOk result (Agree self.new) }
        ensures merged { OnOk result ((late : ℕ) (a b : SourceView)
            (frames_a frames_b cut : List Frame)
            → HasMerged S.TapSource T.TapSource
            late a b frames_a frames_b cut self.old
            → (more_a : List Frame) × (more_b : List Frame)
            × HasMerged S.TapSource T.TapSource
            late a b more_a more_b cut self.new) }
        ensures goes_on { result ≡ Ok true → work_left self.new < work_left self.old }
        ensures ended { result ≡ Ok false → HasEnded self.new × (self.new ≡ self.old) }
        ensures stopped { IfErr result (λ fault. (late : ℕ) (a b : SourceView)
            (frames_a frames_b cut : List Frame)
            → HasMerged S.TapSource T.TapSource
            late a b frames_a frames_b cut self.old
            → StopsMerging fault late a b cut
            (reading_of S.remaining S.failures S.told self.new.a)
            (reading_of T.remaining T.failures T.told self.new.b)) }
    {
        match self.merger.wants() {
            None => return Ok(false),
            Some(Network::A) => {
                let end = merge_next(alloc, most, Network::A, &mut self.a, &mut self.merger)?;
                self.end_a = end;
            }
            Some(Network::B) => {
                let end = merge_next(alloc, most, Network::B, &mut self.b, &mut self.merger)?;
                self.end_b = end;
            }
        }
        Ok(true)
    }

    /// Takes out the first safe frames in order, at most `most`.
    fn cut_round(&mut self, most: NonZeroUsize) -> Result<Round, WatchFault>
        requires { Agree self.old }
        ensures agree { OnOk result (Agree self.new) }
        ensures merged { IfOk result (λ round. (late : ℕ) (a b : SourceView)
            (frames_a frames_b cut : List Frame)
            → HasMerged S.TapSource T.TapSource
            late a b frames_a frames_b cut self.old
            → HasMerged S.TapSource T.TapSource
            late a b frames_a frames_b (cut ++ round) self.new) }
        ensures work { IfOk result (λ round.
            length round + work_left self.new ≡ work_left self.old) }
        ensures some { IfOk result (λ round. length (cut_frames self.old.merger 1) ≡ 1
            → 0 < length round) }
        ensures stopped { IfErr result (λ fault. (late : ℕ) (a b : SourceView)
            (frames_a frames_b cut : List Frame)
            → HasMerged S.TapSource T.TapSource
            late a b frames_a frames_b cut self.old
            → StopsMerging fault late a b cut
            (reading_of S.remaining S.failures S.told self.new.a)
            (reading_of T.remaining T.failures T.told self.new.b)) }
    {
        match self.merger.cut(most.get()) {
            Ok(round) => Ok(round),
            Err(AllocError) => Err(WatchFault::Memory),
        }
    }

    /// The next frames in order, at most `most`; there may be none yet. None: both recordings have ended,
    /// and all their frames were given.
    pub fn next_round(
        &mut self,
        alloc: Global,
        most: NonZeroUsize,
    ) -> Result<Option<Round>, WatchFault>
        requires { Agree self.old }
        ensures agree { OnOk result (Agree self.new) }
        ensures merged { IfOk result (λ round. (late : ℕ) (a b : SourceView)
            (frames_a frames_b cut : List Frame)
            → HasMerged S.TapSource T.TapSource
            late a b frames_a frames_b cut self.old
            → (more_a : List Frame) × (more_b : List Frame)
            × HasMerged S.TapSource T.TapSource
            late a b more_a more_b (cut ++ option_map_or (λ frames. frames) round []) self.new) }
        ensures goes_on { IfOk result (λ round. is_some round ≡ true
            → work_left self.new < work_left self.old) }
        ensures ended { result ≡ Ok None
            → HasEnded self.new × (self.new.merger.pending ≡ []) }
        ensures stopped { IfErr result (λ fault. (late : ℕ) (a b : SourceView)
            (frames_a frames_b cut : List Frame)
            → HasMerged S.TapSource T.TapSource
            late a b frames_a frames_b cut self.old
            → StopsMerging fault late a b cut
            (reading_of S.remaining S.failures S.told self.new.a)
            (reading_of T.remaining T.failures T.told self.new.b)) }
    {
        // Frames that came together may be several rounds.
        if !self.merger.has_round(1) {
            if !self.merge_one(alloc, most.get())? {
                return Ok(None);
            }
        }
        let round = self.cut_round(most)?;
        Ok(Some(round))
    }
}
