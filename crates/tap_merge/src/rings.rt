//! Two recordings that other threads read, taken from their rings and merged.
ghost use Rattle.std.specs.Prelude.{◌≡◌, ◌++◌, ◌^◌, ◌≤◌, ℕ, List, [], length, true, false, Ok, Err, None, IfErr, IfOk, OnErr, OnOk};
ghost use Rattle.std.specs.Option.{option_map_or};
ghost use Rattle.afdx_frame.specs.Frame.{Frame};
ghost use Rattle.tap_queue.specs.Items.{frames_in, is_over};
ghost use Rattle.tap_queue.specs.Ring.{taken_items};
ghost use Rattle.std.specs.NonZero.{non_zero_usize_get};
ghost use Rattle.tap_merge.specs.Rings.{AgreesWith, IsLost, IsNotFailed, MergesFrames, MergesItem, StopsTogether, TakesFailure, TakesOn, TapFault, WhereFailed};

use afdx_frame::Network;
use frame_batch::Round;
use ordered_merge::Merger;
use pcap_io::{Ending, ReadFault};
use run_fault::WatchFault;
use std::alloc::AllocError;
use std::num::NonZeroUsize;
use std::sync::Wait;
use tap_queue::{TapBatch, TapEnd};

/// Takes what comes next of a network's ring and merges it: frames that came together, or the recording's
/// ending, which it returns.
fn merge_item<R: Wait>(
    rt: &R,
    network: Network,
    end: &mut TapEnd,
    merger: &mut Merger,
) -> Result<Option<Ending>, WatchFault>
    requires { AgreesWith network end.old merger.old }
    ensures takes { TakesOn end.old end.new }
    ensures merged { IfOk result (λ ending. MergesItem network ending end.old end.new merger.old merger.new) }
    ensures few { OnOk result (length (frames_in (taken_items end.new)) ≤ 2 ^ 32) }
    ensures unchanged { IfErr result (λ fault. WhereFailed fault (merger.new ≡ merger.old)) }
    ensures fault { IfErr result (λ fault. TapFault network fault end.new) }
    ensures failed { IfErr result (λ fault. TakesFailure fault end.old end.new) }
    ensures not_failed { result ≡ Err WatchFault.Memory → IsNotFailed (taken_items end.new) }
    ensures lost { result ≡ Err WatchFault.RingLost → IsLost end.old end.new }
{
    match end.take_batch(rt)? {
        TapBatch::Frames(frames) => {
            if merger.fetch_all(network, frames).is_err() {
                return Err(WatchFault::Memory);
            }
            Ok(None)
        }
        TapBatch::End(ending) => {
            merger.end(network);
            Ok(Some(ending))
        }
        TapBatch::Failed(ReadFault::Device) => Err(WatchFault::Read { network }),
        TapBatch::Failed(ReadFault::Memory) => Err(WatchFault::Memory),
        // No thread puts it: a reader fails once, by one of the others.
        TapBatch::Failed(ReadFault::Failed) => Err(WatchFault::RingLost),
    }
}

/// True if a round's frames are there, after some were merged, or will be with as many more as came last.
fn is_enough(most: usize, before: usize, last: usize, pending: usize) -> bool {
    let merged = pending.saturating_sub(before);
    merged.saturating_add(pending.saturating_sub(last)) > most
}

/// The rings of both networks, the merger of their frames, the endings that were met, and the fault of a
/// source, which is told once all frames were given that are safe without it.
#[derive(Drop)]
pub struct Rings {
    pub a: TapEnd,
    pub b: TapEnd,
    pub merger: Merger,
    pub end_a: Option<Ending>,
    pub end_b: Option<Ending>,
    pub fault: Option<WatchFault>,
}

impl Rings {
    ghost use Rattle.std.specs.Prelude.{is_some};
    ghost use Rattle.ordered_merge.specs.Merge.{safe_frames};
    ghost use Rattle.tap_queue.specs.Ring.{SameEnd};
    ghost use Rattle.tap_merge.specs.Rings.{HasTaken, RingsFault, StopsTaking};

    /// True if the next item can be taken without waiting for it. No clause says so.
    fn is_ready(&mut self) -> bool
        ensures a { SameEnd self.old.a self.new.a }
        ensures b { SameEnd self.old.b self.new.b }
        ensures fault { self.new.fault ≡ self.old.fault }
        ensures same { (late : ℕ) (cut : List Frame)
            → HasTaken late cut self.old → HasTaken late cut self.new }
    {
        match self.merger.wants() {
            None => true,
            Some(Network::A) => self.a.is_ready(),
            Some(Network::B) => self.b.is_ready(),
        }
    }

    /// True if [`next_round`](Rings::next_round) has nothing to wait for, after some milliseconds at the
    /// longest in which an item may come. No clause says so.
    pub fn is_soon_ready<R: Wait>(&mut self, rt: &R) -> bool
        ensures a { SameEnd self.old.a self.new.a }
        ensures b { SameEnd self.old.b self.new.b }
        ensures same { (late : ℕ) (cut : List Frame)
            → HasTaken late cut self.old → HasTaken late cut self.new }
    {
        if self.fault.is_some() {
            return true;
        }
        match self.merger.wants() {
            None => true,
            Some(Network::A) => self.a.is_soon_ready(rt),
            Some(Network::B) => self.b.is_soon_ready(rt),
        }
    }

    /// Merges the next items of the network whose turn it is. False: both have ended.
    fn merge_one<R: Wait>(&mut self, rt: &R) -> Result<bool, WatchFault>
        requires none { self.old.fault ≡ None }
        requires taken { (late : ℕ) × (cut : List Frame) × HasTaken late cut self.old }
        ensures a { SameEnd self.old.a self.new.a }
        ensures b { SameEnd self.old.b self.new.b }
        ensures none { self.new.fault ≡ None }
        ensures merged { OnOk result ((late : ℕ) (cut : List Frame)
            → HasTaken late cut self.old → HasTaken late cut self.new) }
        ensures ended { result ≡ Ok false
            → (self.new.merger.a.ended ≡ true) × (self.new.merger.b.ended ≡ true) }
        ensures failed { IfErr result (λ fault. WhereFailed fault ((late : ℕ) (cut : List Frame)
            → HasTaken late cut self.old → HasTaken late cut self.new)) }
        ensures stopped { OnErr result ((late : ℕ) (cut : List Frame)
            → HasTaken late cut self.old → StopsTaking late cut self.new.a self.new.b) }
        ensures fault { IfErr result (λ fault. RingsFault fault self.new.a self.new.b) }
    {
        match self.merger.wants() {
            None => return Ok(false),
            Some(Network::A) => {
                self.end_a = merge_item(rt, Network::A, &mut self.a, &mut self.merger)?;
            }
            Some(Network::B) => {
                self.end_b = merge_item(rt, Network::B, &mut self.b, &mut self.merger)?;
            }
        }
        Ok(true)
    }

    /// Merges items: those that it waits for, and those after them that are there, up to some `most` in all.
    /// False: both have ended.
    fn merge_some<R: Wait>(&mut self, rt: &R, most: usize) -> Result<bool, WatchFault>
        requires none { self.old.fault ≡ None }
        requires taken { (late : ℕ) × (cut : List Frame) × HasTaken late cut self.old }
        ensures a { SameEnd self.old.a self.new.a }
        ensures b { SameEnd self.old.b self.new.b }
        ensures none { self.new.fault ≡ None }
        ensures merged { OnOk result ((late : ℕ) (cut : List Frame)
            → HasTaken late cut self.old → HasTaken late cut self.new) }
        ensures ended { result ≡ Ok false
            → (self.new.merger.a.ended ≡ true) × (self.new.merger.b.ended ≡ true) }
        ensures failed { IfErr result (λ fault. WhereFailed fault ((late : ℕ) (cut : List Frame)
            → HasTaken late cut self.old → HasTaken late cut self.new)) }
        ensures stopped { OnErr result ((late : ℕ) (cut : List Frame)
            → HasTaken late cut self.old → StopsTaking late cut self.new.a self.new.b) }
        ensures fault { IfErr result (λ fault. RingsFault fault self.new.a self.new.b) }
    {
        let before = self.merger.count_pending();
        let mut last = before;
        for _item in 0..most {
            if !self.merge_one(rt)? {
                return Ok(false);
            }
            let pending = self.merger.count_pending();
            // Safe frames are given before this thread waits.
            if !self.is_ready() || is_enough(most, before, last, pending) {
                break;
            }
            last = pending;
        }
        Ok(true)
    }

    /// Merges `most` items more, unless a source has failed or so many frames are safe, and keeps the
    /// fault of a source that fails.
    /// False: both have ended, or a source has failed.
    fn merge_more<R: Wait>(&mut self, rt: &R, most: usize) -> Result<bool, WatchFault>
        requires { (late : ℕ) × (cut : List Frame) × HasTaken late cut self.old }
        ensures a { SameEnd self.old.a self.new.a }
        ensures b { SameEnd self.old.b self.new.b }
        ensures merged { OnOk result ((late : ℕ) (cut : List Frame)
            → HasTaken late cut self.old → HasTaken late cut self.new) }
        ensures ended { result ≡ Ok false → self.new.fault ≡ None
            → (self.new.merger.a.ended ≡ true) × (self.new.merger.b.ended ≡ true) }
        ensures going { result ≡ Ok true → self.new.fault ≡ None }
        ensures not_failed { IfErr result (λ fault. WhereFailed fault ⊥) }
        ensures stopped { OnErr result ((late : ℕ) (cut : List Frame)
            → HasTaken late cut self.old → StopsTaking late cut self.new.a self.new.b) }
        ensures fault { IfErr result (λ fault. RingsFault fault self.new.a self.new.b) }
    {
        if self.fault.is_some() {
            return Ok(false);
        }
        // A batch may have brought the frames of several rounds: what is safe doesn't wait for more.
        if self.merger.has_round(1) {
            return Ok(true);
        }
        match self.merge_some(rt, most) {
            Ok(more) => Ok(more),
            Err(WatchFault::Read { network }) => {
                self.fault = Some(WatchFault::Read { network });
                Ok(false)
            }
            Err(fault) => Err(fault),
        }
    }

    /// The next frames in order, at most `most`; there may be none yet. None: both recordings have ended,
    /// and all their frames were given.
    ///
    /// # Errors
    ///
    /// `Read` if a source failed, once all frames were given that are safe without what it didn't give.
    /// `Memory` and `RingLost` at once.
    pub fn next_round<R: Wait>(
        &mut self,
        rt: &R,
        most: NonZeroUsize,
    ) -> Result<Option<Round>, WatchFault>
        requires { (late : ℕ) × (cut : List Frame) × HasTaken late cut self.old }
        ensures a { SameEnd self.old.a self.new.a }
        ensures b { SameEnd self.old.b self.new.b }
        ensures merged { IfOk result (λ round. (late : ℕ) (cut : List Frame)
            → HasTaken late cut self.old
            → HasTaken late (cut ++ option_map_or (λ frames. frames) round []) self.new) }
        ensures size { IfOk result (λ round.
            option_map_or (λ frames. length frames) round 0 ≤ non_zero_usize_get most) }
        ensures ended { result ≡ Ok None → (is_some self.new.end_a ≡ true)
            × (is_some self.new.end_b ≡ true) × (self.new.merger.pending ≡ []) }
        ensures stopped { OnErr result ((late : ℕ) (cut : List Frame)
            → HasTaken late cut self.old → StopsTaking late cut self.new.a self.new.b) }
        ensures none_safe { IfErr result (λ fault. WhereFailed fault (
            (safe_frames self.new.merger ≡ []) × ((late : ℕ) (cut : List Frame)
            → HasTaken late cut self.old → HasTaken late cut self.new))) }
        ensures fault { IfErr result (λ fault. RingsFault fault self.new.a self.new.b) }
    {
        let most = most.get();
        let merged = self.merge_more(rt, most)?;
        let round = match self.merger.cut(most) {
            Ok(round) => round,
            Err(AllocError) => return Err(WatchFault::Memory),
        };
        if merged || !round.is_empty() {
            return Ok(Some(round));
        }
        match self.fault {
            None => Ok(None),
            Some(fault) => Err(fault),
        }
    }
}
