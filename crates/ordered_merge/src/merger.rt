//! The merger that programs run: frames in, rounds in order out.
ghost use Rattle.std.specs.Prelude.{◌≡◌, ◌+◌, ◌-◌, ◌++◌, ◌^◌, ◌<◌, ◌≤◌, if◌then◌else◌, IfErr, IfOk, IsTrue, ◌↔◌, List, OnErr, OnOk, drop, length, nat_lt, take, ℕ};
ghost use Rattle.std.specs.List.{AllByRecursion};
ghost use Rattle.afdx_frame.specs.Frame.{Frame};
ghost use Rattle.frame_batch.specs.Batch.{batch_frames};
ghost use Rattle.ordered_merge.specs.Buffer.{left_after};
ghost use Rattle.ordered_merge.specs.Copying.{CanCopyBoth, Copies};
ghost use Rattle.ordered_merge.specs.Merge.{CanFetch, CanFetchAll, Wants, after_cut, cut_frames, ended, fetched, fetched_all, is_no_later, is_safe_of, new_state};
ghost use Rattle.ordered_merge.specs.Order.{insert_frames};

use crate::buffer::TapBuffer;
use crate::cursor::TapCursor;
use afdx_frame::{Network, TapFrame};
use frame_batch::{FrameBatch, Round, RoundDraft};
use std::alloc::{AllocError, Global};
use std::marker::Model;

/// Merges the frames of both networks into the one order of their keys.
///
/// Frames come by [`fetch`](Merger::fetch), each network's in the order of its recording, in which a
/// timestamp may lie by some nanoseconds below the greatest one before it. A frame is safe once no frame
/// that may still come has a lower key. [`cut`](Merger::cut) takes out the first safe frames, so that
/// the frames of all cuts, one after another, are in order.
#[derive(Drop)]
pub struct Merger {
    alloc: Global,
    late: u64,
    a: TapBuffer,
    b: TapBuffer,
}

impl Model for Merger {
    ghost use Rattle.std.specs.Prelude.{◌≡◌};
    ghost use Rattle.std.specs.List.{AllByRecursion};
    ghost use Rattle.afdx_frame.specs.declared.key.Network.TheVariants.{A, B};
    ghost use Rattle.ordered_merge.specs.Merge.{MergerState};
    ghost use Rattle.ordered_merge.specs.Order.{insert_frames};

    ghost Value = { MergerState };

    ghost view = { λ m. record {
      late = m.late;
      pending = insert_frames m.b.frames m.a.frames;
      a = m.a.tap;
      b = m.b.tap;
    } };

    ghost invariant = { λ m.
        AllByRecursion (λ f. f.network ≡ A) m.a.frames × AllByRecursion (λ f. f.network ≡ B) m.b.frames };
}

impl Merger {
    /// A merger that has no frame yet. A timestamp may lie by `late` nanoseconds below the greatest one of
    /// its network before it. Keeps the allocator, and allocates nothing.
    pub fn new(alloc: Global, late: u64) -> Merger
        ensures { result ≡ new_state late }
    {
        Merger {
            alloc,
            late,
            a: TapBuffer::new(alloc),
            b: TapBuffer::new(alloc),
        }
    }

    /// True if the frame may come next: its network hasn't ended, its number is the next, and its
    /// timestamp is within the window.
    pub fn can_fetch(&self, frame: &TapFrame) -> bool
        ensures { IsTrue result ↔ CanFetch self.now frame.now }
    {
        match frame.network() {
            Network::A => self.a.can_push(self.late, frame),
            Network::B => self.b.can_push(self.late, frame),
        }
    }

    /// Adds the next frame of its network, which has not ended. An `Err` gives it back: there is no
    /// memory, and nothing has changed.
    pub fn fetch(&mut self, frame: TapFrame) -> Result<(), TapFrame>
        requires { CanFetch self.old frame }
        ensures ok { OnOk result (self.new ≡ fetched self.old frame) }
        ensures unchanged { OnErr result (self.new ≡ self.old) }
        ensures given_back { IfErr result (λ f. f ≡ frame) }
    {
        match frame.network() {
            Network::A => self.a.push(frame),
            Network::B => self.b.push(frame),
        }
    }

    /// Adds the next frames of a network, which has not ended, one after another. An `Err` gives those back
    /// for which there is no memory.
    pub fn fetch_all(&mut self, network: Network, batch: FrameBatch) -> Result<(), FrameBatch>
        requires { CanFetchAll network self.old (batch_frames batch) }
        ensures { (moved : List Frame) × (batch_frames batch ≡ moved ++ left_after result)
            × (self.new ≡ fetched_all self.old moved) }
    {
        match network {
            Network::A => self.a.push_all(batch),
            Network::B => {
                self.b.note_numbers();
                self.b.push_all(batch)
            }
        }
    }

    /// True if so many frames are safe.
    pub fn has_round(&self, most: usize) -> bool
        ensures { IsTrue result ↔ length (cut_frames self.now most) ≡ most }
    {
        self.count_safe(most) == most
    }

    /// How many frames are pending. No clause says so.
    #[inline]
    pub fn count_pending(&self) -> usize {
        self.a.count().saturating_add(self.b.count())
    }

    /// The network has ended: none of its frames follows.
    pub fn end(&mut self, network: Network)
        ensures { self.new ≡ ended self.old network }
    {
        match network {
            Network::A => self.a.end(),
            Network::B => self.b.end(),
        }
    }

    /// The network to fetch from next, of those that haven't ended: one that has given no frame yet, or
    /// else the one whose greatest timestamp is the least. Of two alike it is A. None: both have ended.
    pub fn wants(&self) -> Option<Network>
        ensures { Wants self.now result }
    {
        match (self.a.has_ended(), self.b.has_ended()) {
            (true, true) => None,
            (false, true) => Some(Network::A),
            (true, false) => Some(Network::B),
            (false, false) => Some(earlier(self.a.high(), self.b.high())),
        }
    }

    /// Takes out the first safe frames in order, at most `most`. An `Err`: there is a safe frame and no
    /// memory, and nothing has changed.
    pub fn cut(&mut self, most: usize) -> Result<Round, AllocError>
        ensures round { IfOk result (λ round. round ≡ cut_frames self.old most) }
        ensures rest { OnOk result (self.new ≡ after_cut self.old most) }
        ensures whole { IfOk result (λ round. self.old.pending ≡ round ++ self.new.pending) }
        ensures unchanged { OnErr result (self.new ≡ self.old) }
        ensures memory { OnErr result (0 < length (cut_frames self.old most)) }
    {
        let count = self.count_safe(most);
        if count == 0 {
            return Ok(Round::new(self.alloc));
        }
        let (round, of_a) = merge_first(self.alloc, &self.a, &self.b, count)?;
        self.a.drop_first(of_a);
        self.b.drop_first(count - of_a);
        Ok(round)
    }

    /// The bound of the timestamps, in nanoseconds, below which the frames of a network are safe.
    fn safe_below(&self, network: Network) -> u64
        ensures { (stamp : ℕ) → stamp < 2 ^ 63 →
            nat_lt stamp result ≡ is_safe_of network self.now (stamp + self.now.late) }
    {
        let (own, other) = match network {
            Network::A => (
                self.a.reached_below(self.late),
                self.b.reached_below(self.late),
            ),
            Network::B => (
                self.b.reached_below(self.late),
                self.a.passed_below(self.late),
            ),
        };
        own.min(other)
    }

    /// How many frames a cut takes out.
    pub fn count_safe(&self, most: usize) -> usize
        ensures count { result ≡ length (cut_frames self.now most) }
        ensures first { take result self.now.pending ≡ cut_frames self.now most }
    {
        let of_a = self.a.count_below(self.safe_below(Network::A), most);
        of_a + self.b.count_below(self.safe_below(Network::B), most - of_a)
    }
}

/// The first `count` pending frames of both taps, and how many of them are the first's.
fn merge_first(
    alloc: Global,
    a: &TapBuffer,
    b: &TapBuffer,
    count: usize,
) -> Result<(Round, usize), AllocError>
    requires { count ≤ length (insert_frames b.now.frames a.now.frames) }
    ensures round { IfOk result (λ r. r.0 ≡ take count (insert_frames b.now.frames a.now.frames)) }
    ensures few { IfOk result (λ r. r.1 ≤ count) }
    ensures rest { IfOk result (λ r. insert_frames (drop (count - r.1) b.now.frames) (drop r.1 a.now.frames)
        ≡ drop count (insert_frames b.now.frames a.now.frames)) }
{
    let (mut a, mut b) = (a.cursor(), b.cursor());
    let mut draft = RoundDraft::with_capacity(alloc, count)?;
    let mut of_a = 0;
    for _ in 0..count {
        of_a += copy_next(alloc, &mut a, &mut b, &mut draft)?;
    }
    Ok((Round::of(draft), of_a))
}

/// Copies the first frame that is left of both taps. How many of the first tap's that are: one or none.
#[inline(always)]
fn copy_next(
    alloc: Global,
    a: &mut TapCursor<'_>,
    b: &mut TapCursor<'_>,
    draft: &mut RoundDraft,
) -> Result<usize, AllocError>
    requires { CanCopyBoth a.old b.old draft.old }
    ensures { IfOk result (λ of_a. Copies of_a a.old b.old draft.old a.new b.new draft.new) }
{
    if b.leads(a) {
        b.copy_first(alloc, draft)?;
        return Ok(0);
    }
    a.copy_first(alloc, draft)?;
    Ok(1)
}

/// The network whose greatest timestamp is less, of two alike A.
fn earlier(a: Option<u64>, b: Option<u64>) -> Network
    ensures { result ≡ (if is_no_later a b then Network.A else Network.B) }
{
    match (a, b) {
        (Some(a), Some(b)) if b < a => Network::B,
        (Some(_), None) => Network::B,
        _ => Network::A,
    }
}
