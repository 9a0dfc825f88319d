//! The pending frames of one tap.
ghost use Rattle.std.specs.Prelude.{◌≡◌, ◌+◌, ◌++◌, ◌∷◌, ◌^◌, ◌<◌, ◌≤◌, IfErr, IfOk, IsTrue, ◌↔◌, List, OnErr, OnOk, Some, [], count_by, drop, length, min, nat_lt, slice_get, take, true, ℕ};
ghost use Rattle.afdx_frame.specs.Frame.{Frame, key_of};
ghost use Rattle.std.specs.List.{AllByRecursion, prefix_len};
ghost use Rattle.std.specs.Option.{ForSome};
ghost use Rattle.frame_batch.specs.Batch.{batch_frames};
ghost use Rattle.ordered_merge.specs.Buffer.{AreInOrder, AreNumbered, IsBuffer, NoneLate, buffered, is_below, is_late, left_after, pushed, pushed_all};
ghost use Rattle.ordered_merge.specs.Merge.{IsNextOf, highest, new_tap, passes, reaches};
ghost use Rattle.ordered_merge.specs.Order.{IsRising, insert_frame, leads};

use crate::cursor::TapCursor;
use crate::order::comes_before;
use afdx_frame::{Key, TapFrame};
use frame_batch::{FrameBatch, FrameQueue};
use std::alloc::{AllocError, Global};
use std::collections::VecDeque;
use std::marker::Model;

/// The pending frames of one tap, in order, and what is known of the tap.
///
/// Most frames come in rising order of their keys, and wait in a queue. A frame that comes late, with
/// a key below that of the queue's last, waits in a list of such frames, which is in order too.
#[derive(Drop)]
pub(crate) struct TapBuffer {
    alloc: Global,
    ended: bool,
    next: u64,
    high: Option<u64>,
    queue: FrameQueue,
    late: VecDeque<TapFrame>,
}

impl Model for TapBuffer {
    ghost use Rattle.ordered_merge.specs.Buffer.{BufferState, IsBuffer, buffered};

    ghost Value = { BufferState };

    ghost view = { λ b. record {
      tap = record { ended = b.ended; next = b.next; high = b.high };
      frames = buffered b.queue b.late.items;
    } };

    ghost invariant = { λ b. IsBuffer b.queue b.late.items b.next };
}

impl TapBuffer {
    ghost use Rattle.ordered_merge.specs.Cursor.{CanCopy, tap_left};

    /// No frame came yet. Allocates nothing.
    pub(crate) fn new(alloc: Global) -> TapBuffer
        ensures { result ≡ record { tap = new_tap; frames = [] } }
    {
        TapBuffer {
            alloc,
            ended: false,
            next: 0,
            high: None,
            queue: FrameQueue::new(alloc),
            late: VecDeque::new(alloc),
        }
    }

    /// No frame follows.
    pub(crate) fn end(&mut self)
        ensures tap { self.new.tap ≡ record self.old.tap { ended = true } }
        ensures frames { self.new.frames ≡ self.old.frames }
    {
        self.ended = true;
    }

    /// True if no frame follows.
    #[inline(always)]
    pub(crate) fn has_ended(&self) -> bool
        ensures { result ≡ self.now.tap.ended }
    {
        self.ended
    }

    /// The greatest timestamp so far, in nanoseconds.
    #[inline(always)]
    pub(crate) fn high(&self) -> Option<u64>
        ensures { result ≡ self.now.tap.high }
    {
        self.high
    }

    /// True if the frame may be the tap's next.
    pub(crate) fn can_push(&self, late: u64, frame: &TapFrame) -> bool
        ensures { IsTrue result ↔ IsNextOf late self.now.tap frame.now }
    {
        !self.ended && frame.number() == self.next && is_in_time(late, self.high, frame.stamp().0)
    }

    /// Adds the tap's next frame. An `Err` gives it back: there is no memory.
    pub(crate) fn push(&mut self, frame: TapFrame) -> Result<(), TapFrame>
        requires { frame.number ≡ self.old.tap.next }
        ensures ok { OnOk result (self.new ≡ pushed self.old frame) }
        ensures unchanged { OnErr result (self.new ≡ self.old) }
        ensures given_back { IfErr result (λ f. f ≡ frame) }
        ensures numbers { AllByRecursion (λ f. f.number < frame.number) self.old.frames }
    {
        let number = frame.number();
        let stamp = frame.stamp().0;
        hold(self.alloc, &mut self.queue, &mut self.late, frame)?;
        self.next = number + 1;
        self.high = Some(highest(self.high, stamp));
        Ok(())
    }

    /// A fact that is known of the numbers of the frames.
    pub(crate) fn note_numbers(&self)
        ensures { AllByRecursion (λ f. f.number < self.now.tap.next) self.now.frames }
    {
        let _next = self.next;
    }

    /// Adds the tap's next frames, one after another. An `Err` gives those back for which there is no memory.
    pub(crate) fn push_all(&mut self, batch: FrameBatch) -> Result<(), FrameBatch>
        requires { AreNumbered self.old.tap.next (batch_frames batch) }
        ensures { (moved : List Frame) × (batch_frames batch ≡ moved ++ left_after result)
            × (self.new ≡ pushed_all self.old moved) }
    {
        if !none_late(&self.queue, &batch) {
            return self.push_each(batch);
        }
        let last = batch.last();
        let (number, stamp) = (last.number(), last.stamp().0);
        match self.queue.push(batch) {
            Ok(()) => {
                self.next = number + 1;
                self.high = Some(highest(self.high, stamp));
                Ok(())
            }
            Err(batch) => Err(batch),
        }
    }

    /// As [`push_all`](TapBuffer::push_all), frame by frame.
    fn push_each(&mut self, batch: FrameBatch) -> Result<(), FrameBatch>
        requires { AreNumbered self.old.tap.next (batch_frames batch) }
        ensures { (moved : List Frame) × (batch_frames batch ≡ moved ++ left_after result)
            × (self.new ≡ pushed_all self.old moved) }
    {
        let mut batch = batch;
        while batch.count() > 1 {
            match self.push_first(&batch) {
                Ok(()) => batch.skip(1),
                Err(AllocError) => return Err(batch),
            }
        }
        match self.push_first(&batch) {
            Ok(()) => Ok(()),
            Err(AllocError) => Err(batch),
        }
    }

    /// Adds the tap's next frame, the first of a batch, with a share of its block.
    fn push_first(&mut self, batch: &FrameBatch) -> Result<(), AllocError>
        requires { AreNumbered self.old.tap.next (batch_frames batch.now) }
        ensures ok { OnOk result ((frame : Frame) × (slice_get (batch_frames batch.now) 0 ≡ Some frame)
            × (self.new ≡ pushed self.old frame)) }
        ensures unchanged { OnErr result (self.new ≡ self.old) }
    {
        let frame = batch.first_frame(self.alloc)?;
        match self.push(frame) {
            Ok(()) => Ok(()),
            Err(_) => Err(AllocError),
        }
    }

    /// A cursor at the first frame of all.
    pub(crate) fn cursor(&self) -> TapCursor<'_>
        ensures left { tap_left result ≡ self.now.frames }
        ensures can { CanCopy result (record { blocks = []; places = [] }) }
    {
        TapCursor::new(self.queue.cursor(), &self.late)
    }

    /// Takes out so many first frames.
    pub(crate) fn drop_first(&mut self, count: usize)
        ensures { self.new ≡ record self.old { frames = drop count self.old.frames } }
    {
        if self.late.is_empty() {
            self.queue.skip(count);
            return;
        }
        for _ in 0..count {
            self.drop_one();
        }
    }

    /// Takes out the first frame of all, if there is one.
    #[inline]
    fn drop_one(&mut self)
        ensures { self.new ≡ record self.old { frames = drop 1 self.old.frames } }
    {
        if late_leads(&self.queue, &self.late) {
            drop(self.late.pop_front());
        } else {
            self.queue.skip(1);
        }
    }

    /// How many frames there are. No clause says so.
    #[inline]
    pub(crate) fn count(&self) -> usize {
        self.queue.count().saturating_add(self.late.len())
    }

    /// The bound of the timestamps for which none lower follows, in nanoseconds, where a timestamp may lie by
    /// `late` below the greatest one before it.
    pub(crate) fn reached_below(&self, late: u64) -> u64
        ensures { (stamp : ℕ) → stamp < 2 ^ 63 →
            nat_lt stamp result ≡ reaches (stamp + late) self.now.tap }
    {
        match self.high {
            _ if self.ended => u64::MAX,
            Some(high) if late <= high => (high - late).saturating_add(1),
            _ => 0,
        }
    }

    /// The bound of the timestamps for which none as low follows.
    pub(crate) fn passed_below(&self, late: u64) -> u64
        ensures { (stamp : ℕ) → stamp < 2 ^ 63 →
            nat_lt stamp result ≡ passes (stamp + late) self.now.tap }
    {
        match self.high {
            _ if self.ended => u64::MAX,
            Some(high) => high.saturating_sub(late),
            None => 0,
        }
    }

    /// How many frames have a timestamp below the bound, in nanoseconds; no more than `most`.
    pub(crate) fn count_below(&self, bound: u64, most: usize) -> usize
        ensures count { result ≡ min most (count_by (is_below bound) self.now.frames) }
        ensures fit { AllByRecursion (λ f. f.stamp < 2 ^ 63) self.now.frames }
        ensures rising { IsRising self.now.frames }
    {
        let queued = self.queue.count_below(bound, most);
        queued + count_late(&self.late, bound, most - queued)
    }
}

/// Puts a frame into the queue, or among those that came late if its key is below that of the queue's last.
fn hold(
    alloc: Global,
    queue: &mut FrameQueue,
    late: &mut VecDeque<TapFrame>,
    frame: TapFrame,
) -> Result<(), TapFrame>
    requires buffer { IsBuffer queue.old late.old.items frame.number }
    requires fits { frame.stamp < 2 ^ 63 }
    ensures buffer { OnOk result (IsBuffer queue.new late.new.items (frame.number + 1)) }
    ensures frames { OnOk result (buffered queue.new late.new.items
        ≡ insert_frame frame (buffered queue.old late.old.items)) }
    ensures queue { OnErr result (queue.new ≡ queue.old) }
    ensures late { OnErr result (late.new.items ≡ late.old.items) }
    ensures given_back { IfErr result (λ f. f ≡ frame) }
{
    if is_late(queue, frame.key()) {
        hold_late(late, frame)?;
        return Ok(());
    }
    enqueue(alloc, queue, frame)?;
    Ok(())
}

/// Adds a frame at the end of the queue.
fn enqueue(alloc: Global, queue: &mut FrameQueue, frame: TapFrame) -> Result<(), TapFrame>
    ensures added { OnOk result (queue.new ≡ queue.old ++ frame ∷ []) }
    ensures unchanged { OnErr result (queue.new ≡ queue.old) }
    ensures given_back { IfErr result (λ f. f ≡ frame) }
{
    let batch = FrameBatch::of(alloc, frame)?;
    match queue.push(batch) {
        Ok(()) => Ok(()),
        Err(batch) => Err(batch.into_first()),
    }
}

/// Puts a frame to its place among those that came late.
fn hold_late(late: &mut VecDeque<TapFrame>, frame: TapFrame) -> Result<(), TapFrame>
    requires { IsRising late.old.items }
    ensures put { OnOk result (late.new.items ≡ insert_frame frame late.old.items) }
    ensures unchanged { OnErr result (late.new.items ≡ late.old.items) }
    ensures given_back { IfErr result (λ f. f ≡ frame) }
{
    let place = place_of(late, frame.key());
    match late.insert(place, frame) {
        Ok(()) => Ok(()),
        Err(refused) => Err(refused.value),
    }
}

/// How many of the frames, which are in order, come before a frame of this key. It looks at the last of them
/// first: those that come late are often in order among themselves.
fn place_of(late: &VecDeque<TapFrame>, key: Key) -> usize
    requires { IsRising late.now.items }
    ensures within { result ≤ length late.now.items }
    ensures place { (frame : Frame) → key_of frame ≡ key → insert_frame frame late.now.items
        ≡ take result late.now.items ++ frame ∷ drop result late.now.items }
{
    let mut place = late.len();
    while place > 0 {
        if !comes_before(key, late[place - 1].key()) {
            return place;
        }
        place -= 1;
    }
    0
}

/// True if none of a tap's next frames comes late.
fn none_late(queue: &FrameQueue, batch: &FrameBatch) -> bool
    ensures late { IsTrue result → NoneLate queue.now (batch_frames batch.now) }
    ensures fit { IsTrue result → AllByRecursion (λ f. f.stamp < 2 ^ 63) (batch_frames batch.now) }
{
    !is_late(queue, batch.first().key()) && are_in_order(batch)
}

/// True if no frame's key is below that of the one before it.
fn are_in_order(batch: &FrameBatch) -> bool
    ensures order { IsTrue result → AreInOrder (batch_frames batch.now) }
    ensures fit { IsTrue result → AllByRecursion (λ f. f.stamp < 2 ^ 63) (batch_frames batch.now) }
{
    let mut last = batch.first();
    let _fits = last.stamp();
    for index in 1..batch.count() {
        let frame = batch.frame(index);
        let _fits = frame.stamp();
        if comes_before(frame.key(), last.key()) {
            return false;
        }
        last = frame;
    }
    true
}

/// True if a frame of this key comes before the queue's last.
#[inline(always)]
fn is_late(queue: &FrameQueue, key: Key) -> bool
    ensures { (frame : Frame) → key_of frame ≡ key → result ≡ is_late queue.now frame }
{
    match queue.back() {
        Some(last) => comes_before(key, last.key()),
        None => false,
    }
}

fn highest(high: Option<u64>, stamp: u64) -> u64
    ensures { result ≡ highest high stamp }
{
    match high {
        Some(high) => high.max(stamp),
        None => stamp,
    }
}

/// True if a timestamp is no further than `late` below the greatest one before it.
fn is_in_time(late: u64, high: Option<u64>, stamp: u64) -> bool
    ensures { IsTrue result ↔ ForSome high (λ high. high ≤ stamp + late) }
{
    match high {
        Some(high) => high <= stamp || high - stamp <= late,
        None => true,
    }
}

/// True if the first frame of all is one that came late.
#[inline(always)]
fn late_leads(queue: &FrameQueue, late: &VecDeque<TapFrame>) -> bool
    ensures { result ≡ leads late.now.items queue.now }
{
    match (late.front(), queue.front()) {
        (None, _) => false,
        (Some(_), None) => true,
        (Some(late), Some(queued)) => comes_before(late.key(), queued.key()),
    }
}

fn count_late(late: &VecDeque<TapFrame>, bound: u64, most: usize) -> usize
    ensures { result ≡ prefix_len (is_below bound) (take most late.now.items) }
{
    late.iter()
        .take(most)
        .take_while(|frame| frame.stamp().0 < bound)
        .count()
}
