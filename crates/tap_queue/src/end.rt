//! The end of a ring that items are taken from.
ghost use Rattle.std.specs.Prelude.{◌≡◌, ◌++◌, ◌∷◌, ◌^◌, ◌≤◌, [], length, false, None, MatchOption};
ghost use Rattle.rtrb.specs.Ring.{SameConsumer, received};
ghost use Rattle.tap_queue.specs.Items.{frames_in, high_of, is_over, items_of};
ghost use Rattle.tap_queue.specs.Batches.{IsRest, rest_items, taken_of};

use crate::bell::{Bell, Bells};
use crate::feeding::Fed;
use crate::item::{Batch, RingLost, TapBatch, TapItem};
use crate::next_frame::NextFrame;
use crate::ring::TapPut;
use afdx_frame::Network;
use frame_batch::FrameBatch;
use pcap_io::TapSource;
use rtrb::Consumer;
use std::alloc::Global;
use std::hint::spin_loop;
use std::sync::{Arc, Wait};

/// How often a thread that takes looks again before it sleeps: some microseconds, in which a frame is
/// read.
const SPINS: u32 = 64;

/// The end of a ring that items are taken from. It stays with the thread that takes them.
#[derive(Drop)]
pub struct TapEnd {
    next: NextFrame,
    consumer: Consumer<Batch>,
    /// The rest of the batch that came last.
    rest: Option<FrameBatch>,
    alloc: Global,
    bells: Arc<Bells, Global>,
    /// An ending or a fault was taken.
    over: bool,
    /// The ring was left without one, or an item was taken that isn't the next.
    lost: bool,
    ghost bounded: { lost ≡ false → next.number ≤ 2 ^ 32 },
    ghost counted: { lost ≡ false
        → next.number ≡ length (frames_in (taken_of (received consumer) (rest_items rest))) },
    ghost highest: { lost ≡ false
        → next.high ≡ high_of (frames_in (taken_of (received consumer) (rest_items rest))) },
    ghost ended: { lost ≡ false → over ≡ is_over (taken_of (received consumer) (rest_items rest)) },
    ghost kept: { IsRest (received consumer) (rest_items rest) },
}

/// Waits until a batch was put, or the ring was left.
fn wait_for_batch<R: Wait>(rt: &R, consumer: &mut Consumer<Batch>, bell: &Bell)
    ensures ring { SameConsumer consumer.old consumer.new }
    ensures taken { received consumer.new ≡ received consumer.old }
{
    for _ in 0..SPINS {
        if !consumer.is_empty() {
            return;
        }
        spin_loop();
    }
    bell.listen();
    if consumer.is_empty() {
        bell.sleep(rt);
    }
    bell.awake();
}

/// The oldest batch that is in the ring, which is waited for. None: the ring is empty, and was left.
fn pop<R: Wait>(rt: &R, consumer: &mut Consumer<Batch>, bells: &Bells) -> Option<Batch>
    ensures ring { SameConsumer consumer.old consumer.new }
    ensures taken { MatchOption result (received consumer.new ≡ received consumer.old)
        (λ batch. received consumer.new ≡ received consumer.old ++ batch ∷ []) }
{
    for _ in rt.forever() {
        if let Ok(batch) = consumer.pop() {
            bells.putter.wake();
            return Some(batch);
        }
        if consumer.is_abandoned() {
            // Whatever was put before the ring was left can be seen by now.
            return consumer.pop().ok();
        }
        wait_for_batch(rt, consumer, &bells.taker);
    }
    unreachable!()
}

/// The rest of a batch, or else the oldest batch of the ring. None: the ring is empty, and was left.
#[inline]
fn next_batch<R: Wait>(
    rt: &R,
    rest: &mut Option<FrameBatch>,
    consumer: &mut Consumer<Batch>,
    bells: &Bells,
) -> Option<TapBatch>
    requires { IsRest (received consumer.old) (rest_items rest.old) }
    ensures ring { SameConsumer consumer.old consumer.new }
    ensures none { rest.new ≡ None }
    ensures kept { IsRest (received consumer.new) (rest_items rest.new) }
    ensures taken { MatchOption result
        (taken_of (received consumer.new) (rest_items rest.new)
        ≡ taken_of (received consumer.old) (rest_items rest.old))
        (λ taken. taken_of (received consumer.new) (rest_items rest.new)
        ≡ taken_of (received consumer.old) (rest_items rest.old) ++ items_of taken) }
{
    if let Some(batch) = rest.take() {
        return Some(TapBatch::Frames(batch));
    }
    let batch = pop(rt, consumer, bells)?;
    Some(batch.content)
}

/// The next item: of what is left of a batch, or else of the ring. None: the ring is empty, and was left; or
/// there is no further share of the batch's block.
#[inline]
fn next_item<R: Wait>(
    rt: &R,
    alloc: Global,
    rest: &mut Option<FrameBatch>,
    consumer: &mut Consumer<Batch>,
    bells: &Bells,
) -> Option<TapItem>
    requires { IsRest (received consumer.old) (rest_items rest.old) }
    ensures ring { SameConsumer consumer.old consumer.new }
    ensures kept { IsRest (received consumer.new) (rest_items rest.new) }
    ensures taken { MatchOption result
        (taken_of (received consumer.new) (rest_items rest.new)
        ≡ taken_of (received consumer.old) (rest_items rest.old))
        (λ item. taken_of (received consumer.new) (rest_items rest.new)
        ≡ taken_of (received consumer.old) (rest_items rest.old) ++ item ∷ []) }
{
    match next_batch(rt, rest, consumer, bells)? {
        TapBatch::Frames(batch) => match batch.split_first(alloc) {
            Ok((frame, others)) => {
                *rest = others;
                Some(TapItem::Frame(frame))
            }
            Err(batch) => {
                *rest = Some(batch);
                None
            }
        },
        TapBatch::End(ending) => Some(TapItem::End(ending)),
        TapBatch::Failed(fault) => Some(TapItem::Failed(fault)),
    }
}

/// How many frames of a batch are left.
fn count_of(rest: &Option<FrameBatch>) -> usize
    ensures { result ≡ length (rest_items rest.now) }
{
    match rest {
        Some(batch) => batch.count(),
        None => 0,
    }
}

impl TapEnd {
    ghost use Rattle.std.specs.Prelude.{◌≢◌, ◌⊎◌, ◌↔◌, true, Err, IfOk, IsTrue, List, OnErr};
    ghost use Rattle.afdx_frame.specs.declared.bounds.TheConstants.{MAX_SNAPLEN};
    ghost use Rattle.pcap_io.specs.Reader.{source_of, unread_of};
    ghost use Rattle.tap_queue.specs.Items.{IsLoss, IsNextItem, ring_lost};
    ghost use Rattle.tap_queue.specs.Batches.{AreNextItems, IsBatchLoss};
    ghost use Rattle.tap_queue.specs.Ring.{IsRing, SameEnd, has_lost, late_of, network_of};
    ghost use Rattle.tap_queue.specs.Ring.{Looks, put_items, put_of, reader_of, taken_items};
    ghost use Rattle.tap_queue.specs.declared.item.TapItem.{TapItem};

    pub(crate) fn new(
        alloc: Global,
        network: Network,
        late: u64,
        consumer: Consumer<Batch>,
        bells: Arc<Bells, Global>,
    ) -> TapEnd
        requires { received consumer ≡ [] }
        ensures consumer { result.consumer ≡ consumer }
        ensures none_taken { taken_items result ≡ [] }
        ensures network { network_of result ≡ network }
        ensures late { late_of result ≡ late }
        ensures not_lost { has_lost result ≡ false }
    {
        TapEnd {
            next: NextFrame::first(network, late),
            consumer,
            rest: None,
            alloc,
            bells,
            over: false,
            lost: false,
        }
    }

    /// True if an item may follow those that were taken.
    #[inline]
    fn is_going(&self) -> bool
        ensures { IsTrue result
            ↔ (has_lost self.now ≡ false × is_over (taken_items self.now) ≡ false) }
    {
        !self.lost && !self.over
    }

    /// True if the next call of [`take`](TapEnd::take) has nothing to wait for. No clause says so.
    pub fn is_ready(&mut self) -> bool
        ensures { Looks self.old self.new }
    {
        !self.is_going()
            || self.rest.is_some()
            || !self.consumer.is_empty()
            || self.consumer.is_abandoned()
    }

    /// As [`is_ready`](TapEnd::is_ready), after some milliseconds at the longest, within which an item may
    /// come.
    pub fn is_soon_ready<R: Wait>(&mut self, rt: &R) -> bool
        ensures { Looks self.old self.new }
    {
        if !self.is_ready() {
            wait_for_batch(rt, &mut self.consumer, &self.bells.taker);
        }
        self.is_ready()
    }

    /// Has the thread that reads the recording stop: it puts no more than what it is about to put, and
    /// reads no more.
    pub fn stop(&self) {
        self.bells.stop();
    }

    /// Takes the next item, and waits where there is none. A frame is the network's next: its
    /// number counts those before it, and its stamp lies no further below theirs than it may.
    ///
    /// # Errors
    ///
    /// `RingLost` if the ring was left without an ending, if an item isn't the network's next, and
    /// if the ending or a fault was taken before. Each later call answers so too. After the last
    /// of the three the end can still be settled.
    pub fn take<R: Wait>(&mut self, rt: &R) -> Result<TapItem, RingLost>
        ensures ring { SameEnd self.old self.new }
        ensures taken { IfOk result (λ item.
            taken_items self.new ≡ taken_items self.old ++ item ∷ []) }
        ensures next { IfOk result (λ item. IsNextItem (network_of self.old) (late_of self.old)
            (taken_items self.old) item) }
        ensures bounded { IfOk result (λ _. length (frames_in (taken_items self.new)) ≤ 2 ^ 32) }
        ensures going { IfOk result (λ _. has_lost self.old ≡ false × has_lost self.new ≡ false) }
        ensures over { is_over (taken_items self.old) ≡ true
            → (result ≡ Err ring_lost) × (self.new ≡ self.old) }
        ensures stays_lost { has_lost self.old ≡ true
            → (result ≡ Err ring_lost) × (self.new ≡ self.old) }
        ensures lost { is_over (taken_items self.old) ≡ false
            → OnErr result (has_lost self.new ≡ true) }
        ensures loss { has_lost self.old ≡ false → is_over (taken_items self.old) ≡ false
            → OnErr result (IsLoss (network_of self.old) (late_of self.old)
            (taken_items self.old) (taken_items self.new)) }
    {
        if !self.is_going() {
            return Err(RingLost);
        }
        let Some(item) = next_item(
            rt,
            self.alloc,
            &mut self.rest,
            &mut self.consumer,
            &self.bells,
        ) else {
            self.lost = true;
            return Err(RingLost);
        };
        match &item {
            TapItem::Frame(frame) => self.lost = !self.next.pass(&frame.lent()),
            TapItem::End(_) | TapItem::Failed(_) => self.over = true,
        }
        if self.lost {
            return Err(RingLost);
        }
        Ok(item)
    }

    /// Takes what came together: what is left of the frames of which [`take`](TapEnd::take) gave the
    /// first, or else the next ones, or the ending or a fault, and waits where there is none. Each frame
    /// is the network's next, as one that `take` gives.
    ///
    /// # Errors
    ///
    /// Those of [`take`](TapEnd::take).
    pub fn take_batch<R: Wait>(&mut self, rt: &R) -> Result<TapBatch, RingLost>
        ensures ring { SameEnd self.old self.new }
        ensures taken { IfOk result (λ taken.
            taken_items self.new ≡ taken_items self.old ++ items_of taken) }
        ensures next { IfOk result (AreNextItems (network_of self.old) (late_of self.old)
            (taken_items self.old)) }
        ensures bounded { IfOk result (λ _. length (frames_in (taken_items self.new)) ≤ 2 ^ 32) }
        ensures going { IfOk result (λ _. has_lost self.old ≡ false × has_lost self.new ≡ false) }
        ensures over { is_over (taken_items self.old) ≡ true
            → (result ≡ Err ring_lost) × (self.new ≡ self.old) }
        ensures stays_lost { has_lost self.old ≡ true
            → (result ≡ Err ring_lost) × (self.new ≡ self.old) }
        ensures lost { is_over (taken_items self.old) ≡ false
            → OnErr result (has_lost self.new ≡ true) }
        ensures loss { has_lost self.old ≡ false → is_over (taken_items self.old) ≡ false
            → OnErr result (IsBatchLoss (network_of self.old) (late_of self.old)
            (taken_items self.old) (taken_items self.new)) }
    {
        if !self.is_going() {
            return Err(RingLost);
        }
        let Some(taken) = next_batch(rt, &mut self.rest, &mut self.consumer, &self.bells) else {
            self.lost = true;
            return Err(RingLost);
        };
        match &taken {
            TapBatch::Frames(frames) => self.lost = !self.next.pass_all(frames),
            TapBatch::End(_) | TapBatch::Failed(_) => self.over = true,
        }
        if self.lost {
            return Err(RingLost);
        }
        Ok(taken)
    }

    /// Shows that all was taken that was put, up to the recording's ending or a fault, and gives
    /// the source back. What was read ahead of the last item is lost, at most 262144 bytes.
    ///
    /// # Errors
    ///
    /// `RingLost` if an item was lost, if not all was taken, and if neither an ending nor a fault
    /// was taken. The source is dropped.
    pub fn settle<S: TapSource + Drop>(self, fed: Fed<S>) -> Result<S, RingLost>
        requires ring { IsRing (put_of fed) self }
        ensures source { IfOk result (λ source. source ≡ source_of (reader_of fed)) }
        ensures ahead { length (unread_of (reader_of fed)) ≤ MAX_SNAPLEN }
        ensures all { IfOk result (λ _. taken_items self ≡ put_items (put_of fed)) }
        ensures over { IfOk result (λ _. is_over (taken_items self) ≡ true) }
        ensures not_lost { IfOk result (λ _. has_lost self ≡ false) }
        ensures refused { OnErr result ((has_lost self ≡ true)
            ⊎ (is_over (taken_items self) ≡ false)
            ⊎ (taken_items self ≢ put_items (put_of fed))) }
    {
        let TapEnd {
            next: _,
            mut consumer,
            rest,
            alloc: _,
            bells: _,
            over,
            lost,
        } = self;
        let Fed { reader, put } = fed;
        let TapPut {
            network: _,
            batch_len: _,
            mut producer,
            bells: _,
        } = put;
        let left = consumer.slots_beside(&mut producer);
        if lost || !over || left > 0 || count_of(&rest) > 0 {
            return Err(RingLost);
        }
        Ok(reader.into_source())
    }

    /// Gives the source back, whatever is left of what was put: what was taken is the first of it.
    ///
    /// # Errors
    ///
    /// `RingLost` if an item was lost. The source is dropped.
    pub fn leave<S: TapSource + Drop>(self, fed: Fed<S>) -> Result<S, RingLost>
        requires ring { IsRing (put_of fed) self }
        ensures source { IfOk result (λ source. source ≡ source_of (reader_of fed)) }
        ensures ahead { length (unread_of (reader_of fed)) ≤ MAX_SNAPLEN }
        ensures first { (more : List TapItem) × (put_items (put_of fed) ≡ taken_items self ++ more) }
        ensures not_lost { IfOk result (λ _. has_lost self ≡ false) }
        ensures refused { OnErr result (has_lost self ≡ true) }
    {
        let TapEnd {
            next: _,
            mut consumer,
            rest: _,
            alloc: _,
            bells: _,
            over: _,
            lost,
        } = self;
        let Fed { reader, put } = fed;
        let TapPut {
            network: _,
            batch_len: _,
            mut producer,
            bells: _,
        } = put;
        // Its contract ties what both ends have seen.
        let _left = consumer.slots_beside(&mut producer);
        if lost {
            return Err(RingLost);
        }
        Ok(reader.into_source())
    }
}
