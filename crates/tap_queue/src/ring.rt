//! A ring and its two ends.
ghost use Rattle.std.specs.Prelude.{◌≡◌, ◌+◌, ◌<◌, ◌≤◌, ◌++◌, [], false, IfOk, IsFalse, IsTrue};
ghost use Rattle.rtrb.specs.Ring.{known_free};
ghost use Rattle.tap_queue.specs.Ring.{IsNewRing, IsRing, SamePut, has_lost, late_of, network_of};
ghost use Rattle.tap_queue.specs.Batches.{batch_items};
ghost use Rattle.tap_queue.specs.Ring.{put_items, tap_of, taken_items};

use crate::bell::Bells;
use crate::end::TapEnd;
use crate::item::Batch;
use afdx_frame::Network;
use rtrb::{Producer, PushError, RingBuffer};
use std::alloc::{AllocError, Global};
use std::sync::{Arc, Wait};

/// How many batches of items a ring holds.
pub const RING_LEN: usize = 4;

/// How many items a batch has at most: as many frames as a block of the reader holds, and no more where they
/// are short.
pub const BATCH_LEN: usize = 512;

/// How much a ring holds. What is put and taken is the same for any; a run of a program has the default.
#[derive(Clone, Copy)]
pub struct RingSizes {
    /// How many batches of items a ring holds, at least one.
    pub batches: usize,
    /// How many items a batch has at most, at least one.
    pub items: usize,
}

impl Default for RingSizes {
    fn default() -> RingSizes {
        RingSizes {
            batches: RING_LEN,
            items: BATCH_LEN,
        }
    }
}

/// The end of a ring that items are put into. It goes to the thread that reads the recording.
#[derive(Drop)]
pub struct TapPut {
    pub(crate) network: Network,
    /// How many items a batch has at most.
    pub(crate) batch_len: usize,
    pub(crate) producer: Producer<Batch>,
    pub(crate) bells: Arc<Bells, Global>,
}

/// A ring for the recording of a network, in which a stamp may lie `late` nanoseconds below the
/// greatest one before it. Its ends may go to different threads.
///
/// # Errors
///
/// `AllocError` if there is no memory for the ring.
pub fn tap_ring(alloc: Global, network: Network, late: u64) -> Result<(TapPut, TapEnd), AllocError>
    ensures ring { IfOk result (λ ends. IsRing ends.0 ends.1) }
    ensures none_put { IfOk result (λ ends. put_items ends.0 ≡ []) }
    ensures none_taken { IfOk result (λ ends. taken_items ends.1 ≡ []) }
    ensures not_lost { IfOk result (λ ends. has_lost ends.1 ≡ false) }
    ensures tap { IfOk result (λ ends. tap_of ends.0 ≡ network) }
    ensures network { IfOk result (λ ends. network_of ends.1 ≡ network) }
    ensures late { IfOk result (λ ends. late_of ends.1 ≡ late) }
{
    sized_tap_ring(alloc, network, late, RingSizes::default())
}

/// A ring of [`tap_ring`] that holds so much. A size of 0 is taken for 1.
///
/// # Errors
///
/// `AllocError` if there is no memory for the ring.
pub fn sized_tap_ring(
    alloc: Global,
    network: Network,
    late: u64,
    sizes: RingSizes,
) -> Result<(TapPut, TapEnd), AllocError>
    ensures { IfOk result (IsNewRing network late) }
{
    let (producer, consumer) = RingBuffer::new(alloc, sizes.batches.max(1))?;
    let bells = Arc::new(alloc, Bells::new())?;
    let end = TapEnd::new(alloc, network, late, consumer, Arc::try_clone(&bells)?);
    let put = TapPut {
        network,
        batch_len: sizes.items,
        producer,
        bells,
    };
    Ok((put, end))
}

impl TapPut {
    /// Waits until the taker has made room.
    fn wait_for_room<R: Wait>(&mut self, rt: &R)
        ensures ring { SamePut self.old self.new }
        ensures put { put_items self.new ≡ put_items self.old }
    {
        self.bells.putter.listen();
        if self.producer.is_full() {
            self.bells.putter.sleep(rt);
        }
        self.bells.putter.awake();
    }

    /// For how many batches there is room at once.
    pub(crate) fn room(&mut self) -> usize
        ensures ring { SamePut self.old self.new }
        ensures put { put_items self.new ≡ put_items self.old }
        ensures room { result ≡ known_free self.new.producer }
        ensures kept { known_free self.old.producer ≤ known_free self.new.producer }
    {
        self.producer.slots()
    }

    /// Puts a batch where there is room.
    pub(crate) fn put_reserved(&mut self, batch: Batch)
        requires room { 0 < known_free self.old.producer }
        ensures ring { SamePut self.old self.new }
        ensures put { put_items self.new ≡ put_items self.old ++ batch_items batch }
        ensures room { known_free self.old.producer ≡ known_free self.new.producer + 1 }
    {
        self.producer.push_reserved(batch);
    }

    /// Puts a batch, and waits where the ring is full. False: the taker is gone or has it stop, and the
    /// batch is dropped.
    pub(crate) fn put<R: Wait>(&mut self, rt: &R, batch: Batch) -> bool
        ensures ring { SamePut self.old self.new }
        ensures put { IsTrue result → put_items self.new ≡ put_items self.old ++ batch_items batch }
        ensures gone { IsFalse result → put_items self.new ≡ put_items self.old }
    {
        let mut batch = batch;
        for _ in rt.forever() {
            if self.bells.is_stopped() {
                return false;
            }
            match self.producer.push(batch) {
                Ok(()) => {
                    self.bells.taker.wake();
                    return true;
                }
                Err(PushError::Full(back)) => batch = back,
            }
            if self.producer.is_abandoned() {
                return false;
            }
            self.wait_for_room(rt);
        }
        unreachable!()
    }
}
