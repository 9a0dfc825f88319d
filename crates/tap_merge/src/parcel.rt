//! How a tap's reader gets to its thread: through a ring, so that it isn't lost where no thread can be
//! started. Both ends of the ring know from the beginning which reader it will be.
ghost use Rattle.std.specs.Prelude.{◌≡◌, ◌<◌, [], IfOk};
ghost use Rattle.rtrb.specs.Ring.{known_free, received, sent};
ghost use Rattle.tap_queue.specs.Ring.{put_items};
ghost use Rattle.tap_merge.specs.Parcels.{Brings, HasPromise, Promises};

use crate::feeding::Feeding;
use pcap_io::TapReader;
use rtrb::{Consumer, Producer, Protocol, RingBuffer};
use std::alloc::{AllocError, Global};
use std::sync::Wait;
use std::thread::yield_now;
use tap_queue::TapPut;

/// The things that go through the ring: the promise, and then the reader and the end of the ring that it is
/// read into.
#[derive(Drop)]
pub enum Parcel<S> {
    Promised(Feeding<S>),
    Delivered(TapReader<S>, TapPut),
}

/// The ring's protocol: the promise that came first is kept.
#[derive(Clone, Copy)]
pub struct AsPromised;

impl<S> Protocol<Parcel<S>> for AsPromised {
    ghost allows = { Brings };
}

/// The end that delivers.
pub(crate) type Sender<S> = Producer<Parcel<S>, Global, AsPromised>;

/// The end that a thread waits at.
pub(crate) type Receiver<S> = Consumer<Parcel<S>, Global, AsPromised>;

/// A ring, both of whose ends know that this reader will be delivered, with this end.
pub(crate) fn parcel_ring<S: Drop>(
    alloc: Global,
    reader: &TapReader<S>,
    put: &TapPut,
) -> Result<(Sender<S>, Receiver<S>), AllocError>
    ensures sender { IfOk result (λ ends. Promises (sent ends.0) reader.now put.now) }
    ensures receiver { IfOk result (λ ends. Promises (received ends.1) reader.now put.now) }
    ensures room { IfOk result (λ ends. 0 < known_free ends.0) }
{
    let (mut sender, mut receiver) = RingBuffer::with_protocol::<Global, AsPromised>(alloc, 2)?;
    sender.push_reserved(Parcel::Promised(Feeding::of(reader, put)));
    receiver.slots_beside(&mut sender);
    let _promised = receiver.pop_known();
    Ok((sender, receiver))
}

/// Waits for what is delivered.
pub(crate) fn receive<R: Wait, S: Drop>(rt: &R, receiver: Receiver<S>) -> (TapReader<S>, TapPut)
    requires { HasPromise (received receiver) }
    ensures new { put_items result.1 ≡ [] }
    ensures kept { Promises (received receiver) result.0 result.1 }
{
    let mut receiver = receiver;
    for _ in rt.forever() {
        if let Ok(parcel) = receiver.pop() {
            return match parcel {
                Parcel::Delivered(reader, put) => (reader, put),
                Parcel::Promised(_promise) => unreachable!(),
            };
        }
        yield_now();
    }
    unreachable!()
}
