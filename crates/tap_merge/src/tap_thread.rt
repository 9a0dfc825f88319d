//! How a tap is read into its ring: by a thread of its own, or, where none can be had, by the thread that
//! takes from the ring.
ghost use Rattle.std.specs.Prelude.{◌≡◌, [], IfSome, IsSome, None, true};
ghost use Rattle.rtrb.specs.Ring.{received};
ghost use Rattle.tap_queue.specs.Ring.{IsRing, has_lost, put_items};
ghost use Rattle.tap_merge.specs.Parcels.{HasPromise, KeepsPromise, Promises};
ghost use Rattle.tap_merge.specs.Reads.{IsReadInto};
ghost use Rattle.tap_merge.specs.Threads.{FeedsOn, IsFeeding, IsLeft, IsSettled, KeepsFeeding, promise_of};

use crate::feeding::Feeding;
use crate::local_tap::LocalTap;
use crate::parcel::{Parcel, Receiver, parcel_ring, receive};
use pcap_io::{TapReader, TapSource};
use std::alloc::Global;
use std::sync::Wait;
use std::thread::{PromisedHandle, Scope, Threads};
use tap_queue::{Fed, RingLost, TapEnd, TapGate, TapPut, feed};

/// A tap's thread.
pub type TapThread<S> = PromisedHandle<Fed<S>, Feeding<S>>;

/// How a tap is read.
#[derive(Drop)]
pub enum TapFeed<S: TapSource> {
    /// By a thread of its own.
    Thread(TapThread<S>),
    /// By the thread that takes its items, as no thread could be had.
    Local(LocalTap<S>),
}

/// Starts the thread that reads a tap into its ring. Where it can't be started the thread that takes from the
/// ring reads the tap.
pub fn start_tap<'s, E, R: Wait + Sync, S: TapSource + Drop + Send + 's, G: TapGate + Sync>(
    scope: &Scope<'s, E>,
    rt: &'s R,
    alloc: Global,
    gate: &'s G,
    reader: TapReader<S>,
    put: TapPut,
) -> TapFeed<S>
    requires { put_items put ≡ [] }
    ensures reader { (promise_of result).reader.value ≡ reader }
    ensures put { (promise_of result).put.value ≡ put }
    ensures feeding { IsFeeding S.TapSource result }
{
    let Ok((mut sender, receiver)) = parcel_ring(alloc, &reader, &put) else {
        return TapFeed::Local(LocalTap::begin(reader, put, gate));
    };
    let promise = Feeding::of(&reader, &put);
    match start_thread(scope, rt, alloc, gate, promise, receiver) {
        Some(thread) => {
            sender.push_reserved(Parcel::Delivered(reader, put));
            TapFeed::Thread(thread)
        }
        None => TapFeed::Local(LocalTap::begin(reader, put, gate)),
    }
}

/// Waits for a tap's reader, and reads it into its ring.
fn read_delivered<R: Wait, S: TapSource + Drop, G: TapGate>(
    rt: &R,
    alloc: Global,
    gate: &G,
    receiver: Receiver<S>,
) -> Fed<S>
    requires { HasPromise (received receiver) }
    ensures { KeepsPromise S.TapSource (received receiver) result }
{
    let (reader, put) = receive(rt, receiver);
    feed(rt, alloc, reader, put, gate)
}

/// Starts a thread that waits for a tap's reader. None: it couldn't be started.
fn start_thread<'s, E, R: Wait + Sync, S: TapSource + Drop + Send + 's, G: TapGate + Sync>(
    scope: &Scope<'s, E>,
    rt: &'s R,
    alloc: Global,
    gate: &'s G,
    promise: Feeding<S>,
    receiver: Receiver<S>,
) -> Option<TapThread<S>>
    requires { Promises (received receiver) promise.reader.value promise.put.value }
    ensures { IfSome result (λ thread. thread.promise ≡ promise) }
{
    // The closure takes its end out of an option, as what it ensures names what it began with.
    let mut slot = Some(receiver);
    let read = move || -> Fed<S>
        requires { IsSome slot × IfSome slot (λ receiver. HasPromise (received receiver)) }
        ensures { IfSome slot.entry (λ receiver. KeepsPromise S.TapSource (received receiver) result) }
    { read_delivered(rt, alloc, gate, slot.take().unwrap()) };
    scope.spawn_with(promise, read).ok()
}

impl<S: TapSource + Drop> TapFeed<S> {
    /// Reads on until the ring is full, where no thread does.
    pub fn fill(&mut self, alloc: Global)
        requires { IsFeeding S.TapSource self.old }
        ensures kept { KeepsFeeding S.TapSource self.old self.new }
        ensures filled { FeedsOn self.old self.new }
    {
        match self {
            TapFeed::Thread(_thread) => {}
            TapFeed::Local(tap) => tap.fill(alloc),
        }
    }

    /// Waits for the thread, where there is one.
    fn join<R: Threads>(self, rt: &R) -> Fed<S>
        requires { IsFeeding S.TapSource self }
        ensures { IsReadInto S.TapSource
            (promise_of self).reader.value (promise_of self).put.value result }
    {
        match self {
            TapFeed::Thread(thread) => thread.join(rt),
            TapFeed::Local(tap) => tap.fed,
        }
    }
}

/// Waits for a tap's thread, and settles its ring. None: items were lost, and the source with them.
pub fn settle_tap<R: Threads, S: TapSource + Drop>(
    rt: &R,
    end: TapEnd,
    feed: TapFeed<S>,
) -> Option<S>
    requires feeding { IsFeeding S.TapSource feed }
    requires ring { IsRing (promise_of feed).put.value end }
    ensures { IfSome result (IsSettled S.TapSource (promise_of feed).reader.value end) }
{
    match end.settle(feed.join(rt)) {
        Ok(source) => Some(source),
        Err(RingLost) => None,
    }
}

/// Waits for a tap's thread, which [`TapEnd::stop`] has come to its end, and gives the source back, whatever
/// is left in its ring. None: an item was lost, and the source with it.
pub fn leave_tap<R: Threads, S: TapSource + Drop>(
    rt: &R,
    end: TapEnd,
    feed: TapFeed<S>,
) -> Option<S>
    requires feeding { IsFeeding S.TapSource feed }
    requires ring { IsRing (promise_of feed).put.value end }
    ensures left { IfSome result (IsLeft S.TapSource (promise_of feed).reader.value end) }
    ensures lost { result ≡ None → has_lost end ≡ true }
{
    match end.leave(feed.join(rt)) {
        Ok(source) => Some(source),
        Err(RingLost) => None,
    }
}
