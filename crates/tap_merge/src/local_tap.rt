//! A tap that is read without a thread of its own.
ghost use Rattle.std.specs.Prelude.{◌≡◌, []};
ghost use Rattle.tap_queue.specs.Items.{is_over};
ghost use Rattle.tap_queue.specs.Ring.{put_items, put_of};
ghost use Rattle.tap_merge.specs.Reads.{HasPut, ReadsOn};

use crate::feeding::Feeding;
use pcap_io::{TapReader, TapSource};
use std::alloc::Global;
use tap_queue::{Fed, TapGate, TapPut, fill};

/// A tap that is read by the thread that takes its items.
#[derive(Drop)]
pub struct LocalTap<S> {
    pub(crate) promise: Feeding<S>,
    pub(crate) fed: Fed<S>,
    /// The recording's ending or a fault was put.
    over: bool,
    ghost ended: { over ≡ is_over (put_items (put_of fed)) },
}

impl<S: TapSource> LocalTap<S> {
    /// A tap of which nothing was read yet. The gate is called.
    pub(crate) fn begin<G: TapGate>(reader: TapReader<S>, put: TapPut, gate: &G) -> LocalTap<S>
        requires { put_items put ≡ [] }
        ensures reader { result.promise.reader.value ≡ reader }
        ensures put { result.promise.put.value ≡ put }
        ensures read { HasPut S.TapSource reader put result.fed }
    {
        LocalTap {
            promise: Feeding::of(&reader, &put),
            fed: Fed::begin(reader, put, gate),
            over: false,
        }
    }

    /// Reads on until the ring is full.
    pub(crate) fn fill(&mut self, alloc: Global)
        requires { HasPut S.TapSource self.old.promise.reader.value self.old.promise.put.value self.old.fed }
        ensures promise { self.new.promise ≡ self.old.promise }
        ensures read { HasPut S.TapSource self.old.promise.reader.value
            self.old.promise.put.value self.new.fed }
        ensures filled { ReadsOn self.old.fed self.new.fed }
    {
        if !self.over {
            self.over = fill(alloc, &mut self.fed);
        }
    }
}
