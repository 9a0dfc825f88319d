//! The promise of a tap that is read into a ring.
ghost use Rattle.std.specs.Prelude.{◌≡◌};
ghost use Rattle.tap_merge.specs.Reads.{IsReadInto};

use pcap_io::{TapReader, TapSource};
use std::snapshot::Snapshot;
use std::thread::Promise;
use tap_queue::{Fed, TapPut};

/// The promise of a tap: this reader is read into the ring that has this end.
#[derive(Drop)]
pub struct Feeding<S> {
    pub reader: Snapshot<TapReader<S>>,
    pub put: Snapshot<TapPut>,
}

impl<S> Feeding<S> {
    /// Of a reader and a ring's end.
    pub(crate) fn of(reader: &TapReader<S>, put: &TapPut) -> Feeding<S>
        ensures reader { result.reader.value ≡ reader.now }
        ensures put { result.put.value ≡ put.now }
    {
        Feeding {
            reader: Snapshot::of(reader),
            put: Snapshot::of(put),
        }
    }
}

impl<S: TapSource> Promise<Fed<S>> for Feeding<S> {
    ghost kept_by = { λ p fed. IsReadInto S.TapSource p.reader.value p.put.value fed };
}
