//! The thread that reads a recording into a ring.
ghost use Rattle.std.specs.Prelude.{◌≡◌, [], false};
ghost use Rattle.pcap_io.specs.Reader.{reading_of};
ghost use Rattle.tap_queue.specs.Items.{Gives, IsFed, is_over};
ghost use Rattle.tap_queue.specs.Batches.{batch_items};
ghost use Rattle.tap_queue.specs.Ring.{Fills, PutsMore, SamePut, put_items, put_of, reader_of};

use crate::gate::TapGate;
use crate::item::{Batch, TapBatch};
use crate::ring::TapPut;
use pcap_io::{TapReader, TapSource};
use std::alloc::Global;
use std::sync::Wait;

/// A reader that is read into a ring, and the end of that ring that its items are put into.
#[derive(Drop)]
pub struct Fed<S> {
    pub(crate) reader: TapReader<S>,
    pub(crate) put: TapPut,
}

impl<S> Fed<S> {
    /// A reader, and the end of a ring into which nothing was read yet. The gate is called.
    pub fn begin<G: TapGate>(reader: TapReader<S>, put: TapPut, gate: &G) -> Fed<S>
        ensures reader { reader_of result ≡ reader }
        ensures put { put_of result ≡ put }
    {
        gate.tap(put.network);
        Fed { reader, put }
    }
}

/// Reads a recording on into a ring until that is full, on the thread that takes from it. It never waits for
/// room. Whether the recording's ending or a fault was put.
pub fn fill<S: TapSource>(alloc: Global, fed: &mut Fed<S>) -> bool
    requires { is_over (put_items (put_of fed.old)) ≡ false }
    ensures put { PutsMore (reading_of S.remaining S.failures S.told (reader_of fed.old))
        (reading_of S.remaining S.failures S.told (reader_of fed.new)) (put_of fed.old) (put_of fed.new) }
    ensures over { result ≡ is_over (put_items (put_of fed.new)) }
    ensures filled { Fills (put_of fed.old) (put_of fed.new) }
{
    let room = fed.put.room();
    for _ in 0..room {
        let (batch, over) = next_batch(alloc, &mut fed.reader, fed.put.batch_len);
        fed.put.put_reserved(batch);
        if over {
            return true;
        }
    }
    false
}

/// Reads a recording into a ring, up to its ending or the first fault. It waits where the ring is
/// full, and stops where the taker is gone or has it stop. Out of memory, it puts the item `Failed`. The
/// gate is called once, before the first frame is read. Items are put together that were read ahead together,
/// so that none waits for the source to give more.
pub fn feed<R: Wait, S: TapSource, G: TapGate>(
    rt: &R,
    alloc: Global,
    reader: TapReader<S>,
    put: TapPut,
    gate: &G,
) -> Fed<S>
    requires { put_items put ≡ [] }
    ensures ring { SamePut put (put_of result) }
    ensures fed { IsFed (reading_of S.remaining S.failures S.told reader) (put_items (put_of result))
        (reading_of S.remaining S.failures S.told (reader_of result)) }
{
    gate.tap(put.network);
    let (mut reader, mut put) = (reader, put);
    for _ in rt.forever() {
        let (batch, last) = next_batch(alloc, &mut reader, put.batch_len);
        if !put.put(rt, batch) || last {
            return Fed { reader, put };
        }
    }
    unreachable!()
}

/// The reader's next batch: frames, at most so many, or the ending or a fault; and true if it is the last.
fn next_batch<S: TapSource>(alloc: Global, reader: &mut TapReader<S>, most: usize) -> (Batch, bool)
    ensures given { Gives (reading_of S.remaining S.failures S.told reader.old) (batch_items result.0)
        (reading_of S.remaining S.failures S.told reader.new) }
    ensures last { result.1 ≡ is_over (batch_items result.0) }
{
    let content = TapBatch::of(reader.next_batch(alloc, most));
    let last = content.is_last();
    (Batch { content }, last)
}
