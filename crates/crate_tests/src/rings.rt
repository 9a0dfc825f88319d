//! Recordings over a ring, fed and taken on one thread: what it gives, and its ends when it is settled or
//! left.
ghost use Rattle.std.specs.Prelude.{IfOk};
ghost use Rattle.tap_queue.specs.Ring.{IsRing, SameEnd, put_of};

use crate::recording::push_packet;
use crate::support::{HEADER, frame};
use afdx_frame::Network;
use pcap_io::{MemSource, TapReader};
use std::alloc::{AllocError, Global};
use std::sync::Wait;
use tap_queue::{Fed, RingLost, TapEnd, TapGate, TapItem, feed, tap_ring};

// further: mod arrivals;
// further: mod endings;
// further: mod gate;
// further: mod losses;
// further: mod passages;
// further: mod passing;
// further: mod stops;

/// A gate that holds nobody.
pub(crate) struct Open;

impl TapGate for Open {
    fn tap(&self, _network: Network) {}
}

/// A recording of frames of so many bytes, stamped so, with different last bytes.
pub(crate) fn recording(alloc: Global, stamps: &[u32], len: u16) -> Result<Vec<u8>, AllocError> {
    let mut bytes = Vec::from_slice(alloc, &HEADER)?;
    for (number, stamp) in stamps.iter().enumerate() {
        let captured = frame(alloc, 5, usize::from(len), (number % 251) as u8)?;
        let header = [0, *stamp, u32::from(len), u32::from(len)];
        push_packet(&mut bytes, header, &captured)?;
    }
    Ok(bytes)
}

/// Feeds a ring of this network and window.
pub(crate) fn fed_ring<R: Wait>(
    rt: &R,
    alloc: Global,
    reader: TapReader<MemSource>,
    network: Network,
    late: u64,
) -> Result<(Fed<MemSource>, TapEnd), AllocError>
    ensures { IfOk result (λ both. IsRing (put_of both.0) both.1) }
{
    let (put, end) = tap_ring(alloc, network, late)?;
    let fed = feed(rt, alloc, reader, put, &Open);
    Ok((fed, end))
}

/// The items that were taken from a ring, and its end.
#[derive(Drop)]
pub(crate) struct Taken {
    pub(crate) items: Vec<TapItem>,
    pub(crate) end: TapEnd,
}

/// Takes what a ring gives, up to so many items.
pub(crate) fn take_most<R: Wait>(
    rt: &R,
    alloc: Global,
    end: TapEnd,
    most: usize,
) -> Result<Taken, AllocError>
    ensures { IfOk result (λ taken. SameEnd end taken.end) }
{
    let mut end = end;
    let mut items = Vec::new(alloc);
    for _ in 0..most {
        match end.take(rt) {
            Ok(item) => items.push(item)?,
            Err(RingLost) => break,
        }
    }
    Ok(Taken { items, end })
}
