//! Recordings of the pcap savefile format 2.4: what is read of them and how they end, what is written,
//! and devices that fail.

use afdx_frame::{Network, Stamp, TapFrame};
use pcap_io::{MemSource, TapReader};
use std::alloc::{AllocError, Global};
use std::process::Abort;

// further: mod ahead;
// further: mod batches;
// further: mod blocks;
// further: mod copies;
// further: mod cuts;
// further: mod devices;
// further: mod over_std;
// further: mod packets;
// further: mod reader;
// further: mod reference;
// further: mod shared_blocks;
// further: mod writer;

/// Appends a packet: its second, nanosecond, captured length and length on the wire, and the bytes that are
/// there.
pub(crate) fn push_packet(
    bytes: &mut Vec<u8>,
    header: [u32; 4],
    captured: &[u8],
) -> Result<(), AllocError> {
    for word in header {
        bytes.extend_from_slice(&word.to_le_bytes())?;
    }
    bytes.extend_from_slice(captured)
}

/// A reader of network A over a source whose file header is right.
pub(crate) fn opened(rt: &impl Abort, source: MemSource, late: u64) -> TapReader<MemSource> {
    match TapReader::open(source, Network::A, 1 << 32, late) {
        Ok(reader) => reader,
        Err(_) => panic!(rt; "it isn't opened"),
    }
}

/// A frame of two bytes at 258 ns.
pub(crate) fn frame_of_two(alloc: Global) -> Result<TapFrame, AllocError> {
    match TapFrame::new(
        Network::A,
        0,
        Stamp(258),
        2,
        Vec::from_slice(alloc, &[9, 9])?,
    ) {
        Ok(frame) => Ok(frame),
        Err(_) => Err(AllocError),
    }
}
