//! Recordings, filters and devices.

use bpf_isa::read_numeric;
use bpf_loader::Program;
use pcap_io::Script;
use std::alloc::{AllocError, Global};
use std::test::Fail;

/// A filter that accepts every frame whole.
pub const EVERY: &str = "1,6 0 0 4294967295,";

/// The filter of the first run: it accepts the frames of virtual link 5, whole.
pub const ONE_LINK: &str = "4,40 0 0 4,21 0 1 5,6 0 0 4294967295,6 0 0 0,";

/// A device that never fails and passes all that it can.
pub const SOUND: Script = Script {
    piece: usize::MAX,
    most: usize::MAX,
    miss: None,
};

/// Room for any capture of the first run.
pub const ROOM: usize = 512;

/// A sink with room for all.
pub const WIDE: Script = Script {
    most: ROOM,
    ..SOUND
};

/// The file header of a little-endian nanosecond recording.
pub const HEADER: [u8; 24] = [
    0x4d, 0x3c, 0xb2, 0xa1, 2, 0, 4, 0, 0, 0, 0, 0, 0, 0, 0, 0, 0, 0, 4, 0, 1, 0, 0, 0,
];

/// The recording of the first run: two frames of 60 bytes, 176 bytes in all.
pub const FIRST_RUN: [u8; 176] = [
    // The file header: little-endian nanoseconds, version 2.4, Ethernet.
    0x4d, 0x3c, 0xb2, 0xa1, 2, 0, 4, 0, 0, 0, 0, 0, 0, 0, 0, 0, 0, 0, 4, 0, 1, 0, 0, 0,
    // 0 ns, 60 bytes captured of 60: a frame of link 5.
    0, 0, 0, 0, 0, 0, 0, 0, 60, 0, 0, 0, 60, 0, 0, 0, 3, 0, 0, 0, 0, 5, 0, 0, 0, 0, 0, 0, 0, 0, 0,
    0, 0, 0, 0, 0, 0, 0, 0, 0, 0, 0, 0, 0, 0, 0, 0, 0, 0, 0, 0, 0, 0, 0, 0, 0, 0, 0, 0, 0, 0, 0, 0,
    0, 0, 0, 0, 0, 0, 0, 0, 0, 0, 0, 0, 1,
    // 1 ns, 60 bytes captured of 60: a frame of link 6.
    0, 0, 0, 0, 1, 0, 0, 0, 60, 0, 0, 0, 60, 0, 0, 0, 3, 0, 0, 0, 0, 6, 0, 0, 0, 0, 0, 0, 0, 0, 0,
    0, 0, 0, 0, 0, 0, 0, 0, 0, 0, 0, 0, 0, 0, 0, 0, 0, 0, 0, 0, 0, 0, 0, 0, 0, 0, 0, 0, 0, 0, 0, 0,
    0, 0, 0, 0, 0, 0, 0, 0, 0, 0, 0, 0, 1,
];

/// The recording of tap A of the two-tap ledger: two frames of 60 bytes, 176 bytes in all.
pub const TAP_A: [u8; 176] = [
    // The file header: little-endian nanoseconds, version 2.4, Ethernet.
    0x4d, 0x3c, 0xb2, 0xa1, 2, 0, 4, 0, 0, 0, 0, 0, 0, 0, 0, 0, 0, 0, 4, 0, 1, 0, 0, 0,
    // 0 ns, 60 bytes captured of 60: a frame of link 5 with number 1.
    0, 0, 0, 0, 0, 0, 0, 0, 60, 0, 0, 0, 60, 0, 0, 0, 3, 0, 0, 0, 0, 5, 0, 0, 0, 0, 0, 0, 0, 0, 0,
    0, 0, 0, 0, 0, 0, 0, 0, 0, 0, 0, 0, 0, 0, 0, 0, 0, 0, 0, 0, 0, 0, 0, 0, 0, 0, 0, 0, 0, 0, 0, 0,
    0, 0, 0, 0, 0, 0, 0, 0, 0, 0, 0, 0, 1,
    // 100 ns, 60 bytes captured of 60: a frame of link 5 with number 2.
    0, 0, 0, 0, 100, 0, 0, 0, 60, 0, 0, 0, 60, 0, 0, 0, 3, 0, 0, 0, 0, 5, 0, 0, 0, 0, 0, 0, 0, 0,
    0, 0, 0, 0, 0, 0, 0, 0, 0, 0, 0, 0, 0, 0, 0, 0, 0, 0, 0, 0, 0, 0, 0, 0, 0, 0, 0, 0, 0, 0, 0, 0,
    0, 0, 0, 0, 0, 0, 0, 0, 0, 0, 0, 0, 0, 2,
];

/// A frame of so many bytes: the constant field, the link's identifier, zeros and the sequence
/// number.
pub fn frame(alloc: Global, link: u8, len: usize, last: u8) -> Result<Vec<u8>, AllocError> {
    let mut bytes = Vec::from_slice(alloc, &[3, 0, 0, 0, 0, link])?;
    for _ in 7..len {
        bytes.push(0)?;
    }
    bytes.push(last)?;
    Ok(bytes)
}

/// The program of a text in the numeric form.
pub fn loaded(alloc: Global, text: &str) -> Result<Program, Fail> {
    Ok(Program::load(read_numeric(alloc, text)?)?)
}
