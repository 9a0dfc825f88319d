//! The head of a capture.
ghost use Rattle.std.specs.Prelude.{◌≡◌, ◌++◌, OnOk, OnErr};
ghost use Rattle.pcapng.specs.Blocks.{descriptions_of, head_bytes, section_header};

use crate::interfaces::Interfaces;
use crate::parts::append;
use std::alloc::AllocError;

/// The section header: little-endian, version 1.0, of unknown length.
const SECTION_HEADER: [u8; 28] = [
    0x0a, 0x0d, 0x0d, 0x0a, 28, 0, 0, 0, 0x4d, 0x3c, 0x2b, 0x1a, 1, 0, 0, 0, 255, 255, 255, 255,
    255, 255, 255, 255, 28, 0, 0, 0,
];

/// An interface without a name: Ethernet, a snapshot length of 262144 bytes, nanoseconds.
const ONE: [u8; 32] = [
    1, 0, 0, 0, 32, 0, 0, 0, 1, 0, 0, 0, 0, 0, 4, 0, 9, 0, 1, 0, 9, 0, 0, 0, 0, 0, 0, 0, 32, 0, 0,
    0,
];

/// The interfaces of networks A and B, which have names.
const NETWORKS: [u8; 80] = [
    1, 0, 0, 0, 40, 0, 0, 0, 1, 0, 0, 0, 0, 0, 4, 0, 2, 0, 1, 0, b'A', 0, 0, 0, 9, 0, 1, 0, 9, 0,
    0, 0, 0, 0, 0, 0, 40, 0, 0, 0, 1, 0, 0, 0, 40, 0, 0, 0, 1, 0, 0, 0, 0, 0, 4, 0, 2, 0, 1, 0,
    b'B', 0, 0, 0, 9, 0, 1, 0, 9, 0, 0, 0, 0, 0, 0, 0, 40, 0, 0, 0,
];

/// The descriptions of the interfaces.
#[tactic(auto, unfolding(crate::specs::Blocks::descriptions_of))]
fn descriptions_of(interfaces: Interfaces) -> &'static [u8]
    ensures { result.now ≡ descriptions_of interfaces }
{
    match interfaces {
        Interfaces::One => &ONE,
        Interfaces::Networks => &NETWORKS,
    }
}

/// Appends what a capture begins with: the section header, and the descriptions of its interfaces.
///
/// # Errors
///
/// There is no memory for it. The bytes are as they were.
#[tactic(auto, unfolding(crate::specs::Blocks::section_header))]
pub fn append_head(bytes: &mut Vec<u8>, interfaces: Interfaces) -> Result<(), AllocError>
    ensures head { OnOk result (bytes.new.items ≡ bytes.old.items ++ head_bytes interfaces) }
    ensures memory { OnErr result (bytes.new.items ≡ bytes.old.items) }
{
    let descriptions = descriptions_of(interfaces);
    bytes.reserve(SECTION_HEADER.len() + descriptions.len())?;
    append(bytes, &SECTION_HEADER);
    append(bytes, descriptions);
    Ok(())
}
