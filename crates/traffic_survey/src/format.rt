//! The format of a recording, by its first bytes (docs/FORMATS.md).

use pcap_io::{FILE_HEADER_LEN, Layout, layout_of};

/// How many bytes tell the format.
pub const FORMAT_LEN: usize = FILE_HEADER_LEN;

/// The type of the block that a pcapng file begins with.
const SECTION_HEADER: [u8; 4] = [0x0a, 0x0d, 0x0d, 0x0a];

/// The format of a recording.
#[derive(Clone, Copy, PartialEq, Eq)]
pub enum Format {
    Pcap(Layout),
    Pcapng,
}

/// The format of a recording that begins so. None: it is neither format.
pub fn format_of(head: [u8; 24]) -> Option<Format> {
    if head.starts_with(&SECTION_HEADER) {
        return Some(Format::Pcapng);
    }
    match layout_of(&head) {
        Ok(layout) => Some(Format::Pcap(layout)),
        Err(_) => None,
    }
}
