//! A view of a frame's bytes, by what they say.
ghost use Rattle.std.specs.Prelude.{◌≡◌};
ghost use Rattle.std.specs.Option.{option_copied};
ghost use Rattle.afdx_frame.specs.View.{view_bytes, constant_of, link_of, sequence_of, body_of};

use crate::key::VlId;

/// The bytes that were captured of a frame, borrowed: nothing is copied.
#[derive(Clone, Copy)]
pub struct FrameView<'a> {
    bytes: &'a [u8],
}

impl<'a> FrameView<'a> {
    /// A view of these bytes.
    #[inline(always)]
    pub fn new(bytes: &'a [u8]) -> FrameView<'a>
        ensures { view_bytes result ≡ bytes.now }
    {
        FrameView { bytes }
    }

    /// All the bytes.
    #[inline(always)]
    pub fn bytes(&self) -> &'a [u8]
        ensures { result.now ≡ view_bytes self.now }
    {
        self.bytes
    }

    /// The constant field of the destination address: the first four bytes, most significant first
    /// (ARINC 664 Part 7). None below 4 bytes.
    pub fn constant(&self) -> Option<u32>
        ensures { result ≡ constant_of (view_bytes self.now) }
    {
        let [a, b, c, d, ..] = self.bytes else {
            return None;
        };
        Some(u32::from_be_bytes([*a, *b, *c, *d]))
    }

    /// The virtual link's identifier: the two bytes after the constant field, most significant
    /// first. None below 6 bytes.
    pub fn vl(&self) -> Option<VlId>
        ensures { result ≡ link_of (view_bytes self.now) }
    {
        let [_, _, _, _, high, low, ..] = self.bytes else {
            return None;
        };
        Some(VlId(u16::from_be_bytes([*high, *low])))
    }

    /// The sequence number: the last byte (ARINC 664 Part 7; recordings don't hold the frame check
    /// sequence after it). None for no bytes.
    pub fn sequence(&self) -> Option<u8>
        ensures { result ≡ sequence_of (view_bytes self.now) }
    {
        self.bytes.last().copied()
    }

    /// The content of the frame: the bytes between the 14 of the Ethernet header and the sequence number,
    /// borrowed. None below 15 bytes.
    pub fn body(&self) -> Option<&'a [u8]>
        ensures { option_copied result ≡ body_of (view_bytes self.now) }
    {
        if self.bytes.len() < 15 {
            return None;
        }
        Some(&self.bytes[14..self.bytes.len() - 1])
    }
}
