//! The bounds of a frame, which owned and borrowed frames share.
ghost use Rattle.std.specs.Prelude.{◌≡◌, IsTrue, ◌↔◌};
ghost use Rattle.afdx_frame.specs.Frame.{AreWithin};

use crate::key::Stamp;

/// The most bytes that are captured of a frame: libpcap's largest snapshot length.
pub const MAX_SNAPLEN: usize = 262_144;

/// True if a frame of these parts, with so many bytes captured, keeps all bounds.
#[inline(always)]
pub fn is_within_bounds(number: u64, stamp: Stamp, whole: u32, captured: usize) -> bool
    ensures { IsTrue result ↔ AreWithin number stamp.0 whole captured }
{
    number < 1 << 32
        && stamp.0 < 1_000_000_000 << 32
        && captured <= MAX_SNAPLEN
        && captured <= whole as usize
}
