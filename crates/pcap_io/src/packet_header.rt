//! The 16 bytes before the captured bytes of each frame: how they are read, and what may be wrong.
ghost use Rattle.std.specs.Prelude.{◌≡◌, ◌<◌, ◌*◌, ◌^◌, length};
ghost use Rattle.pcap_io.specs.Layout.{fractions_of};
ghost use Rattle.pcap_io.specs.Recording.{header_fields, is_file_header, is_file_start, stamp_at, reason_at};

use crate::layout::{Layout, Precision, read_u32};
use crate::recording::BadReason;
use afdx_frame::MAX_SNAPLEN;

/// The length of a packet header, in bytes.
pub const PACKET_HEADER_LEN: usize = 16;

/// The length of the largest packet, in bytes: a header, and as many captured bytes as libpcap's largest
/// snapshot length allows. A reader that stops may have read so many bytes past its last frame.
pub const MAX_PACKET_LEN: usize = PACKET_HEADER_LEN + MAX_SNAPLEN;

/// The header of a packet (pcap savefile format 2.4): what it claims of the bytes that follow it.
#[derive(Clone, Copy)]
pub struct PacketHeader {
    pub seconds: u32,
    /// Part of a second, in the recording's unit.
    pub fraction: u32,
    /// How many bytes of the frame were captured. They follow the header.
    pub captured_len: u32,
    /// How many bytes the frame had on the wire.
    pub original_len: u32,
}

impl PacketHeader {
    /// Reads the four fields.
    #[inline(always)]
    pub fn read(layout: Layout, bytes: &[u8]) -> PacketHeader
        requires { length bytes.now ≡ PACKET_HEADER_LEN }
        ensures { result ≡ header_fields layout bytes.now }
    {
        PacketHeader {
            seconds: read_u32(layout.order, bytes),
            fraction: read_u32(layout.order, &bytes[4..]),
            captured_len: read_u32(layout.order, &bytes[8..]),
            original_len: read_u32(layout.order, &bytes[12..]),
        }
    }

    /// The packet's timestamp, in nanoseconds.
    #[inline(always)]
    pub fn stamp(&self, layout: Layout) -> u64
        ensures value { result ≡ stamp_at layout self.now.seconds self.now.fraction }
        // Below 2^32 seconds, where the fraction makes no second.
        ensures bound { self.now.fraction < fractions_of layout.precision
            → result < 1000000000 * 2 ^ 32 }
    {
        let unit = match layout.precision {
            Precision::Nanoseconds => 1,
            Precision::Microseconds => 1000,
        };
        u64::from(self.seconds) * 1_000_000_000 + u64::from(self.fraction) * unit
    }

    /// True if its first two fields are the first eight bytes of a pcap file: a magic number of
    /// microseconds or of nanoseconds, and version 2.4, in the reader's byte order or in the other.
    #[cold]
    #[inline(never)]
    fn is_file_start(&self) -> bool
        ensures { result ≡ is_file_start self.now.seconds self.now.fraction }
    {
        match self.seconds {
            0xa1b2_c3d4 | 0xa1b2_3c4d => self.fraction == 0x0002_0004
                || self.fraction == 0x0004_0002,
            0xd4c3_b2a1 | 0x4d3c_b2a1 => self.fraction == 0x0200_0400
                || self.fraction == 0x0400_0200,
            _ => false,
        }
    }

    /// True if a pcap file's header stands here, with its fields `thiszone` and `sigfigs` at 0.
    #[inline(always)]
    fn is_file_header(&self) -> bool
        ensures { result ≡ is_file_header self.now }
    {
        self.captured_len == 0 && self.original_len == 0 && self.is_file_start()
    }

    /// The fault of the header after packets whose greatest timestamp is `high`, where a timestamp may
    /// come `late` nanoseconds late: the first reason that fits.
    #[inline(always)]
    pub fn reason(&self, layout: Layout, late: u64, high: u64) -> Option<BadReason>
        ensures { result ≡ reason_at layout late high self.now }
    {
        let fractions = match layout.precision {
            Precision::Nanoseconds => 1_000_000_000,
            Precision::Microseconds => 1_000_000,
        };
        let stamp = self.stamp(layout);
        if self.is_file_header() {
            Some(BadReason::FileHeader)
        } else if self.captured_len as usize > MAX_SNAPLEN {
            Some(BadReason::Length)
        } else if self.fraction >= fractions {
            Some(BadReason::Fraction)
        } else if stamp.saturating_add(late) < high {
            Some(BadReason::StampBack { by: high - stamp })
        } else {
            None
        }
    }
}
