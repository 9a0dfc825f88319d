//! A header that is given before what follows it.
ghost use Rattle.std.specs.Prelude.{◌≡◌, ◌≤◌, min, [], drop, length, take};
ghost use Rattle.pcap_io.specs.declared.layout.TheConstants.{FILE_HEADER_LEN};
ghost use Rattle.recording_files.specs.Given.{file_header_of, header_text};

use crate::stage::WhichFile;
use pcap_io::{FILE_HEADER_LEN, PACKET_HEADER_LEN, PacketHeader, capture_header};
use pcapng::packet_header;

/// Part of a header, or nothing.
#[derive(Clone, Copy)]
pub struct Pending {
    header: [u8; FILE_HEADER_LEN],
    /// Where what is left starts, and where it ends.
    from: usize,
    to: usize,
    ghost ordered: { from ≤ to },
    ghost within: { to ≤ FILE_HEADER_LEN },
}

/// Copies as many of the bytes as fit to the start of the buffer, and returns how many.
#[inline]
pub fn copy_some(buf: &mut [u8], bytes: &[u8]) -> usize
    ensures count { result ≡ min (length bytes.now) (length buf.new) }
    ensures bytes { take result buf.new ≡ take result bytes.now }
{
    let count = bytes.len().min(buf.len());
    buf[..count].copy_from_slice(&bytes[..count]);
    count
}

impl Pending {
    ghost use Rattle.recording_files.specs.Pending.{waiting_of};

    /// The first bytes of a header.
    #[inline]
    fn first(header: [u8; FILE_HEADER_LEN], len: usize) -> Pending
        requires { len ≤ FILE_HEADER_LEN }
        ensures { waiting_of result ≡ take len header }
    {
        Pending {
            header,
            from: 0,
            to: len,
        }
    }

    /// Nothing.
    pub fn nothing() -> Pending
        ensures { waiting_of result ≡ [] }
    {
        Pending::first([0; FILE_HEADER_LEN], 0)
    }

    /// The header of a packet.
    #[inline]
    pub fn packet(header: &PacketHeader) -> Pending
        ensures { waiting_of result ≡ header_text header.now }
    {
        let (captured, original) = (header.captured_len, header.original_len);
        Pending::first(
            packet_header(header.seconds, header.fraction, captured, original),
            PACKET_HEADER_LEN,
        )
    }

    /// The file header, before the first file.
    pub fn file(place: WhichFile) -> Pending
        ensures { waiting_of result ≡ file_header_of place }
    {
        match place {
            WhichFile::First => Pending::first(capture_header(), FILE_HEADER_LEN),
            WhichFile::Next => Pending::nothing(),
        }
    }

    /// Moves what is left into the buffer, as much as fits, and returns how much.
    #[inline]
    pub fn give(&mut self, buf: &mut [u8]) -> usize
        ensures count { result ≡ min (length (waiting_of self.old)) (length buf.new) }
        ensures bytes { take result buf.new ≡ take result (waiting_of self.old) }
        ensures left { waiting_of self.new ≡ drop result (waiting_of self.old) }
    {
        let count = copy_some(buf, &self.header[self.from..self.to]);
        self.from += count;
        count
    }
}
