//! The pcap that is given for a pcapng recording.
ghost use Rattle.std.specs.Prelude.{◌≡◌, take};
ghost use Rattle.pcap_io.specs.Capture.{capture_layout};
ghost use Rattle.pcap_io.specs.Recording.{header_bytes};
ghost use Rattle.pcap_io.specs.declared.packet_header.TheConstants.{PACKET_HEADER_LEN};

use byteorder::{ByteOrder as Endian, LittleEndian};
use pcap_io::{FILE_HEADER_LEN, PACKET_HEADER_LEN};

/// The header of a packet, with room for that of a file.
#[inline]
pub fn packet_header(
    seconds: u32,
    fraction: u32,
    captured: u32,
    original: u32,
) -> [u8; FILE_HEADER_LEN]
    ensures { take PACKET_HEADER_LEN result
        ≡ header_bytes capture_layout seconds fraction captured original }
{
    let mut header = [0u8; FILE_HEADER_LEN];
    LittleEndian::write_u32(&mut header, seconds);
    LittleEndian::write_u32(&mut header[4..], fraction);
    LittleEndian::write_u32(&mut header[8..], captured);
    LittleEndian::write_u32(&mut header[12..], original);
    header
}
