//! The file header of a recording: its byte order, and the unit of its timestamps.
ghost use Rattle.std.specs.Prelude.{◌≡◌, ◌≤◌, length, Some};
ghost use Rattle.pcap_io.specs.Layout.{number_in, layout_of_magic, header_of, checked};
ghost use Rattle.pcap_io.specs.declared.told.Told.{Told};

use byteorder::{BigEndian, ByteOrder as Endian, LittleEndian};
use thiserror::Error;

/// The byte order of a number.
#[derive(Clone, Copy, Debug, PartialEq, Eq)]
pub enum ByteOrder {
    /// Little-endian: the least significant byte stands first.
    Little,
    /// Big-endian: the most significant byte stands first.
    Big,
}

/// The unit of the fraction of a second in a timestamp.
#[derive(Clone, Copy, PartialEq, Eq)]
pub enum Precision {
    /// Nanosecond pcap.
    Nanoseconds,
    /// The older form.
    Microseconds,
}

/// How a recording writes its numbers.
#[derive(Clone, Copy, PartialEq, Eq)]
pub struct Layout {
    pub order: ByteOrder,
    pub precision: Precision,
}

/// Why the first 24 bytes are no file header that is read here: the first that fits.
#[derive(Clone, Copy, Debug, PartialEq, Eq, Drop, Error)]
pub enum HeaderFault {
    /// There are fewer than 24 bytes.
    #[error("the header is cut")]
    Short,
    /// The first four bytes name no layout.
    #[error("the magic number is unknown")]
    Magic,
    /// The version isn't 2.4.
    #[error("the version isn't 2.4")]
    Version,
    /// The link type isn't 1, Ethernet.
    #[error("the link type isn't Ethernet")]
    LinkType,
    /// The byte-order magic of the first section header is neither order of 1A2B3C4D (pcapng, as all
    /// faults that follow).
    #[error("the byte-order magic of the section header is unknown")]
    ByteOrderMagic,
    /// Its major version isn't 1.
    #[error("the major version of the section isn't 1")]
    SectionVersion,
    /// Its length is no multiple of 4, less than 28, or larger than that of any block that is read.
    #[error("the length of the section header is wrong")]
    SectionLength,
    /// Its two lengths differ.
    #[error("the two lengths of the section header differ")]
    SectionLengthsDiffer,
    /// One of its options reaches beyond it.
    #[error("an option reaches beyond the section header")]
    SectionOption,
}

/// The bytes of a file header.
pub const FILE_HEADER_LEN: usize = 24;

/// The number in the first four bytes.
#[inline(always)]
pub fn read_u32(order: ByteOrder, bytes: &[u8]) -> u32
    requires { 4 ≤ length bytes.now }
    ensures { result ≡ number_in order 4 bytes.now }
{
    match order {
        ByteOrder::Little => LittleEndian::read_u32(bytes),
        ByteOrder::Big => BigEndian::read_u32(bytes),
    }
}

/// The number in the first two bytes.
#[inline(always)]
pub fn read_u16(order: ByteOrder, bytes: &[u8]) -> u16
    requires { 2 ≤ length bytes.now }
    ensures { result ≡ number_in order 2 bytes.now }
{
    match order {
        ByteOrder::Little => LittleEndian::read_u16(bytes),
        ByteOrder::Big => BigEndian::read_u16(bytes),
    }
}

/// The layout that the magic number names, read with its most significant byte first (pcap 2.4).
fn layout_of_magic(magic: u32) -> Option<Layout>
    ensures { result ≡ layout_of_magic magic }
{
    let (order, precision) = match magic {
        0x4d3c_b2a1 => (ByteOrder::Little, Precision::Nanoseconds),
        0xa1b2_3c4d => (ByteOrder::Big, Precision::Nanoseconds),
        0xd4c3_b2a1 => (ByteOrder::Little, Precision::Microseconds),
        0xa1b2_c3d4 => (ByteOrder::Big, Precision::Microseconds),
        _ => return None,
    };
    Some(Layout { order, precision })
}

/// The layout that a header names.
pub fn layout_of(header: &[u8]) -> Result<Layout, HeaderFault>
    requires { length header.now ≡ FILE_HEADER_LEN }
    ensures { (told : Told) → result ≡ header_of told header.now }
{
    let Some(layout) = layout_of_magic(BigEndian::read_u32(header)) else {
        return Err(HeaderFault::Magic);
    };
    let major = read_u16(layout.order, &header[4..]);
    let minor = read_u16(layout.order, &header[6..]);
    if major != 2 || minor != 4 {
        return Err(HeaderFault::Version);
    }
    if read_u32(layout.order, &header[20..]) != 1 {
        return Err(HeaderFault::LinkType);
    }
    Ok(layout)
}
