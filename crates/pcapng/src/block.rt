//! The block that the next bytes of a recording begin, and what it says.
ghost use Rattle.std.specs.Prelude.{◌≡◌, ◌≢◌, ◌+◌, ◌-◌, ◌≤◌, length, slice_range, IfOk, OnOk};
ghost use Rattle.pcapng.specs.File.{first_of};
ghost use Rattle.pcapng.specs.Options.{options_of};
ghost use Rattle.pcapng.specs.Block.{IsWithin, end_fault, fields_of, interface_fault, is_length_of, kind_of, later_reason, order_of, order_of_magic, lengths_agree, packet_fault, section_fault, shortest_of, start_header_fault, start_of, start_reason, unless};
ghost use Rattle.pcapng.specs.declared.block.BlockKind.TheVariants as kinds;

use crate::options::{options_fit, padded_len};
use pcap_io::{BadReason, ByteOrder, HeaderFault, read_u16, read_u32};

/// The bytes at the start of a block that say how long it is: its type, its length, and in a section
/// header the byte-order magic. No block is shorter.
pub const START_LEN: usize = 12;

/// The bytes of the largest block that is read. Others may have any length.
pub const MAX_BLOCK_LEN: usize = 1 << 20;

/// The first bytes of a pcapng file: the type of a section header, the same in either order.
pub const SECTION_HEADER: u32 = 0x0a0d_0d0a;

/// Types of blocks (draft-ietf-opsawg-pcapng, section "Block Types").
const INTERFACE_DESCRIPTION: u32 = 1;

const OBSOLETE_PACKET: u32 = 2;

const SIMPLE_PACKET: u32 = 3;

const ENHANCED_PACKET: u32 = 6;

/// Lengths of blocks with neither options nor captured bytes.
const SECTION_HEADER_LEN: usize = 28;

const INTERFACE_LEN: usize = 20;

const SIMPLE_PACKET_LEN: usize = 16;

const PACKET_LEN: usize = 32;

/// Where the captured bytes of a packet start.
pub const CAPTURED_AT: usize = 28;

/// The kinds of blocks.
#[derive(Clone, Copy, PartialEq, Eq)]
pub enum BlockKind {
    Section,
    Interface,
    Packet,
    ObsoletePacket,
    SimplePacket,
    /// Any other: it is skipped.
    Other,
}

impl BlockKind {
    fn of_type(block_type: u32) -> BlockKind
        ensures { result ≡ kind_of block_type }
    {
        match block_type {
            SECTION_HEADER => BlockKind::Section,
            INTERFACE_DESCRIPTION => BlockKind::Interface,
            OBSOLETE_PACKET => BlockKind::ObsoletePacket,
            SIMPLE_PACKET => BlockKind::SimplePacket,
            ENHANCED_PACKET => BlockKind::Packet,
            _ => BlockKind::Other,
        }
    }

    /// The byte order of such a block, of at least 12 bytes: a section header names its own, and any
    /// other has that of its section. None: the byte-order magic is unknown.
    #[inline]
    fn order(self, order: ByteOrder, bytes: &[u8]) -> Option<ByteOrder>
        requires { 12 ≤ length bytes.now }
        ensures { result ≡ order_of self order bytes.now }
    {
        match self {
            BlockKind::Section => section_order(read_u32(ByteOrder::Big, &bytes[8..])),
            _ => Some(order),
        }
    }

    /// True if such a block that is read can have this length.
    #[inline]
    fn can_have(self, len: u32) -> bool
        ensures { result ≡ is_length_of self len }
    {
        let fits = self == BlockKind::Other || len as usize <= MAX_BLOCK_LEN;
        len % 4 == 0 && len as usize >= self.shortest() && fits
    }

    /// The length of the shortest such block.
    fn shortest(self) -> usize
        ensures { result ≡ shortest_of self }
    {
        match self {
            BlockKind::Section => SECTION_HEADER_LEN,
            BlockKind::Interface => INTERFACE_LEN,
            BlockKind::Packet | BlockKind::ObsoletePacket => PACKET_LEN,
            BlockKind::SimplePacket => SIMPLE_PACKET_LEN,
            BlockKind::Other => START_LEN,
        }
    }
}

/// The start of a block, in the byte order of its section.
#[derive(Clone, Copy)]
pub struct BlockStart {
    pub order: ByteOrder,
    pub kind: BlockKind,
    /// How many bytes it has in all.
    pub len: u32,
}

/// Why the start of a block can't be read.
#[derive(Clone, Copy, PartialEq, Eq)]
pub enum StartFault {
    /// The byte-order magic of a section header is unknown.
    Magic,
    /// Its length is no multiple of 4, too small for its type, or too large for a block that is read.
    Length,
}

impl StartFault {
    /// The reason that it is within a recording.
    pub fn reason(self) -> BadReason
        ensures { result ≡ start_reason self }
    {
        match self {
            StartFault::Magic => BadReason::Section,
            StartFault::Length => BadReason::BlockLength,
        }
    }

    /// The fault that it is in the first section header.
    pub fn header_fault(self) -> HeaderFault
        ensures { result ≡ start_header_fault self }
    {
        match self {
            StartFault::Magic => HeaderFault::ByteOrderMagic,
            StartFault::Length => HeaderFault::SectionLength,
        }
    }
}

/// The reason that the fault of a section header is where it comes later.
pub fn later_reason(fault: HeaderFault) -> BadReason
    ensures { result ≡ later_reason fault }
{
    match fault {
        HeaderFault::SectionOption => BadReason::BlockBounds,
        HeaderFault::SectionLengthsDiffer => BadReason::BlockLengthsDiffer,
        _ => BadReason::Section,
    }
}

/// The byte order that the byte-order magic names.
fn section_order(magic: u32) -> Option<ByteOrder>
    ensures { result ≡ order_of_magic magic }
{
    match magic {
        0x1a2b_3c4d => Some(ByteOrder::Big),
        0x4d3c_2b1a => Some(ByteOrder::Little),
        _ => None,
    }
}

impl BlockStart {
    /// Reads the start of a block of a section of this byte order.
    #[inline]
    pub fn read(order: ByteOrder, bytes: &[u8]) -> Result<BlockStart, StartFault>
        requires { 12 ≤ length bytes.now }
        ensures value { result ≡ start_of order bytes.now }
        ensures long { IfOk result (λ start. shortest_of start.kind ≤ start.len) }
        ensures short { IfOk result (λ start. start.kind ≢ kinds.Other → start.len ≤ MAX_BLOCK_LEN) }
    {
        let kind = BlockKind::of_type(read_u32(order, bytes));
        let Some(order) = kind.order(order, bytes) else {
            return Err(StartFault::Magic);
        };
        let len = read_u32(order, &bytes[4..]);
        if kind.can_have(len) {
            Ok(BlockStart { order, kind, len })
        } else {
            Err(StartFault::Length)
        }
    }
}

/// The length at a block's end is the one at its start, that of all its bytes.
#[inline]
fn lengths_agree(order: ByteOrder, block: &[u8]) -> bool
    requires { 12 ≤ length block.now }
    ensures { result ≡ lengths_agree order block.now }
{
    read_u32(order, &block[block.len() - 4..]) as usize == block.len()
}

/// The fault of a whole section header.
pub fn check_section(order: ByteOrder, block: &[u8]) -> Result<(), HeaderFault>
    requires { 28 ≤ length block.now }
    ensures { result ≡ unless (section_fault order block.now) }
{
    if read_u16(order, &block[12..]) != 1 {
        return Err(HeaderFault::SectionVersion);
    }
    if !options_fit(order, &block[24..block.len() - 4]) {
        return Err(HeaderFault::SectionOption);
    }
    if !lengths_agree(order, block) {
        return Err(HeaderFault::SectionLengthsDiffer);
    }
    Ok(())
}

/// The first bytes of a recording, at least [`START_LEN`].
#[derive(Clone, Copy)]
pub enum FirstSection {
    /// They don't hold the section header: so many bytes are needed.
    Needs(usize),
    /// They begin with no section header that is read.
    Wrong(HeaderFault),
    /// A section of this byte order begins with so many bytes.
    Begins { order: ByteOrder, len: usize },
}

/// Reads the first section header.
pub fn first_section(bytes: &[u8]) -> FirstSection
    requires { 12 ≤ length bytes.now }
    ensures value { result ≡ first_of bytes.now }
    ensures within { IsWithin (length bytes.now) result }
{
    let begun = match BlockStart::read(ByteOrder::Little, bytes) {
        Ok(begun) => begun,
        Err(fault) => return FirstSection::Wrong(fault.header_fault()),
    };
    if begun.kind != BlockKind::Section {
        return FirstSection::Wrong(HeaderFault::Magic);
    }
    let len = begun.len as usize;
    if bytes.len() < len {
        return FirstSection::Needs(len);
    }
    match check_section(begun.order, &bytes[..len]) {
        Ok(()) => FirstSection::Begins {
            order: begun.order,
            len,
        },
        Err(fault) => FirstSection::Wrong(fault),
    }
}

/// The fault of the options from a place on, up to a whole block's last length, or of that.
#[inline]
fn check_end(order: ByteOrder, block: &[u8], from: usize) -> Result<(), BadReason>
    requires within { from + 4 ≤ length block.now }
    requires long { 12 ≤ length block.now }
    ensures { result ≡ unless (end_fault order block.now
        (options_of order (slice_range block.now from (length block.now - 4)))) }
{
    let to = block.len() - 4;
    if from < to && !options_fit(order, &block[from..to]) {
        return Err(BadReason::BlockBounds);
    }
    if !lengths_agree(order, block) {
        return Err(BadReason::BlockLengthsDiffer);
    }
    Ok(())
}

/// The fault of the options and the last length of a whole interface description.
pub fn check_interface_end(order: ByteOrder, block: &[u8]) -> Result<(), BadReason>
    requires { 20 ≤ length block.now }
    ensures { result ≡ unless (interface_fault order block.now) }
{
    check_end(order, block, 16)
}

/// The fields of a packet, before its captured bytes.
#[derive(Clone, Copy)]
pub struct PacketFields {
    pub interface: u32,
    /// In the unit of its interface.
    pub timestamp: u64,
    pub captured_len: u32,
    pub original_len: u32,
}

impl PacketFields {
    /// Reads those of an enhanced packet, or of an obsolete one, which has a short interface number.
    #[inline]
    pub fn read(order: ByteOrder, kind: BlockKind, block: &[u8]) -> PacketFields
        requires { 32 ≤ length block.now }
        ensures { result ≡ fields_of order kind block.now }
    {
        let interface = match kind {
            BlockKind::ObsoletePacket => u32::from(read_u16(order, &block[8..])),
            _ => read_u32(order, &block[8..]),
        };
        let high = u64::from(read_u32(order, &block[12..]));
        let low = u64::from(read_u32(order, &block[16..]));
        PacketFields {
            interface,
            timestamp: high * 4_294_967_296 + low,
            captured_len: read_u32(order, &block[20..]),
            original_len: read_u32(order, &block[24..]),
        }
    }

    /// The fault of a whole packet from its captured bytes on.
    #[inline]
    pub fn check_end(&self, order: ByteOrder, block: &[u8]) -> Result<(), BadReason>
        requires { 32 ≤ length block.now }
        ensures value { result ≡ unless (packet_fault order self.now.captured_len block.now) }
        ensures within { OnOk result (28 + self.now.captured_len ≤ length block.now) }
    {
        let padded = padded_len(self.captured_len as usize);
        if padded > block.len() - PACKET_LEN {
            return Err(BadReason::BlockBounds);
        }
        check_end(order, block, CAPTURED_AT + padded)
    }
}
