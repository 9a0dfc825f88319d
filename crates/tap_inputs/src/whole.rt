//! The whole packets of a file that may end within one, so that a recording goes on with its next file.

use pcap_io::{
    ByteOrder, FILE_HEADER_LEN, Layout, PACKET_HEADER_LEN, PacketHeader, layout_of, read_u32,
};
use pcapng::{BlockStart, MAX_BLOCK_LEN, SECTION_HEADER, START_LEN};
use std::alloc::{AllocError, Global};

/// The bytes that follow a file's whole packets.
#[derive(Clone, Copy, PartialEq, Eq)]
pub enum Torn {
    /// A part of a packet, and the file's end.
    Cut,
    /// Bytes that are no packet.
    Damaged,
}

/// How a file's packets are written.
#[derive(Clone, Copy)]
enum Form {
    /// Nothing is known yet.
    New,
    /// As pcap, after packets whose greatest timestamp is this one.
    Pcap(Layout, u64),
    /// As blocks of pcapng.
    Pcapng(ByteOrder),
    /// As neither. The reader says so.
    Other,
}

/// The next part of a file that stands or falls as a whole.
#[derive(Clone, Copy)]
enum Unit {
    /// It has so many bytes.
    Whole(usize),
    /// More bytes have to be read to know.
    More,
    /// These bytes are none.
    Damaged,
}

/// How far a timestamp may lie below the greatest one before it, in nanoseconds: a run may take so much.
const LATE: u64 = 1_000_000_000;

/// The bytes of a file that were read, up to the first packet that isn't whole.
#[derive(Drop)]
pub struct WholePackets {
    held: Vec<u8>,
    /// How many of these bytes were given, and up to where packets are whole.
    given: usize,
    whole: usize,
    form: Form,
    is_damaged: bool,
}

/// The unit that begins with these bytes has so many, if they are there.
fn unit_of_len(bytes: &[u8], len: usize) -> Unit {
    if bytes.len() < len {
        Unit::More
    } else {
        Unit::Whole(len)
    }
}

impl WholePackets {
    /// Of a file of which nothing was read.
    pub fn new(alloc: Global) -> WholePackets {
        WholePackets {
            held: Vec::new(alloc),
            given: 0,
            whole: 0,
            form: Form::New,
            is_damaged: false,
        }
    }

    /// Are there bytes that are no packet right behind a pcap file's header?
    pub fn begins_damaged(&self) -> bool {
        self.is_damaged && self.whole <= FILE_HEADER_LEN
    }

    /// The part that follows the whole packets, now that the file has ended. A file that ends within its
    /// header has no packets: the recording ends there.
    pub fn torn(&self) -> Option<Torn> {
        let has_header = !matches!(self.form, Form::New);
        if self.is_damaged {
            Some(Torn::Damaged)
        } else if has_header && self.whole < self.held.len() {
            Some(Torn::Cut)
        } else {
            None
        }
    }

    /// Moves bytes of whole packets into the buffer, as many as fit. Returns how many.
    pub fn give(&mut self, buf: &mut [u8]) -> usize {
        let ready = self.held.get(self.given..self.whole).unwrap_or(&[]);
        let count = ready.len().min(buf.len());
        if let (Some(place), Some(bytes)) = (buf.get_mut(..count), ready.get(..count)) {
            place.copy_from_slice(bytes);
        }
        self.given = self.given.saturating_add(count);
        count
    }

    /// Takes bytes that were read, once all that is whole was given.
    pub fn take(&mut self, bytes: &[u8]) -> Result<(), AllocError> {
        self.forget_given();
        self.held.extend_from_slice(bytes)?;
        let most = self.held.len();
        for _unit in 0..most {
            let unread = self.held.get(self.whole..).unwrap_or(&[]);
            let (form, unit) = unit_of(self.form, unread);
            self.form = form;
            match unit {
                Unit::Whole(len) => self.whole = self.whole.saturating_add(len),
                Unit::More => break,
                Unit::Damaged => {
                    self.is_damaged = true;
                    break;
                }
            }
        }
        Ok(())
    }

    /// Moves what wasn't given to the front.
    fn forget_given(&mut self) {
        let len = self.held.len();
        let given = self.given.min(len);
        self.held.as_mut_slice().copy_within(given..len, 0);
        self.held.truncate(len - given);
        self.whole = self.whole.saturating_sub(given);
        self.given = 0;
    }
}

/// The unit that the bytes begin with, and the form of those after it.
fn unit_of(form: Form, bytes: &[u8]) -> (Form, Unit) {
    match form {
        Form::New => first_unit(bytes),
        Form::Pcap(layout, high) => packet_unit(layout, high, bytes),
        Form::Pcapng(order) => block_unit(order, bytes),
        Form::Other => (Form::Other, other_unit(bytes)),
    }
}

/// All bytes, of a file in neither format.
fn other_unit(bytes: &[u8]) -> Unit {
    if bytes.is_empty() {
        Unit::More
    } else {
        Unit::Whole(bytes.len())
    }
}

/// The header of a file.
fn first_unit(bytes: &[u8]) -> (Form, Unit) {
    if bytes.len() < FILE_HEADER_LEN {
        return (Form::New, Unit::More);
    }
    if read_u32(ByteOrder::Little, bytes) == SECTION_HEADER {
        return block_unit(ByteOrder::Little, bytes);
    }
    match layout_of(&bytes[..FILE_HEADER_LEN]) {
        Ok(layout) => (Form::Pcap(layout, 0), Unit::Whole(FILE_HEADER_LEN)),
        Err(_) => (Form::Other, Unit::Whole(bytes.len())),
    }
}

/// True of a header of zeros, as a bad sector reads.
fn is_blank(header: &PacketHeader) -> bool {
    header.seconds == 0
        && header.fraction == 0
        && header.captured_len == 0
        && header.original_len == 0
}

/// A packet of pcap.
fn packet_unit(layout: Layout, high: u64, bytes: &[u8]) -> (Form, Unit) {
    let form = Form::Pcap(layout, high);
    if bytes.len() < PACKET_HEADER_LEN {
        return (form, Unit::More);
    }
    let header = PacketHeader::read(layout, &bytes[..PACKET_HEADER_LEN]);
    if is_blank(&header) || header.reason(layout, LATE, high).is_some() {
        return (form, Unit::Damaged);
    }
    let len = PACKET_HEADER_LEN.saturating_add(header.captured_len as usize);
    match unit_of_len(bytes, len) {
        Unit::Whole(len) => {
            let high = high.max(header.stamp(layout));
            (Form::Pcap(layout, high), Unit::Whole(len))
        }
        unit => (form, unit),
    }
}

/// A block of pcapng.
fn block_unit(order: ByteOrder, bytes: &[u8]) -> (Form, Unit) {
    if bytes.len() < START_LEN {
        return (Form::Pcapng(order), Unit::More);
    }
    match BlockStart::read(order, bytes) {
        Ok(start) if start.len as usize <= MAX_BLOCK_LEN => {
            let unit = unit_of_len(bytes, start.len as usize);
            (Form::Pcapng(start.order), unit)
        }
        _ => (Form::Pcapng(order), Unit::Damaged),
    }
}
