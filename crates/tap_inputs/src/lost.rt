//! The packets that a pcapng file's recorder counts as dropped before others (the option `epb_dropcount` of
//! its packet blocks), found as the file's bytes pass.

use pcap_io::ByteOrder;
use pcapng::SECTION_HEADER;
use std::alloc::{AllocError, Global};

/// The bytes of a block's type and length, and of a section's byte order behind them.
const START: usize = 8;

const MAGIC: usize = 4;

/// A section's magic number, read by its own byte order.
const OWN_ORDER: u32 = 0x1a2b_3c4d;

/// The type of a packet block, and the bytes from its interface to its lengths.
const PACKET: u32 = 6;

const PACKET_FIELDS: usize = 20;

/// The bytes of an option's code and length, and of a count.
const OPTION: usize = 4;

const COUNT: usize = 8;

/// The option that counts packets which were dropped since the one before.
const DROPPED: u16 = 4;

/// How many packets were dropped before those of an interface.
#[derive(Clone, Copy)]
pub(crate) struct LostPackets {
    pub(crate) interface: u32,
    pub(crate) packets: u64,
}

/// The bytes that are read next.
#[derive(Clone, Copy, PartialEq, Eq)]
enum Field {
    Start,
    Magic,
    Packet,
    Option,
    Count,
    /// None is looked at any more: the file isn't pcapng, or its blocks are damaged.
    Nothing,
}

/// A walk over the blocks of a file.
#[derive(Drop)]
pub(crate) struct BlockWalk {
    field: Field,
    /// The bytes of the field that were read, how many there are, and how many it has.
    held: [u8; PACKET_FIELDS],
    have: usize,
    need: usize,
    /// How many bytes lie before the field, and from it to the block's end.
    skip: u64,
    rest: u64,
    is_first: bool,
    order: ByteOrder,
    /// The length of the section's header by the byte order before it.
    section: u32,
    interface: u32,
    lost: Vec<LostPackets>,
}

/// The length with what fills its last four bytes.
fn padded(len: u64) -> u64 {
    len.saturating_add(3) / 4 * 4
}

impl BlockWalk {
    /// Before a file's first byte.
    pub(crate) fn new(alloc: Global) -> BlockWalk {
        BlockWalk {
            field: Field::Start,
            held: [0; PACKET_FIELDS],
            have: 0,
            need: START,
            skip: 0,
            rest: 0,
            is_first: true,
            order: ByteOrder::Little,
            section: 0,
            interface: 0,
            lost: Vec::new(alloc),
        }
    }

    /// The packets that were found.
    pub(crate) fn lost(&self) -> &[LostPackets] {
        self.lost.as_slice()
    }

    /// Looks at the file's next bytes.
    pub(crate) fn pass(&mut self, bytes: &[u8]) -> Result<(), AllocError> {
        let mut left = bytes;
        // Each turn takes a byte, but one that takes a field.
        for _turn in 0..bytes.len().saturating_mul(2) {
            if left.is_empty() || self.field == Field::Nothing {
                break;
            }
            let skipped = usize::try_from(self.skip)
                .unwrap_or(usize::MAX)
                .min(left.len());
            self.skip = self.skip.saturating_sub(skipped as u64);
            left = left.get(skipped..).unwrap_or(&[]);
            let taken = self.hold(left);
            left = left.get(taken..).unwrap_or(&[]);
            if self.skip == 0 && self.have == self.need {
                self.take()?;
            }
        }
        Ok(())
    }

    /// Holds bytes of the field. How many?
    fn hold(&mut self, bytes: &[u8]) -> usize {
        let count = self.need.saturating_sub(self.have).min(bytes.len());
        if self.skip > 0 {
            return 0;
        }
        let place = self
            .held
            .get_mut(self.have..)
            .and_then(|held| held.get_mut(..count));
        if let (Some(place), Some(bytes)) = (place, bytes.get(..count)) {
            place.copy_from_slice(bytes);
        }
        self.have = self.have.saturating_add(count);
        count
    }

    /// The number of 32 bits at a place of the field.
    fn word(&self, at: usize) -> u32 {
        match self.held.get(at..) {
            Some([a, b, c, d, ..]) => match self.order {
                ByteOrder::Little => u32::from_le_bytes([*a, *b, *c, *d]),
                ByteOrder::Big => u32::from_be_bytes([*a, *b, *c, *d]),
            },
            _ => 0,
        }
    }

    /// The number of 16 bits at a place of the field.
    fn half(&self, at: usize) -> u16 {
        match self.held.get(at..) {
            Some([a, b, ..]) => match self.order {
                ByteOrder::Little => u16::from_le_bytes([*a, *b]),
                ByteOrder::Big => u16::from_be_bytes([*a, *b]),
            },
            _ => 0,
        }
    }

    /// Goes on with a field after so many bytes.
    fn expect(&mut self, field: Field, need: usize, skip: u64) {
        self.field = field;
        self.need = need;
        self.have = 0;
        self.skip = skip;
    }

    /// Goes on with the next block.
    fn end_block(&mut self) {
        self.expect(Field::Start, START, self.rest);
    }

    /// Takes the field that was read.
    fn take(&mut self) -> Result<(), AllocError> {
        match self.field {
            Field::Start => self.take_start(),
            Field::Magic => self.take_magic(),
            Field::Packet => self.take_packet(),
            Field::Option => self.take_option(),
            Field::Count => return self.take_count(),
            Field::Nothing => {}
        }
        Ok(())
    }

    fn take_start(&mut self) {
        let kind = self.word(0);
        self.rest = u64::from(self.word(4)).saturating_sub(START as u64);
        let is_section = kind == SECTION_HEADER;
        if self.is_first && !is_section {
            return self.expect(Field::Nothing, 1, 0);
        }
        self.is_first = false;
        if is_section {
            self.section = self.word(4);
            self.expect(Field::Magic, MAGIC, 0)
        } else if self.rest == 0 {
            self.expect(Field::Nothing, 1, 0)
        } else if kind == PACKET {
            self.expect(Field::Packet, PACKET_FIELDS, 0)
        } else {
            self.end_block()
        }
    }

    /// A section has its own byte order, by which its length is read.
    fn take_magic(&mut self) {
        let is_own = self.word(0) == OWN_ORDER;
        let mut len = self.section;
        if !is_own {
            len = u32::from_be_bytes(len.to_le_bytes());
            self.order = match self.order {
                ByteOrder::Little => ByteOrder::Big,
                ByteOrder::Big => ByteOrder::Little,
            };
        }
        self.rest = u64::from(len).saturating_sub((START + MAGIC) as u64);
        self.end_block()
    }

    fn take_packet(&mut self) {
        self.interface = self.word(0);
        let packet = padded(u64::from(self.word(12)));
        let behind = self.rest.saturating_sub(PACKET_FIELDS as u64);
        let options = behind.saturating_sub(packet).saturating_sub(4);
        if options < OPTION as u64 {
            self.rest = behind;
            return self.end_block();
        }
        self.rest = behind.saturating_sub(packet);
        self.expect(Field::Option, OPTION, packet)
    }

    fn take_option(&mut self) {
        let (code, len) = (self.half(0), self.half(2));
        self.rest = self.rest.saturating_sub(OPTION as u64);
        let value = padded(u64::from(len));
        if code == DROPPED && usize::from(len) == COUNT {
            self.expect(Field::Count, COUNT, 0)
        } else if code == 0 || self.rest < value.saturating_add(8) {
            self.end_block()
        } else {
            self.rest = self.rest.saturating_sub(value);
            self.expect(Field::Option, OPTION, value)
        }
    }

    fn take_count(&mut self) -> Result<(), AllocError> {
        let (first, second) = (u64::from(self.word(0)), u64::from(self.word(4)));
        let packets = match self.order {
            ByteOrder::Little => second << 32 | first,
            ByteOrder::Big => first << 32 | second,
        };
        self.rest = self.rest.saturating_sub(COUNT as u64);
        if self.rest < 8 {
            self.end_block();
        } else {
            self.expect(Field::Option, OPTION, 0);
        }
        let interface = self.interface;
        let held = self
            .lost
            .iter_mut()
            .find(|held| held.interface == interface);
        if let Some(held) = held {
            held.packets = held.packets.saturating_add(packets);
            return Ok(());
        }
        self.lost.push(LostPackets { interface, packets })?;
        Ok(())
    }
}
