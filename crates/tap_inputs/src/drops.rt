//! The count of packets that a recorder says it dropped: the statistics of interfaces at a pcapng file's end,
//! or the counts of its packet blocks, whichever are more, since both may count the same packets.

use crate::described::described_in;
use crate::interface::{LOOKED_AT, is_pcapng};
use crate::outcome::Outcome;
use crate::taps::{Tap, TapFile, Taps};
use afdx_frame::Network;
use command_line::DroppedNote;
use pcap_io::ByteOrder;
use pcapng::{Choice, MAX_INTERFACES};
use std::fs::File;
use std::io;
use std::io::{Read, Seek, SeekFrom};

/// The most bytes of a block of statistics that is read.
const MAX_BLOCK: usize = 4096;

/// The type of a block of an interface's statistics.
const STATISTICS: u32 = 5;

/// Where its options begin: after type, length, interface and timestamp.
const OPTIONS: usize = 20;

/// The options that count packets which the interface and the operating system dropped.
const INTERFACE_DROPPED: u16 = 5;

const SYSTEM_DROPPED: u16 = 7;

/// A block of statistics.
#[derive(Clone, Copy)]
struct Statistics<'a> {
    order: ByteOrder,
    block: &'a [u8],
}

impl Statistics<'_> {
    /// The four bytes at a place of the block.
    fn four(&self, at: usize) -> Option<[u8; 4]> {
        match self.block.get(at..)? {
            [a, b, c, d, ..] => Some([*a, *b, *c, *d]),
            _ => None,
        }
    }

    /// The number of 32 bits at a place.
    fn word(&self, at: usize) -> Option<u32> {
        let bytes = self.four(at)?;
        match self.order {
            ByteOrder::Little => Some(u32::from_le_bytes(bytes)),
            ByteOrder::Big => Some(u32::from_be_bytes(bytes)),
        }
    }

    /// The code of the option at a place, and the length of its value.
    fn option(&self, at: usize) -> Option<(u16, usize)> {
        let [a, b, c, d] = self.four(at)?;
        let (code, len) = match self.order {
            ByteOrder::Little => (u16::from_le_bytes([a, b]), u16::from_le_bytes([c, d])),
            ByteOrder::Big => (u16::from_be_bytes([a, b]), u16::from_be_bytes([c, d])),
        };
        Some((code, usize::from(len)))
    }

    /// The number of 64 bits at a place.
    fn count(&self, at: usize) -> Option<u64> {
        let (first, second) = (self.word(at)?, self.word(at.checked_add(4)?)?);
        let (high, low) = match self.order {
            ByteOrder::Little => (second, first),
            ByteOrder::Big => (first, second),
        };
        Some(u64::from(high) << 32 | u64::from(low))
    }

    /// How many packets were dropped.
    fn dropped(&self) -> u64 {
        let (mut at, mut dropped) = (OPTIONS, 0u64);
        for _ in 0..MAX_BLOCK {
            let Some((code, len)) = self.option(at) else {
                break;
            };
            if code == 0 {
                break;
            }
            let value = at.saturating_add(4);
            if len == 8 && matches!(code, INTERFACE_DROPPED | SYSTEM_DROPPED) {
                dropped = dropped.saturating_add(self.count(value).unwrap_or(0));
            }
            at = value.saturating_add(len.div_ceil(4).saturating_mul(4));
        }
        dropped
    }
}

/// The byte order and the length of the block that ends with these bytes, if it is short.
fn length_of(end: [u8; 4]) -> Option<(ByteOrder, usize)> {
    let (little, big) = (u32::from_le_bytes(end), u32::from_be_bytes(end));
    if little as usize <= MAX_BLOCK {
        Some((ByteOrder::Little, little as usize))
    } else if big as usize <= MAX_BLOCK {
        Some((ByteOrder::Big, big as usize))
    } else {
        None
    }
}

/// Reads the block of statistics that ends there into the bytes. None: there is none.
fn statistics_before<'a>(
    file: &mut File,
    end: u64,
    bytes: &'a mut [u8; MAX_BLOCK],
) -> Option<Statistics<'a>> {
    let mut last = [0; 4];
    file.seek(SeekFrom::Start(end.checked_sub(4)?)).ok()?;
    file.read_exact(&mut last).ok()?;
    let (order, len) = length_of(last)?;
    let block = bytes.get_mut(..len)?;
    file.seek(SeekFrom::Start(end.checked_sub(len as u64)?))
        .ok()?;
    file.read_exact(block).ok()?;
    let statistics = Statistics { order, block };
    if statistics.word(0)? == STATISTICS && statistics.word(4)? as usize == len {
        Some(statistics)
    } else {
        None
    }
}

/// Whose statistics count: those of the interface of a number, or without one of all. None: the chosen
/// interface isn't known.
fn counted_of(rt: &HostRuntime, path: &str, choice: Choice) -> Option<Option<u32>> {
    match choice {
        Choice::Any => Some(None),
        Choice::Number(number) => Some(Some(number)),
        Choice::Name(name) => {
            let described = described_in(rt, path, LOOKED_AT)?;
            let named = described.iter().find(|known| known.met.name == Some(name))?;
            Some(Some(named.met.number))
        }
    }
}

/// How many packets the recorder of a regular pcapng file says at its end that it dropped, of an interface or
/// of all.
fn dropped_at_end(rt: &HostRuntime, file: &TapFile, counted: Option<u32>) -> Option<u64> {
    let mut end = file.length(rt)?;
    let mut opened = File::open(rt, &file.path).ok()?;
    let mut dropped = 0u64;
    for _ in 0..MAX_INTERFACES {
        let mut bytes = [0; MAX_BLOCK];
        let Some(statistics) = statistics_before(&mut opened, end, &mut bytes) else {
            break;
        };
        if counted.is_none() || statistics.word(8) == counted {
            dropped = dropped.saturating_add(statistics.dropped());
        }
        end = end.saturating_sub(statistics.block.len() as u64);
    }
    Some(dropped)
}

impl Tap {
    /// How many packets the recorder of a file says that it dropped, as far as the file was read.
    fn dropped_of(&self, rt: &HostRuntime, (number, file): (usize, &TapFile)) -> Option<u64> {
        if file.length(rt).is_none() {
            // A pipe's names of interfaces were read once.
            return match file.choice {
                Choice::Any => Some(self.lost(number, None)),
                Choice::Number(interface) => Some(self.lost(number, Some(interface))),
                Choice::Name(_) => None,
            };
        }
        if !is_pcapng(rt, &file.path).ok()? {
            return None;
        }
        let counted = counted_of(rt, &file.path, file.choice)?;
        let at_end = dropped_at_end(rt, file, counted).unwrap_or(0);
        Some(at_end.max(self.lost(number, counted)))
    }

    /// How many packets the recorders of its regular pcapng files say that they dropped.
    pub fn dropped(&self, rt: &HostRuntime) -> u64 {
        let mut dropped = 0u64;
        for file in self.files.iter().enumerate() {
            dropped = dropped.saturating_add(self.dropped_of(rt, file).unwrap_or(0));
        }
        dropped
    }
}

impl Taps {
    /// The same of the recordings of networks A and B.
    pub fn dropped(&self, rt: &HostRuntime) -> [u64; 2] {
        let a = self.of_network(Network::A).dropped(rt);
        let b = self.of_network(Network::B).dropped(rt);
        [a, b]
    }
}

/// Notes how many packets the recorders of a run say that they dropped, unless a fault was told.
pub fn tell_dropped(rt: &HostRuntime, outcome: &Outcome) -> io::Result<()> {
    if outcome.exit.status() != 0 {
        return Ok(());
    }
    let [a, b] = outcome.dropped;
    for (network, packets) in [(Network::A, a), (Network::B, b)] {
        if packets > 0 {
            rt.eprintln(DroppedNote(network, packets))?;
        }
    }
    Ok(())
}
