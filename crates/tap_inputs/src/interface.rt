//! Which interface of a pcapng recording is read: a number or a name after its path and a colon. And what is
//! told of the others.
use crate::described::{Described, described_in};
use afdx_frame::Network;
use command_line::{Exit, SkippedNote, is_standard};
use pcap_io::{BadReason, ByteOrder, Ending, Found, ReadSource, TapReader, read_u32};
use pcapng::{Choice, InterfaceName, RecordingSource, SECTION_HEADER};
use std::fmt::Write;
use std::fs::File;
use std::io::{Read, Take};
use std::{fs, io};

/// The interface that a person names: digits are a number, and anything else is a name.
fn choice_of(text: &str) -> Option<Choice> {
    if text.is_empty() {
        return None;
    }
    match text.parse::<u32>() {
        Ok(number) if text.bytes().all(|byte| byte.is_ascii_digit()) => Some(Choice::Number(
            number,
        )),
        Ok(_) | Err(_) => Some(Choice::Name(InterfaceName::new(text.as_bytes())?)),
    }
}

/// The path of a recording, and the interface that is chosen after it. A path that names a file as it
/// stands wins.
pub fn chosen_in<'a>(rt: &HostRuntime, path: &'a str) -> (&'a str, Choice) {
    if is_standard(path) || fs::metadata(rt, path).is_ok() {
        return (path, Choice::Any);
    }
    match path.rsplit_once(':') {
        Some((file, interface)) if is_standard(file) || fs::metadata(rt, file).is_ok() => {
            match choice_of(interface) {
                Some(choice) => (file, choice),
                None => (path, Choice::Any),
            }
        }
        Some(_) | None => (path, Choice::Any),
    }
}

/// How many packets of a command's recordings are not of Ethernet.
#[derive(Clone, Copy)]
pub enum Skipped {
    /// Of the command's one recording.
    One(u64),
    /// Of the recordings of networks A and B.
    Two(u64, u64),
}

impl Skipped {
    /// There are none.
    pub fn none() -> Skipped {
        Skipped::One(0)
    }

    /// So many of the command's one recording.
    pub fn one(packets: u64) -> Skipped {
        Skipped::One(packets)
    }

    /// So many of the recordings of networks A and B.
    pub fn two(a: u64, b: u64) -> Skipped {
        Skipped::Two(a, b)
    }

    /// Notes them, unless a fault was told.
    pub fn tell(self, rt: &HostRuntime, exit: &Exit) -> io::Result<()> {
        if exit.status() != 0 {
            return Ok(());
        }
        match self {
            Skipped::One(packets) => note(rt, None, packets),
            Skipped::Two(a, b) => {
                note(rt, Some(Network::A), a)?;
                note(rt, Some(Network::B), b)
            }
        }
    }
}

fn note(rt: &HostRuntime, network: Option<Network>, packets: u64) -> io::Result<()> {
    if packets == 0 {
        return Ok(());
    }
    rt.eprintln(SkippedNote(network, packets))
}

/// How many bytes at the start of a file are looked at for packets of several interfaces, before its outputs
/// are begun.
pub const LOOKED_AT: u64 = 1 << 20;

/// Does a file begin as pcapng does?
pub fn is_pcapng(rt: &HostRuntime, path: &str) -> io::Result<bool> {
    let mut first = [0; 4];
    File::open(rt, path)?.read_exact(&mut first)?;
    Ok(read_u32(ByteOrder::Big, &first) == SECTION_HEADER)
}

/// Does a file begin as a pcap file that is read?
fn is_pcap(rt: &HostRuntime, path: &str) -> bool {
    match File::open(rt, path) {
        Ok(file) => TapReader::open(ReadSource::new(file), Network::A, 1, u64::MAX).is_ok(),
        Err(_) => false,
    }
}

/// The interfaces of a pcap file, if the chosen one isn't one of them: it has one, without a name.
fn other_in_pcap(rt: &HostRuntime, path: &str, choice: Choice) -> Option<String> {
    match choice {
        Choice::Any | Choice::Number(0) => None,
        Choice::Number(_) | Choice::Name(_) if is_pcap(rt, path) => {
            String::from_str(rt.alloc(), "0").ok()
        }
        Choice::Number(_) | Choice::Name(_) => None,
    }
}

/// The recording that so many bytes at the start of a file are, whose timestamps may stand in any order.
pub fn start_of(
    rt: &HostRuntime,
    path: &str,
    choice: Choice,
    bytes: u64,
) -> Option<TapReader<RecordingSource<ReadSource<Take<File>>>>> {
    let start = File::open(rt, path).ok()?.take(bytes);
    let source = RecordingSource::new(rt.alloc(), ReadSource::new(start), choice).ok()?;
    TapReader::open(source, Network::A, 1 << 32, u64::MAX).ok()
}

/// The interfaces at a file's start, if a packet of a second Ethernet interface stands there.
fn several_in(rt: &HostRuntime, path: &str) -> Option<String> {
    let mut reader = start_of(rt, path, Choice::Any, LOOKED_AT)?;
    for _ in 0..LOOKED_AT {
        match reader.advance(rt.alloc()) {
            Ok(Found::Frame) => {}
            Ok(Found::End(Ending::Bad(_, BadReason::SeveralInterfaces))) => {
                return list_of(rt, &described_in(rt, path, LOOKED_AT)?);
            }
            Ok(Found::End(_)) | Err(_) => return None,
        }
    }
    None
}

/// Does a file's start have a frame of the chosen interface?
fn has_frame(rt: &HostRuntime, path: &str, choice: Choice) -> bool {
    match start_of(rt, path, choice, LOOKED_AT) {
        Some(mut reader) => matches!(reader.advance(rt.alloc()), Ok(Found::Frame)),
        None => false,
    }
}

/// The interfaces of a whole file, if none of them is the chosen one.
fn others_in(rt: &HostRuntime, path: &str, choice: Choice) -> Option<String> {
    let mut reader = start_of(rt, path, choice, u64::MAX)?;
    match reader.advance(rt.alloc()) {
        Ok(Found::End(Ending::Bad(_, BadReason::NoSuchInterface))) => {
            list_of(rt, &described_in(rt, path, u64::MAX)?)
        }
        Ok(Found::Frame | Found::End(_)) | Err(_) => None,
    }
}

/// An interface's name, if it can be shown, and chosen by it: digits are a number.
fn shown_name(name: &InterfaceName) -> Option<&str> {
    let name = str::from_utf8(name.as_bytes()).ok()?;
    if !name.bytes().all(|byte| byte.is_ascii_graphic()) {
        return None;
    }
    match choice_of(name)? {
        Choice::Name(_) => Some(name),
        Choice::Any | Choice::Number(_) => None,
    }
}

/// A list of interfaces: the number of each, and its name. One that has a name has no number there where that
/// would choose another interface too.
fn list_of(rt: &HostRuntime, interfaces: &[Described]) -> Option<String> {
    if interfaces.is_empty() {
        return String::from_str(rt.alloc(), "none of Ethernet").ok();
    }
    let mut list = String::new(rt.alloc());
    for Described { met, is_mixed } in interfaces {
        let separator = if list.is_empty() { "" } else { ", " };
        let number = met.number;
        match met.name.as_ref().and_then(shown_name) {
            Some(name) if *is_mixed => write!(list, "{separator}{name}").ok()?,
            Some(name) => write!(list, "{separator}{number} {name}").ok()?,
            None => write!(list, "{separator}{number}").ok()?,
        }
    }
    Some(list)
}

/// The Ethernet interfaces of a regular file of pcapng, the number of each and its name, if it begins with
/// packets of several and none is chosen, or if it doesn't describe the one that is. More than its start is
/// read only where that has no frame of it. A pcap file has the interface 0.
pub fn refused_interfaces(rt: &HostRuntime, path: &str, choice: Choice) -> Option<String> {
    if !is_pcapng(rt, path).unwrap_or(false) {
        return other_in_pcap(rt, path, choice);
    }
    match choice {
        Choice::Any => several_in(rt, path),
        Choice::Number(_) | Choice::Name(_) if has_frame(rt, path, choice) => None,
        Choice::Number(_) | Choice::Name(_) => others_in(rt, path, choice),
    }
}

/// Was the chosen interface never described?
fn lacks_interface(ending: Ending) -> bool {
    matches!(ending, Ending::Bad(_, BadReason::NoSuchInterface))
}

/// The exit status. Where the chosen interface never came, as may be of a pipe, it is that of a fault, though
/// the note tells why.
pub fn status_of(exit: &Exit) -> u8 {
    let lacks = match exit {
        Exit::Note(ending) => lacks_interface(*ending),
        Exit::Watched(summary) => lacks_interface(summary.a) || lacks_interface(summary.b),
        _ => false,
    };
    if lacks { 1 } else { exit.status() }
}
