//! The line that says why a command was aborted.

use crate::fault::{Contradiction, Fault, FileOption, ManifestFault, ReportFault, SelectionOption};
use afdx_frame::Network;
use bpf_asm::AsmFault;
use bpf_debugger::DebugFault;
use bpf_isa::NumericFault;
use bpf_loader::LoadFault;
use bpf_text::TextFault;
use cut_run::{CutFault, CutSource};
use icd_links::IcdFault;
use ledger_text::{FrameFault, LineFault};
use pcap_io::HeaderFault;
use run_fault::{Output, WatchFault};
use std::alloc::{AllocError, Global};
use std::fmt;
use std::fmt::{Display, Formatter};
use transit_cut::TransitCutFault;
use transit_ledger::TransitFault;
use vl_config::ConfigFault;

/// The text after the name of a fault.
#[derive(Clone, Copy)]
enum About {
    Nothing,
    /// A place: of a byte, an item or a line.
    At(u64),
    /// A place, and what is wrong there.
    AtWord(u64, &'static str),
    /// The place of an instruction, and the slot of scratch memory that it reads.
    AtSlot(u64, u64),
    /// A virtual link.
    Link(u32),
    Word(&'static str),
    Words(&'static str, &'static str),
}

impl Display for About {
    fn fmt<W: fmt::Write>(&self, f: &mut Formatter<W>) -> fmt::Result {
        match *self {
            About::Nothing => Ok(()),
            About::At(at) => write!(f, " at {at}"),
            About::AtWord(at, word) => write!(f, " at {at} {word}"),
            About::AtSlot(at, slot) => write!(f, " at {at} word {slot}"),
            About::Link(link) => write!(f, " link {link}"),
            About::Word(word) => write!(f, " {word}"),
            About::Words(first, second) => write!(f, " {first} {second}"),
        }
    }
}

/// A fault of one kind: its number and name, and what it is about.
#[derive(Clone, Copy)]
struct Part {
    name: &'static str,
    about: About,
}

impl Display for Part {
    fn fmt<W: fmt::Write>(&self, f: &mut Formatter<W>) -> fmt::Result {
        let Part { name, about } = *self;
        write!(f, "{name}{about}")
    }
}

/// A fault that its name says all of.
fn plain(name: &'static str) -> Part {
    Part {
        name,
        about: About::Nothing,
    }
}

/// A fault at a place.
fn placed_at(name: &'static str, at: usize) -> Part {
    Part {
        name,
        about: About::At(at as u64),
    }
}

/// A fault of the table, at a link or in the top table.
fn in_table(name: &'static str, link: Option<u32>) -> Part {
    let about = match link {
        Some(link) => About::Link(link),
        None => About::Word("top"),
    };
    Part { name, about }
}

fn config_part(fault: ConfigFault) -> Part {
    match fault {
        ConfigFault::Text => plain("1 Text"),
        ConfigFault::Missing { link } => in_table("2 Missing", link),
        ConfigFault::Kind { link } => in_table("3 Kind", link),
        ConfigFault::Range { link } => in_table("4 Range", link),
        ConfigFault::UnknownKey { link } => in_table("5 UnknownKey", link),
        ConfigFault::TwiceId { link } => in_table("6 TwiceId", link),
        ConfigFault::TwiceName { link } => in_table("7 TwiceName", link),
        ConfigFault::TooMany => plain("8 TooMany"),
        ConfigFault::Memory => plain("9 Memory"),
    }
}

fn numeric_part(fault: NumericFault) -> Part {
    match fault {
        NumericFault::Character { at } => placed_at("1 Character", at),
        NumericFault::Number { at } => placed_at("2 Number", at),
        NumericFault::Form { at } => placed_at("3 Form", at),
        NumericFault::Count { at } => placed_at("4 Count", at),
        NumericFault::TooMany { at } => placed_at("5 TooMany", at),
        NumericFault::Memory => plain("6 Memory"),
    }
}

fn load_part(fault: LoadFault) -> Part {
    match fault {
        LoadFault::Length => plain("1 Length"),
        LoadFault::UnknownCode { at } => placed_at("2 UnknownCode", at),
        LoadFault::ZeroDivisor { at } => placed_at("3 ZeroDivisor", at),
        LoadFault::Shift { at } => placed_at("4 Shift", at),
        LoadFault::Scratch { at } => placed_at("5 Scratch", at),
        LoadFault::Offset { at } => placed_at("6 Offset", at),
        LoadFault::Jump { at } => placed_at("7 Jump", at),
        LoadFault::NoReturn => plain("8 NoReturn"),
        LoadFault::Unstored { at, word } => Part {
            name: "9 Unstored",
            about: About::AtSlot(at as u64, u64::from(word)),
        },
    }
}

fn text_part(fault: TextFault) -> Part {
    match fault {
        TextFault::Character { at } => placed_at("1 Text 1 Character", at),
        TextFault::Number { at } => placed_at("1 Text 2 Number", at),
        TextFault::Form { at } => placed_at("1 Text 3 Form", at),
        TextFault::ReservedLabel { at } => placed_at("1 Text 4 ReservedLabel", at),
        TextFault::Memory => plain("1 Text 5 Memory"),
    }
}

fn asm_part(fault: AsmFault) -> Part {
    match fault {
        AsmFault::Text(fault) => text_part(fault),
        AsmFault::Empty => plain("2 Empty"),
        AsmFault::TooMany => plain("3 TooMany"),
        AsmFault::TwiceLabel { at } => placed_at("4 TwiceLabel", at),
        AsmFault::NoLabel { at } => placed_at("5 NoLabel", at),
        AsmFault::Backward { at } => placed_at("6 Backward", at),
        AsmFault::TooFar { at } => placed_at("7 TooFar", at),
        AsmFault::Memory => plain("8 Memory"),
    }
}

fn debug_part(fault: DebugFault) -> Part {
    match fault {
        DebugFault::NoFrame => plain("1 NoFrame"),
        DebugFault::NoSuchFrame => plain("2 NoSuchFrame"),
        DebugFault::NoSuchInsn => plain("3 NoSuchInsn"),
        DebugFault::Memory => plain("4 Memory"),
    }
}

pub(crate) fn file_name(file: FileOption) -> &'static str {
    match file {
        FileOption::Standard => "-",
        FileOption::Config => "--config",
        FileOption::Filter => "--filter",
        FileOption::Tap => "--tap",
        FileOption::A => "--a",
        FileOption::B => "--b",
        FileOption::Before => "--before",
        FileOption::After => "--after",
        FileOption::Capture => "--capture",
        FileOption::Ledger => "--ledger",
        FileOption::Source => "--source",
        FileOption::Recording => "RECORDING",
        FileOption::Output => "--output",
        FileOption::Icd => "--icd",
        FileOption::Manifest => "--manifest",
        FileOption::Baseline => "--baseline",
        FileOption::BaselineConfig => "--baseline-config",
        FileOption::Csv => "--csv",
        FileOption::Transit => "--transit",
    }
}

fn header_name(fault: HeaderFault) -> &'static str {
    match fault {
        HeaderFault::Short => "1 Short",
        HeaderFault::Magic => "2 Magic",
        HeaderFault::Version => "3 Version",
        HeaderFault::LinkType => "4 LinkType",
        HeaderFault::ByteOrderMagic => "5 ByteOrderMagic",
        HeaderFault::SectionVersion => "6 SectionVersion",
        HeaderFault::SectionLength => "7 SectionLength",
        HeaderFault::SectionLengthsDiffer => "8 SectionLengthsDiffer",
        HeaderFault::SectionOption => "9 SectionOption",
    }
}

/// A fault that names what it concerns.
fn with_word(name: &'static str, word: &'static str) -> Part {
    Part {
        name,
        about: About::Word(word),
    }
}

/// The fault of a recording's header.
fn with_header(name: &'static str, network: Network, fault: HeaderFault) -> Part {
    Part {
        name,
        about: About::Words(network.letter(), header_name(fault)),
    }
}

fn watch_part(fault: WatchFault) -> Part {
    match fault {
        WatchFault::Workers => plain("1 Workers"),
        WatchFault::Header { network, fault } => with_header("2 Header", network, fault),
        WatchFault::Read { network } => with_word("3 Read", network.letter()),
        WatchFault::Write {
            output: Output::Capture,
        } => plain("4 Write capture"),
        WatchFault::Write {
            output: Output::Ledger,
        } => plain("4 Write ledger"),
        WatchFault::Spawn => plain("5 Spawn"),
        WatchFault::RingLost => plain("6 RingLost"),
        WatchFault::Memory => plain("7 Memory"),
        WatchFault::Filters => plain("8 Filters"),
    }
}

/// The port of a switch whose recording a network's stands for.
fn port_of(network: Network) -> &'static str {
    match network {
        Network::A => "before",
        Network::B => "after",
    }
}

fn transit_part(fault: WatchFault) -> Part {
    match fault {
        WatchFault::Header { network, fault } => Part {
            name: "2 Header",
            about: About::Words(port_of(network), header_name(fault)),
        },
        WatchFault::Read { network } => with_word("3 Read", port_of(network)),
        fault => watch_part(fault),
    }
}

fn field_name(fault: FrameFault) -> &'static str {
    match fault {
        FrameFault::Timestamp => "timestamp",
        FrameFault::Network => "network",
        FrameFault::Index => "index",
        FrameFault::Link => "link",
        FrameFault::Sequence => "sequence",
        FrameFault::Class => "class",
        FrameFault::Policing => "policing",
        FrameFault::Integrity => "integrity",
        FrameFault::Redundancy => "redundancy",
        FrameFault::Kept => "kept",
        FrameFault::Mask => "mask",
        FrameFault::Length => "length",
        FrameFault::Fields => "fields",
    }
}

/// The name of a fault of a ledger's line; of a frame's line by the first field that is wrong.
fn line_fault_name(fault: LineFault) -> &'static str {
    match fault {
        LineFault::Head => "head",
        LineFault::Frame(field) => field_name(field),
        LineFault::Order => "order",
        LineFault::Newline => "newline",
        LineFault::Long => "long",
        LineFault::TooMany => "toomany",
    }
}

fn source_name(source: CutSource) -> &'static str {
    match source {
        CutSource::Ledger => "Ledger",
        CutSource::Recording(network) => network.letter(),
    }
}

/// A fault of a line, and what is wrong there.
fn in_line(name: &'static str, line: u64, word: &'static str) -> Part {
    Part {
        name,
        about: About::AtWord(line, word),
    }
}

/// A fault of a line.
fn at_line(name: &'static str, line: u64) -> Part {
    Part {
        name,
        about: About::At(line),
    }
}

fn cut_part(fault: CutFault) -> Part {
    match fault {
        CutFault::Ledger { line, fault } => in_line("1 Ledger", line, line_fault_name(fault)),
        CutFault::Order { line } => at_line("2 Order", line),
        CutFault::Absent { line } => at_line("3 Absent", line),
        CutFault::Header { network, fault } => with_header("4 Header", network, fault),
        CutFault::Read { source } => with_word("5 Read", source_name(source)),
        CutFault::Write => plain("6 Write Output"),
        CutFault::Memory => plain("7 Memory"),
    }
}

fn transit_cut_part(fault: TransitCutFault) -> Part {
    match fault {
        TransitCutFault::Ledger { line, fault } => in_line("1 Ledger", line, fault.word()),
        TransitCutFault::Absent { line } => at_line("3 Absent", line),
        TransitCutFault::Header { side, fault } => Part {
            name: "4 Header",
            about: About::Words(port_of(side), header_name(fault)),
        },
        TransitCutFault::Read {
            source: CutSource::Ledger,
        } => with_word("5 Read", "Ledger"),
        TransitCutFault::Read {
            source: CutSource::Recording(side),
        } => with_word("5 Read", port_of(side)),
        TransitCutFault::Write => plain("6 Write Output"),
        TransitCutFault::Memory => plain("7 Memory"),
    }
}

fn contradiction_name(found: Contradiction) -> &'static str {
    match found {
        Contradiction::Link => "link",
        Contradiction::Copy => "copy",
        Contradiction::Counts => "counts",
        Contradiction::Verdict => "verdict",
    }
}

/// A manifest that isn't one, or isn't that of the report's files.
fn manifest_part(fault: ManifestFault) -> Part {
    match fault {
        ManifestFault::Form { line } => in_line("5 Manifest", line, "form"),
        ManifestFault::Version => with_word("5 Manifest", "version"),
        ManifestFault::Table => with_word("5 Manifest", "table"),
        ManifestFault::Ledger => with_word("5 Manifest", "ledger"),
    }
}

fn report_part(fault: ReportFault) -> Part {
    match fault {
        ReportFault::Ledger { line, fault } => in_line("1 Ledger", line, line_fault_name(fault)),
        ReportFault::Contradiction { line, found } => {
            in_line("2 Contradiction", line, contradiction_name(found))
        }
        ReportFault::Read => plain("3 Read Ledger"),
        ReportFault::Memory => plain("4 Memory"),
        ReportFault::Manifest(fault) => manifest_part(fault),
    }
}

fn transit_ledger_part(fault: TransitFault) -> Part {
    match fault {
        TransitFault::Line { number, fault } if fault.is_contradiction() => {
            in_line("2 Contradiction", number, fault.word())
        }
        TransitFault::Line { number, fault } => in_line("1 Ledger", number, fault.word()),
        TransitFault::NotWhole { number, .. } => in_line("1 Ledger", number, "total"),
        TransitFault::Read => plain("3 Read Ledger"),
        TransitFault::Memory => plain("4 Memory"),
    }
}

fn icd_part(fault: IcdFault) -> Part {
    match fault {
        IcdFault::Head { line, .. } => in_line("2 Icd", line, "head"),
        IcdFault::Quote { line } | IcdFault::Length { line, .. } => {
            in_line("2 Icd", line, "cells")
        }
        IcdFault::Value { line, column } => in_line("2 Icd", line, column.name()),
        IcdFault::TwiceId { line, .. } => in_line("2 Icd", line, "twiceid"),
        IcdFault::TwiceName { line, .. } => in_line("2 Icd", line, "twicename"),
        IcdFault::TooMany { line } => in_line("2 Icd", line, "toomany"),
        IcdFault::Memory => plain("4 Memory"),
    }
}

fn selection_name(option: SelectionOption) -> &'static str {
    match option {
        SelectionOption::Link => "link",
        SelectionOption::Routed => "routed",
        SelectionOption::Verdict | SelectionOption::Outcome => "verdict",
        SelectionOption::From => "from",
        SelectionOption::To => "to",
        SelectionOption::Span => "span",
        SelectionOption::Filters => "filters",
        SelectionOption::Around => "around",
    }
}

/// The subject of a fault, and the fault itself.
fn part_of(fault: &Fault) -> (&'static str, Part) {
    match *fault {
        Fault::File(file) | Fault::Shared { output: file, .. } | Fault::Taken { file, .. } => {
            ("file", plain(file_name(file)))
        }
        Fault::Config(fault) => ("config", config_part(fault)),
        Fault::Asm(fault) => ("asm", asm_part(fault)),
        Fault::Numeric { fault, .. } => ("numeric", numeric_part(fault)),
        Fault::Load { fault, .. } => ("load", load_part(fault)),
        Fault::Watch(fault) => ("watch", watch_part(fault)),
        Fault::Transit(fault) => ("transit", transit_part(fault)),
        Fault::Manifest => ("watch", plain("4 Write manifest")),
        Fault::Debug(fault) => ("debug", debug_part(fault)),
        Fault::Cut(fault) => ("cut", cut_part(fault)),
        Fault::TransitCut(fault) => ("cut", transit_cut_part(fault)),
        Fault::Selection {
            option: SelectionOption::Routed,
            item,
        } => ("transit 8 Selection", placed_at("routed", item)),
        Fault::Selection { option, item } => {
            ("cut 8 Selection", placed_at(selection_name(option), item))
        }
        Fault::Interfaces(file) => ("interfaces", plain(file_name(file))),
        Fault::Order(file) => ("order", plain(file_name(file))),
        Fault::Repeated(file) => ("repeated", plain(file_name(file))),
        Fault::Report(fault) => ("report", report_part(fault)),
        Fault::Baseline(fault) => ("report 6 Baseline", report_part(fault)),
        Fault::TransitLedger(fault) => ("report 7 Transit", transit_ledger_part(fault)),
        Fault::Constant => ("links", plain("1 Constant")),
        Fault::Icd(fault) => ("links", icd_part(fault)),
        Fault::Draft(fault) => ("links 3 Draft", config_part(fault)),
        Fault::Unsound => ("check", plain("1 Unsound")),
        Fault::Questioned => ("transit", plain("1 Unsound")),
    }
}

/// The filter of the table that a fault is of, by its number. That of the command line has none.
fn filter_of(fault: &Fault) -> Option<u8> {
    match *fault {
        Fault::Numeric { filter, .. } | Fault::Load { filter, .. } => filter,
        _ => None,
    }
}

/// The fault line, without its newline.
impl Display for Fault {
    fn fmt<W: fmt::Write>(&self, f: &mut Formatter<W>) -> fmt::Result {
        let (of, part) = part_of(self);
        write!(f, "afdxmon: {of} {part}")?;
        match filter_of(self) {
            Some(number) => write!(f, " filter {number}"),
            None => Ok(()),
        }
    }
}

/// The line that the program prints for a fault, without the newline.
///
/// # Errors
///
/// `AllocError` if there is no memory for the line.
pub fn fault_line(alloc: Global, fault: &Fault) -> Result<String, AllocError> {
    fault.to_string(alloc)
}
