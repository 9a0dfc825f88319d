//! The advice on a fault line or a note: what to do, in plain words, for a person at a terminal. Each text
//! begins with a verb, has at most 100 columns, and stands alone: an installed program has no documents
//! beside it.

use crate::fault::{Contradiction, Fault, FileOption, ManifestFault, ReportFault, SelectionOption};
use crate::files::GivenFile;
use crate::line::file_name;
use crate::refused::Written;
use bpf_asm::AsmFault;
use bpf_debugger::DebugFault;
use bpf_isa::NumericFault;
use bpf_loader::LoadFault;
use bpf_text::TextFault;
use cut_run::{CutFault, CutSource};
use icd_links::IcdFault;
use ledger_text::LineFault;
use pcap_io::{BadReason, Ending, HeaderFault};
use run_fault::WatchFault;
use std::fmt;
use std::fmt::{Display, Formatter};
use transit_cut::TransitCutFault;
use transit_ledger::{LineFault as TransitLineFault, TransitFault};
use vl_config::ConfigFault;

/// The advice on a text that isn't the numeric form of a filter, by what it looks like.
pub fn numeric_advice(fault: NumericFault, written: Written) -> &'static str {
    match (fault, written) {
        (NumericFault::Count { .. }, _) => {
            "Correct the first number, which says how many instructions follow"
        }
        (NumericFault::TooMany { .. }, _) => FEW_INSTRUCTIONS,
        (NumericFault::Memory, _) => OUT_OF_MEMORY,
        (_, Written::Source) => {
            "Assemble this source into its numeric form: afdxmon asm < in.asm"
        }
        (_, Written::Expression) => {
            "Compile this expression to its numeric form, as by: tcpdump -y EN10MB -ddd 'ip and udp'"
        }
        (_, Written::Numeric) => {
            "Give the numeric form of a filter, as printed by: tcpdump -y EN10MB -ddd 'ip and udp'"
        }
    }
}

fn load_advice(fault: LoadFault) -> &'static str {
    match fault {
        LoadFault::Length => "Give a filter of 1 to 4096 instructions",
        LoadFault::UnknownCode { .. } => {
            "Use the 49 instructions of classic BPF; of Linux's extensions only 'len' is taken"
        }
        LoadFault::ZeroDivisor { .. } => "Divide by another constant than 0",
        LoadFault::Shift { .. } => "Shift by at most 31 bits",
        LoadFault::Scratch { .. } =>
            "Use the slots M[0] to M[15] of scratch memory: it has no others",
        LoadFault::Offset { .. } =>
            "Give an offset of at most 2147483647: there are no negative offsets",
        LoadFault::Jump { .. } => "Shorten the jump: it leads past the last instruction",
        LoadFault::NoReturn => "Make the last instruction a return",
        LoadFault::Unstored { .. } => {
            "Store to the slot of scratch memory on each path to the instruction that reads it"
        }
    }
}

/// How many bytes of a file say what it is, if it is no recording: those of a pcap file's header.
pub const HEAD_LEN: usize = 24;

/// The advice on a compressed recording: the words that its command line has in place of its path.
#[derive(Clone, Copy)]
pub struct CompressedAdvice<'a> {
    /// The compression, and the program that unpacks it.
    packer: &'static str,
    unpacker: &'static str,
    option: FileOption,
    path: &'a str,
}

impl Display for CompressedAdvice<'_> {
    fn fmt<W: fmt::Write>(&self, f: &mut Formatter<W>) -> fmt::Result {
        let CompressedAdvice {
            packer,
            unpacker,
            option,
            path,
        } = *self;
        write!(f, "Unpack it ({packer}) as it is read: ")?;
        if option != FileOption::Recording {
            f.write_str(file_name(option))?;
            f.write_str(" ")?;
        }
        write!(f, "<({unpacker} {path})")
    }
}

/// The advice on a file that is a compressed one, by its first bytes.
pub fn compressed_advice<'a>(head: &[u8], file: GivenFile<'a>) -> Option<CompressedAdvice<'a>> {
    let (packer, unpacker) = match head {
        [0x1f, 0x8b, ..] => ("gzip", "zcat"),
        [0x28, 0xb5, 0x2f, 0xfd, ..] => ("zstd", "zstdcat"),
        [0xfd, 0x37, 0x7a, 0x58, 0x5a, 0, ..] => ("xz", "xzcat"),
        _ => return None,
    };
    Some(CompressedAdvice {
        packer,
        unpacker,
        option: file.option,
        path: file.path?,
    })
}

/// Does a file header name Ethernet, with bits that say how long the check sequences are?
fn has_check_sequences(head: &[u8]) -> bool {
    match head {
        [0x4d | 0xd4, .., 1, 0, _, _] | [0xa1, .., 0, 1] => true,
        _ => false,
    }
}

fn link_type_advice(head: &[u8]) -> &'static str {
    if has_check_sequences(head) {
        "Take off the frames' check sequences: editcap -F nsecpcap -L -C -4 in.pcap out.pcap"
    } else {
        "Record on an Ethernet interface: this pcap file has another link type than 1, Ethernet"
    }
}

/// The advice on a file that is no recording, by its first [`HEAD_LEN`] bytes. Without them
/// nothing is known of it.
pub fn header_advice(fault: HeaderFault, head: &[u8]) -> &'static str {
    match fault {
        HeaderFault::Short => "Record again: the file ends within its header",
        HeaderFault::Magic => "Give a pcap or pcapng file, unpacked if it was compressed (gunzip)",
        HeaderFault::Version => {
            "Convert it to a pcap file of version 2.4: editcap -F nsecpcap in.pcap out.pcap"
        }
        HeaderFault::LinkType => link_type_advice(head),
        HeaderFault::SectionVersion => {
            "Record as pcapng 1.0 or pcap: this pcapng file has another major version than 1"
        }
        HeaderFault::ByteOrderMagic
        | HeaderFault::SectionLength
        | HeaderFault::SectionLengthsDiffer
        | HeaderFault::SectionOption => {
            "Record again: the section header of this pcapng file is damaged"
        }
    }
}

/// The advice on a recording that ends bad for a reason that has one of its own.
fn reason_advice(reason: BadReason) -> Option<&'static str> {
    Some(match reason {
        BadReason::StampBack { .. } => {
            "Sort its frames, since those from there on are left out: reordercap in.pcap out.pcap"
        }
        BadReason::TooMany => {
            "Split it, since the rest is left out: editcap -F nsecpcap -c 1000000000 in.pcap out.pcap"
        }
        BadReason::SimplePacket => {
            "Record with enhanced packets, as dumpcap does: simple packets have no time"
        }
        BadReason::StampRange => {
            "Set the recorder's clock, and record again: the frames from there on are left out"
        }
        BadReason::SeveralInterfaces => {
            "Choose one by its number or name after the path, as flight.pcapng:0"
        }
        BadReason::TooManyInterfaces => {
            "Record at most 256 interfaces in a section: the rest is left out"
        }
        BadReason::NoSuchInterface => "Choose one of those that this lists: capinfos in.pcapng",
        BadReason::FileHeader => {
            "Give the files apart, as --a FIRST SECOND: the rest of this one is left out"
        }
        BadReason::NextFile =>
            "Give a recording in its place: that file and those after it are left out",
        _ => return None,
    })
}

/// The advice on a recording that ends early.
#[derive(Clone, Copy)]
pub struct EndingAdvice(pub Ending);

impl Display for EndingAdvice {
    fn fmt<W: fmt::Write>(&self, f: &mut Formatter<W>) -> fmt::Result {
        let (count, reason) = match self.0 {
            Ending::Clean(_) => return Ok(()),
            Ending::Cut(_) => {
                return f.write_str("Record again, or go on with the frames before it");
            }
            Ending::Bad(count, reason) => (count, reason),
        };
        if let Some(advice) = reason_advice(reason) {
            return f.write_str(advice);
        }
        if count == 0 {
            return f.write_str("Record again: the file is damaged at its first packet");
        }
        write!(
            f,
            "Keep what is before the damage: editcap -F nsecpcap -r in.pcap out.pcap 1-{count}"
        )
    }
}

const OUT_OF_MEMORY: &str =
    "End other programs, or raise the limit by ulimit -v: the system has no memory left for it";

/// The advice on a text or a stream of too many instructions.
const FEW_INSTRUCTIONS: &str = "Give a filter of at most 4096 instructions";

/// The advice on a text of standard input.
pub const TEXT_ADVICE: &str = "Give a text of at most 16 MiB of UTF-8";

const READABLE_RECORDING: &str = "Give a recording that can be read: a file or a pipe";

const READABLE_LEDGER: &str = "Give a ledger that can be read: a file or a pipe";

/// The advice on an output that can't be written.
pub const UNWRITTEN_ADVICE: &str =
    "Make room on its disk, raise ulimit -f, or keep the reader of its pipe running";

fn watch_advice(fault: WatchFault) -> &'static str {
    match fault {
        WatchFault::Workers => "Give 1 to 8 as --workers",
        WatchFault::Header { fault, .. } => header_advice(fault, &[]),
        WatchFault::Read { .. } => READABLE_RECORDING,
        WatchFault::Write { .. } => UNWRITTEN_ADVICE,
        WatchFault::Spawn => {
            "Raise the limits by ulimit -u and ulimit -v: the system starts no more threads"
        }
        WatchFault::RingLost =>
            "Report this: the program is wrong, since a recording did not come as it was read",
        WatchFault::Memory => OUT_OF_MEMORY,
        WatchFault::Filters => "Give 1 to 8 filters",
    }
}

/// The file that an option is to name.
fn needed(file: FileOption) -> &'static str {
    match file {
        FileOption::Standard => "a text of at most 16 MiB of UTF-8",
        FileOption::Config => "a table of virtual links: a TOML document, at most 16 MiB of UTF-8",
        FileOption::Filter => "a filter in the numeric form, at most 16 MiB of UTF-8",
        FileOption::Icd => "a document of comma-separated values, at most 16 MiB of UTF-8",
        FileOption::Source => "a filter's source, at most 16 MiB of UTF-8",
        FileOption::Recording
        | FileOption::Tap
        | FileOption::A
        | FileOption::B
        | FileOption::Before
        | FileOption::After => "a recording that can be read: a pcap or pcapng file, or a pipe",
        FileOption::BaselineConfig => {
            "a sound table, of which this tells: afdxmon check --config FILE"
        }
        FileOption::Capture
        | FileOption::Ledger
        | FileOption::Output
        | FileOption::Manifest
        | FileOption::Csv => "a file that can be written, in a directory that is there",
        FileOption::Baseline => "a ledger that can be read: a file of watch, or a pipe",
        FileOption::Transit => {
            "a ledger of transits that can be read: a file of transit, or a pipe"
        }
    }
}

fn config_advice(fault: ConfigFault) -> &'static str {
    match fault {
        ConfigFault::Text => "Give a TOML document as the table",
        ConfigFault::Missing { .. } => "Add the key that is missing",
        ConfigFault::Kind { .. } => "Give the value the type that its key has",
        ConfigFault::Range { .. } => "Give a value in the range of its key",
        ConfigFault::UnknownKey { .. } => "Take out the key: a table has none of this name",
        ConfigFault::TwiceId { .. } =>
            "Give the link another identifier: an earlier link has this one",
        ConfigFault::TwiceName { .. } => "Give the link another name: an earlier link has this one",
        ConfigFault::TooMany => "Give a table at most 4096 links, and at most 7 filters",
        ConfigFault::Memory => OUT_OF_MEMORY,
    }
}

fn text_advice(fault: TextFault) -> &'static str {
    match fault {
        TextFault::Character { .. } =>
            "Take out this byte, or end the comment by */: no word of the language begins so",
        TextFault::Number { .. } => "Write a number below 2^32, as 31, 0x1f, 0b11 or 017",
        TextFault::Form { .. } => "Correct the statement: it doesn't go on like this",
        TextFault::ReservedLabel { .. } => "Rename the label: a word of the language can't be one",
        TextFault::Memory => OUT_OF_MEMORY,
    }
}

fn asm_advice(fault: AsmFault) -> &'static str {
    match fault {
        AsmFault::Text(fault) => text_advice(fault),
        AsmFault::Empty => "Write at least one statement",
        AsmFault::TooMany => FEW_INSTRUCTIONS,
        AsmFault::TwiceLabel { .. } => "Rename the label: an earlier statement has the same",
        AsmFault::NoLabel { .. } =>
            "Give a later statement the label that the jump names: none has it",
        AsmFault::Backward { .. } => "Jump forward, to a later statement: no jump goes back",
        AsmFault::TooFar { .. } =>
            "Use ja on the way: a conditional jump skips at most 255 statements",
        AsmFault::Memory => OUT_OF_MEMORY,
    }
}

fn debug_advice(fault: DebugFault) -> &'static str {
    match fault {
        DebugFault::NoFrame => "Select a frame first",
        DebugFault::NoSuchFrame => "Give the number of a frame: none has this one",
        DebugFault::NoSuchInsn => "Give the index of an instruction: none has this one",
        DebugFault::Memory => OUT_OF_MEMORY,
    }
}

fn line_advice(fault: LineFault) -> &'static str {
    match fault {
        LineFault::Head => "Give a ledger of version 2 or 3, as afdxmon watch --ledger writes it",
        LineFault::Frame(_) => "Take the ledger as watch wrote it: the line has no frame's form",
        LineFault::Order => "Take the ledger as watch wrote it: no such line stands there",
        LineFault::Newline =>
            "Take the ledger as watch wrote it: nothing stands after its line total",
        LineFault::Long => "Take the ledger as watch wrote it: no line is so long",
        LineFault::TooMany => "Take the ledger as watch wrote it: none has so many lines",
    }
}

fn cut_advice(fault: CutFault) -> &'static str {
    match fault {
        CutFault::Ledger { fault, .. } => line_advice(fault),
        CutFault::Order { .. } => {
            "Take the ledger as watch wrote it: each line's frame comes after the one before"
        }
        CutFault::Absent { .. } => {
            "Give the recordings that the ledger is of: these have no such frame"
        }
        CutFault::Header { fault, .. } => header_advice(fault, &[]),
        CutFault::Read {
            source: CutSource::Ledger,
        } => READABLE_LEDGER,
        CutFault::Read {
            source: CutSource::Recording(_),
        } => READABLE_RECORDING,
        CutFault::Write => UNWRITTEN_ADVICE,
        CutFault::Memory => OUT_OF_MEMORY,
    }
}

fn transit_cut_advice(fault: TransitCutFault) -> &'static str {
    match fault {
        TransitCutFault::Ledger { fault, .. } => transit_line_advice(fault),
        TransitCutFault::Absent { .. } => {
            "Give the recordings that the ledger is of: one has no such frame"
        }
        TransitCutFault::Header { fault, .. } => header_advice(fault, &[]),
        TransitCutFault::Read {
            source: CutSource::Ledger,
        } => READABLE_LEDGER,
        TransitCutFault::Read {
            source: CutSource::Recording(_),
        } => READABLE_RECORDING,
        TransitCutFault::Write => UNWRITTEN_ADVICE,
        TransitCutFault::Memory => OUT_OF_MEMORY,
    }
}

fn selection_advice(option: SelectionOption) -> &'static str {
    match option {
        SelectionOption::Link => {
            "Give --link identifiers 0 to 65535, as 301-305,42, or with --config names, as engine_*"
        }
        SelectionOption::Routed => {
            "Give --routed identifiers 0 to 65535, as 301-305,42, or names of the table, as engine_*"
        }
        SelectionOption::Verdict => {
            "Give --verdict words of a ledger's fields 6 to 9, 'discarded', 'faults' or 'delivered'"
        }
        SelectionOption::Outcome => {
            "Give --verdict outcomes of a ledger of transits, as dropped or lax, or 'faults'"
        }
        SelectionOption::From => {
            "Give a time as 2027-01-15T08:00:12.1195Z, 08:00:12.1195, 08:00, +12s or nanoseconds since 1970"
        }
        SelectionOption::To => {
            "Give a time as 2027-01-15T08:00:12.1195Z, 08:00:12.1195, 08:00, +12s or nanoseconds since 1970\n\
             Let it be no earlier than --from"
        }
        SelectionOption::Span => "Give --span a length of time, as 2s, 0.5s, 250ms or 80us",
        SelectionOption::Filters => "Give --filters a mask in hexadecimal, 01 to ff",
        SelectionOption::Around => "Name a file as the ledger, no pipe: --around reads it twice",
    }
}

fn contradiction_advice(found: Contradiction) -> &'static str {
    match found {
        Contradiction::Link =>
            "Take the table of the run: this one doesn't say the same of the link",
        Contradiction::Copy =>
            "Take the run's ledger and table as they were: the copy has no delivery before it",
        Contradiction::Counts =>
            "Take the run's ledger and table as they were: the frames' lines give other counts",
        Contradiction::Verdict =>
            "Take the table of the run: the verdict can't come of this one's BAG, jitter and Smax",
    }
}

fn manifest_advice(fault: ManifestFault) -> &'static str {
    match fault {
        ManifestFault::Form { .. } => "Give a manifest, as afdxmon watch --manifest writes it",
        ManifestFault::Version => "Give a manifest of version 1",
        ManifestFault::Table => "Take the table of the run: the manifest has another SHA-256",
        ManifestFault::Ledger =>
            "Take the ledger of the run: the manifest has another length or SHA-256",
    }
}

fn report_advice(fault: ReportFault) -> &'static str {
    match fault {
        ReportFault::Ledger { fault, .. } => line_advice(fault),
        ReportFault::Contradiction { found, .. } => contradiction_advice(found),
        ReportFault::Read => READABLE_LEDGER,
        ReportFault::Memory => OUT_OF_MEMORY,
        ReportFault::Manifest(fault) => manifest_advice(fault),
    }
}

/// The advice on a line of a ledger of transits.
fn transit_line_advice(fault: TransitLineFault) -> &'static str {
    match fault {
        TransitLineFault::Head =>
            "Give a ledger of transits, as afdxmon transit --ledger writes it",
        TransitLineFault::Run | TransitLineFault::Frame(_) | TransitLineFault::Form =>
            "Take the ledger as transit wrote it: the line has another form",
        TransitLineFault::Order => "Take the ledger as transit wrote it: no such line stands there",
        TransitLineFault::Newline =>
            "Take the ledger as transit wrote it: nothing stands after its line total",
        TransitLineFault::Long => "Take the ledger as transit wrote it: no line is so long",
        TransitLineFault::Link =>
            "Take the table of the run: this one doesn't say the same of the link",
        TransitLineFault::Counts =>
            "Take the run's ledger and table as they were: the frames' lines give other counts",
    }
}

fn transit_advice(fault: TransitFault) -> &'static str {
    match fault {
        TransitFault::Line { fault, .. } => transit_line_advice(fault),
        TransitFault::NotWhole { .. } => "Run transit to its end: the ledger has no line total",
        TransitFault::Read => READABLE_LEDGER,
        TransitFault::Memory => OUT_OF_MEMORY,
    }
}

/// The advice on a draft that isn't a table.
fn draft_advice(fault: ConfigFault) -> &'static str {
    match fault {
        ConfigFault::TooMany =>
            "Take out links: the ICD and the recordings have more than 4096 together",
        ConfigFault::TwiceName { .. } => {
            "Name the link in the ICD: without a name it is vl_ID, as another link is named there"
        }
        _ => config_advice(fault),
    }
}

/// The advice on a document of links, where its faults aren't listed.
fn icd_advice(fault: IcdFault) -> &'static str {
    match fault {
        IcdFault::Memory => OUT_OF_MEMORY,
        _ => "Correct the document: it has faults, and there is no memory to list them",
    }
}

/// The advice on a fault that is of no file's option.
fn fixed_advice(fault: &Fault) -> &'static str {
    match *fault {
        Fault::File(file) | Fault::Shared { output: file, .. } | Fault::Taken { file, .. } => {
            needed(file)
        }
        Fault::Config(fault) => config_advice(fault),
        Fault::Asm(fault) => asm_advice(fault),
        Fault::Numeric { fault, .. } => numeric_advice(fault, Written::Numeric),
        Fault::Load { fault, .. } => load_advice(fault),
        Fault::Watch(fault) | Fault::Transit(fault) => watch_advice(fault),
        Fault::Manifest => UNWRITTEN_ADVICE,
        Fault::Debug(fault) => debug_advice(fault),
        Fault::Cut(fault) => cut_advice(fault),
        Fault::TransitCut(fault) => transit_cut_advice(fault),
        Fault::Selection { option, .. } => selection_advice(option),
        Fault::Interfaces(_) => {
            "Choose one of these by name or number, as flight.pcapng:eth0; of a pcap file none"
        }
        Fault::Order(_) => "Give the files of a recording in the order of their first timestamps",
        Fault::Repeated(_) => "Give each file of a recording once",
        Fault::Report(fault) | Fault::Baseline(fault) => report_advice(fault),
        Fault::TransitLedger(fault) => transit_advice(fault),
        Fault::Icd(fault) => icd_advice(fault),
        Fault::Draft(fault) => draft_advice(fault),
        Fault::Constant => {
            "Give --constant a number of 32 bits with bits 24 and 25 set, as 0x03000000 or 50331648"
        }
        Fault::Unsound => "Read why in the answer: a run with these inputs would not be sound",
        Fault::Questioned => "Read the answer's questions: what was found may be wrong",
    }
}

/// The advice on a fault line, for a person at a terminal.
#[derive(Clone, Copy)]
pub struct Advice<'a>(pub &'a Fault);

impl Display for Advice<'_> {
    fn fmt<W: fmt::Write>(&self, f: &mut Formatter<W>) -> fmt::Result {
        let fixed = fixed_advice(self.0);
        match *self.0 {
            Fault::Shared {
                other: FileOption::Recording,
                ..
            } => f.write_str("Name another file to write: this is the recording too"),
            Fault::Shared { other, .. } => {
                let option = file_name(other);
                write!(
                    f,
                    "Name another file to write: this is that of {option} too"
                )
            }
            Fault::Taken {
                by: FileOption::Standard,
                ..
            } => f.write_str("Name a file: the commands are read from standard input"),
            Fault::Taken { by, .. } => {
                let option = file_name(by);
                write!(f, "Name a file: '-' stands for {option} already")
            }
            Fault::File(FileOption::Standard) => {
                write!(f, "Give {fixed}, and an output that can be written")
            }
            Fault::File(file) => {
                let option = file_name(file);
                write!(f, "Let {option} name {fixed}")
            }
            _ => f.write_str(fixed),
        }
    }
}
