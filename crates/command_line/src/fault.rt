//! Why a command was aborted.

use bpf_asm::AsmFault;
use bpf_debugger::DebugFault;
use bpf_isa::NumericFault;
use bpf_loader::LoadFault;
use bpf_text::TextFault;
use cut_run::CutFault;
use icd_links::IcdFault;
use ledger_text::LineFault;
use run_fault::WatchFault;
use transit_cut::TransitCutFault;
use transit_ledger::TransitFault;
use vl_config::ConfigFault;

/// A file, by the option that names it.
#[derive(Clone, Copy, PartialEq, Eq)]
pub enum FileOption {
    /// Standard input, and of the commands that print text standard output.
    Standard,
    Config,
    Filter,
    Tap,
    A,
    B,
    /// The recording at the port into a switch.
    Before,
    /// The recording at the port out of it.
    After,
    Capture,
    Ledger,
    Source,
    /// The word that names the recording of `capture`.
    Recording,
    /// The file that `capture` writes.
    Output,
    /// The document that specifies links.
    Icd,
    /// The facts of a run.
    Manifest,
    /// The ledger of an earlier flight.
    Baseline,
    /// The table of the baseline.
    BaselineConfig,
    /// The table of links that is written as comma-separated values.
    Csv,
    /// The ledger of transits through a switch that a report tells of.
    Transit,
}

/// An option whose text selects frames of a ledger.
#[derive(Clone, Copy, PartialEq, Eq)]
pub enum SelectionOption {
    Link,
    /// The links that are routed to a port.
    Routed,
    Verdict,
    /// The outcomes of a ledger of transits.
    Outcome,
    From,
    To,
    Span,
    Filters,
    Around,
}

/// The contradictions of a ledger's line to the lines before it, or to the table.
#[derive(Clone, Copy, PartialEq, Eq)]
pub enum Contradiction {
    /// A frame's line is of a link that the table doesn't have, and says that it has.
    Link,
    /// A copy's line has no delivery before it, on the other network, of which it is the copy.
    Copy,
    /// A line of counts differs from what the frames' lines before it say.
    Counts,
    /// A frame's line has a verdict that the BAG, the jitter and the Smax of its link in the table can't
    /// give.
    Verdict,
}

/// Why a manifest isn't that of a report's table and ledger.
#[derive(Clone, Copy, PartialEq, Eq)]
pub enum ManifestFault {
    /// A line, counted from 1, at which the text isn't that of a manifest.
    Form { line: u64 },
    /// It is of another version of the format.
    Version,
    /// It has another digest of the table.
    Table,
    /// It has another length or digest of the ledger.
    Ledger,
}

/// Why a report of a ledger is aborted. Lines are counted from 1.
#[derive(Clone, Copy, PartialEq, Eq)]
pub enum ReportFault {
    /// A line that no ledger has there.
    Ledger { line: u64, fault: LineFault },
    /// A line of a ledger's form that contradicts the lines before it, or the table.
    Contradiction { line: u64, found: Contradiction },
    /// The ledger can't be read.
    Read,
    Memory,
    /// The manifest isn't one, or isn't of this table and this ledger.
    Manifest(ManifestFault),
}

/// A fault that the program reports by a line. A numeric text or a program may be that of a numbered
/// filter of the table; that of the command line has no number.
#[derive(Clone, Copy)]
pub enum Fault {
    /// A file that can't be opened, read or written, or a text that is longer than 16 MiB or not UTF-8.
    File(FileOption),
    /// An output that is a file which another option names too: it would be destroyed.
    Shared {
        output: FileOption,
        other: FileOption,
    },
    /// A file that is standard input or output, as another is already.
    Taken {
        file: FileOption,
        by: FileOption,
    },
    /// The table of virtual links.
    Config(ConfigFault),
    /// The source of a filter.
    Asm(AsmFault),
    Numeric {
        fault: NumericFault,
        filter: Option<u8>,
    },
    Load {
        fault: LoadFault,
        filter: Option<u8>,
    },
    Watch(WatchFault),
    /// A pass over the recordings at both ports of a switch, as network A that into it, as B that out of it.
    Transit(WatchFault),
    /// A cut by a ledger of transits was aborted.
    TransitCut(TransitCutFault),
    /// The manifest of a run can't be written.
    Manifest,
    /// A session of the debugger that isn't begun: there is no memory for it.
    Debug(DebugFault),
    Cut(CutFault),
    /// A text that selects nothing: its first item that is none of its option's, counted from 0. A moment
    /// and a mask are one item.
    Selection {
        option: SelectionOption,
        item: usize,
    },
    /// A pcapng file with packets of more than one Ethernet interface, of which none is chosen.
    Interfaces(FileOption),
    /// A recording's files whose first timestamps don't rise in the order in which they are given.
    Order(FileOption),
    /// A recording that is given a file twice.
    Repeated(FileOption),
    Report(ReportFault),
    /// The ledger of an earlier flight, which is read as the report's own.
    Baseline(ReportFault),
    /// The ledger of transits that a report tells of.
    TransitLedger(TransitFault),
    /// A text that isn't the constant field of a draft's links.
    Constant,
    /// The document that specifies a draft's links.
    Icd(IcdFault),
    /// A draft that isn't a table of virtual links.
    Draft(ConfigFault),
    /// A run with what `check` was given would not be sound: its answer says why.
    Unsound,
    /// The findings of `transit` leave a question open: its answer says which.
    Questioned,
}
