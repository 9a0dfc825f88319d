//! Which file a fault is of, for a person who is told its path.

use crate::fault::{Fault, FileOption, ManifestFault, ReportFault};
use afdx_frame::Network;
use cut_run::{CutFault, CutSource};
use icd_links::IcdFault;
use run_fault::{Output, WatchFault};
use transit_cut::TransitCutFault;
use transit_ledger::TransitFault;

fn input_of(network: Network) -> FileOption {
    match network {
        Network::A => FileOption::A,
        Network::B => FileOption::B,
    }
}

/// The recording of a switch's port that a network's stands for.
fn port_of(network: Network) -> FileOption {
    match network {
        Network::A => FileOption::Before,
        Network::B => FileOption::After,
    }
}

fn output_of(output: Output) -> FileOption {
    match output {
        Output::Capture => FileOption::Capture,
        Output::Ledger => FileOption::Ledger,
    }
}

/// The file that a filter stands in: the table has those with a number.
fn filter_file(filter: Option<u8>) -> FileOption {
    match filter {
        Some(_) => FileOption::Config,
        None => FileOption::Filter,
    }
}

fn source_file(source: CutSource) -> FileOption {
    match source {
        CutSource::Ledger => FileOption::Ledger,
        CutSource::Recording(network) => input_of(network),
    }
}

/// The file of a cut's fault: that of a line is the ledger.
fn cut_file(fault: CutFault) -> Option<FileOption> {
    match fault {
        CutFault::Ledger { .. } | CutFault::Order { .. } | CutFault::Absent { .. } => {
            Some(FileOption::Ledger)
        }
        CutFault::Header { network, .. } => Some(input_of(network)),
        CutFault::Read { source } => Some(source_file(source)),
        CutFault::Write => Some(FileOption::Output),
        CutFault::Memory => None,
    }
}

/// The file of the fault of a cut by a ledger of transits.
fn transit_cut_file(fault: TransitCutFault) -> Option<FileOption> {
    match fault {
        TransitCutFault::Ledger { .. }
        | TransitCutFault::Absent { .. }
        | TransitCutFault::Read {
            source: CutSource::Ledger,
        } => Some(FileOption::Ledger),
        TransitCutFault::Header { side, .. }
        | TransitCutFault::Read {
            source: CutSource::Recording(side),
        } => Some(port_of(side)),
        TransitCutFault::Write => Some(FileOption::Output),
        TransitCutFault::Memory => None,
    }
}

/// The file that isn't as it has to be.
fn manifest_file(fault: ManifestFault) -> FileOption {
    match fault {
        ManifestFault::Form { .. } | ManifestFault::Version => FileOption::Manifest,
        ManifestFault::Table => FileOption::Config,
        ManifestFault::Ledger => FileOption::Ledger,
    }
}

/// The file of a report's fault: the ledger, unless the fault is of its manifest or its table.
fn report_file(fault: ReportFault) -> Option<FileOption> {
    match fault {
        ReportFault::Ledger { .. } | ReportFault::Contradiction { .. } | ReportFault::Read => {
            Some(FileOption::Ledger)
        }
        ReportFault::Memory => None,
        ReportFault::Manifest(fault) => Some(manifest_file(fault)),
    }
}

/// The ledger of an earlier flight, where a report of it would have a fault of a file.
fn baseline_file(fault: ReportFault) -> Option<FileOption> {
    match report_file(fault) {
        Some(_) => Some(FileOption::Baseline),
        None => None,
    }
}

/// The document that a fault is of.
fn icd_file(fault: IcdFault) -> Option<FileOption> {
    match fault {
        IcdFault::Memory => None,
        _ => Some(FileOption::Icd),
    }
}

/// The file that a fault is of. `A` is the one recording of `capture` and `debug` too. None: the fault is
/// of no file.
pub fn file_of(fault: &Fault) -> Option<FileOption> {
    match *fault {
        Fault::File(file)
        | Fault::Shared { output: file, .. }
        | Fault::Taken { file, .. }
        | Fault::Interfaces(file)
        | Fault::Order(file)
        | Fault::Repeated(file) => Some(file),
        Fault::Config(_) => Some(FileOption::Config),
        Fault::Icd(fault) => icd_file(fault),
        Fault::Asm(_) => Some(FileOption::Standard),
        Fault::Numeric { filter, .. } | Fault::Load { filter, .. } => Some(filter_file(filter)),
        Fault::Watch(WatchFault::Header { network, .. } | WatchFault::Read { network }) => {
            Some(input_of(network))
        }
        Fault::Transit(WatchFault::Header { network, .. } | WatchFault::Read { network }) => {
            Some(port_of(network))
        }
        Fault::Watch(WatchFault::Write { output }) | Fault::Transit(WatchFault::Write { output }) =>
            Some(output_of(output)),
        Fault::Manifest => Some(FileOption::Manifest),
        Fault::Watch(
            WatchFault::Workers
            | WatchFault::Spawn
            | WatchFault::RingLost
            | WatchFault::Memory
            | WatchFault::Filters,
        )
        | Fault::Transit(_)
        | Fault::TransitLedger(TransitFault::Memory)
        | Fault::Debug(_)
        | Fault::Selection { .. }
        | Fault::Constant
        | Fault::Draft(_)
        | Fault::Unsound
        | Fault::Questioned => None,
        Fault::Cut(fault) => cut_file(fault),
        Fault::TransitCut(fault) => transit_cut_file(fault),
        Fault::Report(fault) => report_file(fault),
        Fault::Baseline(fault) => baseline_file(fault),
        Fault::TransitLedger(_) => Some(FileOption::Transit),
    }
}
