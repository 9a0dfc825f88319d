//! Why a cut by a ledger of transits was aborted.

use afdx_frame::Network;
use cut_run::CutSource;
use pcap_io::HeaderFault;
use run_fault::WatchFault;
use transit_ledger::{LineFault, TransitFault};

/// Why a cut was aborted. Lines are counted from 1, that of the head. Network A stands for the port in.
#[derive(Clone, Copy, PartialEq, Eq)]
pub enum TransitCutFault {
    /// A line is none that stands at its place in a ledger of transits.
    Ledger { line: u64, fault: LineFault },
    /// A recording has no frame of a line's index, or one of another time.
    Absent { line: u64 },
    /// A recording doesn't begin with a file header that is read here.
    Header { side: Network, fault: HeaderFault },
    /// A source failed.
    Read { source: CutSource },
    /// The output's sink failed.
    Write,
    /// The system is out of memory.
    Memory,
}

impl TransitCutFault {
    /// The fault of the ledger. One that ends within its first two lines has no head.
    pub(crate) fn of_ledger(fault: TransitFault) -> TransitCutFault {
        match fault {
            TransitFault::Line { number, fault } => TransitCutFault::Ledger {
                line: number,
                fault,
            },
            TransitFault::NotWhole { number, .. } => TransitCutFault::Ledger {
                line: number,
                fault: LineFault::Head,
            },
            TransitFault::Read => TransitCutFault::Read {
                source: CutSource::Ledger,
            },
            TransitFault::Memory => TransitCutFault::Memory,
        }
    }

    /// The fault of the recordings.
    pub(crate) fn of_recordings(fault: WatchFault) -> TransitCutFault {
        match fault {
            WatchFault::Header { network, fault } => TransitCutFault::Header {
                side: network,
                fault,
            },
            WatchFault::Read { network } => TransitCutFault::Read {
                source: CutSource::Recording(network),
            },
            WatchFault::Write { .. } => TransitCutFault::Write,
            _ => TransitCutFault::Memory,
        }
    }
}
