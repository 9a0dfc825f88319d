//! Why a cut was aborted.

use afdx_frame::Network;
use ledger_text::LineFault;
use pcap_io::HeaderFault;
use thiserror::Error;

/// A file that a cut reads.
#[derive(Clone, Copy, Debug, PartialEq, Eq)]
pub enum CutSource {
    Ledger,
    Recording(Network),
}

/// Why a cut was aborted. Lines are counted from 1, the head being line 1. `Read` and `Write` are returned
/// only if that device failed in the call.
#[derive(Clone, Copy, Debug, PartialEq, Eq, Error)]
pub enum CutFault {
    /// A line is none that stands at its place in a ledger.
    #[error("line {line} of the ledger: {fault}")]
    Ledger {
        line: u64,
        fault: LineFault,
    },
    /// The line of a frame doesn't come later than the one before, in the order of both networks.
    #[error("line {line} of the ledger is out of order")]
    Order {
        line: u64,
    },
    /// The recording of the line's network has no frame of its index, or one of another timestamp.
    #[error("the recording has no frame of line {line} of the ledger")]
    Absent {
        line: u64,
    },
    /// A recording doesn't begin with a file header that is read here.
    #[error("a recording has no header that can be read")]
    Header {
        network: Network,
        fault: HeaderFault,
    },
    /// A source failed.
    #[error("a file can't be read")]
    Read {
        source: CutSource,
    },
    /// The output's sink failed.
    #[error("the output can't be written")]
    Write,
    /// The system is out of memory.
    #[error("out of memory")]
    Memory,
}
