//! Why a run was aborted: one enum for all runs over recordings, whatever crate found the fault.
ghost use Rattle.std.specs.Prelude.{◌≡◌};
ghost use Rattle.run_fault.specs.Fault.{open_fault};

use afdx_frame::Network;
use pcap_io::{HeaderFault, OpenFault};
use std::alloc::AllocError;
use tap_queue::RingLost;
use thiserror::Error;

/// One of the two files that an analysis writes: the capture of accepted frames, or the ledger of verdicts.
#[derive(Clone, Copy, Debug, PartialEq, Eq)]
pub enum Output {
    Capture,
    Ledger,
}

/// Why an analysis was aborted. `Read` and `Write` are returned only if that device failed in the call.
#[derive(Clone, Copy, Debug, PartialEq, Eq, Error)]
pub enum WatchFault {
    /// The number of workers isn't 1 to 8.
    #[error("the number of workers isn't 1 to 8")]
    Workers,
    /// A recording doesn't begin with a pcap file header that is read here.
    #[error("a recording has no header that can be read")]
    Header {
        network: Network,
        fault: HeaderFault,
    },
    /// A recording's source failed.
    #[error("a recording can't be read")]
    Read {
        network: Network,
    },
    /// An output's sink failed.
    #[error("an output can't be written")]
    Write {
        output: Output,
    },
    /// A thread couldn't be started.
    #[error("a thread couldn't be started")]
    Spawn,
    /// The items taken of a tap's ring aren't those that its thread read.
    #[error("the items of a ring were lost")]
    RingLost,
    /// The system is out of memory.
    #[error("out of memory")]
    Memory,
    /// The number of filters isn't 1 to 8.
    #[error("the number of filters isn't 1 to 8")]
    Filters,
}

impl From<AllocError> for WatchFault {
    ghost use Rattle.run_fault.specs.declared.fault.WatchFault.TheVariants.{Memory};

    ghost from_gives = { λ _ e. e ≡ Memory };

    fn from(_fault: AllocError) -> WatchFault {
        WatchFault::Memory
    }
}

impl From<RingLost> for WatchFault {
    ghost use Rattle.run_fault.specs.declared.fault.WatchFault.TheVariants as faults;

    ghost from_gives = { λ _ e. e ≡ faults.RingLost };

    fn from(_fault: RingLost) -> WatchFault {
        WatchFault::RingLost
    }
}

/// The capture's device failed.
pub const CAPTURE_FAILED: WatchFault = WatchFault::Write {
    output: Output::Capture,
};

/// The fault of a run whose network's recording wasn't opened.
pub fn fault_of_open(network: Network, fault: OpenFault) -> WatchFault
    ensures { result ≡ open_fault network fault }
{
    match fault {
        OpenFault::Header(fault) => WatchFault::Header { network, fault },
        OpenFault::Device => WatchFault::Read { network },
    }
}
