//! The faults of a ledger, and how those of the crates below become one of them.
ghost use Rattle.std.specs.Prelude.{◌≡◌};

use pcap_io::DeviceFault;
use std::alloc::AllocError;
use thiserror::Error;

/// Why a call wrote less than its text. After a fault the ledger has failed: each later call returns
/// `Failed`, and writes nothing.
#[derive(Clone, Copy, Debug, PartialEq, Eq, Error)]
pub enum LedgerFault {
    /// The sink failed. It took a prefix of the text.
    #[error("the device failed")]
    Device,
    /// The system is out of memory. The sink took a prefix of the text.
    #[error("out of memory")]
    Memory,
    /// The ledger had failed before.
    #[error("the ledger has failed before")]
    Failed,
}

impl From<DeviceFault> for LedgerFault {
    ghost use Rattle.verdict_ledger.specs.declared.fault.LedgerFault.TheVariants.{Device};

    ghost from_gives = { λ _ e. e ≡ Device };

    fn from(_fault: DeviceFault) -> LedgerFault {
        LedgerFault::Device
    }
}

impl From<AllocError> for LedgerFault {
    ghost use Rattle.verdict_ledger.specs.declared.fault.LedgerFault.TheVariants.{Memory};

    ghost from_gives = { λ _ e. e ≡ Memory };

    fn from(_fault: AllocError) -> LedgerFault {
        LedgerFault::Memory
    }
}

/// A ledger that wasn't begun, or not finished: its sink, and why.
#[derive(Drop)]
pub struct LedgerRefused<W> {
    /// The sink that the ledger writes to.
    pub sink: W,
    /// Why.
    pub fault: LedgerFault,
}
