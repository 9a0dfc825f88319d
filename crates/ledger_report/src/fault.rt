//! Why there is no report.

ghost use Rattle.std.specs.Prelude.{◌≡◌};

use crate::disputed::Disputed;
use ledger_text::LineFault;
use std::alloc::AllocError;
use thiserror::Error;

/// The faults of a line of a ledger, by itself or against the table and the lines before it.
#[derive(Clone, Copy, Debug, PartialEq, Eq, Error)]
pub enum WrongLine {
    /// The line is none that stands at its place in a ledger.
    #[error("{0}")]
    Text(LineFault),
    /// The frame doesn't come later than the one before, in the order of both networks.
    #[error("out of order")]
    Order,
    /// The line has a class of configured links, and the table doesn't have its link.
    #[error("a virtual link that the table doesn't have")]
    UnknownLink,
    /// The line says that the table doesn't have its link, and the table has it.
    #[error("a virtual link that the table has")]
    KnownLink,
    /// Integrity checking or redundancy management is on in the table and off in the line, or the other way
    /// round.
    #[error("off, against the table")]
    Off,
    /// A copy whose number wasn't delivered before, or on its own network.
    #[error("a copy without its delivery")]
    Copy,
    /// A copy that comes more than SkewMax after its delivery.
    #[error("a copy beyond SkewMax")]
    Skew,
    /// A line of counts that isn't the one that the lines of frames give.
    #[error("counts that the lines of frames don't give")]
    Counts,
}

/// Why there is no report. Lines are counted from 1, the head being line 1.
#[derive(Clone, Copy, Debug, PartialEq, Eq, Error)]
pub enum NoReport {
    /// A line is wrong.
    #[error("line {line}: {wrong}")]
    Line { line: u64, wrong: WrongLine },
    /// The ledger can't be read.
    #[error("the ledger can't be read")]
    Read,
    /// The system is out of memory.
    #[error("out of memory")]
    Memory,
}

/// Why there is no report, and of a line that contradicts the table, on which link.
#[derive(Drop)]
pub struct ReportRefused {
    pub fault: NoReport,
    pub disputed: Option<Disputed>,
}

/// Why a line isn't taken.
#[derive(Clone, Copy, PartialEq, Eq)]
pub enum Refusal {
    Wrong(WrongLine),
    Memory,
}

impl From<AllocError> for Refusal {
    ghost use Rattle.ledger_report.specs.declared.fault.Refusal.TheVariants.{Memory};

    ghost from_gives = { λ _ e. e ≡ Memory };

    fn from(_error: AllocError) -> Refusal {
        Refusal::Memory
    }
}
