//! Faults of a ledger of transits.

use crate::line::Field;
use pcap_io::DeviceFault;
use std::alloc::AllocError;

/// The faults of a line, by itself or against the table and the lines before it.
#[derive(Clone, Copy, PartialEq, Eq)]
pub enum LineFault {
    /// The first line isn't `afdx-transit 1`.
    Head,
    /// The second line doesn't say how the recordings were compared.
    Run,
    /// The line of a frame departs at this field.
    Frame(Field),
    /// A line of counts that isn't of its form.
    Form,
    /// The line isn't one that may follow the line before.
    Order,
    /// After the line `total` more stands, without a newline.
    Newline,
    /// The line is too long.
    Long,
    /// The class says otherwise than the table whether that has the link.
    Link,
    /// The counts aren't those that the lines of frames give, or of another link than the table's next.
    Counts,
}

impl LineFault {
    /// The word for it; of a frame's line that of the first field that is wrong.
    pub fn word(self) -> &'static str {
        match self {
            LineFault::Head => "head",
            LineFault::Run => "run",
            LineFault::Frame(field) => field.word(),
            LineFault::Form => "form",
            LineFault::Order => "order",
            LineFault::Newline => "newline",
            LineFault::Long => "long",
            LineFault::Link => "link",
            LineFault::Counts => "counts",
        }
    }

    /// Is the line one of a ledger of transits, but not after these lines or by this table?
    pub fn is_contradiction(self) -> bool {
        matches!(self, LineFault::Link | LineFault::Counts)
    }
}

/// Why a ledger of transits isn't taken. Lines are counted from 1.
#[derive(Clone, Copy, PartialEq, Eq)]
pub enum TransitFault {
    /// The first wrong line.
    Line { number: u64, fault: LineFault },
    /// The ledger ends without its line `total`, where this line is next, or within that line.
    NotWhole { number: u64, within_line: bool },
    /// The ledger can't be read.
    Read,
    /// The system is out of memory.
    Memory,
}

impl From<DeviceFault> for TransitFault {
    fn from(_fault: DeviceFault) -> TransitFault {
        TransitFault::Read
    }
}

impl From<AllocError> for TransitFault {
    fn from(_error: AllocError) -> TransitFault {
        TransitFault::Memory
    }
}
