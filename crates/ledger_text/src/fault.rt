//! The faults of a line.

ghost use Rattle.std.specs.Prelude.{◌≡◌};

use pcap_io::DeviceFault;
use thiserror::Error;

/// The first field at which a line departs from every frame's line. A field that is missing departs too.
#[derive(Clone, Copy, Debug, PartialEq, Eq, Error)]
pub enum FrameFault {
    /// Field 1 is no timestamp: a decimal number below 2^32 seconds, in nanoseconds.
    #[error("the timestamp")]
    Timestamp,
    /// Field 2 is neither `A` nor `B`.
    #[error("the network")]
    Network,
    /// Field 3 is no index: a decimal number below 2^32.
    #[error("the index")]
    Index,
    /// Field 4 is no link: a decimal number below 2^16, or a dash.
    #[error("the virtual link")]
    Link,
    /// Field 5 is no sequence number: a decimal number below 2^8 after a link, or a dash after a dash.
    #[error("the sequence number")]
    Sequence,
    /// Field 6 is no class, or not one that has a link or none as field 4 says.
    #[error("the class")]
    Class,
    /// Field 7 is not what policing says, or no dash where the class is not `regular`.
    #[error("policing")]
    Policing,
    /// Field 8 is not what integrity checking says, or no dash where policing doesn't say `within`.
    #[error("integrity checking")]
    Integrity,
    /// Field 9 is not what redundancy management says, or no dash where integrity checking says `out` or
    /// nothing.
    #[error("redundancy management")]
    Redundancy,
    /// Field 10 is no count of bytes: a decimal number below 2^32, or a dash.
    #[error("the bytes kept")]
    Kept,
    /// Field 11 is no mask: two hexadecimal digits, in lower case, which name a filter after a count of
    /// bytes, and none after a dash.
    #[error("the mask")]
    Mask,
    /// Field 12 is no length on the wire: a decimal number below 2^32. Version 3 has it.
    #[error("the length on the wire")]
    Length,
    /// More stands after the last field: field 11, and in version 3 field 12.
    #[error("more fields")]
    Fields,
}

/// The faults of a line at its place in a ledger.
#[derive(Clone, Copy, Debug, PartialEq, Eq, Error)]
pub enum LineFault {
    /// The first line is neither `afdx-ledger 2` nor `afdx-ledger 3`.
    #[error("no ledger of version 2 or 3")]
    Head,
    /// The line of a frame departs at this field.
    #[error("{0}")]
    Frame(FrameFault),
    /// After a line of counts another line stands than one that may follow it.
    #[error("the order of lines")]
    Order,
    /// After the line `total` more stands, without a newline.
    #[error("no newline at the end")]
    Newline,
    /// The line and its newline have no room in a block of [`BLOCK_LEN`](crate::BLOCK_LEN) bytes.
    #[error("too long")]
    Long,
    /// [`MAX_LINES`](crate::MAX_LINES) stand before the line.
    #[error("too many lines")]
    TooMany,
}

/// Why a reader of a ledger doesn't go on. After a fault each later call returns `Failed`.
#[derive(Clone, Copy, Debug, PartialEq, Eq, Error)]
pub enum ReadFault {
    /// The source failed.
    #[error("the device failed")]
    Device,
    /// A line is not what has to stand at its place.
    #[error("line {number}: {fault}")]
    Line {
        /// The line, counted from 1: that of the head.
        number: u64,
        /// The fault of that line.
        fault: LineFault,
    },
    /// The reader had failed before.
    #[error("the reader has failed before")]
    Failed,
}

impl From<DeviceFault> for ReadFault {
    ghost use Rattle.ledger_text.specs.declared.fault.ReadFault.TheVariants.{Device};

    ghost from_gives = { λ _ e. e ≡ Device };

    fn from(_fault: DeviceFault) -> ReadFault {
        ReadFault::Device
    }
}
