//! The word of a source on its recording, besides the bytes of its packets.
ghost use Rattle.std.specs.Prelude.{◌≡◌};
ghost use Rattle.pcap_io.specs.Told.{told_ending, told_fault};

use crate::layout::HeaderFault;
use crate::recording::{BadReason, Ending};

/// The word of a source once its bytes are at their end. A pcap file says nothing; one of another format,
/// whose packets are given as pcap, says what pcap can't.
#[derive(Clone, Copy, PartialEq, Eq)]
pub enum Told {
    /// The bytes say all.
    Nothing,
    /// Why there is no file header.
    NoHeader(HeaderFault),
    /// The recording is truncated.
    Cut,
    /// Why it can't be read on.
    Bad(BadReason),
}

impl Told {
    /// How a recording ends whose bytes end after so many packets, where at most `most` are read: what would
    /// follow the last that is read isn't.
    pub fn ending(self, count: u64, most: u64) -> Ending
        ensures { result ≡ told_ending self most count }
    {
        match self {
            Told::Nothing | Told::NoHeader(_) => Ending::Clean(count),
            _ if count == most => Ending::Bad(count, BadReason::TooMany),
            Told::Cut => Ending::Cut(count),
            Told::Bad(reason) => Ending::Bad(count, reason),
        }
    }

    /// The fault of a recording whose bytes end before a file header does.
    pub fn fault(self) -> HeaderFault
        ensures { result ≡ told_fault self }
    {
        match self {
            Told::NoHeader(fault) => fault,
            _ => HeaderFault::Short,
        }
    }
}
