//! The plan of a run: what it makes of its frames.
ghost use Rattle.std.specs.Prelude.{◌≡◌};
ghost use Rattle.watch_run.specs.Filters.{making_of, pcap_of};

use bpf_loader::Program;
use packet_format::PacketFormat;
use verdict_ledger::LedgerVersion;

/// The outputs that a run makes of its frames.
#[derive(Clone, Copy)]
pub struct Plan<'a> {
    /// The filters.
    pub programs: &'a [Program],
    /// The format of the capture.
    pub format: PacketFormat<'a>,
    /// The version of the ledger.
    pub version: LedgerVersion,
}

impl<'a> Plan<'a> {
    /// A pcap file of the frames that these filters accept, and a ledger of version 2.
    pub fn pcap(programs: &'a [Program]) -> Plan<'a>
        ensures { making_of result ≡ pcap_of programs.now }
    {
        Plan {
            programs,
            format: PacketFormat::Pcap,
            version: LedgerVersion::Two,
        }
    }
}
