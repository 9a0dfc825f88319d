//! Arguments that clap takes and a command doesn't.

use clap::error::ErrorKind;

/// Why a command refuses arguments that clap takes each by itself.
#[derive(Clone, Copy, PartialEq, Eq)]
pub enum Misuse {
    /// No filter is given to a command that needs one.
    NoFilter,
    /// A filter is given in more than one way.
    TwoFilters,
    /// A run, or a cut that is to have packets, has neither of the two recordings.
    NoRecording,
    /// A draft has neither a recording nor a document that specifies links.
    NoLinks,
    /// A column of a document is given that is none of a link's keys, or is given twice.
    NoColumn,
    /// A column of a document is given, and no document.
    NoDocument,
    /// A capture is to be written, and no filter says of which frames.
    Unfiltered,
    /// A network is given that is neither A nor B.
    NoNetwork,
    /// A capture's format is given, and no capture is written.
    Uncaptured,
    /// Digests are asked for, and no manifest is written.
    NoManifest,
    /// A format of packets is given, and lines are printed in their place.
    NoPackets,
    /// A window for late timestamps is given that is none.
    NoLateness,
    /// Kinds of other traffic are given that are none.
    NoKind,
    /// A level of findings is given that is neither trouble nor notice.
    NoLevel,
    /// A kind of policing is given that is neither by bytes nor by frames.
    NoPolicing,
    /// The table of a baseline is given, and no baseline.
    NoBaseline,
    /// Kinds of other traffic are expected of a report, and no manifest is given, which has them.
    NoKinds,
    /// A run over two recordings, whose frames it puts in order, is to take timestamps in any order.
    Unordered,
    /// A cut by a ledger of transits is given what a ledger of `watch` has.
    OfWatch,
    /// A span of time has both a last moment and a length.
    TwoEnds,
    /// An argument isn't there that clap requires or has a default for. This is not met.
    Incomplete,
}

impl Misuse {
    /// The kind of clap's error that says so.
    pub fn kind(self) -> ErrorKind {
        match self {
            Misuse::TwoFilters | Misuse::NoPackets | Misuse::TwoEnds | Misuse::OfWatch => {
                ErrorKind::ArgumentConflict
            }
            Misuse::NoNetwork
            | Misuse::NoLateness
            | Misuse::Unordered
            | Misuse::NoColumn
            | Misuse::NoKind
            | Misuse::NoPolicing
            | Misuse::NoLevel => ErrorKind::InvalidValue,
            Misuse::NoFilter
            | Misuse::NoRecording
            | Misuse::NoLinks
            | Misuse::NoDocument
            | Misuse::Unfiltered
            | Misuse::Uncaptured
            | Misuse::NoManifest
            | Misuse::NoBaseline
            | Misuse::NoKinds
            | Misuse::Incomplete => ErrorKind::MissingRequiredArgument,
        }
    }

    /// The text of clap's error, after `error: `: what is wrong, and in a second line what to do.
    pub fn message(self) -> &'static str {
        match self {
            Misuse::NoFilter => "no filter is given\n  Name one by --filter or --source",
            Misuse::TwoFilters => "more than one filter is given\n  Give one of them",
            Misuse::NoRecording => "no recording is given\n  Name one by --a, --b or both",
            Misuse::NoLinks =>
                "no recording is given\n  Name one by --a, --b or both, or an ICD by --icd",
            Misuse::NoColumn => {
                "--column isn't KEY=HEAD, or has a KEY twice\n  Give as KEY id, name, bag_ms, jitter_us, \
                 smax, integrity, redundancy, skew_us or group"
            }
            Misuse::NoDocument =>
                "--column is of a document, and none is given\n  Name it by --icd",
            Misuse::Unfiltered =>
                "--capture has no filter, which says of what frames it is\n  Name one by --filter",
            Misuse::NoNetwork => "--network is neither A nor B\n  Give A or B",
            Misuse::NoKind => {
                "--expected has a kind that isn't known\n  Give arp, ipv4, ipv6, lldp, ptp, 802.1q, 802.3 \
                 or EtherTypes as 0x88f7, with commas"
            }
            Misuse::NoLevel => "--fail-on is neither trouble nor notice\n  Give one of them",
            Misuse::NoPolicing => "--police is neither bytes nor frames\n  Give one of them",
            Misuse::Uncaptured =>
                "--pcapng says how a capture is written, and none is\n  Name one by --capture",
            Misuse::NoManifest =>
                "--digest has no manifest to write digests to\n  Name one by --manifest",
            _ => self.further_message(),
        }
    }
    /// The text of those about options that go together.
    fn further_message(self) -> &'static str {
        match self {
            Misuse::NoBaseline => {
                "--baseline-config is the table of a baseline, and none is given\n  Name its ledger by \
                 --baseline"
            }
            Misuse::NoKinds => {
                "--expected names kinds of traffic, and a ledger has none\n  Name the run's manifest, which \
                 has them, by --manifest"
            }
            Misuse::NoPackets => {
                "--pcapng says how packets are written, and --ledger-only leaves them out\n  Give one of \
                 them"
            }
            Misuse::NoLateness => {
                "--late-us is no number of microseconds, 0 to 1000000\n  Give one, or for capture and debug \
                 any"
            }
            Misuse::Unordered => {
                "--late-us any is for capture and debug: others put frames of two recordings in order\n  \
                 Give a number of microseconds, 0 to 1000000"
            }
            Misuse::OfWatch => {
                "--a, --b, --network, --filters and --ledger-only are for ledgers of watch\n  Leave them out, \
                 or give a ledger of watch"
            }
            Misuse::TwoEnds => "--to and --span both end the span of time\n  Give one of them",
            _ => "a required argument is missing\n  Give it",
        }
    }
}
