//! The notes on recordings that end early.

use afdx_frame::Network;
use pcap_io::{BadReason, Ending};
use std::fmt;
use std::fmt::{Display, Formatter};

/// A number of frames, with its unit.
#[derive(Clone, Copy)]
struct Frames(u64);

impl Display for Frames {
    fn fmt<W: fmt::Write>(&self, f: &mut Formatter<W>) -> fmt::Result {
        let count = self.0;
        if count == 1 {
            write!(f, "{count} frame")
        } else {
            write!(f, "{count} frames")
        }
    }
}

/// Why a recording ends bad, in words.
pub fn reason_words(reason: BadReason) -> &'static str {
    match reason {
        BadReason::Length => "captured length over 262144 bytes",
        BadReason::Fraction => "fraction of a second out of range",
        BadReason::StampBack { .. } => "timestamp out of order",
        BadReason::TooMany => "too many frames",
        BadReason::BlockLength => "a block's length is wrong",
        BadReason::BlockLengthsDiffer => "the two lengths of a block differ",
        BadReason::BlockBounds => "a packet or an option reaches beyond its block",
        BadReason::UnknownInterface => "a packet of an interface that isn't described",
        BadReason::Section => "a section of another version",
        BadReason::SimplePacket => "a packet without a timestamp",
        BadReason::StampRange => "timestamp before 1970 or after 2106",
        BadReason::SeveralInterfaces => "packets of several interfaces, and none is chosen",
        BadReason::TooManyInterfaces => "too many interfaces",
        BadReason::NoSuchInterface => "the chosen interface isn't there",
        BadReason::FileHeader => "another pcap file begins here",
        BadReason::NextFile => "the next file has no header that is read",
    }
}

/// How a recording ends, after the word that names it.
#[derive(Clone, Copy)]
struct EndingPart(Ending);

impl Display for EndingPart {
    fn fmt<W: fmt::Write>(&self, f: &mut Formatter<W>) -> fmt::Result {
        match self.0 {
            Ending::Clean(count) => {
                let frames = Frames(count);
                write!(f, " ends clean after {frames}")
            }
            Ending::Cut(count) => {
                let frames = Frames(count);
                write!(f, " ends cut after {frames}: truncated within a record")
            }
            Ending::Bad(count, reason) => {
                let (frames, reason) = (Frames(count), reason_words(reason));
                write!(f, " ends bad after {frames}: {reason}")
            }
        }
    }
}

/// The note on the ending of a command's one recording, without its newline.
#[derive(Clone, Copy)]
pub struct Note(pub Ending);

impl Display for Note {
    fn fmt<W: fmt::Write>(&self, f: &mut Formatter<W>) -> fmt::Result {
        let ending = EndingPart(self.0);
        write!(f, "afdxmon: note: recording{ending}")
    }
}

/// A number of packets, with its unit.
#[derive(Clone, Copy)]
struct Packets(u64);

impl Display for Packets {
    fn fmt<W: fmt::Write>(&self, f: &mut Formatter<W>) -> fmt::Result {
        let count = self.0;
        if count == 1 {
            write!(f, "{count} packet")
        } else {
            write!(f, "{count} packets")
        }
    }
}

/// The note on packets of a pcapng file that are not of Ethernet and were left out, without its newline. Of
/// a command's one recording there is no network.
#[derive(Clone, Copy)]
pub struct SkippedNote(pub Option<Network>, pub u64);

impl Display for SkippedNote {
    fn fmt<W: fmt::Write>(&self, f: &mut Formatter<W>) -> fmt::Result {
        let packets = Packets(self.1);
        match self.0 {
            Some(network) => {
                let network = network.letter();
                write!(
                    f,
                    "afdxmon: note: recording of network {network} has {packets} not of Ethernet"
                )
            }
            None => write!(f, "afdxmon: note: recording has {packets} not of Ethernet"),
        }
    }
}

/// The note on packets that the recorder of a network says that it dropped, without its newline.
#[derive(Clone, Copy)]
pub struct DroppedNote(pub Network, pub u64);

impl Display for DroppedNote {
    fn fmt<W: fmt::Write>(&self, f: &mut Formatter<W>) -> fmt::Result {
        let (network, packets) = (self.0.letter(), Packets(self.1));
        write!(
            f,
            "afdxmon: note: the recorder of network {network} dropped {packets}"
        )
    }
}

/// The note on the ending of one of two recordings, without its newline.
#[derive(Clone, Copy)]
pub struct TapNote(pub Network, pub Ending);

impl Display for TapNote {
    fn fmt<W: fmt::Write>(&self, f: &mut Formatter<W>) -> fmt::Result {
        let (network, ending) = (self.0.letter(), EndingPart(self.1));
        write!(f, "afdxmon: note: recording of network {network}{ending}")
    }
}
