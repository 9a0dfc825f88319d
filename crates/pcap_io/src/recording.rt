//! The endings, apart from the reader that finds them: ledgers and exit codes report them too.

ghost use Rattle.std.specs.Prelude.{◌≡◌};
ghost use Rattle.pcap_io.specs.Word.{ending_word, frames_before, reason_word};

/// Why a recording can't be read on.
#[derive(Clone, Copy, Debug, PartialEq, Eq)]
pub enum BadReason {
    /// A packet claims more captured bytes than [`MAX_SNAPLEN`](afdx_frame::MAX_SNAPLEN).
    Length,
    /// The fraction makes a second or more.
    Fraction,
    /// The timestamp lies `by` nanoseconds below the greatest timestamp before it, further than it may.
    StampBack { by: u64 },
    /// More packets follow than are read.
    TooMany,
    /// A block's length is no multiple of 4, too small for its type, or too large for a block that is
    /// read whole (pcapng, as all reasons that follow).
    BlockLength,
    /// The two lengths of a block differ.
    BlockLengthsDiffer,
    /// A packet's captured bytes or an option reach beyond their block, or an option that is read has
    /// another length than its kind.
    BlockBounds,
    /// A packet is of an interface that its section doesn't describe.
    UnknownInterface,
    /// A later section is of another major version, or its byte-order magic is unknown.
    Section,
    /// A simple packet has no timestamp.
    SimplePacket,
    /// The timestamp lies before 1970, or 2^32 seconds or more after its start.
    StampRange,
    /// Packets are of more than one Ethernet interface, and none was chosen.
    SeveralInterfaces,
    /// A section describes more interfaces than are read.
    TooManyInterfaces,
    /// The chosen interface was never described.
    NoSuchInterface,
    /// A pcap file's header stands where a packet's should: two files were put together.
    FileHeader,
    /// The next file of a recording in several has no header that is read.
    NextFile,
}

impl BadReason {
    /// The word of the reason.
    pub fn word(self) -> &'static str
        ensures { result.now ≡ reason_word self }
    {
        match self {
            BadReason::Length => "length",
            BadReason::Fraction => "fraction",
            BadReason::StampBack { .. } => "stampback",
            BadReason::TooMany => "toomany",
            BadReason::BlockLength => "blocklength",
            BadReason::BlockLengthsDiffer => "blocklengthsdiffer",
            BadReason::BlockBounds => "blockbounds",
            BadReason::UnknownInterface => "unknowninterface",
            BadReason::Section => "section",
            BadReason::SimplePacket => "simplepacket",
            BadReason::StampRange => "stamprange",
            BadReason::SeveralInterfaces => "severalinterfaces",
            BadReason::TooManyInterfaces => "toomanyinterfaces",
            BadReason::NoSuchInterface => "nosuchinterface",
            BadReason::FileHeader => "fileheader",
            BadReason::NextFile => "nextfile",
        }
    }
}

/// How a recording ends. The number is that of the frames before the ending.
#[derive(Clone, Copy, Debug, PartialEq, Eq)]
pub enum Ending {
    /// After a complete packet.
    Clean(u64),
    /// Within a packet: the recording is truncated.
    Cut(u64),
    /// At a packet that can't be read.
    Bad(u64, BadReason),
}

impl Ending {
    /// How many frames stand before the ending.
    pub fn frames(self) -> u64
        ensures { result ≡ frames_before self }
    {
        match self {
            Ending::Clean(count) | Ending::Cut(count) | Ending::Bad(count, _) => count,
        }
    }

    /// The word of the ending.
    pub fn word(self) -> &'static str
        ensures { result.now ≡ ending_word self }
    {
        match self {
            Ending::Clean(_) => "clean",
            Ending::Cut(_) => "cut",
            Ending::Bad(..) => "bad",
        }
    }
}

/// The stage of a reader: it goes on, or is over.
#[derive(Clone, Copy, PartialEq, Eq)]
pub enum Stage {
    Going,
    Ended(Ending),
    Failed,
}
