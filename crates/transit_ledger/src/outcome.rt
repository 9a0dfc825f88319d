//! Outcomes of frames.

use crate::words::PolicingWord;
use afdx_frame::Network;
use vl_config::Class;

/// How many outcomes there are.
pub(crate) const OUTCOMES: usize = 14;

/// The outcome of a frame, in the order in which the ledger's counts have them: first those of frames that
/// went in, then those of frames that came out without a partner. `Open` and `Cut` are of either.
#[derive(Clone, Copy, PartialEq, Eq)]
pub enum Outcome {
    /// It came out.
    Passed,
    /// Its transit was longer than the bound.
    Slow,
    /// A frame of its link that went in later came out earlier.
    Overtaken,
    /// It came out with other bytes.
    Changed,
    /// It came out, though the rules discard it.
    Lax,
    /// It came out of a port that its link isn't routed to.
    Leak,
    /// It didn't come out.
    Dropped,
    /// It didn't come out, and the rules discard it or may.
    Refused,
    /// Its link hadn't come out so far.
    Unrouted,
    /// The other recording doesn't cover its window.
    Open,
    /// The recording holds a part of the frame, which says too little.
    Cut,
    /// It came out before.
    Twice,
    /// It never went in.
    New,
    /// Its link hadn't gone in so far.
    Elsewhere,
}

impl Outcome {
    /// All outcomes.
    pub const ALL: [Outcome; 14] = [
        Outcome::Passed,
        Outcome::Slow,
        Outcome::Overtaken,
        Outcome::Changed,
        Outcome::Lax,
        Outcome::Leak,
        Outcome::Dropped,
        Outcome::Refused,
        Outcome::Unrouted,
        Outcome::Open,
        Outcome::Cut,
        Outcome::Twice,
        Outcome::New,
        Outcome::Elsewhere,
    ];

    /// The faults of the switch, in the order in which they are told.
    pub const FAULTS: [Outcome; 8] = [
        Outcome::Dropped,
        Outcome::Lax,
        Outcome::Leak,
        Outcome::Slow,
        Outcome::Overtaken,
        Outcome::Changed,
        Outcome::Twice,
        Outcome::New,
    ];

    /// The place of its count.
    pub(crate) fn place(self) -> usize {
        match self {
            Outcome::Passed => 0,
            Outcome::Slow => 1,
            Outcome::Overtaken => 2,
            Outcome::Changed => 3,
            Outcome::Lax => 4,
            Outcome::Leak => 5,
            Outcome::Dropped => 6,
            Outcome::Refused => 7,
            Outcome::Unrouted => 8,
            Outcome::Open => 9,
            Outcome::Cut => 10,
            Outcome::Twice => 11,
            Outcome::New => 12,
            Outcome::Elsewhere => 13,
        }
    }

    /// The word of the ledger.
    pub fn word(self) -> &'static str {
        match self {
            Outcome::Passed => "passed",
            Outcome::Slow => "slow",
            Outcome::Overtaken => "overtaken",
            Outcome::Changed => "changed",
            Outcome::Lax => "lax",
            Outcome::Leak => "leak",
            Outcome::Dropped => "dropped",
            Outcome::Refused => "refused",
            Outcome::Unrouted => "unrouted",
            Outcome::Open => "open",
            Outcome::Cut => "-",
            Outcome::Twice => "twice",
            Outcome::New => "new",
            Outcome::Elsewhere => "elsewhere",
        }
    }

    /// The outcome whose word the bytes are.
    pub fn from_word(word: &[u8]) -> Option<Outcome> {
        match word {
            b"passed" => Some(Outcome::Passed),
            b"slow" => Some(Outcome::Slow),
            b"overtaken" => Some(Outcome::Overtaken),
            b"changed" => Some(Outcome::Changed),
            b"lax" => Some(Outcome::Lax),
            b"leak" => Some(Outcome::Leak),
            b"dropped" => Some(Outcome::Dropped),
            b"refused" => Some(Outcome::Refused),
            b"unrouted" => Some(Outcome::Unrouted),
            b"open" => Some(Outcome::Open),
            b"-" => Some(Outcome::Cut),
            b"twice" => Some(Outcome::Twice),
            b"new" => Some(Outcome::New),
            b"elsewhere" => Some(Outcome::Elsewhere),
            _ => None,
        }
    }

    /// Is it a fault of the switch?
    pub fn is_fault(self) -> bool {
        match self {
            Outcome::Slow
            | Outcome::Overtaken
            | Outcome::Changed
            | Outcome::Lax
            | Outcome::Leak
            | Outcome::Dropped
            | Outcome::Twice
            | Outcome::New => true,
            Outcome::Passed
            | Outcome::Refused
            | Outcome::Unrouted
            | Outcome::Open
            | Outcome::Cut
            | Outcome::Elsewhere => false,
        }
    }

    /// May a frame of this side have it? Network A stands for the port in, B for that out.
    pub fn is_of(self, side: Network) -> bool {
        match self {
            Outcome::Open | Outcome::Cut => true,
            Outcome::Twice | Outcome::New | Outcome::Elsewhere => side == Network::B,
            _ => side == Network::A,
        }
    }

    /// Has a frame with it a partner?
    pub fn is_paired(self) -> bool {
        matches!(
            self,
            Outcome::Passed
                | Outcome::Slow
                | Outcome::Overtaken
                | Outcome::Changed
                | Outcome::Lax
                | Outcome::Leak
        )
    }

    /// May a frame of this class on which policing says this have it?
    pub(crate) fn fits(self, class: Class, policing: PolicingWord) -> bool {
        let is_discarded = class != Class::Regular || policing == PolicingWord::Excess;
        match self {
            Outcome::Cut => class == Class::Cut,
            _ if class == Class::Cut => false,
            Outcome::Passed | Outcome::Slow | Outcome::Overtaken => !is_discarded,
            Outcome::Lax => is_discarded,
            Outcome::Refused => is_discarded || policing == PolicingWord::Unsure,
            Outcome::Dropped => policing == PolicingWord::Within,
            Outcome::Changed | Outcome::Elsewhere => class.is_addressed(),
            Outcome::Leak | Outcome::Unrouted => class.is_on_a_link(),
            Outcome::Open | Outcome::Twice | Outcome::New => true,
        }
    }
}
