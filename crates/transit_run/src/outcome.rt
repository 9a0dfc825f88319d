//! The outcome of a frame, as a ledger of transits says it.

ghost use Rattle.std.specs.Prelude.{◌≡◌, ◌≤◌, length};
ghost use Rattle.transit_run.specs.Outcome.{fate_of, fate_of_missing, fate_of_pair, fate_place, fate_word, origin_of, origin_place, origin_word};

/// How many outcomes there are of frames that went in.
pub(crate) const FATES: usize = 11;
/// How many there are of frames that came out without a partner.
pub(crate) const ORIGINS: usize = 5;

/// The fates of a frame that went in.
#[derive(Clone, Copy, PartialEq, Eq)]
pub enum Fate {
    /// The recording holds a part of the frame, which says too little.
    Cut,
    /// It came out of a port that its link isn't routed to.
    Leak,
    /// It came out, though the rules discard it.
    Lax,
    /// A frame of its link that went in later came out earlier.
    Overtaken,
    /// Its transit was longer than the bound.
    Slow,
    /// It came out.
    Passed,
    /// It came out with other bytes.
    Changed,
    /// The recording of the port out doesn't cover its window.
    Open,
    /// Its link hasn't come out so far.
    Unrouted,
    /// It didn't come out, and the rules discard it or may.
    Refused,
    /// It didn't come out.
    Dropped,
}

/// The origins of a frame that came out and is no pair with one that went in.
#[derive(Clone, Copy, PartialEq, Eq)]
pub enum Origin {
    /// The recording holds a part of the frame, which says too little.
    Cut,
    /// It came out before.
    Twice,
    /// The recording of the port in doesn't cover its window.
    Open,
    /// Its link hasn't gone in so far.
    Elsewhere,
    /// It never went in.
    New,
}

/// How a frame that went in is paired.
#[derive(Clone, Copy, PartialEq, Eq)]
pub enum Pair {
    /// With none.
    Without,
    /// With a frame of the same bytes.
    Alike,
    /// With a frame of the same link and sequence number.
    Changed,
}

/// The knowledge of a frame that went in, once its window is over.
#[derive(Clone, Copy)]
pub struct Passage {
    /// Are some of its bytes not recorded?
    pub is_cut: bool,
    /// How it is paired.
    pub pair: Pair,
    /// Is its link known to be routed elsewhere?
    pub is_routed_elsewhere: bool,
    /// Do the rules discard it?
    pub is_discarded: bool,
    /// May policing discard it or not?
    pub is_unsure: bool,
    /// Did a frame of its link that went in later come out earlier?
    pub is_overtaken: bool,
    /// Was its transit longer than the bound?
    pub is_slow: bool,
    /// Does the recording of the port out cover its window?
    pub is_covered: bool,
    /// Is its link configured, and hasn't come out so far or is routed elsewhere?
    pub is_unrouted: bool,
}

/// The fate of a frame that went in: the first that fits.
pub fn fate_of(passage: Passage) -> Fate
    ensures { result ≡ fate_of passage }
{
    if passage.is_cut {
        return Fate::Cut;
    }
    match passage.pair {
        Pair::Alike => fate_of_pair(passage),
        Pair::Changed => Fate::Changed,
        Pair::Without => fate_of_missing(passage),
    }
}

fn fate_of_pair(passage: Passage) -> Fate
    ensures { result ≡ fate_of_pair passage }
{
    if passage.is_routed_elsewhere {
        Fate::Leak
    } else if passage.is_discarded {
        Fate::Lax
    } else if passage.is_overtaken {
        Fate::Overtaken
    } else if passage.is_slow {
        Fate::Slow
    } else {
        Fate::Passed
    }
}

fn fate_of_missing(passage: Passage) -> Fate
    ensures { result ≡ fate_of_missing passage }
{
    if !passage.is_covered {
        Fate::Open
    } else if passage.is_unrouted {
        Fate::Unrouted
    } else if passage.is_discarded || passage.is_unsure {
        Fate::Refused
    } else {
        Fate::Dropped
    }
}

/// The origin of a frame without a partner that came out: the first that fits.
pub fn origin_of(is_cut: bool, is_twice: bool, is_covered: bool, is_elsewhere: bool) -> Origin
    ensures { result ≡ origin_of is_cut is_twice is_covered is_elsewhere }
{
    if is_cut {
        Origin::Cut
    } else if is_twice {
        Origin::Twice
    } else if !is_covered {
        Origin::Open
    } else if is_elsewhere {
        Origin::Elsewhere
    } else {
        Origin::New
    }
}

impl Fate {
    /// The place of its count.
    pub(crate) fn place(self) -> usize
        ensures { result ≡ fate_place self }
    {
        match self {
            Fate::Cut => 0,
            Fate::Leak => 1,
            Fate::Lax => 2,
            Fate::Overtaken => 3,
            Fate::Slow => 4,
            Fate::Passed => 5,
            Fate::Changed => 6,
            Fate::Open => 7,
            Fate::Unrouted => 8,
            Fate::Refused => 9,
            Fate::Dropped => 10,
        }
    }

    /// The word of a ledger.
    pub fn word(self) -> &'static str
        ensures word { result.now ≡ fate_word self }
        ensures short { length result.now ≤ 9 }
    {
        match self {
            Fate::Cut => "-",
            Fate::Leak => "leak",
            Fate::Lax => "lax",
            Fate::Overtaken => "overtaken",
            Fate::Slow => "slow",
            Fate::Passed => "passed",
            Fate::Changed => "changed",
            Fate::Open => "open",
            Fate::Unrouted => "unrouted",
            Fate::Refused => "refused",
            Fate::Dropped => "dropped",
        }
    }
}

impl Origin {
    /// The place of its count.
    pub(crate) fn place(self) -> usize
        ensures { result ≡ origin_place self }
    {
        match self {
            Origin::Cut => 0,
            Origin::Twice => 1,
            Origin::Open => 2,
            Origin::Elsewhere => 3,
            Origin::New => 4,
        }
    }

    /// The word of a ledger.
    pub fn word(self) -> &'static str
        ensures word { result.now ≡ origin_word self }
        ensures short { length result.now ≤ 9 }
    {
        match self {
            Origin::Cut => "-",
            Origin::Twice => "twice",
            Origin::Open => "open",
            Origin::Elsewhere => "elsewhere",
            Origin::New => "new",
        }
    }
}
