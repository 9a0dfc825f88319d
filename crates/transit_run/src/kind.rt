//! The kinds of faults of a switch, and the frames of each.

ghost use Rattle.std.specs.Prelude.{◌<◌};
ghost use Rattle.transit_run.specs.declared.kind.TheConstants.{KINDS};

use crate::outcome::{Fate, Origin};
use afdx_frame::VlId;
use std::alloc::{AllocError, Global};

/// How many kinds there are.
const KINDS: usize = 8;

/// The most frames with faults that are kept one by one.
const MAX_FAULTS: usize = 100;

/// A second, in nanoseconds.
const SECOND: u64 = 1_000_000_000;

/// The kinds of faults, in the order in which they are told.
#[derive(Clone, Copy, PartialEq, Eq)]
pub enum Kind {
    Dropped,
    Lax,
    Leak,
    Slow,
    Overtaken,
    Changed,
    Twice,
    New,
}

impl Kind {
    /// All kinds, in the order in which they are told.
    pub const ALL: [Kind; 8] = [
        Kind::Dropped,
        Kind::Lax,
        Kind::Leak,
        Kind::Slow,
        Kind::Overtaken,
        Kind::Changed,
        Kind::Twice,
        Kind::New,
    ];

    /// The word of a ledger.
    pub fn word(self) -> &'static str {
        match self {
            Kind::Dropped => Fate::Dropped.word(),
            Kind::Lax => Fate::Lax.word(),
            Kind::Leak => Fate::Leak.word(),
            Kind::Slow => Fate::Slow.word(),
            Kind::Overtaken => Fate::Overtaken.word(),
            Kind::Changed => Fate::Changed.word(),
            Kind::Twice => Origin::Twice.word(),
            Kind::New => Origin::New.word(),
        }
    }

    /// The place of its counts.
    fn place(self) -> usize
        ensures { result < KINDS }
    {
        match self {
            Kind::Dropped => 0,
            Kind::Lax => 1,
            Kind::Leak => 2,
            Kind::Slow => 3,
            Kind::Overtaken => 4,
            Kind::Changed => 5,
            Kind::Twice => 6,
            Kind::New => 7,
        }
    }

    /// The fault of a frame that went in, if its fate is one.
    pub(crate) fn of_fate(fate: Fate) -> Option<Kind> {
        match fate {
            Fate::Dropped => Some(Kind::Dropped),
            Fate::Lax => Some(Kind::Lax),
            Fate::Leak => Some(Kind::Leak),
            Fate::Slow => Some(Kind::Slow),
            Fate::Overtaken => Some(Kind::Overtaken),
            Fate::Changed => Some(Kind::Changed),
            Fate::Cut | Fate::Passed | Fate::Open | Fate::Unrouted | Fate::Refused => None,
        }
    }

    /// The fault of a frame that came out without a partner, if its origin is one.
    pub(crate) fn of_origin(origin: Origin) -> Option<Kind> {
        match origin {
            Origin::Twice => Some(Kind::Twice),
            Origin::New => Some(Kind::New),
            Origin::Cut | Origin::Open | Origin::Elsewhere => None,
        }
    }
}

/// The frames of one kind of fault. Moments are in nanoseconds.
#[derive(Clone, Copy)]
pub struct KindTally {
    /// How many frames there are.
    pub frames: u64,
    pub first: u64,
    pub last: u64,
    /// The most of them in one second, and which second that is, from 0 at the ledger's first frame.
    pub most: u64,
    pub second: u64,
    current: u64,
    in_current: u64,
}

impl KindTally {
    /// Of one frame, in this second.
    fn new(moment: u64, second: u64) -> KindTally {
        KindTally {
            frames: 1,
            first: moment,
            last: moment,
            most: 1,
            second,
            current: second,
            in_current: 1,
        }
    }

    fn add(&mut self, moment: u64, second: u64) {
        self.frames = self.frames.saturating_add(1);
        self.last = moment;
        self.in_current = if self.current == second {
            self.in_current.saturating_add(1)
        } else {
            1
        };
        self.current = second;
        if self.in_current > self.most {
            self.most = self.in_current;
            self.second = second;
        }
    }
}

/// A frame with a fault.
#[derive(Clone, Copy)]
pub struct FaultFrame {
    /// When it went in, or where it is without a partner, when it came out. In nanoseconds.
    pub moment: u64,
    /// Did it come out without a partner? Else it went in.
    pub is_after: bool,
    pub number: u64,
    /// The link and the sequence number, where the bytes hold them.
    pub address: Option<(VlId, u8)>,
    pub kind: Kind,
}

/// The faults so far: the counts of each kind, and the first frames.
#[derive(Drop)]
pub struct Faults {
    kinds: [Option<KindTally>; KINDS],
    frames: Vec<FaultFrame>,
}

impl Faults {
    /// Of no frame. Allocates nothing.
    pub(crate) fn new(alloc: Global) -> Faults {
        Faults {
            kinds: [None; KINDS],
            frames: Vec::new(alloc),
        }
    }

    /// Counts a frame with a fault, in a ledger whose first frame stands at `start`.
    pub(crate) fn note(&mut self, start: u64, fault: FaultFrame) -> Result<(), AllocError> {
        let second = fault.moment.saturating_sub(start) / SECOND;
        let place = fault.kind.place();
        match &mut self.kinds[place] {
            Some(tally) => tally.add(fault.moment, second),
            empty => *empty = Some(KindTally::new(fault.moment, second)),
        }
        if self.frames.len() < MAX_FAULTS {
            self.frames.push(fault)?;
        }
        Ok(())
    }

    /// The frames of a kind, if there are any.
    pub fn of(&self, kind: Kind) -> Option<KindTally> {
        self.kinds[kind.place()]
    }

    /// The first frames with faults, a hundred at most, in the order of the ledger.
    pub fn first_frames(&self) -> &[FaultFrame] {
        &self.frames
    }
}
