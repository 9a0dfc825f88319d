//! Decisions on two recordings by their numbers. Each is a function of counts alone.

ghost use Rattle.std.specs.Prelude.{◌≡◌};
ghost use Rattle.traffic_survey.specs.Decide.{is_nearly_all};

/// Are so many of all frames nearly all of them, nine in ten? Of no frame none are.
pub fn is_nearly_all(count: u64, frames: u64) -> bool
    ensures { result ≡ is_nearly_all count frames }
{
    0 < frames && frames.saturating_sub(count) <= frames / 10
}

/// The timestamps of what was read of a recording, in nanoseconds, and whether that is all of it.
#[derive(Clone, Copy)]
pub struct Reach {
    pub least: u64,
    pub greatest: u64,
    pub whole: bool,
}

/// The overlap of two recordings in time.
#[derive(Clone, Copy, PartialEq, Eq)]
pub enum Overlap {
    /// They do.
    Together,
    /// One ends before the other begins.
    Apart,
    /// The read part of one ends before the other begins, and it goes on.
    Unknown,
}

fn overlap_after(is_whole: bool) -> Overlap {
    if is_whole {
        Overlap::Apart
    } else {
        Overlap::Unknown
    }
}

/// The overlap of two recordings in time.
pub(crate) fn overlap_of(a: Reach, b: Reach) -> Overlap {
    if a.greatest < b.least {
        overlap_after(a.whole)
    } else if b.greatest < a.least {
        overlap_after(b.whole)
    } else {
        Overlap::Together
    }
}

/// How many frames of a recording there are, and how many of them have the source address of an end system on
/// network A, and on network B.
#[derive(Clone, Copy)]
pub(crate) struct Marks {
    pub frames: u64,
    pub as_a: u64,
    pub as_b: u64,
}

/// How recordings are given to other networks than their frames' source addresses name.
#[derive(Clone, Copy, PartialEq, Eq)]
pub enum Wiring {
    /// That of A is given as B's, and that of B as A's.
    Swapped,
    /// Both are of network A.
    BothOfA,
    /// Both are of network B.
    BothOfB,
}

fn is_marked_a(marks: Marks) -> bool {
    is_nearly_all(marks.as_a, marks.frames)
}

fn is_marked_b(marks: Marks) -> bool {
    is_nearly_all(marks.as_b, marks.frames)
}

/// How the recordings given as networks A and B are of other networks. None: they aren't, or their source
/// addresses don't say.
pub(crate) fn wiring_of(a: Marks, b: Marks) -> Option<Wiring> {
    if is_marked_b(a) && is_marked_a(b) {
        Some(Wiring::Swapped)
    } else if is_marked_a(a) && is_marked_a(b) {
        Some(Wiring::BothOfA)
    } else if is_marked_b(a) && is_marked_b(b) {
        Some(Wiring::BothOfB)
    } else {
        None
    }
}

/// Are fewer than half of the frames copies that could be, of so many on network A and so many on B?
pub(crate) fn are_copies_few(copies: u64, a: u64, b: u64) -> bool {
    let twice = u128::from(copies) * 2;
    0 < a && 0 < b && twice < u128::from(a.min(b))
}

/// Do at least half of the links support a difference of the clocks?
pub(crate) fn is_agreed(support: usize, links: usize) -> bool {
    0 < links && links as u128 <= support as u128 * 2
}
