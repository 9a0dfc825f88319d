//! The links that got worse from one flight to the other.

use crate::numbers::{Count, LinkNumbers};
use afdx_frame::VlId;

/// How a link got worse.
#[derive(Clone, Copy, PartialEq, Eq)]
pub enum Worse {
    /// Redundancy management is on, and of the copies that came in the baseline none comes today.
    LostCopies,
    /// It has frames today, and none in the baseline.
    New,
    /// It has frames in the baseline, and none today.
    Silent,
    /// A count grew by more than chance would: by [`LEAST_GROWTH`] at least, and to more than twice
    /// as many by frame of the link.
    Grew(Count),
}

/// All ways in which a link gets worse, in the order in which they are told.
pub const WORSE: [Worse; 12] = [
    Worse::LostCopies,
    Worse::New,
    Worse::Silent,
    Worse::Grew(Count::LostBoth),
    Worse::Grew(Count::Excess),
    Worse::Grew(Count::TooLong),
    Worse::Grew(Count::Late),
    Worse::Grew(Count::Lost),
    Worse::Grew(Count::Out),
    Worse::Grew(Count::Alone),
    Worse::Grew(Count::Repeat),
    Worse::Grew(Count::Reset),
];

/// How a link is otherwise than in the baseline, for better or for worse.
#[derive(Clone, Copy, PartialEq, Eq)]
pub enum Change {
    /// Its frames by second are others, by more than a quarter of the baseline's.
    Rate,
    /// The median of its skews is another one: more than twice the other, and [`LEAST_SKEW`] more at least.
    Skew,
    /// A count grew or fell by more than chance would.
    Share(Count),
}

/// All ways in which a link is otherwise, in the order in which they are told.
pub const CHANGES: [Change; 11] = [
    Change::Rate,
    Change::Skew,
    Change::Share(Count::LostBoth),
    Change::Share(Count::Excess),
    Change::Share(Count::TooLong),
    Change::Share(Count::Late),
    Change::Share(Count::Lost),
    Change::Share(Count::Out),
    Change::Share(Count::Alone),
    Change::Share(Count::Repeat),
    Change::Share(Count::Reset),
];

/// By how much a median of skews changes at least that is told, in nanoseconds: 10 us.
pub const LEAST_SKEW: u64 = 10_000;

/// By how much a count grows at least where chance alone wouldn't do it.
pub const LEAST_GROWTH: u64 = 3;

/// A link in both flights.
#[derive(Clone, Copy)]
pub struct LinkComparison {
    pub link: VlId,
    /// Is redundancy management on for it?
    pub redundancy: bool,
    /// Its numbers in each flight, where it has a frame there.
    pub today: Option<LinkNumbers>,
    pub baseline: Option<LinkNumbers>,
}

/// Did a count grow by more than chance would, from `before` in so many frames to `count` in these?
fn has_grown(count: u64, frames: u64, before: u64, frames_before: u64) -> bool {
    let now = u128::from(count) * u128::from(frames_before);
    let then = u128::from(before) * u128::from(frames);
    count.saturating_sub(before) >= LEAST_GROWTH && now.saturating_sub(then) > then
}

/// Is a rate another than before, by more than a quarter of that?
fn is_another_rate(today: Option<u64>, before: Option<u64>) -> bool {
    match (today, before) {
        (Some(today), Some(before)) => today.abs_diff(before) > before / 4,
        _ => false,
    }
}

/// Is a median of skews another than before?
fn is_another_skew(today: Option<u64>, before: Option<u64>) -> bool {
    match (today, before) {
        (Some(today), Some(before)) => {
            let apart = today.abs_diff(before);
            apart >= LEAST_SKEW && apart > today.min(before)
        }
        _ => false,
    }
}

/// Did a count grow in one flight against the other?
fn is_another_share(count: Count, today: LinkNumbers, before: LinkNumbers) -> bool {
    let (now, then) = (today.count(count), before.count(count));
    has_grown(now, today.frames, then, before.frames)
        || has_grown(then, before.frames, now, today.frames)
}

/// Did the link lose its copies?
fn has_lost_copies(redundancy: bool, copies: u64, before: u64) -> bool {
    redundancy && copies == 0 && before > 0
}

impl LinkComparison {
    /// Did the link get worse so?
    pub fn is_worse(&self, how: Worse) -> bool {
        match (how, self.today, self.baseline) {
            (Worse::New, Some(_), None) => true,
            (Worse::Silent, None, Some(_)) => true,
            (Worse::LostCopies, Some(today), Some(baseline)) => {
                has_lost_copies(self.redundancy, today.copies, baseline.copies)
            }
            (Worse::Grew(count), Some(today), Some(baseline)) => has_grown(
                today.count(count),
                today.frames,
                baseline.count(count),
                baseline.frames,
            ),
            _ => false,
        }
    }

    /// Is the link otherwise so?
    pub fn is_changed(&self, how: Change) -> bool {
        let (Some(today), Some(before)) = (self.today, self.baseline) else {
            return false;
        };
        match how {
            Change::Rate => is_another_rate(today.rate(), before.rate()),
            Change::Skew => is_another_skew(today.skew_median, before.skew_median),
            Change::Share(count) => is_another_share(count, today, before),
        }
    }
}
