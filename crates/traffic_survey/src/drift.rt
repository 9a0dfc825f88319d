//! The drift of two taps' clocks, which move apart.

use crate::clocks::Meeting;
use crate::decide::is_nearly_all;
use crate::inputs::Inputs;
use crate::questions::Question;
use crate::steps::steps_of;
use crate::twice::ask_of_recording;
use afdx_frame::Network;
use std::alloc::{AllocError, Global};

/// How fast the clock of one tap moves away from the other's.
#[derive(Clone, Copy)]
pub struct Drift {
    /// The tap whose clock runs faster.
    pub faster: Network,
    /// By how many parts in 10^12.
    pub parts: u64,
    /// How many links say so, to a quarter of it.
    pub links: usize,
    /// How many links say anything.
    pub of: usize,
}

/// The least time between two frames that tell a drift, in nanoseconds.
const LEAST_TIME: u64 = 1_000_000_000;

/// The least drift, in parts in 10^12: a slower one is none.
const LEAST_DRIFT: u64 = 10_000_000;

/// The greatest drift, in parts in 10^12: no clock drifts faster.
const MAX_DRIFT: u64 = 1_000_000_000;

/// So many links at least tell a drift.
const LEAST_LINKS: usize = 4;

/// A drift holds in each quarter of the time.
const QUARTERS: usize = 4;

/// How much longer one time is than another, in parts in 10^12 of it.
fn parts_of(longer: u64, shorter: u64) -> u64 {
    let more = u128::from(longer.saturating_sub(shorter)) * 1_000_000_000_000;
    let parts = more / u128::from(shorter.max(1));
    parts.min(u128::from(u64::MAX)) as u64
}

/// How fast the clocks move apart from one moment to another: the parts by which the time on A is longer than
/// that on B, and the other way round.
fn rate_between(first: Meeting, last: Meeting) -> Meeting {
    let on_a = last.a.saturating_sub(first.a);
    let on_b = last.b.saturating_sub(first.b);
    Meeting {
        a: parts_of(on_a, on_b),
        b: parts_of(on_b, on_a),
    }
}

/// How fast the clocks move apart between two frames that both taps have seen. None: that can't be told.
fn rate_of(first: Meeting, last: Meeting) -> Option<Meeting> {
    let on_a = last.a.saturating_sub(first.a);
    let on_b = last.b.saturating_sub(first.b);
    let rate = rate_between(first, last);
    if on_a < LEAST_TIME || on_b < LEAST_TIME || rate.a.max(rate.b) > MAX_DRIFT {
        None
    } else {
        Some(rate)
    }
}

/// The mean moments of some frames that both taps have seen.
fn mean_of(meetings: &[Meeting]) -> Meeting {
    let (mut a, mut b) = (0u128, 0u128);
    for meeting in meetings {
        a = a.saturating_add(u128::from(meeting.a));
        b = b.saturating_add(u128::from(meeting.b));
    }
    let count = meetings.len().max(1) as u128;
    Meeting {
        a: (a / count).min(u128::from(u64::MAX)) as u64,
        b: (b / count).min(u128::from(u64::MAX)) as u64,
    }
}

/// Are two numbers no further apart than so much of the greater: a half, or a quarter?
fn are_near(one: u64, other: u64, part: u64) -> bool {
    one.abs_diff(other) <= one.max(other) / part.max(1)
}

/// Do two rates tell nearly the same drift?
fn are_alike(one: Meeting, other: Meeting) -> bool {
    are_near(one.a, other.a, 4) && are_near(one.b, other.b, 4)
}

/// Do the clocks of a link move apart from each quarter of its frames to the next, by at least half as fast as
/// from the first to the last, and at most twice? A step moves them in one quarter alone.
fn is_steady(meetings: &[Meeting]) -> bool {
    let mut means = [Meeting { a: 0, b: 0 }; QUARTERS];
    let count = meetings.len();
    for quarter in 0..QUARTERS {
        let from = count.saturating_mul(quarter) / QUARTERS;
        let to = count.saturating_mul(quarter + 1) / QUARTERS;
        means[quarter] = mean_of(meetings.get(from..to).unwrap_or(&[]));
    }
    let whole = rate_between(means[0], means[QUARTERS - 1]);
    (1..QUARTERS).all(|quarter| {
        let rate = rate_between(means[quarter - 1], means[quarter]);
        are_near(rate.a, whole.a, 2) && are_near(rate.b, whole.b, 2)
    })
}

/// The rates that the links with redundancy management on tell: 0 where the clocks don't move apart steadily.
fn rates_of(alloc: Global, inputs: &Inputs<'_>) -> Result<Vec<Meeting>, AllocError> {
    let mut rates = Vec::new(alloc);
    for (link, tally) in inputs.links().iter().zip(inputs.tallies()) {
        if !link.redundancy {
            continue;
        }
        if let (Some(first), Some(last)) = (tally.meeting(), tally.last_meeting()) {
            if let Some(rate) = rate_of(first, last) {
                let is_drift = is_steady(tally.course());
                rates.push(if is_drift {
                    rate
                } else {
                    Meeting { a: 0, b: 0 }
                })?;
            }
        }
    }
    Ok(rates)
}

/// The rate that most others are like, and how many are.
fn most_alike(rates: &[Meeting]) -> Option<(Meeting, usize)> {
    let mut best: Option<(Meeting, usize)> = None;
    for rate in rates {
        let links = rates
            .iter()
            .filter(|other| are_alike(*rate, **other))
            .count();
        let held = match best {
            Some((_, most)) => most,
            None => 0,
        };
        if links > held {
            best = Some((*rate, links));
        }
    }
    best
}

/// The drift that nearly all links tell.
fn drift_of(rates: &[Meeting]) -> Option<Drift> {
    let (rate, links) = most_alike(rates)?;
    let (faster, parts) = if rate.a < rate.b {
        (Network::B, rate.b)
    } else {
        (Network::A, rate.a)
    };
    let of = rates.len();
    if of >= LEAST_LINKS && parts >= LEAST_DRIFT && is_nearly_all(links as u64, of as u64) {
        Some(Drift {
            faster,
            parts,
            links,
            of,
        })
    } else {
        None
    }
}

/// The questions that links raise: a recording that has frames twice, or frames of the other network, and
/// clocks that move apart.
///
/// # Errors
///
/// `AllocError` if the system is out of memory.
pub fn link_questions(alloc: Global, inputs: &Inputs<'_>) -> Result<Vec<Question>, AllocError> {
    let mut questions = Vec::new(alloc);
    ask_of_recording(&mut questions, inputs, Network::A)?;
    ask_of_recording(&mut questions, inputs, Network::B)?;
    // A step looks like a drift between a frame before it and one after.
    if !steps_of(alloc, inputs)?.is_empty() {
        return Ok(questions);
    }
    let rates = rates_of(alloc, inputs)?;
    if let Some(drift) = drift_of(&rates) {
        questions.push(Question::Drift(drift))?;
    }
    Ok(questions)
}
