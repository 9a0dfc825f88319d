//! The steps of a clock that was set while it recorded.
//!
//! Where one clock goes forward, its network is silent by it, and no number is missing. A step that is
//! shorter than links' intervals shows by the differences of both clocks, which all links tell from one
//! moment on.

use crate::clocks::Meeting;
use crate::decide::is_nearly_all;
use crate::inputs::Inputs;
use crate::link::LinkTally;
use crate::silences::Silence;
use afdx_frame::{Network, Stamp};
use std::alloc::{AllocError, Global};

/// A step of one clock.
#[derive(Clone, Copy)]
pub struct Step {
    /// The network whose clock went forward, or of which the other's went back.
    pub ahead: Network,
    /// By how many nanoseconds. Of a silence: how long it lasts.
    pub nanos: u64,
    /// The network's clock went on after the first of these moments and before the second one. Of a silence
    /// by itself, else by the other clock.
    pub after: Stamp,
    pub before: Stamp,
    /// Was the network silent meanwhile, by its clock?
    pub is_silence: bool,
    /// How many links say so, of those that say anything.
    pub links: usize,
    pub of: usize,
}

/// So many links at least tell a step.
const LEAST_LINKS: usize = 4;

/// So many frames at least a link has that says anything of a silence.
const LEAST_FRAMES: u64 = 8;

/// The shortest silence that is looked at, in nanoseconds.
const LEAST_SILENCE: u64 = 20_000_000;

/// A day, in nanoseconds.
const DAY: u64 = 86_400_000_000_000;

/// So many meetings at least a link has before a step, and after it.
const LEAST_MEETINGS: usize = 3;

/// The least step, in nanoseconds.
const LEAST_STEP: u128 = 100_000;

/// At most so many links are asked for a step that others may tell, too.
const MOST_ASKED: usize = 16;

/// Two clocks' differences are counted from here, so that none is below 0.
const MIDDLE: u128 = 1 << 64;

// ---- silences

/// Does a link say anything of a silence of a network? Its other silences are no longer, and it has frames
/// before and after.
fn is_witness(tally: &LinkTally, network: Network, silence: Silence) -> bool {
    let own = tally.silences(network);
    let (Some(first), Some(last)) = (own.first, own.last) else {
        return false;
    };
    tally.frames(network) >= LEAST_FRAMES
        && own.others <= silence.length()
        && first.stamp <= silence.from
        && silence.to <= last.stamp
}

/// Is a silence one of this network alone? Where the other has no frame beside it, one of a day is: nobody
/// pauses so long.
fn is_of_one(inputs: &Inputs<'_>, network: Network, silence: Silence) -> bool {
    let other = &inputs.tap(network.other()).silences;
    let is_beside = match (other.first, other.last) {
        (Some(first), Some(last)) => first.stamp < silence.to && silence.from < last.stamp,
        _ => false,
    };
    if is_beside {
        other.longest.length() < silence.length() / 2
    } else {
        silence.length() >= DAY
    }
}

/// The silence of a network in which nearly all links lack no number.
fn silent_step(inputs: &Inputs<'_>, network: Network) -> Option<Step> {
    let silence = inputs.tap(network).silences.longest;
    if silence.length() < LEAST_SILENCE || !is_of_one(inputs, network, silence) {
        return None;
    }
    let (mut links, mut of) = (0usize, 0usize);
    for (link, tally) in inputs.links().iter().zip(inputs.tallies()) {
        if !link.integrity || !is_witness(tally, network, silence) {
            continue;
        }
        of = of.saturating_add(1);
        let own = tally.silences(network);
        if own.follows && own.longest.covers(silence) {
            links = links.saturating_add(1);
        }
    }
    let least = if silence.length() < DAY {
        LEAST_LINKS
    } else {
        1
    };
    if links < least || !is_nearly_all(links as u64, of as u64) {
        return None;
    }
    Some(Step {
        ahead: network,
        nanos: silence.length(),
        after: Stamp(silence.from),
        before: Stamp(silence.to),
        is_silence: true,
        links,
        of,
    })
}

// ---- differences of the clocks

/// How far the clock of B is ahead, counted from [`MIDDLE`].
fn difference(meeting: &Meeting) -> u128 {
    u128::from(meeting.b)
        .saturating_add(MIDDLE)
        .saturating_sub(u128::from(meeting.a))
}

/// The differences of some meetings.
#[derive(Clone, Copy)]
struct Spread {
    least: u128,
    greatest: u128,
    sum: u128,
    count: usize,
}

fn spread_of(meetings: &[Meeting]) -> Spread {
    let mut spread = Spread {
        least: u128::MAX,
        greatest: 0,
        sum: 0,
        count: meetings.len(),
    };
    for meeting in meetings {
        let found = difference(meeting);
        spread.least = spread.least.min(found);
        spread.greatest = spread.greatest.max(found);
        spread.sum = spread.sum.saturating_add(found);
    }
    spread
}

impl Spread {
    fn mean(&self) -> u128 {
        self.sum / (self.count.max(1) as u128)
    }

    /// How far all differences of one are from those of the other. 0: they aren't apart.
    fn away_from(&self, other: &Spread) -> u128 {
        let above = self.least.saturating_sub(other.greatest);
        above.max(other.least.saturating_sub(self.greatest))
    }
}

/// The differences before a step and after it, and when it was: after the first moment and before the second
/// one, by the clock that went on.
#[derive(Clone, Copy)]
struct Split {
    before: u128,
    after: u128,
    from: u64,
    to: u64,
}

impl Split {
    /// The network whose clock went forward.
    fn ahead(&self) -> Network {
        if self.before < self.after {
            Network::B
        } else {
            Network::A
        }
    }

    fn size(&self) -> u128 {
        self.before.abs_diff(self.after)
    }
}

/// When a frame came, by the clock that went on.
fn time_of(meeting: &Meeting, ahead: Network) -> u64 {
    match ahead {
        Network::A => meeting.b,
        Network::B => meeting.a,
    }
}

/// The split of a link's meetings before the one at this place.
fn split_at(meetings: &[Meeting], place: usize) -> Option<(Split, u128)> {
    let (early, late) = (meetings.get(..place)?, meetings.get(place..)?);
    let (last, first) = (early.last()?, late.first()?);
    let (before, after) = (spread_of(early), spread_of(late));
    let mut split = Split {
        before: before.mean(),
        after: after.mean(),
        from: 0,
        to: 0,
    };
    split.from = time_of(last, split.ahead());
    split.to = time_of(first, split.ahead());
    Some((split, before.away_from(&after)))
}

/// The split of a link's meetings whose differences are all apart, by half of how far they all spread.
fn split_of(meetings: &[Meeting]) -> Option<Split> {
    let all = spread_of(meetings);
    let mut widest: Option<(Split, u128)> = None;
    let end = meetings
        .len()
        .saturating_sub(LEAST_MEETINGS)
        .saturating_add(1);
    for place in LEAST_MEETINGS..end {
        let (split, apart) = split_at(meetings, place)?;
        let most = match widest {
            Some((_, most)) => most,
            None => 0,
        };
        if apart > most {
            widest = Some((split, apart));
        }
    }
    let (split, apart) = widest?;
    let range = all.greatest.saturating_sub(all.least);
    if apart >= LEAST_STEP && apart.saturating_mul(2) >= range {
        Some(split)
    } else {
        None
    }
}

/// Are two sizes no further apart than a quarter of the greater?
fn are_near(one: u128, other: u128) -> bool {
    one.abs_diff(other) <= one.max(other) / 4
}

/// Does a link tell a step? None: it has too few meetings before it or after it.
fn tells(meetings: &[Meeting], step: &Split) -> Option<bool> {
    let ahead = step.ahead();
    let early = meetings
        .iter()
        .filter(|meeting| time_of(*meeting, ahead) <= step.from)
        .count();
    let passed = meetings
        .iter()
        .filter(|meeting| time_of(*meeting, ahead) < step.to)
        .count();
    let (before, after) = (meetings.get(..early)?, meetings.get(passed..)?);
    if before.len() < LEAST_MEETINGS || after.len() < LEAST_MEETINGS {
        return None;
    }
    let own = Split {
        before: spread_of(before).mean(),
        after: spread_of(after).mean(),
        ..*step
    };
    Some(own.ahead() == ahead && are_near(own.size(), step.size()))
}

/// How many links tell a step, and how many say anything of it.
fn support(inputs: &Inputs<'_>, step: &Split) -> (usize, usize) {
    let (mut links, mut of) = (0usize, 0usize);
    for (link, tally) in inputs.links().iter().zip(inputs.tallies()) {
        if !link.redundancy {
            continue;
        }
        if let Some(does) = tells(tally.course(), step) {
            of = of.saturating_add(1);
            links = if does { links.saturating_add(1) } else { links };
        }
    }
    (links, of)
}

/// The splits of the first links that have one.
fn splits_of(alloc: Global, inputs: &Inputs<'_>) -> Result<Vec<Split>, AllocError> {
    let mut splits = Vec::new(alloc);
    for (link, tally) in inputs.links().iter().zip(inputs.tallies()) {
        if !link.redundancy || splits.len() >= MOST_ASKED {
            continue;
        }
        if let Some(split) = split_of(tally.course()) {
            splits.push(split)?;
        }
    }
    Ok(splits)
}

/// The moment of a step, as close as links tell it whose splits are the same.
fn moment_of(splits: &[Split], step: &Split) -> (u64, u64) {
    let (mut from, mut to) = (step.from, step.to);
    for split in splits {
        let is_same = split.ahead() == step.ahead() && are_near(split.size(), step.size());
        if is_same && split.from < to && from < split.to {
            from = from.max(split.from);
            to = to.min(split.to);
        }
    }
    (from, to)
}

/// The step that nearly all links tell, which one of the first tells that have a split.
fn told_step(alloc: Global, inputs: &Inputs<'_>) -> Result<Option<Step>, AllocError> {
    let splits = splits_of(alloc, inputs)?;
    for split in &splits {
        let (links, of) = support(inputs, split);
        if links < LEAST_LINKS || !is_nearly_all(links as u64, of as u64) {
            continue;
        }
        let (after, before) = moment_of(&splits, split);
        return Ok(Some(Step {
            ahead: split.ahead(),
            nanos: split.size().min(u128::from(u64::MAX)) as u64,
            after: Stamp(after),
            before: Stamp(before),
            is_silence: false,
            links,
            of,
        }));
    }
    Ok(None)
}

/// The steps of the clocks: those that silences tell, or else one that the differences of the clocks do.
///
/// # Errors
///
/// `AllocError` if the system is out of memory.
pub(crate) fn steps_of(alloc: Global, inputs: &Inputs<'_>) -> Result<Vec<Step>, AllocError> {
    let mut steps = Vec::new(alloc);
    for network in [Network::A, Network::B] {
        if let Some(step) = silent_step(inputs, network) {
            steps.push(step)?;
        }
    }
    if steps.is_empty() {
        if let Some(step) = told_step(alloc, inputs)? {
            steps.push(step)?;
        }
    }
    Ok(steps)
}
