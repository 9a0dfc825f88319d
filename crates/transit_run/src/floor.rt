//! The least transits along the time, by which clocks show that drift or step.

use std::alloc::{AllocError, Global};

/// How many parts of the time there are at most.
const PARTS: usize = 512;

/// How long a part is at first, in nanoseconds.
const SECOND: u64 = 1_000_000_000;

/// How many groups of parts are compared.
const GROUPS: usize = 10;

/// The least change in all that is told, in nanoseconds times 10^9.
const LEAST_CHANGE: u128 = 10_000_000_000_000;

/// The least step that is told, in nanoseconds.
const LEAST_STEP: u64 = 100_000;

/// So many parts at least have a frame before a step, and after it.
const LEAST_PARTS: usize = 3;

/// A step of the least transit, which stays on one level up to a moment and then on another.
#[derive(Clone, Copy)]
pub struct Step {
    /// By how many nanoseconds it rises.
    pub change: i64,
    /// About when: the beginning of the first part of the time on the other level.
    pub moment: u64,
    /// Frames that went in at these moments stand on the one level and on the other.
    pub from: u64,
    pub to: u64,
}

/// The least transit of a part of the time, and when the frame went in, both in nanoseconds.
type Least = (i64, u64);

/// The least transits of parts of the time, of equal length. Where there would be too many parts, each two
/// become one.
#[derive(Drop)]
pub(crate) struct Floor {
    start: Option<u64>,
    width: u64,
    parts: Vec<Option<Least>>,
}

/// The lesser of two transits.
fn lesser(one: Option<Least>, two: Option<Least>) -> Option<Least> {
    match (one, two) {
        (Some(one), Some(two)) => Some(one.min(two)),
        (one, None) => one,
        (None, two) => two,
    }
}

impl Floor {
    /// Of no frame. Allocates nothing.
    pub(crate) fn new(alloc: Global) -> Floor {
        Floor {
            start: None,
            width: SECOND,
            parts: Vec::new(alloc),
        }
    }

    /// Notes a frame's transit, at a moment no earlier than the first.
    pub(crate) fn note(&mut self, moment: u64, transit: i64) -> Result<(), AllocError> {
        let start = self.start.unwrap_or(moment);
        self.start = Some(start);
        let since = moment.saturating_sub(start);
        let mut place = (since / self.width.max(1)) as usize;
        for _ in 0..64 {
            if place < PARTS {
                break;
            }
            self.halve()?;
            place = (since / self.width.max(1)) as usize;
        }
        for _ in self.parts.len()..=place.min(PARTS) {
            self.parts.push(None)?;
        }
        if let Some(part) = self.parts.get_mut(place) {
            *part = lesser(*part, Some((transit, moment)));
        }
        Ok(())
    }

    /// Makes one part of each two.
    fn halve(&mut self) -> Result<(), AllocError> {
        self.width = self.width.saturating_mul(2);
        let count = self.parts.len().div_ceil(2);
        for place in 0..count {
            let one = self.parts.get(2 * place).copied().unwrap_or(None);
            let two = self.parts.get(2 * place + 1).copied().unwrap_or(None);
            if let Some(part) = self.parts.get_mut(place) {
                *part = lesser(one, two);
            }
        }
        self.parts.truncate(count);
        Ok(())
    }

    /// The least transits of ten groups of parts that follow each other, if there are as many.
    fn groups(&self) -> Option<[Least; GROUPS]> {
        let parts = self.parts.iter();
        let count = parts.filter(|part| part.is_some()).count();
        if count < GROUPS {
            return None;
        }
        let mut groups = [None; GROUPS];
        let mut number = 0usize;
        for part in &self.parts {
            if part.is_some() {
                let group = (number.saturating_mul(GROUPS) / count).min(GROUPS - 1);
                groups[group] = lesser(groups[group], *part);
                number = number.saturating_add(1);
            }
        }
        let mut least = [(0, 0); GROUPS];
        for (place, group) in groups.iter().enumerate() {
            least[place] = (*group)?;
        }
        Some(least)
    }

    /// By how many parts of 10^9 the clocks drift, if they seem to: of the rates of five groups of parts to
    /// those five groups later four agree to a quarter, the median makes ten microseconds or more in all, and
    /// the groups lie along it.
    pub(crate) fn drift(&self) -> Option<i64> {
        let groups = self.groups()?;
        let mut rates = [0i64; GROUPS / 2];
        for place in 0..GROUPS / 2 {
            rates[place] = rate(groups[place], groups[place + GROUPS / 2]);
        }
        rates.sort_unstable();
        let median = rates[GROUPS / 4];
        let near = |rate: &&i64| rate.abs_diff(median) <= median.unsigned_abs() / 4;
        let agreeing = rates.iter().filter(near).count();
        let span = groups[GROUPS - 1].1.saturating_sub(groups[0].1);
        let change = u128::from(median.unsigned_abs()) * u128::from(span);
        if agreeing >= 4 && change >= LEAST_CHANGE && is_along(&groups, median) {
            Some(median)
        } else {
            None
        }
    }

    /// The step of the least transit, if there is one: the greatest change from a part to the next, where the
    /// levels before and after it are four times as far apart as either is wide.
    pub(crate) fn step(&self) -> Option<Step> {
        let mut widest: Option<Step> = None;
        let mut last: Option<Least> = None;
        for (place, part) in self.parts.iter().enumerate() {
            let Some((transit, moment)) = *part else {
                continue;
            };
            if let Some((before, from)) = last {
                let change = transit.saturating_sub(before);
                let most = widest.map_or(0, |step| step.change.unsigned_abs());
                if change.unsigned_abs() > most {
                    let since = (place as u64).saturating_mul(self.width);
                    let start = self.start.unwrap_or(0);
                    widest = Some(Step {
                        change,
                        moment: start.saturating_add(since),
                        from,
                        to: moment,
                    });
                }
            }
            last = Some((transit, moment));
        }
        widest.filter(|step| self.is_step(step))
    }

    /// The level of the least transits of these moments. None: too few parts of the time have one.
    fn level(&self, from: u64, to: u64) -> Option<Level> {
        let (mut count, mut least, mut greatest) = (0usize, i64::MAX, i64::MIN);
        for part in &self.parts {
            if let Some((transit, moment)) = *part {
                if from <= moment && moment <= to {
                    count = count.saturating_add(1);
                    least = least.min(transit);
                    greatest = greatest.max(transit);
                }
            }
        }
        if count < LEAST_PARTS {
            return None;
        }
        Some(Level { least, greatest })
    }

    /// Do the least transits stay on one level before a step, and on another one after it?
    fn is_step(&self, step: &Step) -> bool {
        let before = self.level(0, step.from);
        let after = self.level(step.to, u64::MAX);
        let (Some(before), Some(after)) = (before, after) else {
            return false;
        };
        let above = after.least.saturating_sub(before.greatest);
        let below = before.least.saturating_sub(after.greatest);
        let apart = above.max(below).max(0).unsigned_abs();
        let width = before.width().max(after.width());
        apart >= LEAST_STEP && apart / 4 >= width
    }
}

/// The least transits of some parts of the time.
#[derive(Clone, Copy)]
struct Level {
    least: i64,
    greatest: i64,
}

impl Level {
    fn width(&self) -> u64 {
        self.greatest.abs_diff(self.least)
    }
}

/// By how much a line rises in so much time that rises by so many parts of 10^9.
fn rise(parts: i64, time: u64) -> i128 {
    let whole = i128::from(parts).saturating_mul(i128::from(time));
    whole.checked_div(i128::from(SECOND)).unwrap_or(0)
}

/// Do nine of ten groups lie along a line that rises by so many parts of 10^9, to a quarter of its rise? A step
/// leads away from it.
fn is_along(groups: &[Least; GROUPS], parts: i64) -> bool {
    let start = groups[0].1;
    let mut off = [0i128; GROUPS];
    for place in 0..GROUPS {
        let (transit, moment) = groups[place];
        let expected = rise(parts, moment.saturating_sub(start));
        off[place] = i128::from(transit).saturating_sub(expected);
    }
    off.sort_unstable();
    let without_first = off[GROUPS - 1].saturating_sub(off[1]);
    let without_last = off[GROUPS - 2].saturating_sub(off[0]);
    let width = without_first.min(without_last);
    let whole = rise(parts, groups[GROUPS - 1].1.saturating_sub(start));
    width.saturating_mul(4) <= whole.saturating_abs()
}

/// By how many parts of 10^9 the transits grow from one moment to another.
fn rate(one: Least, two: Least) -> i64 {
    let time = i128::from(two.1.saturating_sub(one.1));
    let change = i128::from(two.0.saturating_sub(one.0)) * i128::from(SECOND);
    match change.checked_div(time) {
        Some(rate) => i64::try_from(rate).unwrap_or(i64::MAX),
        None => 0,
    }
}
