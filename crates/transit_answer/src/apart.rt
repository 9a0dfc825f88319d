//! Clocks that are further apart than the window: what the frames with unique bytes agree on.

use crate::look::{Looks, Sample};
use std::alloc::{AllocError, Global};

/// The fewest frames that say something.
const LEAST: usize = 8;

/// How far the differences of frames that agree are from their median, in nanoseconds.
const NEAR: u64 = 5_000_000;

/// A difference of the clocks that half of the frames with unique bytes agree on.
#[derive(Clone, Copy)]
pub(crate) struct Agreed {
    /// By how much a frame comes out later than it went in: the median, and the least that agrees with it, in
    /// nanoseconds.
    pub(crate) median: i64,
    pub(crate) least: i64,
    /// How many frames agree, and of how many.
    pub(crate) frames: u64,
    pub(crate) of: u64,
}

/// The samples whose hash no other of the list has, in order of their hashes.
fn unique(alloc: Global, samples: &[Sample]) -> Result<Vec<Sample>, AllocError> {
    let mut sorted = Vec::from_slice(alloc, samples)?;
    sorted.sort_unstable();
    let mut unique = Vec::new(alloc);
    for (place, sample) in sorted.iter().enumerate() {
        let before = place.checked_sub(1).and_then(|place| sorted.get(place));
        let after = sorted.get(place.saturating_add(1));
        let is_other = |other: Option<&Sample>| other.is_none_or(|other| other.0 != sample.0);
        if is_other(before) && is_other(after) {
            unique.push(*sample)?;
        }
    }
    Ok(unique)
}

/// How much later a frame came out than it went in.
fn difference(went_in: u64, came_out: u64) -> i64 {
    let later = i128::from(came_out) - i128::from(went_in);
    i64::try_from(later).unwrap_or(i64::MAX)
}

/// The differences of the frames that both lists have, in order.
fn differences(alloc: Global, before: &[Sample], after: &[Sample]) -> Result<Vec<i64>, AllocError> {
    let mut list = Vec::new(alloc);
    for (hash, came_out) in after {
        if let Ok(place) = before.binary_search_by(|sample| sample.0.cmp(hash)) {
            if let Some((_, went_in)) = before.get(place) {
                list.push(difference(*went_in, *came_out))?;
            }
        }
    }
    list.sort_unstable();
    Ok(list)
}

/// The differences of the frames with unique bytes, in order.
fn differences_of(alloc: Global, looks: &Looks) -> Result<Vec<i64>, AllocError> {
    let before = unique(alloc, &looks.before.samples)?;
    let after = unique(alloc, &looks.after.samples)?;
    differences(alloc, &before, &after)
}

/// By how much frames with unique bytes came out before they went in: the median of those that came out before
/// their window, where they are more than those that came out after it. The moments of frames that came out are
/// later by `early`.
pub(crate) fn usual_lead(
    alloc: Global,
    looks: &Looks,
    early: u64,
    within: u64,
) -> Result<Option<u64>, AllocError> {
    let list = differences_of(alloc, looks)?;
    let window = i128::from(early) + i128::from(within);
    let before = list.iter().filter(|other| **other < 0).count();
    let after = list
        .iter()
        .filter(|other| i128::from(**other) > window)
        .count();
    match list.get(before / 2) {
        Some(median) if before > after => Ok(Some(early.saturating_add(median.unsigned_abs()))),
        _ => Ok(None),
    }
}

/// The difference that half of the frames with unique bytes agree on, if they do. The moments of frames that
/// came out are later by `early`.
pub(crate) fn agreed_difference(
    alloc: Global,
    looks: &Looks,
    early: u64,
) -> Result<Option<Agreed>, AllocError> {
    let list = differences_of(alloc, looks)?;
    if list.len() < LEAST {
        return Ok(None);
    }
    let Some(median) = list.get(list.len() / 2).copied() else {
        return Ok(None);
    };
    let near = |other: &&i64| other.abs_diff(median) <= NEAR;
    let frames = list.iter().filter(near).count();
    let least = list.iter().find(near).copied().unwrap_or(median);
    if frames.saturating_mul(2) < list.len() {
        return Ok(None);
    }
    let early = i64::try_from(early).unwrap_or(i64::MAX);
    Ok(Some(Agreed {
        median: median.saturating_sub(early),
        least: least.saturating_sub(early),
        frames: frames as u64,
        of: list.len() as u64,
    }))
}
