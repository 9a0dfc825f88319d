//! Where a number fits. The distance of neighbours is right only if each frame is in order, whole and its
//! own; so a position is checked by the frame after it, by the other network, and by the time that went by.
use crate::lane::{Lane, ROUND, WINDOW, steps_between};
use crate::long::{Long, Position, Time, ZERO};
use crate::rate::Rate;

/// A number so few steps ahead may be the next one, with frames missing between.
pub const FEW: i64 = 3;

/// Up to so many steps the elapsed time says whether frames are missing.
const HALF_ROUND: i64 = 127;

/// A frame that is older by less than so much came out of order.
const OLD: i64 = 64;

/// How sure the number of missing frames is.
#[derive(Clone, Copy, PartialEq, Eq)]
pub enum Guess {
    Sure,
    /// Rounds of 255 were added by the elapsed time.
    Estimate,
    /// Rounds of 255 may be missing.
    AtLeast,
}

/// Where a number fits.
#[derive(Clone, Copy)]
pub enum Fit {
    At { position: Position, guess: Guess },
    /// It is the number of a frame that came, so many positions back.
    Again { back: Long },
    /// It is the number of a frame that was missing so many positions back.
    Fills { back: Long },
    /// Its successor decides.
    HeldBack,
}

/// Does a number go on from another, with few missing between?
pub fn goes_on(before: u8, number: u8) -> bool {
    let steps = steps_between(before, number).0;
    (1..=FEW).contains(&steps)
}

fn at(position: Position, guess: Guess) -> Fit {
    Fit::At { position, guess }
}

/// Where the other network has it: that went on by at least 2 since, this number fits that within few, and
/// the time agrees. A scale that is off by a round of 255 would fit too, but not the time.
fn by_twin(lane: &Lane, twin: &Lane, rate: &Rate, steps: Long, time: Time) -> Option<Position> {
    if !twin.begun {
        return None;
    }
    let ahead = twin.head - lane.lead - lane.head;
    let rest = Long((steps - ahead + FEW).0.rem_euclid(ROUND)) - FEW;
    let moved = ahead + rest;
    if ahead.0 < 2 || rest.0 > FEW || moved.0 < 1 {
        return None;
    }
    let wanted = rate.intervals_in(time).unwrap_or(ahead);
    let agrees = (moved - wanted).is_within(wanted / 4 + 4);
    agrees.then_some(lane.head + moved)
}

/// Where number 0 stands on the other network, if its numbers began anew since the lane's frame before. One
/// that is held back there is its next.
fn new_count_of(twin: &Lane, before: Time) -> Option<Position> {
    match twin.held {
        Some(held) if held.number == 0 && held.at > before => Some(twin.head + 1),
        _ if twin.begun && twin.anew > before => Some(twin.base),
        _ => None,
    }
}

/// Where the other network has it, that began anew since: this lane missed its first numbers.
fn by_new_count(lane: &Lane, twin: &Lane, seen: &Seen) -> Option<Position> {
    if lane.old_run > 0 {
        return None;
    }
    let zero = new_count_of(twin, seen.before)?;
    let near = zero + i64::from(seen.number) - twin.head;
    let rest = Long((near + FEW).0.rem_euclid(ROUND)) - FEW;
    let position = twin.head + rest;
    (rest.0 <= FEW && position > lane.head).then_some(position)
}

/// Where the elapsed time puts it: a long time and a proven interval say how many rounds of 255 to add.
fn by_time(lane: &Lane, rate: &Rate, steps: Long, time: Time) -> Option<Position> {
    if time < rate.long || steps == ZERO {
        return None;
    }
    let wanted = rate.intervals_in(time)?;
    let rounds = Long((wanted - steps + HALF_ROUND).0.div_euclid(ROUND));
    let moved = steps + rounds * ROUND;
    let agrees = moved.0 >= 1 && (moved - wanted).is_within(wanted / 64 + 1);
    agrees.then_some(lane.head + moved)
}

/// Has the elapsed time room for so many steps?
fn has_room(rate: &Rate, bag: Time, steps: Long, time: Time) -> Option<Guess> {
    let few = (1..=FEW).contains(&steps.0);
    let some = FEW < steps.0 && steps.0 <= HALF_ROUND && (steps - 1) * bag <= time * 2;
    if !few && !some {
        return None;
    }
    if time >= bag * HALF_ROUND && time >= rate.long {
        Some(Guess::AtLeast)
    } else {
        Some(Guess::Sure)
    }
}

/// Where an older number fits.
fn older(lane: &Lane, steps: Long) -> Fit {
    let back = Long((ROUND - steps.0.clamp(0, ROUND)).rem_euclid(ROUND));
    if back.0 <= 0 || back.0 >= OLD || lane.head - back < lane.first || back.0 >= WINDOW {
        Fit::HeldBack
    } else if lane.window.is_seen(back) {
        Fit::Again { back }
    } else {
        Fit::Fills { back }
    }
}

/// A number, when it came, and when the lane's frame before did.
#[derive(Clone, Copy)]
pub struct Seen {
    pub number: u8,
    pub at: Time,
    pub before: Time,
}

/// Where a number fits: the first that holds.
pub fn fit_of(lane: &Lane, twin: &Lane, rate: &Rate, bag: Time, seen: &Seen) -> Fit {
    let (number, time) = (seen.number, seen.at - seen.before);
    let steps = steps_between(lane.number, number);
    let by_new_count = by_new_count(lane, twin, seen).filter(|_| number != 0);
    if let Some(position) = by_new_count {
        return at(position, Guess::Sure);
    }
    if steps == Long(1) && time < rate.long && number != 0 {
        return at(lane.head + 1, Guess::Sure);
    }
    if number == 0 && lane.number != 0 {
        return Fit::HeldBack;
    }
    if let Some(position) = by_twin(lane, twin, rate, steps, time) {
        return at(position, Guess::Sure);
    }
    if number == lane.number {
        return Fit::Again { back: ZERO };
    }
    if steps == Long(1) {
        return at(lane.head + 1, Guess::Sure);
    }
    if let Some(position) = by_time(lane, rate, steps, time) {
        return at(position, Guess::Estimate);
    }
    match has_room(rate, bag, steps, time) {
        Some(guess) => at(lane.head + steps, guess),
        None => older(lane, steps),
    }
}
