//! The state of a network: when it has lines, and its longest pauses.
use crate::accounts::Span;
use crate::long::{Long, Time, ZERO};
use crate::recorder::RecorderFacts;
use std::alloc::{AllocError, Global};
use std::mem;

/// So many pauses are kept, each longer than all later ones.
const PAUSES: usize = 64;

/// The usual time between two lines is a mean over about so many, and is kept times as much.
const MEAN_OF: i64 = 256;

/// So many timestamps say how coarse a recorder's clock is.
const STAMPS: u64 = 4096;

/// So many links outside the table are named.
const OUTSIDE: usize = 16;

/// A time without a line of the network.
#[derive(Clone, Copy)]
pub struct Pause {
    pub from: Time,
    pub length: Time,
}

impl Pause {
    /// The moment at which frames came again.
    pub fn to(self) -> Time {
        self.from + self.length
    }
}

/// The frames of a link that the table doesn't have.
#[derive(Clone, Copy)]
pub struct Outside {
    pub id: u16,
    pub frames: u64,
}

/// The state of a network.
#[derive(Drop)]
pub struct NetworkState {
    /// When its first line and its last line came.
    pub first: Option<Time>,
    pub last: Option<Time>,
    pub lines: u64,
    /// How many numbers are missing on it, and on how many links it has frames.
    pub lost: u64,
    pub lanes: u64,
    /// The usual time between two lines, [`MEAN_OF`] times.
    mean: Time,
    pauses: Vec<Pause>,
    /// The greatest common divisor of the times since its first line.
    pub grain: Time,
    pub outside: Vec<Outside>,
    /// The facts on its recording that no line tells.
    pub recorder: RecorderFacts,
}

/// The greatest common divisor. So many steps are enough for any two numbers.
pub fn common_divisor(one: Time, other: Time) -> Time {
    let (mut greater, mut less) = (one, other);
    for _step in 0..100 {
        if less == ZERO {
            break;
        }
        let rest = greater - (greater / less) * less;
        greater = less;
        less = rest;
    }
    greater
}

impl NetworkState {
    /// A network without frames.
    pub fn new(alloc: Global, recorder: RecorderFacts) -> NetworkState {
        NetworkState {
            first: None,
            last: None,
            lines: 0,
            lost: 0,
            lanes: 0,
            mean: ZERO,
            pauses: Vec::new(alloc),
            grain: ZERO,
            outside: Vec::new(alloc),
            recorder,
        }
    }

    /// Notes a line.
    pub fn note(&mut self, at: Time) -> Result<(), AllocError> {
        match self.last {
            Some(last) => self.note_pause(last, at - last)?,
            None => self.first = Some(at),
        }
        if self.lines < STAMPS {
            self.grain = common_divisor(self.grain, at - self.first.unwrap_or(at));
        }
        self.last = Some(at);
        self.lines = self.lines.saturating_add(1);
        Ok(())
    }

    /// Notes the time between two lines. One that is much longer than usual counts little for the mean.
    fn note_pause(&mut self, from: Time, length: Time) -> Result<(), AllocError> {
        let usual = self.mean == ZERO || length * 4 < self.mean;
        let counted = if usual { length } else { self.mean / 4 };
        self.mean = self.mean + counted - self.mean / MEAN_OF;
        for _shorter in 0..self.pauses.len() {
            match self.pauses.last() {
                Some(pause) if pause.length <= length => {
                    let _shorter = self.pauses.pop();
                }
                _ => break,
            }
        }
        if self.pauses.len() >= PAUSES {
            let _first = self.pauses.remove(0);
        }
        self.pauses.push(Pause { from, length })?;
        Ok(())
    }

    /// The longest pause that begins at a time or after it.
    pub fn longest_since(&self, from: Time) -> Option<Pause> {
        let mut pauses = self.pauses.iter().filter(|pause| pause.from >= from);
        pauses.next().copied()
    }

    /// The time within a span that the recording lacks, if there is one.
    pub fn hole_in(&self, span: Span) -> Option<Span> {
        let mut holes = self.recorder.holes.iter().map(|hole| hole.span());
        holes.find(|hole| span.from <= hole.from && hole.to <= span.to)
    }

    /// Is a pause at least 8 times as long as usual?
    pub fn is_long(&self, length: Time) -> bool {
        length * (MEAN_OF / 8) >= self.mean
    }

    /// The links outside the table, those with the most frames first.
    pub fn take_outside(&mut self, alloc: Global) -> Vec<Outside> {
        let mut outside = mem::replace(&mut self.outside, Vec::new(alloc));
        let key = |one: &Outside| (u64::MAX - one.frames, one.id);
        outside.as_mut_slice().sort_unstable_by_key(key);
        outside
    }

    /// Notes a frame of a link that the table doesn't have.
    pub fn note_outside(&mut self, id: u16) -> Result<(), AllocError> {
        for one in self.outside.iter_mut() {
            if one.id == id {
                one.frames = one.frames.saturating_add(1);
                return Ok(());
            }
        }
        if self.outside.len() < OUTSIDE {
            self.outside.push(Outside { id, frames: 1 })?;
        }
        Ok(())
    }
}
