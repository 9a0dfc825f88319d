//! Counts of outcomes.

use crate::fields::Fields;
use crate::line::TransitLine;
use crate::outcome::{OUTCOMES, Outcome};
use afdx_frame::Network;

/// The outcomes of frames that went in, as the lines of counts order them.
const WENT_IN: [Outcome; 10] = [
    Outcome::Passed,
    Outcome::Slow,
    Outcome::Overtaken,
    Outcome::Changed,
    Outcome::Lax,
    Outcome::Leak,
    Outcome::Dropped,
    Outcome::Refused,
    Outcome::Unrouted,
    Outcome::Open,
];

/// The outcomes of frames that came out without a partner.
const CAME_OUT: [Outcome; 4] = [
    Outcome::Twice,
    Outcome::New,
    Outcome::Elsewhere,
    Outcome::Open,
];

/// A count of each outcome.
type Places = [u64; OUTCOMES];

/// How many frames there are of each outcome.
#[derive(Clone, Copy)]
pub struct OutcomeCounts {
    /// Frames that went in.
    pub before: u64,
    /// Frames that came out.
    pub after: u64,
    went_in: Places,
    came_out: Places,
}

fn put(places: &mut Places, outcome: Outcome, count: u64) {
    if let Some(place) = places.get_mut(outcome.place()) {
        *place = count;
    }
}

fn at(places: &Places, outcome: Outcome) -> u64 {
    places.get(outcome.place()).copied().unwrap_or(0)
}

fn are_same(one: &Places, other: &Places) -> bool {
    one.iter().zip(other).all(|(a, b)| a == b)
}

/// Reads counts of these outcomes, each after its word.
fn read_places(fields: &mut Fields<'_>, outcomes: &[Outcome], places: &mut Places) -> Option<()> {
    for outcome in outcomes {
        put(places, *outcome, fields.number_after(outcome.word())?);
    }
    Some(())
}

impl OutcomeCounts {
    /// Of no frame.
    pub fn new() -> OutcomeCounts {
        OutcomeCounts {
            before: 0,
            after: 0,
            went_in: [0; OUTCOMES],
            came_out: [0; OUTCOMES],
        }
    }

    /// How many frames of one side have this outcome.
    pub fn on(&self, side: Network, outcome: Outcome) -> u64 {
        match side {
            Network::A => at(&self.went_in, outcome),
            Network::B => at(&self.came_out, outcome),
        }
    }

    /// How many frames have this outcome.
    pub fn of(&self, outcome: Outcome) -> u64 {
        at(&self.went_in, outcome).saturating_add(at(&self.came_out, outcome))
    }

    /// Counts the frame of a line, and its partner.
    pub fn count(&mut self, line: &TransitLine) {
        let outcome = line.outcome;
        let count = self.on(line.side, outcome).saturating_add(1);
        match line.side {
            Network::A => {
                self.before = self.before.saturating_add(1);
                put(&mut self.went_in, outcome, count);
            }
            Network::B => put(&mut self.came_out, outcome, count),
        }
        if line.side == Network::B || outcome.is_paired() {
            self.after = self.after.saturating_add(1);
        }
    }

    /// Are the counts of another the same?
    pub fn is_as(&self, other: &OutcomeCounts) -> bool {
        self.before == other.before
            && self.after == other.after
            && are_same(&self.went_in, &other.went_in)
            && are_same(&self.came_out, &other.came_out)
    }

    /// Reads the counts of a link.
    pub(crate) fn of_link(fields: &mut Fields<'_>) -> Option<OutcomeCounts> {
        let mut counts = OutcomeCounts::new();
        counts.before = fields.number_after("before")?;
        read_places(fields, &WENT_IN, &mut counts.went_in)?;
        counts.after = fields.number_after("after")?;
        read_places(fields, &CAME_OUT, &mut counts.came_out)?;
        Some(counts)
    }

    /// Reads the counts of all frames, which have those that are recorded in part too.
    pub(crate) fn of_all(fields: &mut Fields<'_>) -> Option<OutcomeCounts> {
        let mut counts = OutcomeCounts::new();
        counts.before = fields.number_after("before")?;
        put(
            &mut counts.went_in,
            Outcome::Cut,
            fields.number_after("cut")?,
        );
        read_places(fields, &WENT_IN, &mut counts.went_in)?;
        counts.after = fields.number_after("after")?;
        put(
            &mut counts.came_out,
            Outcome::Cut,
            fields.number_after("cut")?,
        );
        read_places(fields, &CAME_OUT, &mut counts.came_out)?;
        Some(counts)
    }
}
