//! Counts of outcomes.

ghost use Rattle.std.specs.Prelude.{◌≡◌, List, [], ◌∷◌, ◌++◌, length, slice_index};
ghost use Rattle.transit_run.specs.Counts.{IsTallyOf, count_of, with_after, with_before};
ghost use Rattle.transit_run.specs.Outcome.{fate_place, origin_place};
ghost use Rattle.transit_run.specs.declared.line.Line.{Line};
ghost use Rattle.transit_run.specs.declared.outcome.TheConstants.{FATES, ORIGINS};

use crate::kind::Kind;
use crate::line::{AfterLine, BeforeLine, Line};
use crate::outcome::{FATES, Fate, ORIGINS, Origin};

/// How many frames there are of each outcome.
#[derive(Clone, Copy)]
pub struct Tally {
    /// Frames that went in.
    pub before: u64,
    /// Frames that came out.
    pub after: u64,
    /// How often an equal frame was in the window, so that which is which isn't certain.
    pub choices: u64,
    fates: [u64; FATES],
    origins: [u64; ORIGINS],
}

impl Tally {
    /// Of no frame.
    pub fn new() -> Tally
        ensures { IsTallyOf result [] }
    {
        Tally {
            before: 0,
            after: 0,
            choices: 0,
            fates: [0; FATES],
            origins: [0; ORIGINS],
        }
    }

    /// How many frames that went in have this outcome.
    pub fn fates(&self, fate: Fate) -> u64
        ensures { result ≡ slice_index self.now.fates (fate_place fate) }
    {
        self.fates[fate.place()]
    }

    /// How many frames that came out without a partner have this outcome.
    pub fn origins(&self, origin: Origin) -> u64
        ensures { result ≡ slice_index self.now.origins (origin_place origin) }
    {
        self.origins[origin.place()]
    }

    /// How many frames have a fault of this kind.
    pub fn faults(&self, kind: Kind) -> u64
        ensures { result ≡ count_of self.now kind }
    {
        match kind {
            Kind::Dropped => self.fates(Fate::Dropped),
            Kind::Lax => self.fates(Fate::Lax),
            Kind::Leak => self.fates(Fate::Leak),
            Kind::Slow => self.fates(Fate::Slow),
            Kind::Overtaken => self.fates(Fate::Overtaken),
            Kind::Changed => self.fates(Fate::Changed),
            Kind::Twice => self.origins(Origin::Twice),
            Kind::New => self.origins(Origin::New),
        }
    }

    /// How many lines the frames have: each that went in, and each without a partner that came out.
    pub fn lines(&self) -> u64 {
        let mut lines = self.before;
        for count in self.origins {
            lines = lines.saturating_add(count);
        }
        lines
    }

    /// Counts a line.
    pub(crate) fn count(&mut self, line: &Line)
        ensures { (lines : List Line) → IsTallyOf self.old lines →
            IsTallyOf self.new (lines ++ line.now ∷ []) }
    {
        match line {
            Line::Before(line) => self.count_before(line),
            Line::After(line) => self.count_after(line),
        }
    }

    fn count_before(&mut self, line: &BeforeLine)
        ensures after { self.new ≡ with_before self.old line.now }
        ensures room { length self.old.fates ≡ FATES }
    {
        self.before = self.before.saturating_add(1);
        if line.partner.is_some() {
            self.after = self.after.saturating_add(1);
        }
        let place = line.fate.place();
        self.fates[place] = self.fates[place].saturating_add(1);
    }

    fn count_after(&mut self, line: &AfterLine)
        ensures after { self.new ≡ with_after self.old line.now }
        ensures room { length self.old.origins ≡ ORIGINS }
    {
        self.after = self.after.saturating_add(1);
        let place = line.origin.place();
        self.origins[place] = self.origins[place].saturating_add(1);
    }
}
