//! The selected lines of a link, and which of its lines are near them.
ghost use Rattle.std.specs.Prelude.{◌≡◌, ◌<◌, ◌≤◌, ◌+◌, ◌↔◌, [], MatchResult, OnErr, IsTrue, true, false, vec_capacity, vec_len};
ghost use Rattle.ledger_text.specs.declared.bounds.TheConstants.{MAX_LINES};
ghost use Rattle.ledger_text.specs.Runs.{AllBefore, AreApart, Covers, HasAdded, StandsAt};

use std::alloc::{AllocError, Global};

/// Selected lines of a link, by their ordinals among its lines: the first and the last of some that are so
/// close to each other that each line between them is near one.
#[derive(Clone, Copy, PartialEq, Eq)]
pub(crate) struct Run {
    first: u64,
    last: u64,
}

/// Adds a selected line that comes after those of the runs. It goes on the last run, if each line
/// between them is near one of the two, and else it begins a run.
#[inline]
fn add(runs: &mut Vec<Run>, around: u32, ordinal: u64) -> Result<(), AllocError>
    ensures added { AreApart runs.old.items → AllBefore runs.old.items ordinal →
        MatchResult result (λ _. HasAdded around runs.old.items ordinal runs.new.items)
        (λ _. runs.new.items ≡ runs.old.items) }
    // Only a run that begins asks for memory, where the list has no room for it.
    ensures memory { OnErr result (vec_capacity runs.old ≤ vec_len runs.old) }
{
    let closest = 2 * u64::from(around) + 1;
    match runs.last_mut() {
        Some(run) if ordinal.saturating_sub(run.last) <= closest => run.last = ordinal,
        _ => runs.push(Run {
            first: ordinal,
            last: ordinal,
        })?,
    }
    Ok(())
}

/// The record of a link: how many of its lines were noted, and the runs of those that are selected; then
/// how many were asked for.
#[derive(Drop)]
pub(crate) struct LinkRuns {
    noted: u64,
    runs: Vec<Run>,
    asked: u64,
    /// The first run that the next line isn't past.
    next: usize,
}

impl LinkRuns {
    /// A link of which no line was noted. Allocates nothing.
    pub(crate) fn new(alloc: Global) -> LinkRuns
        ensures noted { result.noted ≡ 0 }
        ensures runs { result.runs.items ≡ [] }
        ensures fresh { (result.asked ≡ 0) × (result.next ≡ 0) }
    {
        LinkRuns {
            noted: 0,
            runs: Vec::new(alloc),
            asked: 0,
            next: 0,
        }
    }

    /// Notes the link's next line, and whether it is selected.
    #[inline]
    pub(crate) fn note(&mut self, around: u32, selected: bool) -> Result<(), AllocError>
        ensures noted { self.old.noted < MAX_LINES → MatchResult result
            (λ _. self.new.noted ≡ self.old.noted + 1) (λ _. self.new.noted ≡ self.old.noted) }
        ensures added { selected ≡ true → AreApart self.old.runs.items
            → AllBefore self.old.runs.items self.old.noted →
            MatchResult result (λ _. HasAdded around self.old.runs.items self.old.noted self.new.runs.items)
            (λ _. self.new.runs.items ≡ self.old.runs.items) }
        ensures passed { selected ≡ false → self.new.runs.items ≡ self.old.runs.items }
        ensures memory { OnErr result ((selected ≡ true)
            × (vec_capacity self.old.runs ≤ vec_len self.old.runs)) }
        ensures same { (self.new.asked ≡ self.old.asked) × (self.new.next ≡ self.old.next) }
    {
        if selected {
            add(&mut self.runs, around, self.noted)?;
        }
        self.noted = self.noted.saturating_add(1);
        Ok(())
    }

    /// Is the link's next line near a selected one?
    #[inline]
    pub(crate) fn is_near(&mut self, around: u32) -> bool
        ensures near { self.old.asked < MAX_LINES → AreApart self.old.runs.items
            → StandsAt around self.old.runs.items self.old.asked self.old.next
            → (IsTrue result ↔ Covers around self.old.runs.items self.old.asked)
            × StandsAt around self.old.runs.items self.new.asked self.new.next }
        ensures asked { self.old.asked < MAX_LINES → self.new.asked ≡ self.old.asked + 1 }
        ensures same { self.new.runs ≡ self.old.runs }
    {
        let around = u64::from(around);
        let ordinal = self.asked;
        self.asked = ordinal.saturating_add(1);
        let run = match self.runs.get(self.next) {
            Some(run) => *run,
            None => return false,
        };
        if run.last.saturating_add(around) <= ordinal {
            self.next += 1;
        }
        run.first <= ordinal.saturating_add(around)
    }
}
