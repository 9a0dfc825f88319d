//! From a ledger to the neighbours of its selected lines.
ghost use Rattle.std.specs.Prelude.{◌≡◌, ℕ, MatchResult, [], false};
ghost use Rattle.ledger_text.specs.Ledger.{has_failed as ledger_failed};
ghost use Rattle.run_fault.specs.Device.{SourceView, source_at};
ghost use Rattle.cut_run.specs.Noting.{EndsNoting, HasNotedLines, IsNeighboursRun, StopsNoting};

use crate::cut::{into_ledger, ledger_fault};
use crate::fault::CutFault;
use ledger_text::{
    Chooser, FoundLine, LedgerLine, LedgerReader, LinesRefused, Neighbours, Selection,
};
use pcap_io::TapSource;
use std::alloc::{AllocError, Global};

/// The lines of a ledger that are near selected ones, with the device that it was read from.
#[derive(Drop)]
pub struct NeighboursRun<L> {
    /// The notes of the lines, or the fault that aborted the run.
    pub outcome: Result<Neighbours, CutFault>,
    /// The ledger's source.
    pub ledger: L,
}

/// Notes lines up to the ledger's end.
fn note_lines<L: TapSource>(
    selection: &Selection,
    ledger: &mut LedgerReader<L>,
    chooser: &mut Chooser,
    neighbours: &mut Neighbours,
) -> Result<(), CutFault>
    requires sound { ledger_failed ledger.old ≡ false }
    ensures { (count : ℕ) (before : SourceView)
        → HasNotedLines L.TapSource selection.now count before [] ledger.old chooser.old neighbours.old
        → MatchResult result
        (λ _. EndsNoting L.TapSource selection.now count before ledger.new neighbours.new)
        (λ fault. StopsNoting L.TapSource fault before ledger.new) }
{
    loop {
        match ledger.advance() {
            Ok(FoundLine::Line(LedgerLine::Frame(line))) => {
                let selected = chooser.takes(selection, &line);
                match neighbours.note(&line, selected) {
                    Ok(()) => {}
                    Err(AllocError) => return Err(CutFault::Memory),
                }
            }
            Ok(FoundLine::Line(LedgerLine::Head(_))) => {}
            Ok(FoundLine::Line(LedgerLine::Counts(_))) => {}
            Ok(FoundLine::Complete) => return Ok(()),
            Ok(FoundLine::Incomplete(_)) => return Ok(()),
            Err(fault) => return Err(ledger_fault(fault)),
        }
    }
}

/// Finds the lines of a ledger that are near those that the selection takes: of each of these so many lines
/// of its link before and after it, on both networks together. With them
/// [`cut_frames`](crate::cut_frames) and [`print_lines`](crate::print_lines) take those lines too, where
/// they read the same ledger again by the same selection.
///
/// One pass over the ledger. Allocates 3 MiB, a block for the ledger, and 16 bytes for each run of
/// selected lines of a link that are near each other. The ledger's source comes back. It may have
/// been read ahead.
///
/// # Errors
///
/// `Ledger` names the first line that is none of a ledger, and `Read` the ledger. `Memory` comes before the
/// first line is read, or at the line of a frame.
pub fn neighbours_of<L: TapSource>(
    alloc: Global,
    selection: &Selection,
    around: u32,
    ledger: L,
) -> NeighboursRun<L>
    ensures { IsNeighboursRun selection.now around result.outcome
        (source_at L.TapSource ledger) (source_at L.TapSource result.ledger) }
{
    let mut neighbours = match Neighbours::new(alloc, around) {
        Ok(neighbours) => neighbours,
        Err(AllocError) => {
            return NeighboursRun {
                outcome: Err(CutFault::Memory),
                ledger,
            };
        }
    };
    let mut ledger = match LedgerReader::new(alloc, ledger) {
        Ok(reader) => reader,
        Err(LinesRefused { source }) => {
            return NeighboursRun {
                outcome: Err(CutFault::Memory),
                ledger: source,
            };
        }
    };
    let mut chooser = Chooser::new(None);
    let outcome = match note_lines(selection, &mut ledger, &mut chooser, &mut neighbours) {
        Ok(()) => Ok(neighbours),
        Err(fault) => Err(fault),
    };
    NeighboursRun {
        outcome,
        ledger: into_ledger(ledger),
    }
}
