//! From a ledger of transits to the neighbours of its selected lines.

use crate::bounds::MAX_LINES;
use crate::fault::TransitCutFault;
use crate::selection::TransitSelection;
use afdx_frame::Stamp;
use ledger_text::Neighbours;
use pcap_io::TapSource;
use std::alloc::{AllocError, Global};
use transit_ledger::{TransitFault, TransitFound, TransitReader};

/// The lines of a ledger of transits that are near selected ones, with the device that it was read from.
#[derive(Drop)]
pub struct TransitNeighboursRun<L> {
    /// The notes of the lines, or the fault that aborted the run.
    pub outcome: Result<Neighbours, TransitCutFault>,
    /// The ledger's source.
    pub ledger: L,
}

/// Notes lines of frames up to the ledger's end.
fn note_lines<L: TapSource + Drop>(
    selection: &TransitSelection,
    ledger: &mut TransitReader<L>,
    neighbours: &mut Neighbours,
) -> Result<(), TransitCutFault> {
    let mut first = None;
    for _line in 0..MAX_LINES {
        match ledger.advance() {
            Ok(TransitFound::Frame(line)) => {
                let start = first.unwrap_or(line.time);
                first = Some(start);
                let selected = selection.takes(Stamp(start), &line);
                let noted = line
                    .link
                    .map_or(Ok(()), |id| neighbours.note_link(id, selected));
                noted.map_err(|_| TransitCutFault::Memory)?;
            }
            Ok(TransitFound::End) | Err(TransitFault::NotWhole { .. }) => break,
            Ok(_) => {}
            Err(fault) => return Err(TransitCutFault::of_ledger(fault)),
        }
    }
    Ok(())
}

/// Finds the lines of a ledger of transits that are near those that the selection takes: of each of these so
/// many lines of its link before and after it. With them [`cut_transits`](crate::cut_transits) takes those
/// lines too, where it reads the same ledger again by the same selection.
///
/// One pass over the ledger, up to its end or to what is left of a torn line. Allocates 3 MiB, a block for
/// the ledger, and 16 bytes for each run of selected lines of a link that are near each other.
///
/// # Errors
///
/// `Ledger` at the first line that can't stand where it does; `Read` of the ledger; `Memory`.
pub fn transit_neighbours_of<L: TapSource + Drop>(
    alloc: Global,
    selection: &TransitSelection,
    around: u32,
    ledger: L,
) -> TransitNeighboursRun<L> {
    let mut ledger = match TransitReader::open(alloc, ledger) {
        Ok((ledger, _)) => ledger,
        Err((fault, ledger)) => {
            return TransitNeighboursRun {
                outcome: Err(TransitCutFault::of_ledger(fault)),
                ledger,
            };
        }
    };
    let outcome = match Neighbours::new(alloc, around) {
        Ok(mut neighbours) => {
            note_lines(selection, &mut ledger, &mut neighbours).map(|()| neighbours)
        }
        Err(AllocError) => Err(TransitCutFault::Memory),
    };
    TransitNeighboursRun {
        outcome,
        ledger: ledger.into_source(),
    }
}
