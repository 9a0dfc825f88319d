//! A part of a ledger: what a selection takes of it.

use crate::counts::FrameCounts;
use afdx_frame::Stamp;
use ledger_text::{FrameLine, Selection};
use std::alloc::{AllocError, Global};

/// The lines of a ledger that a report is about, where it isn't about all.
#[derive(Drop)]
pub struct Part {
    selection: Selection,
    /// The timestamp of the ledger's first frame.
    first: Option<Stamp>,
    /// The counts of the lines that are taken.
    pub counts: FrameCounts,
}

impl Part {
    /// The part that a selection takes, of no line so far.
    ///
    /// # Errors
    ///
    /// `AllocError` if there is no memory for the counts.
    pub fn new(alloc: Global, selection: Selection) -> Result<Part, AllocError> {
        Ok(Part {
            selection,
            first: None,
            counts: FrameCounts::new(alloc)?,
        })
    }

    /// Is the ledger's next line taken? Counts it then.
    pub(crate) fn takes(&mut self, line: &FrameLine) -> bool {
        let first = self.first.unwrap_or(line.stamp);
        self.first = Some(first);
        let takes = self.selection.takes(first, line);
        if takes {
            self.counts.count(line);
        }
        takes
    }
}
