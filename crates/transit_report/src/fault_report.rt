//! The frames with one fault.

use crate::columns::TimeColumns;
use afdx_frame::Network;
use std::alloc::{AllocError, Global};
use transit_ledger::{Outcome, TransitLine};

/// A second, in nanoseconds.
const SECOND: u64 = 1_000_000_000;

/// The place of a frame: its timestamp in nanoseconds, and its number in a recording.
#[derive(Clone, Copy, PartialEq, Eq)]
pub struct FaultPlace {
    pub time: u64,
    pub side: Network,
    pub number: u64,
}

/// A second of a ledger, counted from 0 at its first frame, and how many frames have the fault in it.
#[derive(Clone, Copy)]
struct Second {
    second: u64,
    frames: u64,
}

/// The frames with one fault.
#[derive(Drop)]
pub struct FaultReport {
    pub fault: Outcome,
    /// How many there are.
    pub frames: u64,
    pub first: Option<FaultPlace>,
    pub last: Option<FaultPlace>,
    /// The most of them in one second, and which second that is, from 0 at the ledger's first frame.
    pub most: u64,
    pub second: u64,
    /// How many there are in each column of time; none where there is no frame.
    pub columns: Vec<u64>,
    current: Second,
}

impl FaultReport {
    /// Of no frame. Allocates nothing.
    pub(crate) fn new(alloc: Global, fault: Outcome) -> FaultReport {
        FaultReport {
            fault,
            frames: 0,
            first: None,
            last: None,
            most: 0,
            second: 0,
            columns: Vec::new(alloc),
            current: Second {
                second: 0,
                frames: 0,
            },
        }
    }

    /// Counts the frame of a line, in a ledger whose first frame stands at `start`.
    pub(crate) fn note(
        &mut self,
        line: &TransitLine,
        start: u64,
        columns: TimeColumns,
    ) -> Result<(), AllocError> {
        let place = FaultPlace {
            time: line.time,
            side: line.side,
            number: line.number,
        };
        self.frames = self.frames.saturating_add(1);
        self.first = Some(self.first.unwrap_or(place));
        self.last = Some(place);
        self.note_second(line.time.saturating_sub(start) / SECOND);
        self.note_column(line.time, columns)
    }

    fn note_second(&mut self, second: u64) {
        let before = if self.current.second == second {
            self.current.frames
        } else {
            0
        };
        let frames = before.saturating_add(1);
        self.current = Second { second, frames };
        if frames > self.most {
            self.most = frames;
            self.second = second;
        }
    }

    fn note_column(&mut self, moment: u64, columns: TimeColumns) -> Result<(), AllocError> {
        if self.columns.is_empty() {
            self.columns.resize(columns.count, 0)?;
        }
        if let Some(column) = columns.column(moment) {
            if let Some(frames) = self.columns.get_mut(column) {
                *frames = frames.saturating_add(1);
            }
        }
        Ok(())
    }
}
