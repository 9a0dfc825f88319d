//! Times in which nothing came: many frames in a row that the other recording lacks.

use std::alloc::{AllocError, Global};

/// How many frames in a row make a silence.
const LEAST: u64 = 64;

/// The most silences that are kept.
const MAX_SILENCES: usize = 100;

/// Frames in a row that the other recording lacks. Moments are in nanoseconds.
#[derive(Clone, Copy)]
pub struct Silence {
    pub from: u64,
    pub to: u64,
    /// How many frames there are, and of how many links.
    pub frames: u64,
    pub links: u64,
}

/// The silences of a recording, by the frames of the other one.
#[derive(Drop)]
pub(crate) struct Silences {
    current: Option<Silence>,
    /// The row of frames that goes on or comes next, from 1.
    row: u64,
    pub(crate) list: Vec<Silence>,
}

impl Silences {
    /// Of no frame. Allocates nothing.
    pub(crate) fn new(alloc: Global) -> Silences {
        Silences {
            current: None,
            row: 1,
            list: Vec::new(alloc),
        }
    }

    /// A frame at this moment has no partner. `last_row` is the row in which one of its link stands last.
    pub(crate) fn note(&mut self, moment: u64, last_row: &mut u64) {
        let is_new_link = *last_row != self.row;
        *last_row = self.row;
        let before = self.current.unwrap_or(Silence {
            from: moment,
            to: moment,
            frames: 0,
            links: 0,
        });
        self.current = Some(Silence {
            from: before.from,
            to: moment,
            frames: before.frames.saturating_add(1),
            links: before.links.saturating_add(u64::from(is_new_link)),
        });
    }

    /// A frame has a partner, or none follows: the row ends.
    pub(crate) fn end(&mut self) -> Result<(), AllocError> {
        let Some(silence) = self.current.take() else {
            return Ok(());
        };
        self.row = self.row.saturating_add(1);
        if silence.frames >= LEAST && self.list.len() < MAX_SILENCES {
            self.list.push(silence)?;
        }
        Ok(())
    }
}
