//! Frames on a network whose source addresses name the other one.

use crate::decide::is_nearly_all;
use afdx_frame::{Network, Stamp};

/// The frames of the table's links on a network.
#[derive(Clone, Copy)]
pub(crate) struct Crossed {
    /// How many there are, and of how many the source address names a network.
    frames: u64,
    named: u64,
    /// How many name the other network, and when the first and the last of them came.
    others: u64,
    first: Stamp,
    last: Stamp,
}

/// The frames on a network whose source addresses name the other one.
#[derive(Clone, Copy)]
pub(crate) struct Others {
    pub(crate) frames: u64,
    pub(crate) of: u64,
    pub(crate) first: Stamp,
    pub(crate) last: Stamp,
}

impl Crossed {
    /// Of no frame.
    pub(crate) fn new() -> Crossed {
        Crossed {
            frames: 0,
            named: 0,
            others: 0,
            first: Stamp(0),
            last: Stamp(0),
        }
    }

    /// Counts a frame on a network, and the network that its source address names.
    #[inline]
    pub(crate) fn see(&mut self, on: Network, named: Option<Network>, stamp: Stamp) {
        self.frames = self.frames.saturating_add(1);
        let Some(named) = named else {
            return;
        };
        self.named = self.named.saturating_add(1);
        if named != on {
            if self.others == 0 {
                self.first = stamp;
            }
            self.last = stamp;
            self.others = self.others.saturating_add(1);
        }
    }

    /// The frames that name the other network, if there are some, and nearly all name one.
    pub(crate) fn others(&self) -> Option<Others> {
        if self.others == 0 || !is_nearly_all(self.named, self.frames) {
            return None;
        }
        Some(Others {
            frames: self.others,
            of: self.frames,
            first: self.first,
            last: self.last,
        })
    }
}
