//! Copies that hold other bytes than their frames.

use afdx_frame::Stamp;

/// The places of a frame's source address, which names the network.
const SOURCE_FROM: usize = 6;

const SOURCE_TO: usize = 12;

/// The copies of a link that were compared with their frames.
#[derive(Clone, Copy)]
pub(crate) struct Unlike {
    /// How many were, and how many have other bytes.
    pub(crate) of: u64,
    pub(crate) frames: u64,
    /// When the first and the last of these came.
    pub(crate) first: Stamp,
    pub(crate) last: Stamp,
}

/// Have two frames the same bytes, but for their source addresses?
fn are_alike(one: &[u8], other: &[u8]) -> bool {
    one.len() == other.len()
        && one.get(..SOURCE_FROM) == other.get(..SOURCE_FROM)
        && one.get(SOURCE_TO..) == other.get(SOURCE_TO..)
}

impl Unlike {
    /// Of no copy.
    pub(crate) fn new() -> Unlike {
        Unlike {
            of: 0,
            frames: 0,
            first: Stamp(0),
            last: Stamp(0),
        }
    }

    /// Compares a copy with its frame.
    #[inline]
    pub(crate) fn see(&mut self, frame: &[u8], copy: &[u8], stamp: Stamp) {
        self.of = self.of.saturating_add(1);
        if are_alike(frame, copy) {
            return;
        }
        if self.frames == 0 {
            self.first = stamp;
        }
        self.last = stamp;
        self.frames = self.frames.saturating_add(1);
    }
}
