//! Where a line stands.

use crate::bounds::FIRST_WIDTH;
use afdx_frame::Network;

/// A frame's place in its network's recording.
#[derive(Clone, Copy, Debug, PartialEq, Eq, PartialOrd, Ord)]
pub struct FramePlace {
    /// When it came, in nanoseconds since 1970.
    pub stamp: u64,
    /// Its index, from 0.
    pub number: u32,
}

/// A line's network and place, and in which tick of the ledger it stands: ticks are as long as bins at first.
#[derive(Clone, Copy)]
pub struct LinePlace {
    pub network: Network,
    pub place: FramePlace,
    pub tick: u64,
}

impl LinePlace {
    /// Of a line in a ledger that starts at this time.
    #[inline]
    pub(crate) fn of(network: Network, place: FramePlace, start: u64) -> LinePlace {
        LinePlace {
            network,
            place,
            tick: place.stamp.saturating_sub(start) / FIRST_WIDTH,
        }
    }
}
