//! The last frame of a link that both taps have seen.

use crate::clocks::{Meeting, Sample};
use crate::per_network::PerNetwork;
use afdx_frame::Network;

/// The last frame on each network, and the last that both brought, one after the other.
#[derive(Clone, Copy)]
pub(crate) struct LastFrames {
    last: PerNetwork<Option<Sample>>,
    /// The last that both networks brought.
    pub(crate) met: Option<Meeting>,
}

impl LastFrames {
    pub(crate) fn new() -> LastFrames {
        LastFrames {
            last: PerNetwork { a: None, b: None },
            met: None,
        }
    }

    /// The last frame on a network.
    #[inline(always)]
    pub(crate) fn of(&self, network: Network) -> Option<Sample> {
        *self.last.of(network)
    }

    /// Notes a frame.
    #[inline(always)]
    pub(crate) fn see(&mut self, network: Network, sample: Sample) {
        *self.last.of_mut(network) = Some(sample);
        match *self.last.of(network.other()) {
            Some(other) if other.number == sample.number => {
                self.met = Some(Meeting::of(network, sample, other));
            }
            _ => {}
        }
    }
}
