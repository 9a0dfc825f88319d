//! The copies of frames that both networks bring.

use crate::per_network::PerNetwork;
use afdx_frame::{Network, Stamp};

/// A second, the greatest SkewMax of a table, in nanoseconds.
pub(crate) const MAX_SKEW: u64 = 1_000_000_000;
/// How many frames of the other network may have come since the first copy: half of a cycle of the 255
/// numbers.
const MAX_SINCE: u64 = 127;

/// The frame that came last with a sequence number.
#[derive(Clone, Copy)]
struct Arrival {
    network: Network,
    stamp: Stamp,
    /// Its index among the link's frames on its network.
    index: u64,
}

/// The copies among the frames of one link on both networks. A frame is the copy of the last one with its
/// sequence number, where that came on the other network, at most a second or what is given before, is one of
/// the last 128 of the link there, and has no copy yet.
#[derive(Drop)]
pub struct Copies {
    most_skew: u64,
    latest: [Option<Arrival>; 256],
    seen: PerNetwork<u64>,
    /// How many frames are copies.
    pub count: u64,
    /// The greatest time between a frame and its copy, in nanoseconds.
    pub greatest_skew: u64,
}

impl Copies {
    /// Of no frame. A copy comes at most so many nanoseconds after the first frame.
    pub(crate) fn within(skew: u64) -> Copies {
        Copies {
            most_skew: skew,
            latest: [None; 256],
            seen: PerNetwork { a: 0, b: 0 },
            count: 0,
            greatest_skew: 0,
        }
    }

    /// Counts the frame with this number. Some: it comes so much later than one of the other network that has
    /// the number, too much for a copy or not.
    #[inline(always)]
    pub(crate) fn see(&mut self, network: Network, number: u8, stamp: Stamp) -> Option<u64> {
        let index = *self.seen.of(network);
        *self.seen.of_mut(network) = index.saturating_add(1);
        let others = *self.seen.of(network.other());
        let place = usize::from(number);
        let skew = skew_of(self.latest[place], network, others, stamp);
        match skew {
            Some(skew) if skew <= self.most_skew => {
                self.latest[place] = None;
                self.count = self.count.saturating_add(1);
                self.greatest_skew = self.greatest_skew.max(skew);
            }
            _ => {
                self.latest[place] = Some(Arrival {
                    network,
                    stamp,
                    index,
                });
            }
        }
        skew
    }

    /// Is a frame a copy that comes so much later than one of the other network?
    #[inline(always)]
    pub(crate) fn is_copy(&self, skew: Option<u64>) -> bool {
        match skew {
            Some(skew) => skew <= self.most_skew,
            None => false,
        }
    }
}

/// How much later than the last frame of its number a copy came. None: it is no copy. `others` is how many
/// frames of the link have come on the other network.
#[inline(always)]
fn skew_of(latest: Option<Arrival>, network: Network, others: u64, stamp: Stamp) -> Option<u64> {
    let arrival = latest?;
    let since = others.saturating_sub(arrival.index);
    if arrival.network != network && since <= MAX_SINCE + 1 {
        Some(stamp.0.saturating_sub(arrival.stamp.0))
    } else {
        None
    }
}
