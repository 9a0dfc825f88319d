//! The needs of a link at each BAG.

use crate::need::Need;
use afdx_frame::Stamp;

/// The bandwidth allocation gaps of ARINC 664 Part 7, in milliseconds.
pub const BAGS_MS: [u64; 8] = [1, 2, 4, 8, 16, 32, 64, 128];

/// The least jitter that the frames of a link on one network need, for each BAG.
#[derive(Drop)]
pub struct Needs {
    needs: [Need; 8],
}

impl Needs {
    /// The needs of a link's frames that has sent one frame at most.
    pub(crate) fn new() -> Needs {
        Needs {
            needs: BAGS_MS.map(|ms| Need::new(ms.saturating_mul(1_000_000))),
        }
    }

    /// Counts a frame that came so many nanoseconds after the one before it, at this moment.
    #[inline(always)]
    pub(crate) fn step(&mut self, gap: u64, stamp: Stamp) {
        for need in &mut self.needs {
            need.step(gap, stamp);
        }
    }

    /// The needs at a BAG of so many milliseconds, if it is one of [`BAGS_MS`].
    pub fn at(&self, bag_ms: u64) -> Option<&Need> {
        self.needs
            .iter()
            .find(|need| need.bag / 1_000_000 == bag_ms)
    }
}
