//! How much of two recordings a run takes at a time.

use std::num::NonZeroUsize;
use tap_merge::ROUND;
use tap_queue::RingSizes;
use worker_pool::MAX_CHUNK;

/// The bytes of a block of a recording.
const BLOCK_LEN: usize = 65_536;

/// How much of two recordings a run takes at a time. No contract depends on it: what is written is the
/// same for any sizes. A program runs with the default, and tests with others.
#[derive(Clone, Copy)]
pub struct RunSizes {
    /// The bytes of a block of a recording, at most 262144. A longer packet still has its room.
    pub block: usize,
    /// The size of the ring of a recording.
    pub ring: RingSizes,
    /// The most frames of a round.
    pub round: NonZeroUsize,
    /// The most frames of a chunk, of which a worker claims one at a time. It has one at least.
    pub chunk: usize,
}

impl Default for RunSizes {
    fn default() -> RunSizes {
        RunSizes {
            block: BLOCK_LEN,
            ring: RingSizes::default(),
            round: NonZeroUsize::new(ROUND).unwrap(),
            chunk: MAX_CHUNK,
        }
    }
}
