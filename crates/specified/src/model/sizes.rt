//! How much a core's rings and its rounds hold.

/// How much a core's rings and its rounds hold at most, at least 1 each.
#[derive(Clone, Copy)]
pub struct CoreSizes {
    /// The most items on a tap's ring.
    pub ring: usize,
    /// The most frames of a round.
    pub round: usize,
}
