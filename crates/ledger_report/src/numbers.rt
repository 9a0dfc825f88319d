//! The numbers of a link in one flight.

/// The counts of a link's lines.
#[derive(Clone, Copy, PartialEq, Eq)]
pub enum Count {
    /// Frames longer than Smax, which are discarded.
    TooLong,
    /// Frames above the link's allocation, which are discarded.
    Excess,
    /// Frames that integrity checking discards.
    Out,
    /// Sequence numbers missing on a network.
    Lost,
    /// Sequence numbers missing on both networks.
    LostBoth,
    /// Frames with the number of the one before on their network.
    Repeat,
    /// Frames with number 0: the sender was reset.
    Reset,
    /// Deliveries that the other network didn't bring, though it was alive.
    Alone,
    /// Second deliveries beyond SkewMax.
    Late,
}

/// All counts, in the order in which they are told.
pub const COUNTS: [Count; 9] = [
    Count::LostBoth,
    Count::Excess,
    Count::TooLong,
    Count::Late,
    Count::Lost,
    Count::Out,
    Count::Alone,
    Count::Repeat,
    Count::Reset,
];

/// The numbers of a link that has a frame in the flight, of networks A and B together. Counts stay
/// at 2^64 - 1.
#[derive(Clone, Copy)]
pub struct LinkNumbers {
    /// From the flight's first line to its last, in nanoseconds.
    pub length: u64,
    /// The link's lines of class `toolong` and `regular`.
    pub frames: u64,
    /// Lines `copy`: the second of a pair.
    pub copies: u64,
    pub too_long: u64,
    pub excess: u64,
    pub out: u64,
    pub lost: u64,
    pub lost_both: u64,
    pub repeat: u64,
    pub reset: u64,
    pub alone: u64,
    pub late: u64,
    /// The least time between two frames on one network, in nanoseconds, where one has two.
    pub least: Option<u64>,
    /// The greatest skew, that of late deliveries too, in nanoseconds, where a second came.
    pub skew: Option<u64>,
    /// The median of the skews of its copies, where there is one.
    pub skew_median: Option<u64>,
}

/// In how many parts of a second or of a frame rates and shares count.
const MILLI: u64 = 1_000;

/// Nanoseconds in a second, in thousandths of a frame.
const SECOND: u64 = 1_000_000_000 * MILLI;

/// A thousand frames, in thousandths of a count.
const THOUSAND: u64 = 1_000 * MILLI;

/// `value * scale / by`, rounded half up, at most 2^64 - 1; nothing where `by` is 0.
fn nearest(value: u64, scale: u64, by: u64) -> Option<u64> {
    if by == 0 {
        return None;
    }
    let wide = (u128::from(value) * u128::from(scale) + u128::from(by / 2)) / u128::from(by);
    if wide > u128::from(u64::MAX) {
        Some(u64::MAX)
    } else {
        Some(wide as u64)
    }
}

impl LinkNumbers {
    /// How many there are of what is counted.
    pub fn count(&self, count: Count) -> u64 {
        match count {
            Count::TooLong => self.too_long,
            Count::Excess => self.excess,
            Count::Out => self.out,
            Count::Lost => self.lost,
            Count::LostBoth => self.lost_both,
            Count::Repeat => self.repeat,
            Count::Reset => self.reset,
            Count::Alone => self.alone,
            Count::Late => self.late,
        }
    }

    /// Frames by second, in thousandths, rounded half up; nothing where the flight has no length.
    pub fn rate(&self) -> Option<u64> {
        nearest(self.frames, SECOND, self.length)
    }

    /// How many there are in a thousand of the link's frames, in thousandths, rounded half up.
    pub fn share(&self, count: Count) -> Option<u64> {
        nearest(self.count(count), THOUSAND, self.frames)
    }
}
