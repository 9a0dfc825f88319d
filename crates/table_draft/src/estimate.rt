//! The parameters of a link, estimated from its frames. The rules are this project's profile.

use traffic_survey::{Arrivals, BAGS_MS, LinkSurvey};

/// The length of the frame check sequence, in bytes. Recordings do not hold it.
const CHECK_LENGTH: u32 = 4;
/// The greatest Smax of a table, in bytes.
const MAX_SMAX: u32 = 1518;
/// The greatest jitter of a table, in microseconds.
pub const MAX_JITTER_US: u64 = 100_000;
/// The greatest SkewMax of a table, in microseconds.
const MAX_SKEW_US: u64 = 1_000_000;

/// The values of a link in a draft, in the units of a table.
#[derive(Clone, Copy)]
pub struct Estimate {
    pub bag_ms: u64,
    pub jitter_us: u64,
    pub smax: u64,
    pub integrity: bool,
    pub redundancy: bool,
    pub skew_us: u64,
}

impl Estimate {
    /// The values in a draft of a link of which no frame was seen and nothing specified.
    pub const UNKNOWN: Estimate = Estimate {
        bag_ms: 128,
        jitter_us: 0,
        smax: 64,
        integrity: true,
        redundancy: false,
        skew_us: 0,
    };

    /// The estimate of a link, with the jitter that its frames need at a BAG, or else at that of the
    /// estimate.
    pub fn of(link: &LinkSurvey, bag_ms: Option<u64>) -> Estimate {
        let own_bag_ms = bag_of(&link.a).min(bag_of(&link.b));
        let redundancy = is_redundant(link);
        Estimate {
            bag_ms: own_bag_ms,
            jitter_us: jitter_us(link, bag_ms.unwrap_or(own_bag_ms)),
            smax: smax_of(greatest_size(link)),
            integrity: is_numbered(link),
            redundancy,
            skew_us: if redundancy { skew_us(link) } else { 0 },
        }
    }
}

/// The greatest BAG in milliseconds that is no more than the median gap, with a twentieth to spare. The
/// greatest of all where there is no gap.
fn bag_of(arrivals: &Arrivals) -> u64 {
    let Some(median) = arrivals.gaps.median() else {
        return 128;
    };
    for bag_ms in BAGS_MS.iter().rev() {
        if bag_ms.saturating_mul(1_000_000) / 21 * 20 < median.to {
            return *bag_ms;
        }
    }
    1
}

/// The jitter that the frames of a network need, in nanoseconds.
pub fn needed_by(arrivals: &Arrivals, bag_ms: u64) -> u64 {
    arrivals.needs.at(bag_ms).map_or(0, |need| need.greatest)
}

/// The jitter that a link's frames need at a BAG, in microseconds, rounded up.
pub fn jitter_us(link: &LinkSurvey, bag_ms: u64) -> u64 {
    let needed = needed_by(&link.a, bag_ms).max(needed_by(&link.b, bag_ms));
    needed.div_ceil(1000).min(MAX_JITTER_US)
}

/// The greatest difference of time between copies, in microseconds, rounded up.
pub fn skew_us(link: &LinkSurvey) -> u64 {
    link.copies.greatest_skew.div_ceil(1000).min(MAX_SKEW_US)
}

/// The size of a link's longest frame on both networks, with the frame check sequence.
pub fn greatest_size(link: &LinkSurvey) -> u64 {
    let length = link.a.greatest_len.max(link.b.greatest_len);
    u64::from(length.min(MAX_SMAX - CHECK_LENGTH) + CHECK_LENGTH)
}

/// The Smax of a draft: the size of its longest frame, rounded up to an even number of at least 64.
fn smax_of(size: u64) -> u64 {
    size.saturating_add(size % 2).max(64)
}

/// Do at least half of the sequence numbers follow the one before?
fn is_numbered(link: &LinkSurvey) -> bool {
    let (a, b) = (&link.a.numbering, &link.b.numbering);
    a.next.saturating_add(b.next) >= a.others.saturating_add(b.others)
}

/// Do both networks bring the link, and of the one that brings less at least half of the frames a copy?
fn is_redundant(link: &LinkSurvey) -> bool {
    let fewer = link.a.frames.min(link.b.frames);
    fewer > 0 && link.copies.count >= fewer - fewer / 2
}
