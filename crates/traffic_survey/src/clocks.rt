//! How far the clocks of two taps are apart, by frames of equal sequence numbers.

use afdx_frame::Network;

/// When a frame with a sequence number came, in nanoseconds.
#[derive(Clone, Copy, PartialEq, Eq)]
pub struct Sample {
    pub stamp: u64,
    pub number: u8,
}

/// When one frame came on networks A and B, each by the clock of its tap, in nanoseconds.
#[derive(Clone, Copy, PartialEq, Eq)]
pub struct Meeting {
    pub a: u64,
    pub b: u64,
}

impl Meeting {
    /// A frame of a network met one of the other.
    #[inline(always)]
    pub(crate) fn of(network: Network, sample: Sample, other: Sample) -> Meeting {
        match network {
            Network::A => Meeting {
                a: sample.stamp,
                b: other.stamp,
            },
            Network::B => Meeting {
                a: other.stamp,
                b: sample.stamp,
            },
        }
    }
}

/// How far differences of clocks may be apart that are taken for one, in nanoseconds.
const NEAR: u128 = 5_000_000;

/// The first of the frames of a link on network B whose number a frame on network A has.
pub(crate) fn first_meeting(a: &[Sample], b: &[Sample]) -> Option<Meeting> {
    for sample in b {
        if let Some(first) = a.iter().find(|first| first.number == sample.number) {
            return Some(Meeting::of(Network::B, *sample, *first));
        }
    }
    None
}

fn is_near(one: Meeting, other: Meeting) -> bool {
    let left = one.b as u128 + other.a as u128;
    let right = other.b as u128 + one.a as u128;
    left.abs_diff(right) <= NEAR
}

/// How many of the meetings tell nearly the same difference of the clocks as this one.
fn support(meetings: &[Meeting], meeting: Meeting) -> usize {
    meetings
        .iter()
        .filter(|other| is_near(meeting, **other))
        .count()
}

/// The meeting whose difference of the clocks most others tell, too, the first of several, and how many do.
pub(crate) fn most_supported(meetings: &[Meeting]) -> Option<(Meeting, usize)> {
    let mut best: Option<(Meeting, usize)> = None;
    for meeting in meetings {
        let links = support(meetings, *meeting);
        let held = best.map_or(0, |(_, most)| most);
        if links > held {
            best = Some((*meeting, links));
        }
    }
    best
}
