//! The longest silences of links and of networks.

use crate::clocks::Sample;

/// A time between one frame and the next, by the clock of their tap.
#[derive(Clone, Copy)]
pub(crate) struct Silence {
    pub(crate) from: u64,
    pub(crate) to: u64,
}

impl Silence {
    pub(crate) fn length(self) -> u64 {
        self.to.saturating_sub(self.from)
    }

    /// Does it last for all of the other?
    pub(crate) fn covers(self, other: Silence) -> bool {
        self.from <= other.from && other.to <= self.to
    }
}

/// The silences between frames that come one after the other.
#[derive(Clone, Copy)]
pub(crate) struct Silences {
    /// The first frame and the last.
    pub(crate) first: Option<Sample>,
    pub(crate) last: Option<Sample>,
    /// The longest one, and whether the number after it follows the one before: none is missing.
    pub(crate) longest: Silence,
    pub(crate) follows: bool,
    /// How long the longest of the others is.
    pub(crate) others: u64,
}

/// The sequence number after this one (ARINC 664 Part 7): 255 is followed by 1.
fn next_number(number: u8) -> u8 {
    if number < u8::MAX { number + 1 } else { 1 }
}

impl Silences {
    /// Of no frame.
    pub(crate) fn new() -> Silences {
        Silences {
            first: None,
            last: None,
            longest: Silence { from: 0, to: 0 },
            follows: false,
            others: 0,
        }
    }

    /// Notes the next frame.
    #[inline]
    pub(crate) fn see(&mut self, sample: Sample) {
        let Some(last) = self.last.replace(sample) else {
            self.first = Some(sample);
            return;
        };
        let length = sample.stamp.saturating_sub(last.stamp);
        let longest = self.longest.length();
        if length > longest {
            self.others = longest;
            self.longest = Silence {
                from: last.stamp,
                to: sample.stamp,
            };
            self.follows = sample.number == next_number(last.number);
        } else {
            self.others = self.others.max(length);
        }
    }
}
