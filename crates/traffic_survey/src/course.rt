//! How the difference of two taps' clocks goes on, by the frames of a link that both have.

ghost use Rattle.std.specs.Prelude.{◌≤◌};

use crate::clocks::Meeting;

/// How many meetings of a link are kept at most.
const KEPT: usize = 64;

/// Some of the frames of a link that both taps have, from the first on, each as far from the next.
#[derive(Drop)]
pub(crate) struct Course {
    meetings: [Meeting; 64],
    kept: usize,
    /// One of so many is kept, and how many came since the last one.
    stride: u64,
    since: u64,
    ghost within: { kept ≤ 64 },
}

/// Leaves every other meeting, in the first half.
#[cold]
fn thin_out(meetings: &mut [Meeting; 64]) {
    for place in 0..KEPT / 2 {
        meetings[place] = meetings[place * 2];
    }
}

impl Course {
    /// Of no frame.
    pub(crate) fn new() -> Course {
        Course {
            meetings: [Meeting { a: 0, b: 0 }; KEPT],
            kept: 0,
            stride: 1,
            since: 0,
        }
    }

    /// Notes the next frame that both taps have.
    #[inline]
    pub(crate) fn see(&mut self, meeting: Meeting) {
        self.since = self.since.saturating_add(1);
        if self.since < self.stride {
            return;
        }
        self.since = 0;
        if self.kept >= KEPT {
            thin_out(&mut self.meetings);
            self.kept = KEPT / 2;
            self.stride = self.stride.saturating_mul(2);
        }
        self.meetings[self.kept] = meeting;
        self.kept += 1;
    }

    /// The meetings that are kept.
    pub(crate) fn as_slice(&self) -> &[Meeting] {
        &self.meetings[..self.kept]
    }
}
