//! The steps of the model: what may happen next, and what workers do to a frame.
ghost use Rattle.std.specs.Prelude.{◌≡◌, ℕ};
ghost use Rattle.afdx_frame.specs.Frame.{Frame};

use afdx_frame::{LentFrame, Network, TapFrame};

/// One atomic step of a tap, of the merger or of a worker. Workers count from 0.
#[derive(Clone, Copy, PartialEq, Eq)]
pub enum Event {
    /// The tap's next frame goes onto its ring.
    Put(Network),
    /// The tap's end mark goes onto its ring, after all frames.
    End(Network),
    /// The oldest item of the tap's ring goes to the merger.
    Fetch(Network),
    /// The first safe frames become the open round.
    Cut,
    /// An idle worker draws the next number of the round; past the last it is through.
    Claim(u32),
    /// A worker posts the answer for the number that it holds.
    Post(u32),
    /// The round goes to the output, with all its answers.
    Gather,
}

/// A frame with the answer to it.
#[derive(Drop)]
pub struct Answered {
    pub frame: TapFrame,
    pub answer: u32,
}

/// The work of workers on each frame.
pub trait Work {
    /// The answer, as a function of the frame.
    ghost answer_of: { Self → Frame → ℕ };

    /// The answer to the frame.
    fn answer(&self, frame: &LentFrame<'_>) -> u32
        ensures { result ≡ answer_of self.now frame.now };
}
