//! The check of each frame that is taken off a ring, so that no frame is lost, repeated or out of place.
ghost use Rattle.std.specs.Prelude.{◌≡◌, ◌+◌, ◌^◌, ◌≤◌, max, ◌↔◌, IsTrue, IsFalse};
ghost use Rattle.frame_batch.specs.Batch.{batch_frames};
ghost use Rattle.tap_queue.specs.Items.{AreNextFrames, Follows};

use afdx_frame::{LentFrame, Network};
use frame_batch::FrameBatch;

/// The requirements on a network's next frame.
#[derive(Clone, Copy)]
pub(crate) struct NextFrame {
    pub(crate) network: Network,
    /// By how many nanoseconds its timestamp may lie below the greatest one before it.
    pub(crate) late: u64,
    /// Its number, which is the number of frames before it.
    pub(crate) number: u64,
    /// The greatest timestamp before it, 0 where there is none.
    pub(crate) high: u64,
}

impl NextFrame {
    ghost use Rattle.std.specs.Prelude.{List, length};
    ghost use Rattle.afdx_frame.specs.Frame.{Frame};
    ghost use Rattle.tap_queue.specs.Items.{high_of};
    ghost use Rattle.tap_queue.specs.Passing.{PassesAll};

    /// The first frame of a recording.
    pub(crate) fn first(network: Network, late: u64) -> NextFrame
        ensures { result ≡ record { network = network; late = late; number = 0; high = 0 } }
    {
        NextFrame {
            network,
            late,
            number: 0,
            high: 0,
        }
    }

    /// Is the frame the next one? If it is, the frame after it is required from now on.
    #[inline]
    pub(crate) fn pass(&mut self, frame: &LentFrame<'_>) -> bool
        ensures next { IsTrue result ↔ Follows self.old.network self.old.late
            self.old.number self.old.high frame.now }
        ensures passed { IsTrue result → self.new ≡ record self.old {
          number = self.old.number + 1;
          high = max self.old.high frame.now.stamp;
        } }
        ensures bounded { IsTrue result → self.new.number ≤ 2 ^ 32 }
        ensures kept { IsFalse result → self.new ≡ self.old }
    {
        let stamp = frame.stamp().0;
        let is_next = frame.network() == self.network
            && frame.number() == self.number
            && self.high <= stamp.saturating_add(self.late);
        if is_next {
            self.number += 1;
            self.high = self.high.max(stamp);
        }
        is_next
    }

    /// Are the frames the next ones, one after another? If they are, the frame after them is required from
    /// now on.
    pub(crate) fn pass_all(&mut self, frames: &FrameBatch) -> bool
        ensures next { IsTrue result → (before : List Frame) → self.old.number ≡ length before
            → self.old.high ≡ high_of before
            → PassesAll before (batch_frames frames.now) self.old self.new }
        ensures refused { IsFalse result → (before : List Frame) → self.old.number ≡ length before
            → self.old.high ≡ high_of before
            → ¬ AreNextFrames self.old.network self.old.late before (batch_frames frames.now) }
        ensures bounded { IsTrue result → self.old.number ≤ 2 ^ 32 → self.new.number ≤ 2 ^ 32 }
        ensures kept { IsFalse result → self.new ≡ self.old }
    {
        let mut next = *self;
        for index in 0..frames.count() {
            if !next.pass(&frames.frame(index)) {
                return false;
            }
        }
        *self = next;
        true
    }
}
