//! Batches that wait.
ghost use Rattle.std.specs.Prelude.{◌≡◌, ◌+◌, ◌-◌, ◌<◌, ◌≤◌, ◌++◌, ◌↔◌, [], IfErr, IsTrue, OnErr, OnOk, drop, length, slice_get, take};
ghost use Rattle.std.specs.List.{prefix_len};
ghost use Rattle.std.specs.Option.{option_map};
ghost use Rattle.frame_batch.specs.Batch.{batch_frames};
ghost use Rattle.frame_batch.specs.Queue.{comes_below};

use crate::batch::FrameBatch;
use crate::cursor::QueueCursor;
use afdx_frame::LentFrame;
use std::alloc::Global;
use std::collections::VecDeque;
use std::marker::Model;

/// The frames of batches, one after another.
#[derive(Drop)]
pub struct FrameQueue {
    batches: VecDeque<FrameBatch>,
}

impl Model for FrameQueue {
    ghost use Rattle.std.specs.Prelude.{List};
    ghost use Rattle.afdx_frame.specs.Frame.{Frame};
    ghost use Rattle.frame_batch.specs.Queue.{queue_frames};

    ghost Value = { List Frame };

    ghost view = { λ q. queue_frames q.batches.items };
}

/// How many frames of a batch came before a moment, before the first that didn't; no more than `most`.
fn count_in_batch(batch: &FrameBatch, bound: u64, most: usize) -> usize
    ensures { result ≡ prefix_len (comes_below bound) (take most (batch_frames batch.now)) }
{
    let room = most.min(batch.count());
    for index in 0..room {
        if batch.entry(index).stamp().0 >= bound {
            return index;
        }
    }
    room
}

impl FrameQueue {
    ghost use Rattle.frame_batch.specs.Cursor.{IsAmong, cursor_left};

    /// No frames. Allocates nothing.
    pub fn new(alloc: Global) -> FrameQueue
        ensures { result ≡ [] }
    {
        FrameQueue {
            batches: VecDeque::new(alloc),
        }
    }

    /// The first frame.
    #[inline(always)]
    pub fn front(&self) -> Option<LentFrame<'_>>
        ensures { result ≡ slice_get self.now 0 }
    {
        match self.batches.len() {
            0 => None,
            _ => Some(self.batches[0].first()),
        }
    }

    /// The last frame.
    #[inline]
    pub fn back(&self) -> Option<LentFrame<'_>>
        ensures { result ≡ slice_get self.now (length self.now - 1) }
    {
        match self.batches.len() {
            0 => None,
            count => Some(self.batches[count - 1].last()),
        }
    }

    /// Adds a batch. An `Err` gives it back: there is no memory, and nothing has changed.
    pub fn push(&mut self, batch: FrameBatch) -> Result<(), FrameBatch>
        ensures added { OnOk result (self.new ≡ self.old ++ batch_frames batch) }
        ensures unchanged { OnErr result (self.new ≡ self.old) }
        ensures given_back { IfErr result (λ b. b ≡ batch) }
    {
        match self.batches.push_back(batch) {
            Ok(()) => Ok(()),
            Err(refused) => Err(refused.value),
        }
    }

    /// How many frames there are. No clause says so.
    pub fn count(&self) -> usize {
        let mut count = 0usize;
        for batch in self.batches.iter() {
            count = count.saturating_add(batch.count());
        }
        count
    }

    /// Takes out so many first frames, or all where there are no more.
    pub fn skip(&mut self, count: usize)
        ensures { self.new ≡ drop count self.old }
    {
        let mut left = count;
        while left > 0 && self.batches.len() > 0 {
            let first = self.batches[0].count();
            if left < first {
                self.batches[0].skip(left);
                return;
            }
            left -= first;
            drop(self.batches.pop_front());
        }
    }

    /// How many frames came before a moment, before the first that didn't; no more than `most`.
    pub fn count_below(&self, bound: u64, most: usize) -> usize
        ensures { result ≡ prefix_len (comes_below bound) (take most self.now) }
    {
        let mut count = 0;
        for index in 0..self.batches.len() {
            let batch = &self.batches[index];
            let more = count_in_batch(batch, bound, most - count);
            count += more;
            if more < batch.count() {
                return count;
            }
        }
        count
    }

    /// A cursor at the first frame.
    #[inline]
    pub fn cursor(&self) -> QueueCursor<'_>
        ensures left { cursor_left result ≡ self.now }
        ensures block { IsAmong result [] }
    {
        QueueCursor::at_first(&self.batches)
    }
}
