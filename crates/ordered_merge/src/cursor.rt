//! A place among the pending frames of one tap, from which they are copied.
ghost use Rattle.std.specs.Prelude.{◌≡◌, ◌+◌, ◌<◌, ◌++◌, [], Bool, List, ℕ, IfOk, OnOk, cond, drop, length, slice_get, take};
ghost use Rattle.std.specs.Option.{option_map};
ghost use Rattle.afdx_frame.specs.Frame.{Frame, key_of};
ghost use Rattle.frame_batch.specs.Cursor.{cursor_left};
ghost use Rattle.frame_batch.specs.Round.{draft_frames};
ghost use Rattle.ordered_merge.specs.Order.{IsRising, insert_frames, leads};

use crate::order::comes_before;
use afdx_frame::{Key, TapFrame};
use frame_batch::{QueueCursor, RoundDraft};
use std::alloc::{AllocError, Global};
use std::collections::VecDeque;

/// A place among the pending frames of one tap, from which they are copied in order.
#[derive(Clone, Copy)]
pub(crate) struct TapCursor<'a> {
    queue: QueueCursor<'a>,
    late: &'a VecDeque<TapFrame>,
    /// How many of those that came late were copied.
    passed: usize,
    /// True if the first frame that is left is one that came late.
    is_late: bool,
    /// The key of the first frame that is left.
    first: Option<Key>,
    ghost late_leads: { is_late ≡ leads (drop passed late.now.items) (cursor_left queue) },
    ghost first_key: { first ≡ option_map key_of (slice_get
        (cond is_late (drop passed late.now.items) (cursor_left queue)) 0) },
}

/// True if the first of all frames is the first list's, where each list begins with a frame of this key, or
/// is empty.
#[inline(always)]
fn key_leads(first: Option<Key>, other: Option<Key>) -> bool
    ensures { (f g : List Frame) → first ≡ option_map key_of (slice_get f 0)
        → other ≡ option_map key_of (slice_get g 0) → result ≡ leads f g }
{
    match (first, other) {
        (None, _) => false,
        (Some(_), None) => true,
        (Some(first), Some(other)) => comes_before(first, other),
    }
}

impl<'a> TapCursor<'a> {
    ghost use Rattle.ordered_merge.specs.Cursor.{CanCopy, late_left, tap_left};

    /// At the first frame of a queue from a cursor on, and of those that came late but for so many.
    #[inline(always)]
    fn at(queue: QueueCursor<'a>, late: &'a VecDeque<TapFrame>, passed: usize) -> TapCursor<'a>
        ensures queue { result.queue ≡ queue.entry }
        ensures late { late_left result ≡ drop passed late.now.items }
    {
        let late_key = match late.get(passed) {
            Some(frame) => Some(frame.key()),
            None => None,
        };
        let queue_key = queue.first_key();
        let is_late = key_leads(late_key, queue_key);
        TapCursor {
            queue,
            late,
            passed,
            is_late,
            first: if is_late { late_key } else { queue_key },
        }
    }

    /// At the first frame of both.
    pub(crate) fn new(queue: QueueCursor<'a>, late: &'a VecDeque<TapFrame>) -> TapCursor<'a>
        ensures queue { result.queue ≡ queue.entry }
        ensures late { late_left result ≡ late.now.items }
    {
        TapCursor::at(queue, late, 0)
    }

    /// True if the first frame that is left of both is this one's.
    #[inline(always)]
    pub(crate) fn leads(&self, other: &TapCursor<'_>) -> bool
        requires late_rises { IsRising (late_left self.now) }
        requires queue_rises { IsRising (cursor_left self.now.queue) }
        requires other_late_rises { IsRising (late_left other.now) }
        requires other_queue_rises { IsRising (cursor_left other.now.queue) }
        ensures { result ≡ leads (tap_left self.now) (tap_left other.now) }
    {
        key_leads(self.first, other.first)
    }

    /// Copies the first frame that is left into the draft, and goes on to the next.
    ///
    /// # Errors
    ///
    /// `AllocError` if there is no memory for it.
    #[inline(always)]
    pub(crate) fn copy_first(
        &mut self,
        alloc: Global,
        draft: &mut RoundDraft,
    ) -> Result<(), AllocError>
        requires some { 0 < length (tap_left self.old) }
        requires can { CanCopy self.old draft.old }
        ensures frames { OnOk result (draft_frames draft.new
            ≡ draft_frames draft.old ++ take 1 (tap_left self.old)) }
        ensures blocks { OnOk result ((more : List (List ℕ))
            × (draft.new.blocks ≡ draft.old.blocks ++ more)) }
        ensures left { OnOk result (tap_left self.new ≡ drop 1 (tap_left self.old)) }
        ensures can { OnOk result (CanCopy self.new draft.new) }
    {
        if !self.is_late {
            let mut queue = self.queue;
            queue.copy_first(alloc, draft)?;
            *self = TapCursor::at(queue, self.late, self.passed);
            return Ok(());
        }
        draft.add_frame(self.late[self.passed].share(alloc)?)?;
        *self = TapCursor::at(self.queue, self.late, self.passed + 1);
        Ok(())
    }
}
