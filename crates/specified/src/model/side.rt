//! The model's side of each tap: the frames to come, and its ring.
ghost use Rattle.std.specs.Prelude.{◌≡◌, ◌<◌, [], ◌∷◌, ◌++◌, IfNone, IfOk, OnSome, length};
ghost use Rattle.std.specs.Option.{option_to_list};
ghost use Rattle.specified.specs.Events.Side.{Steps, end_step, new_side, put_step};

use afdx_frame::TapFrame;
use std::alloc::{AllocError, Global};
use std::collections::VecDeque;
use std::marker::Model;

/// The things that a tap puts onto its ring.
#[derive(Drop)]
pub(crate) enum RingItem {
    Frame(TapFrame),
    End,
}

/// The frames of a tap that weren't put yet, and its ring.
#[derive(Drop)]
pub(crate) struct TapSide {
    left: VecDeque<TapFrame>,
    marked: bool,
    /// The most items on the ring.
    capacity: usize,
    ring: VecDeque<RingItem>,
}

impl Model for TapSide {
    ghost use Rattle.std.specs.Prelude.{◌≤◌, length};
    ghost use Rattle.std.specs.VecDeque.{deque_capacity};
    ghost use Rattle.specified.specs.Events.Side.{SideState};

    ghost Value = { SideState };

    ghost view = { λ s. record {
      left = s.left.items;
      marked = s.marked;
      capacity = s.capacity;
      ring = s.ring.items;
    } };

    ghost invariant = { λ s.
        (s.capacity ≤ deque_capacity s.ring) × (length s.ring.items ≤ s.capacity) };
}

impl TapSide {
    /// A tap that puts these frames onto a ring of so many items.
    pub(crate) fn new(
        alloc: Global,
        capacity: usize,
        frames: Vec<TapFrame>,
    ) -> Result<TapSide, AllocError>
        ensures { IfOk result (λ s. s ≡ new_side capacity frames.items) }
    {
        Ok(TapSide {
            left: VecDeque::from_vec(frames),
            marked: false,
            capacity,
            ring: VecDeque::with_capacity(alloc, capacity)?,
        })
    }

    /// Puts the next frame onto the ring, if there is one and the ring has room.
    pub(crate) fn put(&mut self) -> bool
        ensures { Steps (put_step self.old) self.old result self.new }
    {
        if self.ring.len() >= self.capacity {
            return false;
        }
        match self.left.pop_front() {
            Some(frame) => {
                self.ring.push_back_reserved(RingItem::Frame(frame));
                true
            }
            None => false,
        }
    }

    /// Puts the end mark onto the ring, if all frames were put and it wasn't, and the ring has room.
    pub(crate) fn mark_end(&mut self) -> bool
        ensures { Steps (end_step self.old) self.old result self.new }
    {
        if self.marked || !self.left.is_empty() || self.ring.len() >= self.capacity {
            return false;
        }
        self.ring.push_back_reserved(RingItem::End);
        self.marked = true;
        true
    }

    /// Takes the oldest item off the ring.
    pub(crate) fn take(&mut self) -> Option<RingItem>
        ensures ring { self.old.ring ≡ option_to_list result ++ self.new.ring }
        ensures left { self.new.left ≡ self.old.left }
        ensures marked { self.new.marked ≡ self.old.marked }
        ensures capacity { self.new.capacity ≡ self.old.capacity }
        ensures room { OnSome result (length self.new.ring < self.new.capacity) }
        ensures none { IfNone result (self.old.ring ≡ []) }
    {
        self.ring.pop_front()
    }

    /// Puts an item back onto the ring, as its oldest.
    pub(crate) fn put_back(&mut self, item: RingItem)
        requires { length self.old.ring < self.old.capacity }
        ensures ring { self.new.ring ≡ item ∷ self.old.ring }
        ensures left { self.new.left ≡ self.old.left }
        ensures marked { self.new.marked ≡ self.old.marked }
        ensures capacity { self.new.capacity ≡ self.old.capacity }
    {
        self.ring.push_front_reserved(item);
    }
}
