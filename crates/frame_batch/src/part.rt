//! Some frames of a round, one after another.
ghost use Rattle.std.specs.Prelude.{◌≡◌, ◌<◌, ◌≤◌, get_or, length, slice_range};
ghost use Rattle.frame_batch.specs.Round.{draft_frames};

use crate::draft::{Placed, RoundDraft};
use crate::round::Round;
use afdx_frame::{FrameBlock, LentFrame};
use std::marker::Model;

/// Some frames of a round, one after another, which are borrowed.
#[derive(Drop)]
pub struct RoundPart<'a> {
    blocks: &'a [FrameBlock],
    places: &'a [Placed],
}

impl<'a> Model for RoundPart<'a> {
    ghost use Rattle.std.specs.Prelude.{List, map};
    ghost use Rattle.std.specs.List.{AllByRecursion};
    ghost use Rattle.afdx_frame.specs.Frame.{Frame};
    ghost use Rattle.afdx_frame.specs.FrameBytes.{block_bytes};
    ghost use Rattle.frame_batch.specs.Round.{IsPlaced, placed_frame};

    ghost Value = { List Frame };

    ghost view = { λ p. map (placed_frame (map block_bytes p.blocks.now)) p.places.now };

    ghost invariant = { λ p. AllByRecursion (IsPlaced (map block_bytes p.blocks.now)) p.places.now };
}

impl RoundDraft {
    /// The frames from one index up to another.
    #[inline]
    fn part(&self, from: usize, to: usize) -> RoundPart<'_>
        requires ordered { from ≤ to }
        requires within { to ≤ length self.now.places }
        ensures { result ≡ slice_range (draft_frames self.now) from to }
    {
        let (blocks, places) = (self.blocks.as_slice(), self.places.as_slice());
        RoundPart {
            blocks,
            places: &places[from..to],
        }
    }
}

impl Round {
    /// The frames from one index up to another.
    #[inline]
    pub fn part(&self, from: usize, to: usize) -> RoundPart<'_>
        requires ordered { from ≤ to }
        requires within { to ≤ length self.now }
        ensures { result ≡ slice_range self.now from to }
    {
        self.draft.part(from, to)
    }

    /// All its frames.
    #[inline]
    pub fn all(&self) -> RoundPart<'_>
        ensures { result ≡ self.now }
    {
        RoundPart {
            blocks: &self.draft.blocks,
            places: &self.draft.places,
        }
    }
}

impl<'a> RoundPart<'a> {
    /// How many frames there are.
    #[inline(always)]
    pub fn len(&self) -> usize
        ensures { result ≡ length self.now }
    {
        self.places.len()
    }

    /// The frame of an index.
    #[inline(always)]
    pub fn frame(&self, index: usize) -> LentFrame<'_>
        requires { index < length self.now }
        ensures { result ≡ get_or self.now index result }
    {
        let _count = self.places.len();
        let Placed { entry, block } = &self.places[index];
        entry.lent(self.blocks[*block].bytes())
    }
}
