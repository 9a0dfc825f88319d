//! A frame whose bytes are borrowed.
ghost use Rattle.std.specs.Prelude.{◌≡◌, IsSome, IfSome, length, ◌↔◌};
ghost use Rattle.afdx_frame.specs.Facts.{AreFactsOf};
ghost use Rattle.afdx_frame.specs.Frame.{IsFrame, frame_with, key_of};
ghost use Rattle.afdx_frame.specs.View.{constant_of, link_of, sequence_of, view_bytes};

use crate::bounds::is_within_bounds;
use crate::facts::Facts;
use crate::key::{Key, Network, Stamp, VlId};
use crate::view::FrameView;
use std::marker::Model;

/// A frame whose captured bytes are borrowed, as a reader finds them in its block. It keeps the
/// bounds of a [`TapFrame`](crate::TapFrame), and copies none of its bytes.
#[derive(Drop)]
pub struct LentFrame<'a> {
    network: Network,
    number: u64,
    stamp: Stamp,
    whole: u32,
    bytes: &'a [u8],
    facts: Facts,
}

impl<'a> Model for LentFrame<'a> {
    ghost use Rattle.afdx_frame.specs.Facts.{AreFactsOf};
    ghost use Rattle.afdx_frame.specs.Frame.{Frame, IsFrame, frame_with};

    ghost Value = { Frame };

    ghost view = { λ f. frame_with f.network f.number f.stamp.0 f.whole f.bytes.now };

    ghost invariant = { λ f. IsFrame (frame_with f.network f.number f.stamp.0 f.whole f.bytes.now)
        × AreFactsOf f.bytes.now f.facts };
}

impl<'a> LentFrame<'a> {
    /// A frame of these parts: `number` counts from 0, `whole` is the length on the wire in bytes.
    /// None: a part is out of bounds.
    #[inline(always)]
    pub fn new(
        network: Network,
        number: u64,
        stamp: Stamp,
        whole: u32,
        bytes: &'a [u8],
    ) -> Option<LentFrame<'a>>
        ensures some { IsSome result ↔ IsFrame (frame_with network number stamp.0 whole bytes.now) }
        ensures frame { IfSome result (λ f. f ≡ frame_with network number stamp.0 whole bytes.now) }
    {
        if is_within_bounds(number, stamp, whole, bytes.len()) {
            Some(LentFrame {
                network,
                number,
                stamp,
                whole,
                bytes,
                facts: Facts::of(bytes),
            })
        } else {
            None
        }
    }

    /// A frame of these parts, which keep all bounds, and of whose bytes these are the facts.
    #[inline(always)]
    pub fn of(
        network: Network,
        number: u64,
        stamp: Stamp,
        whole: u32,
        bytes: &'a [u8],
        facts: Facts,
    ) -> LentFrame<'a>
        requires bounds { IsFrame (frame_with network number stamp.0 whole bytes.now) }
        requires facts { AreFactsOf bytes.now facts }
        ensures { result ≡ frame_with network number stamp.0 whole bytes.now }
    {
        LentFrame {
            network,
            number,
            stamp,
            whole,
            bytes,
            facts,
        }
    }

    /// The network of the tap.
    #[inline(always)]
    pub fn network(&self) -> Network
        ensures { result ≡ self.now.network }
    {
        self.network
    }

    /// The index in the recording, from 0 and below 2^32.
    #[inline(always)]
    pub fn number(&self) -> u64
        ensures value { result ≡ self.now.number }
        ensures bounds { IsFrame self.now }
    {
        self.number
    }

    /// When the frame came, below 2^32 seconds.
    #[inline(always)]
    pub fn stamp(&self) -> Stamp
        ensures value { result.0 ≡ self.now.stamp }
        ensures bounds { IsFrame self.now }
    {
        self.stamp
    }

    /// The frame's length on the wire, in bytes.
    #[inline(always)]
    pub fn whole(&self) -> u32
        ensures value { result ≡ self.now.whole }
        ensures bounds { IsFrame self.now }
    {
        self.whole
    }

    /// The frame's place in the order of both taps.
    #[inline]
    pub fn key(&self) -> Key
        ensures { result ≡ key_of self.now }
    {
        Key {
            stamp: self.stamp,
            network: self.network,
            number: self.number,
        }
    }

    /// How many bytes were captured.
    #[inline(always)]
    pub fn captured(&self) -> usize
        ensures { result ≡ length self.now.bytes }
    {
        self.bytes.len()
    }

    /// The facts that the bytes say: the frame's address and place.
    #[inline(always)]
    pub fn facts(&self) -> Facts
        ensures { AreFactsOf self.now.bytes result }
    {
        self.facts
    }

    /// The constant field of the destination address. None below 4 bytes.
    #[inline(always)]
    pub fn constant(&self) -> Option<u32>
        ensures { result ≡ constant_of self.now.bytes }
    {
        if self.bytes.len() >= 4 {
            Some(self.facts.constant)
        } else {
            None
        }
    }

    /// The virtual link's identifier. None below 6 bytes.
    #[inline(always)]
    pub fn link(&self) -> Option<VlId>
        ensures { result ≡ link_of self.now.bytes }
    {
        if self.bytes.len() >= 6 {
            Some(VlId(self.facts.link))
        } else {
            None
        }
    }

    /// The sequence number: the last byte. None for no bytes.
    #[inline(always)]
    pub fn sequence(&self) -> Option<u8>
        ensures { result ≡ sequence_of self.now.bytes }
    {
        if self.bytes.is_empty() {
            None
        } else {
            Some(self.facts.sequence)
        }
    }

    /// The captured bytes, borrowed.
    #[inline(always)]
    pub fn view(&self) -> FrameView<'a>
        ensures value { view_bytes result ≡ self.now.bytes }
        ensures bounds { IsFrame self.now }
    {
        FrameView::new(self.bytes)
    }
}
