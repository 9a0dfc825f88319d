//! A frame that lasts.
ghost use Rattle.std.specs.Prelude.{◌≡◌, IsOk, IfOk, IfErr, IsSome, IfSome, ◌↔◌};
ghost use Rattle.afdx_frame.specs.Frame.{IsFrame, frame_with, key_of};
ghost use Rattle.afdx_frame.specs.View.{view_bytes};

use crate::bounds::is_within_bounds;
use crate::frame_bytes::FrameBytes;
use crate::key::{Key, Network, Stamp};
use crate::lent_frame::LentFrame;
use crate::view::FrameView;
use std::alloc::{AllocError, Global};
use std::marker::Model;

/// A frame as a tap recorded it: the network, its index in the recording, when it came, its length
/// on the wire and the captured bytes, which are the first of the frame and often not all. The bytes are its
/// own, or stand in a block that frames share: then it costs no allocation and no copy.
///
/// Each frame keeps these bounds: a number below 2^32 and a timestamp below 2^32 seconds (what pcap 2.4
/// counts with), at most 262144 bytes captured (libpcap's largest snapshot length), and no more than
/// there were on the wire.
#[derive(Debug, Drop)]
pub struct TapFrame {
    network: Network,
    number: u64,
    stamp: Stamp,
    whole: u32,
    bytes: FrameBytes,
}

impl Model for TapFrame {
    ghost use Rattle.afdx_frame.specs.Frame.{Frame, IsFrame, frame_with};

    ghost Value = { Frame };

    ghost view = { λ f. frame_with f.network f.number f.stamp.0 f.whole f.bytes };

    ghost invariant = { λ f. IsFrame (frame_with f.network f.number f.stamp.0 f.whole f.bytes) };
}

impl TapFrame {
    /// A frame of these parts: `number` counts from 0, `whole` is the length on the wire in bytes.
    /// Allocates nothing. An `Err` gives the bytes back: a part is out of bounds.
    #[inline]
    pub fn new(
        network: Network,
        number: u64,
        stamp: Stamp,
        whole: u32,
        bytes: Vec<u8>,
    ) -> Result<TapFrame, Vec<u8>>
        ensures ok { IsOk result ↔ IsFrame (frame_with network number stamp.0 whole bytes.items) }
        ensures frame { IfOk result (λ f. f ≡ frame_with network number stamp.0 whole bytes.items) }
        ensures given_back { IfErr result (λ b. b ≡ bytes) }
    {
        if is_within_bounds(number, stamp, whole, bytes.len()) {
            Ok(TapFrame {
                network,
                number,
                stamp,
                whole,
                bytes: FrameBytes::own(bytes),
            })
        } else {
            Err(bytes)
        }
    }

    /// As `new`, with bytes that may stand in a block that frames share. None: a part is out of bounds.
    #[inline(always)]
    pub fn sharing(
        network: Network,
        number: u64,
        stamp: Stamp,
        whole: u32,
        bytes: FrameBytes,
    ) -> Option<TapFrame>
        ensures some { IsSome result ↔ IsFrame (frame_with network number stamp.0 whole bytes) }
        ensures frame { IfSome result (λ f. f ≡ frame_with network number stamp.0 whole bytes) }
    {
        if is_within_bounds(number, stamp, whole, bytes.as_slice().len()) {
            Some(TapFrame {
                network,
                number,
                stamp,
                whole,
                bytes,
            })
        } else {
            None
        }
    }

    /// The network, the index in the recording, when the frame came, its length on the wire and its bytes.
    #[inline(always)]
    pub fn into_parts(self) -> (Network, u64, Stamp, u32, FrameBytes)
        ensures parts { frame_with result.0 result.1 result.2.0 result.3 result.4 ≡ self }
        ensures bounds { IsFrame self }
    {
        let TapFrame {
            network,
            number,
            stamp,
            whole,
            bytes,
        } = self;
        (network, number, stamp, whole, bytes)
    }

    /// The same frame once more, which shares the bytes where they stand in a block that frames share.
    ///
    /// # Errors
    ///
    /// Those of [`FrameBlock::share`](crate::FrameBlock::share).
    pub fn share(&self, alloc: Global) -> Result<TapFrame, AllocError>
        ensures { IfOk result (λ frame. frame ≡ self.now) }
    {
        let bytes = self.bytes.share(alloc)?;
        Ok(TapFrame::sharing(self.network, self.number, self.stamp, self.whole, bytes).unwrap())
    }

    /// The network of the tap.
    #[inline(always)]
    pub fn network(&self) -> Network
        ensures { result ≡ self.now.network }
    {
        self.network
    }

    /// The index in the recording, from 0 and below 2^32.
    #[inline(always)]
    pub fn number(&self) -> u64
        ensures value { result ≡ self.now.number }
        ensures bounds { IsFrame self.now }
    {
        self.number
    }

    /// When the frame came, below 2^32 seconds.
    #[inline(always)]
    pub fn stamp(&self) -> Stamp
        ensures value { result.0 ≡ self.now.stamp }
        ensures bounds { IsFrame self.now }
    {
        self.stamp
    }

    /// The frame's length on the wire, in bytes.
    #[inline(always)]
    pub fn whole(&self) -> u32
        ensures value { result ≡ self.now.whole }
        ensures bounds { IsFrame self.now }
    {
        self.whole
    }

    /// The frame's place in the order of both taps.
    #[inline]
    pub fn key(&self) -> Key
        ensures { result ≡ key_of self.now }
    {
        Key {
            stamp: self.stamp,
            network: self.network,
            number: self.number,
        }
    }

    /// The same frame with its bytes borrowed.
    #[inline(always)]
    pub fn lent(&self) -> LentFrame<'_>
        ensures { result ≡ self.now }
    {
        let TapFrame {
            network,
            number,
            stamp,
            whole,
            bytes,
        } = self;
        LentFrame::new(*network, *number, *stamp, *whole, bytes.as_slice()).unwrap()
    }

    /// The captured bytes, borrowed.
    #[inline(always)]
    pub fn view(&self) -> FrameView<'_>
        ensures value { view_bytes result ≡ self.now.bytes }
        ensures bounds { IsFrame self.now }
    {
        FrameView::new(self.bytes.as_slice())
    }
}
