//! The part of a frame that a survey counts it by.

use crate::survey::is_ethernet;
use afdx_frame::{LentFrame, Stamp, VlId};

/// The facts by which a survey counts a frame, without its bytes.
#[derive(Clone, Copy)]
pub(crate) struct Brief {
    pub(crate) stamp: Stamp,
    /// The length on the wire, in bytes without the frame check sequence.
    pub(crate) whole: u32,
    pub(crate) constant: u32,
    pub(crate) link: VlId,
    pub(crate) number: u8,
}

impl Brief {
    /// That of a frame. None: it wasn't recorded whole, or hasn't an Ethernet frame's length.
    #[inline(always)]
    pub(crate) fn of(frame: &LentFrame<'_>) -> Option<Brief> {
        if !is_ethernet(frame) {
            return None;
        }
        Some(Brief {
            stamp: frame.stamp(),
            whole: frame.whole(),
            constant: frame.constant()?,
            link: frame.link()?,
            number: frame.sequence()?,
        })
    }
}
