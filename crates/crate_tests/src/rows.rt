//! Frames as rows of tables, and the judge of frames that come in order.

use afdx_frame::{Network, Stamp, TapFrame};
use std::alloc::{AllocError, Global};
use std::process::Abort;
use vl_judge::{Lanes, Verdict};

/// A frame, how many of its bytes are kept, and the mask of the filters that accept it.
#[derive(Clone, Copy)]
pub struct Row {
    pub network: Network,
    pub place: u64,
    pub stamp: u64,
    /// Its length on the wire, and how many of its bytes were captured.
    pub whole: u32,
    pub captured: usize,
    /// The constant field's first byte.
    pub first: u8,
    pub link: u16,
    pub number: u8,
    pub keep: Option<u32>,
    pub mask: u8,
}

/// The first frame of the worked examples: 60 bytes of link 5 on network A, which filter 0 accepts whole.
pub const FRAME: Row = Row {
    network: Network::A,
    place: 0,
    stamp: 0,
    whole: 60,
    captured: 60,
    first: 3,
    link: 5,
    number: 1,
    keep: Some(60),
    mask: 1,
};

/// The bytes of a frame: the constant field, the link's identifier, zeros and the sequence number.
pub fn bytes_of(
    alloc: Global,
    first: u8,
    link: u16,
    len: usize,
    number: u8,
) -> Result<Vec<u8>, AllocError> {
    let mut bytes = Vec::with_capacity(alloc, len)?;
    let [high, low] = link.to_be_bytes();
    bytes.extend_from_slice(&[first, 0, 0, 0, high, low])?;
    bytes.resize(len.saturating_sub(1), 0)?;
    bytes.push(number)?;
    bytes.truncate(len);
    Ok(bytes)
}

/// The frame of a row. None: there is no memory for it, or no such frame.
pub fn frame_of(alloc: Global, row: &Row) -> Option<TapFrame> {
    let bytes = bytes_of(alloc, row.first, row.link, row.captured, row.number).ok()?;
    TapFrame::new(row.network, row.place, Stamp(row.stamp), row.whole, bytes).ok()
}

/// Judges a frame that comes after the last one.
pub fn judge_next(rt: &impl Abort, lanes: &mut Lanes, frame: &TapFrame) -> Verdict {
    if let Some(last) = lanes.last() {
        assert!(rt; last < frame.key());
    }
    lanes.judge(&frame.lent())
}
