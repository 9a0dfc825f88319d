//! The one order of both taps' frames: worked examples, and the core over a list of events.

use afdx_frame::{Network, Stamp, TapFrame};
use frame_batch::Round;
use ordered_merge::Merger;
use std::process::Abort;

// further: mod cores;
// further: mod lists;
// further: mod numbers;
mod worked;

/// A frame of no captured bytes.
fn frame_at(
    rt: &(impl Abort + AllocGlobal),
    network: Network,
    number: u64,
    stamp: u64,
) -> TapFrame {
    match TapFrame::new(network, number, Stamp(stamp), 60, Vec::new(rt.alloc())) {
        Ok(frame) => frame,
        Err(_) => panic!(rt; "out of bounds"),
    }
}

/// Fetches a frame that may come next. Returns whether there was the memory.
fn fetch(
    rt: &(impl Abort + AllocGlobal),
    merger: &mut Merger,
    network: Network,
    number: u64,
    stamp: u64,
) -> bool {
    let frame = frame_at(rt, network, number, stamp);
    assert!(rt; merger.can_fetch(&frame));
    match merger.fetch(frame) {
        Ok(()) => true,
        Err(frame) => {
            assert!(rt; frame.number() == number);
            false
        }
    }
}

/// The frames of a round are these: timestamp, network and number.
fn is_round(rt: &impl Abort, round: &Round, expected: &[(u64, Network, u64)]) {
    assert!(rt; round.len() == expected.len());
    for index in 0..round.len().min(expected.len()) {
        let key = round.frame(index).key();
        let (stamp, network, number) = &expected[index];
        assert!(rt; key.stamp.0 == *stamp);
        assert!(rt; key.network == *network);
        assert!(rt; key.number == *number);
    }
}
