//! Worked examples of merging, step by step.

use crate::merge::{fetch, frame_at, is_round};
use afdx_frame::Network::{self, A, B};
use ordered_merge::Merger;
use std::alloc::AllocError;
use std::process::Abort;

/// A step of a merge.
#[derive(Clone, Copy)]
enum Step {
    /// This is the network to fetch from next.
    Wants(Option<Network>),
    /// Fetches the frame of this network, number and timestamp.
    Fetch(Network, u64, u64),
    /// The network has no more frames.
    End(Network),
    /// Cuts a round of these frames: timestamp, network and number.
    Cuts(&'static [(u64, Network, u64)]),
}

/// Takes a step.
fn takes_step(
    rt: &(impl Abort + AllocGlobal),
    merger: &mut Merger,
    step: Step,
) -> Result<(), AllocError> {
    match step {
        Step::Wants(network) => assert!(rt; merger.wants() == network),
        Step::Fetch(network, number, stamp) => {
            assert!(rt; fetch(rt, merger, network, number, stamp));
        }
        Step::End(network) => merger.end(network),
        Step::Cuts(expected) => is_round(rt, &merger.cut(256)?, expected),
    }
    Ok(())
}

/// Takes these steps from the beginning.
fn takes_steps(
    rt: &(impl Abort + AllocGlobal),
    late: u64,
    steps: &[Step],
) -> Result<(), AllocError> {
    let mut merger = Merger::new(rt.alloc(), late);
    for step in steps {
        takes_step(rt, &mut merger, *step)?;
    }
    Ok(())
}

/// The steps of four frames, none of them late.
const FOUR_FRAMES: [Step; 18] = [
    Step::Wants(Some(A)),
    Step::Fetch(A, 0, 1),
    Step::Cuts(&[]),
    Step::Wants(Some(B)),
    Step::Fetch(B, 0, 5),
    Step::Cuts(&[(1, A, 0)]),
    Step::Wants(Some(A)),
    Step::Fetch(A, 1, 9),
    Step::Cuts(&[(5, B, 0)]),
    Step::Fetch(B, 1, 9),
    Step::Cuts(&[(9, A, 1)]),
    Step::Wants(Some(A)),
    Step::End(A),
    Step::Wants(Some(B)),
    Step::Cuts(&[(9, B, 1)]),
    Step::End(B),
    Step::Wants(None),
    Step::Cuts(&[]),
];

/// The steps of frames of which some come late, by 5 ns at most.
const LATE_FRAMES: [Step; 10] = [
    Step::Fetch(A, 0, 10),
    Step::Fetch(A, 1, 5),
    Step::Fetch(B, 0, 12),
    Step::Cuts(&[(5, A, 1)]),
    Step::End(A),
    Step::Cuts(&[]),
    Step::Fetch(B, 1, 7),
    Step::Cuts(&[(7, B, 1)]),
    Step::End(B),
    Step::Cuts(&[(10, A, 0), (12, B, 0)]),
];

#[test]
fn frames_merged_step_by_step(rt: HostRuntime) {
    assert!(rt; takes_steps(&rt, 0, &FOUR_FRAMES).is_ok());
    assert!(rt; takes_steps(&rt, 5, &LATE_FRAMES).is_ok());
}

/// May the frame of this network, number and timestamp come next?
fn may_come(
    rt: &(impl Abort + AllocGlobal),
    merger: &Merger,
    network: Network,
    number: u64,
    stamp: u64,
) -> bool {
    merger.can_fetch(&frame_at(rt, network, number, stamp))
}

#[test]
fn frames_that_may_not_come(rt: HostRuntime) {
    let mut merger = Merger::new(rt.alloc(), 5);
    fetch(&rt, &mut merger, A, 0, 10);
    // number, stamp, within the window and the next
    for (number, stamp, fits) in &[(1, 5, true), (1, 4, false), (2, 10, false), (0, 10, false)] {
        assert!(rt; may_come(&rt, &merger, A, *number, *stamp) == *fits);
    }
    merger.end(A);
    assert!(rt; !may_come(&rt, &merger, A, 1, 10));
    assert!(rt; may_come(&rt, &merger, B, 0, 0));
}
