//! Recordings that have frames twice, or frames of the other network.

use crate::clocks::Sample;
use crate::decide::wiring_of;
use crate::inputs::Inputs;
use crate::questions::{Affected, Question};
use afdx_frame::{Network, Stamp};
use std::alloc::AllocError;
use vl_config::Link;

/// Of so many first frames at least it is looked whether they come twice.
const LEAST_FRAMES: usize = 8;

/// Does a frame have the number of the one before, closer than half of a BAG? One sender doesn't send so.
fn is_again(link: &Link, before: &Sample, sample: &Sample) -> bool {
    before.number == sample.number && sample.stamp.saturating_sub(before.stamp) < link.bag / 2
}

/// Do the first frames of a link come twice on a network, a quarter of them at least?
fn comes_twice(link: &Link, starts: &[Sample]) -> bool {
    let pairs = starts.iter().zip(starts.iter().skip(1));
    let again = pairs
        .filter(|(before, sample)| is_again(link, before, sample))
        .count();
    starts.len() >= LEAST_FRAMES && again >= starts.len() / 4
}

/// Do the frames of most links that have some come twice on a network?
fn are_twice(inputs: &Inputs<'_>, network: Network) -> bool {
    let (mut twice, mut known) = (0usize, 0usize);
    for (link, tally) in inputs.links().iter().zip(inputs.tallies()) {
        let starts = tally.starts(network);
        if link.integrity && starts.len() >= LEAST_FRAMES {
            known = known.saturating_add(1);
            if comes_twice(link, starts) {
                twice = twice.saturating_add(1);
            }
        }
    }
    twice > known / 2
}

/// Do the source addresses of a recording name both networks, each in a quarter of its frames at least?
fn names_both(inputs: &Inputs<'_>, network: Network) -> bool {
    let marks = inputs.tap(network).marks;
    let quarter = marks.frames / 4;
    marks.as_a > 0 && marks.as_a >= quarter && marks.as_b > 0 && marks.as_b >= quarter
}

/// The frames on a network whose source addresses name the other one, if there are some.
fn crossing_of(inputs: &Inputs<'_>, network: Network) -> Option<Affected> {
    let others = inputs.tap(network).crossed.others()?;
    let mut crossing: Option<Affected> = None;
    for (link, tally) in inputs.links().iter().zip(inputs.tallies()) {
        if !tally.is_crossed(network) {
            continue;
        }
        let (first, links) = match crossing {
            Some(before) => (before.link, before.links),
            None => (link.id, 0),
        };
        crossing = Some(Affected {
            network,
            frames: others.frames,
            of: others.of,
            link: first,
            links: links.saturating_add(1),
            first: others.first,
            last: others.last,
        });
    }
    crossing
}

/// The frames of a network that have all bytes of the one before, if there are some.
fn doubled_of(inputs: &Inputs<'_>, network: Network) -> Option<Affected> {
    let mut of = 0u64;
    let mut doubled: Option<Affected> = None;
    for (link, tally) in inputs.links().iter().zip(inputs.tallies()) {
        of = of.saturating_add(tally.frames(network));
        let more = tally.doubles(network);
        if more.frames > 0 {
            let more = Affected {
                network,
                frames: more.frames,
                of: 0,
                link: link.id,
                links: 1,
                first: more.first,
                last: more.last,
            };
            doubled = Some(more.after(doubled));
        }
    }
    let doubled = doubled?;
    Some(Affected { of, ..doubled })
}

/// Are the recordings told to be other networks' than the frames', or to be one?
fn is_wiring_told(inputs: &Inputs<'_>) -> bool {
    let (a, b) = (inputs.tap(Network::A), inputs.tap(Network::B));
    a.is_same(b) || wiring_of(a.marks, b.marks).is_some()
}

/// Of the recording of a network: has it frames twice, or of the other network?
pub(crate) fn ask_of_recording(
    questions: &mut Vec<Question>,
    inputs: &Inputs<'_>,
    network: Network,
) -> Result<(), AllocError> {
    let is_twice = are_twice(inputs, network);
    let mixed = is_twice && names_both(inputs, network);
    match doubled_of(inputs, network) {
        Some(doubled) if !mixed => questions.push(Question::Doubled(doubled))?,
        _ if is_twice => questions.push(Question::Twice { network, mixed })?,
        _ => {}
    }
    if mixed || is_wiring_told(inputs) {
        return Ok(());
    }
    if let Some(crossing) = crossing_of(inputs, network) {
        questions.push(Question::Crossed(crossing))?;
    }
    Ok(())
}
