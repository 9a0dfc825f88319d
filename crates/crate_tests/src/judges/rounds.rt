//! Rounds of frames, judged.
ghost use Rattle.std.specs.Prelude.{◌≡◌, true};
ghost use Rattle.vl_judge.specs.Lanes.{FollowsOn};

use crate::judges::TWO_LINKS;
use crate::rows::{FRAME, Row, frame_of};
use afdx_frame::Key;
use frame_batch::Round;
use integrity::Integrity;
use policing::Policing;
use redundancy::Redundancy;
use std::alloc::{AllocError, Global};
use std::process::Abort;
use std::test::Fail;
use vl_config::{Class, Config};
use vl_judge::{Lanes, Verdict};

/// Says whether the keys of a round rise, from above the last one on.
fn follows(last: Option<Key>, round: &Round) -> bool
    ensures { result ≡ true → FollowsOn last round.now }
{
    let mut before = last;
    for index in 0..round.len() {
        let next = round.frame(index).key();
        if let Some(key) = before {
            if key >= next {
                return false;
            }
        }
        before = Some(next);
    }
    true
}

/// The key of the last frame.
pub(super) fn last_of(round: &Round) -> Option<Key> {
    let last = round.len().checked_sub(1)?;
    Some(round.frame(last).key())
}

/// Judges a round that follows on all that the lanes have judged.
pub(super) fn judged(
    rt: &impl Abort,
    lanes: &mut Lanes,
    round: &Round,
) -> Result<Vec<Verdict>, AllocError> {
    assert!(rt; follows(lanes.last(), round));
    lanes.judge_frames(round)
}

/// A round of two links on network A.
const FRAMES: [Row; 4] = [
    FRAME,
    Row {
        place: 1,
        link: 6,
        number: 9,
        ..FRAME
    },
    Row {
        place: 2,
        stamp: 10,
        link: 6,
        number: 9,
        ..FRAME
    },
    Row {
        place: 3,
        stamp: 20,
        number: 4,
        ..FRAME
    },
];

/// A round of the frames of these rows.
fn round_of(alloc: Global, rows: &[Row]) -> Option<Round> {
    let mut frames = Vec::new(alloc);
    for row in rows {
        frames.push(frame_of(alloc, row)?).ok()?;
    }
    Round::from_frames(alloc, frames).ok()
}

/// That round.
pub(super) fn two_links(alloc: Global) -> Option<Round> {
    round_of(alloc, &FRAMES)
}

/// The verdicts of integrity checking and redundancy management on that round's frames.
const SAID: [(Integrity, Option<Redundancy>); 4] = [
    (Integrity::First, Some(Redundancy::Deliver)),
    (Integrity::Off, Some(Redundancy::Both)),
    (Integrity::Off, Some(Redundancy::Both)),
    (Integrity::Out, None),
];

/// The verdict of a frame that is within its account.
fn says(rt: &impl Abort, verdict: &Verdict, integrity: Integrity, redundancy: Option<Redundancy>) {
    assert!(rt; verdict.class == Class::Regular);
    assert!(rt; verdict.policing == Some(Policing::Within));
    assert!(rt; verdict.integrity == Some(integrity));
    assert!(rt; verdict.redundancy == redundancy);
}

/// The verdicts of that round's frames.
pub(super) fn says_of_two_links(rt: &impl Abort, said: &[Verdict]) {
    assert!(rt; said.len() == SAID.len());
    for (verdict, (integrity, redundancy)) in said.iter().zip(&SAID) {
        says(rt, verdict, *integrity, *redundancy);
    }
}

/// Judges that round as two, of which the first has so many frames.
fn in_two_rounds(
    rt: &(impl Abort + AllocGlobal),
    mut lanes: Lanes,
    cut: usize,
) -> Result<(), Fail> {
    let (first, second) = FRAMES.split_at(FRAMES.len().min(cut));
    let first = round_of(rt.alloc(), first).ok_or("no round")?;
    let mut said = judged(rt, &mut lanes, &first)?;
    assert!(rt; said.len() == first.len());
    assert!(rt; lanes.last() == last_of(&first));
    let second = round_of(rt.alloc(), second).ok_or("no round")?;
    let more = judged(rt, &mut lanes, &second)?;
    said.extend_from_slice(&more)?;
    says_of_two_links(rt, &said);
    let both = two_links(rt.alloc()).ok_or("no round")?;
    assert!(rt; lanes.last() == last_of(&both));
    Ok(())
}

#[test]
fn two_links_in_lanes(rt: HostRuntime) -> Result<(), Fail> {
    let config = Config::read(rt.alloc(), TWO_LINKS)?;
    for cut in [0, 2, 4] {
        let lanes = Lanes::new(rt.alloc(), &config)?;
        in_two_rounds(&rt, lanes, cut)?;
    }
    Ok(())
}
