//! The worked examples of classes and of whole verdicts.

use crate::rows::{FRAME, Row, frame_of, judge_next};
use crate::support::TABLE;
use afdx_frame::Network;
use integrity::Integrity;
use policing::Policing;
use redundancy::Redundancy;
use std::process::Abort;
use std::test::Fail;
use vl_config::{Class, Config};
use vl_judge::{Lanes, Verdict};

/// The verdict on a frame that has gone through all judgements, or is stopped before one.
type Said = (
    Class,
    Option<Policing>,
    Option<Integrity>,
    Option<Redundancy>,
);

const DELIVERED: Said = (
    Class::Regular,
    Some(Policing::Within),
    Some(Integrity::First),
    Some(Redundancy::Deliver),
);

const LONG: Row = Row {
    whole: 196,
    captured: 196,
    ..FRAME
};

/// A frame beyond the account is seen by no later judgement.
const WITHIN_EXCESS_THEN_SKIP: [(Row, Said); 3] = [
    (LONG, DELIVERED),
    (
        Row {
            place: 1,
            stamp: 10,
            number: 2,
            ..LONG
        },
        (Class::Regular, Some(Policing::Excess), None, None),
    ),
    (
        Row {
            place: 2,
            stamp: 1_000_000,
            number: 3,
            ..LONG
        },
        (
            Class::Regular,
            Some(Policing::Within),
            Some(Integrity::Skip),
            Some(Redundancy::Deliver),
        ),
    ),
];

/// One frame of each class, and one that has no byte.
const CLASSES: [(Row, Said); 8] = [
    (
        Row {
            place: 0,
            stamp: 0,
            whole: 60,
            captured: 59,
            ..FRAME
        },
        (Class::Cut, None, None, None),
    ),
    (
        Row {
            place: 1,
            stamp: 1,
            whole: 59,
            captured: 59,
            ..FRAME
        },
        (Class::Runt, None, None, None),
    ),
    (
        Row {
            place: 2,
            stamp: 2,
            whole: 1515,
            captured: 1515,
            ..FRAME
        },
        (Class::Oversize, None, None, None),
    ),
    (
        Row {
            place: 3,
            stamp: 3,
            whole: 60,
            captured: 60,
            first: 7,
            ..FRAME
        },
        (Class::Foreign, None, None, None),
    ),
    (
        Row {
            place: 4,
            stamp: 4,
            whole: 60,
            captured: 60,
            link: 6,
            ..FRAME
        },
        (Class::Unconfigured, None, None, None),
    ),
    (
        Row {
            place: 5,
            stamp: 5,
            whole: 197,
            captured: 197,
            ..FRAME
        },
        (Class::TooLong, None, None, None),
    ),
    (
        Row {
            place: 6,
            stamp: 6,
            whole: 196,
            captured: 196,
            ..FRAME
        },
        DELIVERED,
    ),
    (
        Row {
            place: 7,
            stamp: 7,
            whole: 0,
            captured: 0,
            ..FRAME
        },
        (Class::Runt, None, None, None),
    ),
];

const A_COPY_AT_ONE_STAMP: [(Row, Said); 2] = [
    (Row { stamp: 5, ..FRAME }, DELIVERED),
    (
        Row {
            network: Network::B,
            stamp: 5,
            ..FRAME
        },
        (
            Class::Regular,
            Some(Policing::Within),
            Some(Integrity::First),
            Some(Redundancy::Copy),
        ),
    ),
];

/// The verdict is this one.
fn says(rt: &impl Abort, verdict: &Verdict, (class, policing, integrity, redundancy): &Said) {
    assert!(rt; verdict.class == *class);
    assert!(rt; verdict.policing == *policing);
    assert!(rt; verdict.integrity == *integrity);
    assert!(rt; verdict.redundancy == *redundancy);
}

/// Judges frames in turn: each has the verdict that stands beside it.
fn judges(rt: &(impl Abort + AllocGlobal), config: &Config, cases: &[(Row, Said)]) -> Option<()> {
    let mut lanes = Lanes::new(rt.alloc(), config).ok()?;
    assert!(rt; lanes.last() == None);
    for (row, said) in cases {
        let frame = frame_of(rt.alloc(), row)?;
        assert!(rt; config.class(&frame) == said.0);
        says(rt, &judge_next(rt, &mut lanes, &frame), said);
        assert!(rt; lanes.last() == Some(frame.key()));
    }
    Some(())
}

/// Each of them is judged from the beginning.
const EXAMPLES: [&[(Row, Said)]; 3] = [&WITHIN_EXCESS_THEN_SKIP, &CLASSES, &A_COPY_AT_ONE_STAMP];

#[test]
fn verdicts_of_the_worked_examples(rt: HostRuntime) -> Result<(), Fail> {
    let config = Config::read(rt.alloc(), TABLE)?;
    for cases in &EXAMPLES {
        assert!(rt; judges(&rt, &config, cases).is_some());
    }
    Ok(())
}
