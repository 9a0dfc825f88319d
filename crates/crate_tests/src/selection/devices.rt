//! A ledger that fails between lines, or within one: what its whole lines before say is written.

use crate::support::{FIRST_RUN, HEADER, SOUND, WIDE};
use cut_run::{CutFault, CutSource, NoObserver, cut_frames, print_lines};
use ledger_text::Selection;
use packet_format::PacketFormat;
use pcap_io::{MemSink, MemSource, Script};
use std::alloc::{AllocError, Global};
use std::test::Fail;

/// A ledger of the first run's frames, on network A.
const LEDGER: &[u8] = b"afdx-ledger 2\n\
0 A 0 5 1 regular within first deliver - 00\n\
1 A 1 6 1 regular within first deliver - 00\n";

/// The lines of frames in it.
const LINES: &[u8] = b"0 A 0 5 1 regular within first deliver - 00\n\
1 A 1 6 1 regular within first deliver - 00\n";

/// How much of the ledger is read before its source fails, and how much of the lines of frames and of their
/// capture is written: the head has 14 bytes, and each line 44.
static FAILURES: [(usize, usize, usize); 6] = [
    (14, 0, 24),
    (15, 0, 24),
    (58, 44, 100),
    (59, 44, 100),
    (101, 44, 100),
    (102, 88, 176),
];

/// The sink has so many bytes, those with which the text begins.
fn has_first(sink: &MemSink, text: &[u8], len: usize) -> bool {
    sink.taken().len() == len && text.starts_with(sink.taken())
}

/// A ledger whose source gives so many bytes and then fails.
fn failing(alloc: Global, len: usize) -> Result<MemSource, AllocError> {
    let script = Script {
        piece: len,
        miss: Some(1),
        ..SOUND
    };
    Ok(MemSource::new(Vec::from_slice(alloc, LEDGER)?, script))
}

fn source(alloc: Global, bytes: &[u8]) -> Result<MemSource, AllocError> {
    Ok(MemSource::new(Vec::from_slice(alloc, bytes)?, SOUND))
}

/// Takes each line.
const EVERY_LINE: Selection = Selection {
    links: None,
    network: None,
    words: None,
    from: None,
    to: None,
    filters: None,
};

/// The ledger failed.
const LEDGER_FAILS: CutFault = CutFault::Read {
    source: CutSource::Ledger,
};

#[test]
fn a_printed_ledger_that_fails_between_lines(rt: HostRuntime) -> Result<(), Fail> {
    for (len, printed, _) in FAILURES {
        let sink = MemSink::new(rt.alloc(), WIDE)?;
        let no_recordings: Option<(MemSource, MemSource)> = None;
        let ledger = failing(rt.alloc(), len)?;
        let lines = print_lines(
            rt.alloc(),
            &EVERY_LINE,
            None,
            None,
            ledger,
            no_recordings,
            sink,
            &NoObserver,
        );
        assert!(rt; lines.outcome == Err(LEDGER_FAILS));
        assert!(rt; has_first(&lines.output, LINES, printed));
    }
    Ok(())
}

#[test]
fn a_cut_ledger_that_fails_between_lines(rt: HostRuntime) -> Result<(), Fail> {
    for (len, _, captured) in FAILURES {
        let sink = MemSink::new(rt.alloc(), WIDE)?;
        let (a, b) = (
            source(rt.alloc(), &FIRST_RUN)?,
            source(rt.alloc(), &HEADER)?,
        );
        let ledger = failing(rt.alloc(), len)?;
        let cut = cut_frames(
            rt.alloc(),
            &EVERY_LINE,
            None,
            None,
            ledger,
            a,
            b,
            PacketFormat::Pcap,
            sink,
            &NoObserver,
        );
        assert!(rt; cut.outcome == Err(LEDGER_FAILS));
        assert!(rt; has_first(&cut.output, &FIRST_RUN, captured));
    }
    Ok(())
}
