//! The frames of a ledger's lines, cut from its recordings.
use crate::files::refuse_shared;
use crate::inputs::{MAX_LATE, is_at_terminal, table_of};
use crate::outputs::{LineTally, create, format_of, live_output};
use afdx_frame::Network;
use command_line::{
    CutArguments, Exit, Fault, FileOption, Invocation, SelectionOption, is_standard, selection_of,
};
use cut_run::{
    CutEnding, CutFault, LinesRun, NeighboursRun, cut_frames, neighbours_of, print_lines,
};
use ledger_text::{Neighbours, Selection};
use packet_format::PacketFormat;
use pcap_io::{ReadSource, WriteSink};
use pcapng::Interfaces;
use std::io;
use tap_inputs::{
    Blocks, Cause, Input, LiveInput, NO_RUN, Noting, Outcome, Reading, Skipped, TapFiles, Taps,
    end_of, files_of, open, open_tap,
};
use vl_config::Config;

/// The files that a cut reads and writes.
#[derive(Drop)]
struct CutDevices<'a> {
    selection: &'a Selection,
    neighbours: Option<Neighbours>,
    /// The network whose lines are passed over.
    skips: Option<Network>,
    seen: &'a LineTally,
    ledger: ReadSource<LiveInput>,
    a: TapFiles<'a>,
    b: TapFiles<'a>,
    sink: WriteSink<Blocks>,
}

/// How a cut ended. A ledger ends where the output can't be written, maybe within a line, so that fault comes
/// first.
fn exit_of(outcome: Result<CutEnding, CutFault>, flushed: bool) -> Exit {
    if flushed {
        Exit::of_cut(outcome.map_err(Fault::Cut), true)
    } else {
        Exit::Fault(Fault::Cut(CutFault::Write))
    }
}

/// Why the system took no output, or gave no more of the ledger.
fn cause_of(refused: Option<io::Error>, ledger: ReadSource<LiveInput>) -> Option<Cause> {
    refused
        .or(ledger.into_reader().refused())
        .map(|error| Cause::System(error))
}

/// The network whose lines are passed over: that of which no recording is given, where the other's is.
fn skipped(given: &CutArguments<'_>) -> Option<Network> {
    match (given.a, given.b) {
        (Some(_), None) => Some(Network::B),
        (None, Some(_)) => Some(Network::A),
        _ => None,
    }
}

/// Prints the lines that the selection takes. They are checked against the recordings that are given.
fn cut_lines(rt: &HostRuntime, files: CutDevices<'_>, is_checked: bool) -> Outcome {
    let CutDevices {
        selection,
        neighbours,
        skips,
        seen,
        ledger,
        a,
        b,
        sink,
    } = files;
    let recordings = if is_checked { Some((a, b)) } else { None };
    let LinesRun {
        outcome,
        ledger,
        recordings,
        output,
    } = print_lines(
        rt.alloc(),
        selection,
        neighbours,
        skips,
        ledger,
        recordings,
        sink,
        seen,
    );
    let refused = output.into_writer().finish(outcome.is_ok()).err();
    let ended = Outcome {
        cause: cause_of(refused, ledger),
        ..Outcome::from(exit_of(outcome, refused.is_none()))
    };
    let Some((a, b)) = recordings else {
        return ended;
    };
    let (a, b) = (end_of(rt, a), end_of(rt, b));
    Outcome {
        skipped: Skipped::two(a.skipped, b.skipped),
        at: [a.file, b.file],
        ..ended
    }
}

/// Writes the frames of the lines that the selection takes, in a format.
fn cut_packets(rt: &HostRuntime, files: CutDevices<'_>, format: PacketFormat<'_>) -> Outcome {
    let CutDevices {
        selection,
        neighbours,
        skips,
        seen,
        ledger,
        a,
        b,
        sink,
    } = files;
    let run = cut_frames(
        rt.alloc(),
        selection,
        neighbours,
        skips,
        ledger,
        a,
        b,
        format,
        sink,
        seen,
    );
    let refused = run.output.into_writer().finish(run.outcome.is_ok()).err();
    let (a, b) = (end_of(rt, run.a), end_of(rt, run.b));
    Outcome {
        skipped: Skipped::two(a.skipped, b.skipped),
        at: [a.file, b.file],
        cause: cause_of(refused, run.ledger),
        ..Outcome::from(exit_of(run.outcome, refused.is_none()))
    }
}

/// The ledger, which is read once more for the lines around those that are selected: no pipe.
pub fn open_twice(rt: &HostRuntime, ledger: &str) -> Result<Input, Outcome> {
    let opened = open(rt, ledger, FileOption::Ledger)?;
    if is_standard(ledger) || opened.length(rt).is_none() {
        return Err(Outcome::from(Fault::Selection {
            option: SelectionOption::Around,
            item: 0,
        }));
    }
    Ok(opened)
}

/// The lines around those that are selected, where such are asked for. The ledger is read for that.
fn neighbours(
    rt: &HostRuntime,
    given: &CutArguments<'_>,
    selection: &Selection,
) -> Result<Option<Neighbours>, Outcome> {
    if given.around == 0 {
        return Ok(None);
    }
    let ledger = open_twice(rt, given.ledger)?;
    let around = u32::from(given.around);
    let NeighboursRun { outcome, ledger } = neighbours_of(
        rt.alloc(),
        selection,
        around,
        ReadSource::new(Noting::new(ledger)),
    );
    match outcome {
        Ok(found) => Ok(Some(found)),
        Err(fault) => Err(Outcome {
            cause: ledger
                .into_reader()
                .refused()
                .map(|error| Cause::System(error)),
            ..Outcome::from(Fault::Cut(fault))
        }),
    }
}

/// Writes the frames of two recordings that a selection of their ledger's lines takes, or these lines. What
/// was written before a fault is handed to the system too. An error is a fault that was met before.
pub fn cut(rt: &HostRuntime, given: &CutArguments<'_>, taps: &Taps) -> Result<Outcome, Outcome> {
    if !given.ledger_only && is_at_terminal(rt, given.output) {
        return Ok(Outcome::from(Exit::Terminal));
    }
    let config = table_of(rt, given.config)?;
    let selection = selection_of(rt.alloc(), given, config.as_ref())?;
    let neighbours = neighbours(rt, given, &selection)?;
    let ledger = open(rt, given.ledger, FileOption::Ledger)?;
    let a = open_tap(rt, given.a, Network::A, None)?;
    let b = open_tap(rt, given.b, Network::B, None)?;
    refuse_shared(rt, Invocation::Cut(*given), taps)?;
    let [length_a, length_b] = taps.look(rt, &a, &b, MAX_LATE)?;
    let output = create(rt, given.output, FileOption::Output)?;
    let (output, before_ledger) = live_output(rt, output, ledger.may_pause(rt))?;
    let (output, before_a) = live_output(rt, output, given.a.is_some() && length_a.is_none())?;
    let (output, before_b) = live_output(rt, output, given.b.is_some() && length_b.is_none())?;
    let (tap_a, tap_b) = (taps.of_network(Network::A), taps.of_network(Network::B));
    let (skips, seen) = (skipped(given), LineTally::new());
    let files = CutDevices {
        selection: &selection,
        neighbours,
        skips,
        seen: &seen,
        ledger: ReadSource::new(LiveInput::new(ledger, before_ledger)),
        a: files_of(Reading::quiet(rt, Network::A), tap_a, a, before_a)?,
        b: files_of(Reading::quiet(rt, Network::B), tap_b, b, before_b)?,
        sink: WriteSink::new(output),
    };
    let ended = if given.ledger_only {
        cut_lines(rt, files, given.a.is_some() || given.b.is_some())
    } else {
        let format = format_of(given.pcapng, Interfaces::Networks, config.as_ref());
        cut_packets(rt, files, format)
    };
    if ended.exit.status() == 0 {
        let _ = seen.tell(rt, given, &selection, skips);
    }
    Ok(ended)
}
