//! The command `watch`: two recordings judged and filtered, on threads.
use crate::watcher::{Reporter, Watcher};
use afdx_frame::Network;
use bpf_loader::Program;
use command_line::{Exit, Fault, FileOption, Invocation, Summary, WatchArguments};
use commands::{
    LedgerWriter, MAX_LATE, RunSums, Spans, TextSums, blocks_of, create, create_hashed, file_in,
    format_of, is_at_terminal, refuse_shared, shared, text_of, version_of, with_manifest,
    worst_links,
};
use pcap_io::WriteSink;
use pcapng::Interfaces;
use run_fault::WatchRefused;
use run_inputs::{load_filters, read_config};
use run_manifest::sum_of;
use std::sync::Wait;
use std::thread;
use std::thread::Threads;
use tap_inputs::{
    Blocks, Cause, Outcome, OutputStream, Pauses, Progress, Reading, Skipped, TapEnd, TapFiles,
    Taps, end_of, files_of, open_tap,
};
use traffic_survey::Traffic;
use vl_config::Config;
use watch_run::{Plan, RunSizes, Watched, sized_watch};

/// A filter that accepts no frame.
const NO_FRAME: &str = "1,6 0 0 0,";

/// The table, with the window that the command line gives, and the filters of the command line and of the
/// table. Where the command line has none, one that accepts no frame stands in its place. The sums are those
/// of the texts, hashed where there is a manifest.
fn set_up(
    rt: &HostRuntime,
    given: &WatchArguments<'_>,
) -> Result<(Config, Vec<Program>, TextSums), Outcome> {
    let hashed = given.manifest.is_some();
    let table = text_of(rt, given.config, FileOption::Config)?;
    let config = read_config(rt.alloc(), &table)?;
    let config = match given.late {
        Some(late) => config.with_late(late.nanoseconds().min(MAX_LATE)),
        None => config,
    };
    let mut sums = TextSums {
        config: sum_of(table.as_bytes(), hashed),
        filter: None,
    };
    let programs = match given.filter {
        Some(path) => {
            let code = text_of(rt, path, FileOption::Filter)?;
            sums.filter = Some(sum_of(code.as_bytes(), hashed));
            load_filters(rt.alloc(), &code, &config)?
        }
        None => load_filters(rt.alloc(), NO_FRAME, &config)?,
    };
    Ok((config, programs, sums))
}

/// The capture, the ledger, and the manifest if there is one.
type RunOutputs = (Blocks, Blocks, Option<Blocks>);

/// Opens the outputs, if none is another file of the run.
fn open_outputs(
    rt: &HostRuntime,
    given: &WatchArguments<'_>,
    taps: &Taps,
) -> Result<RunOutputs, Outcome> {
    refuse_shared(rt, Invocation::Watch(*given), taps)?;
    let capture = match given.capture {
        Some(path) => create_hashed(rt, path, FileOption::Capture, given.digest)?,
        None => blocks_of(rt, OutputStream::Nowhere, false)?,
    };
    let ledger = create_hashed(rt, given.ledger, FileOption::Ledger, given.digest)?;
    let manifest = match given.manifest {
        Some(path) => Some(create(rt, path, FileOption::Manifest)?),
        None => None,
    };
    // Of one new file with two names, as that of a link to it, this shows only once it is there.
    refuse_shared(rt, Invocation::Watch(*given), taps)?;
    Ok((capture, ledger, manifest))
}

/// The capture of `watch`.
type CaptureSink = WriteSink<Blocks>;

/// The ledger of `watch`.
type LedgerSink = WriteSink<LedgerWriter>;

/// The knowledge of a recording of a run, if the run gave it back.
fn end_if_back(rt: &HostRuntime, files: Option<TapFiles<'_>>) -> Option<TapEnd> {
    Some(end_of(rt, files?))
}

/// The number of the file of a recording in which a run ended, or that was read last.
fn last_file(end: &Option<TapEnd>, exit: &Exit, network: Network) -> usize {
    match end {
        Some(end) => file_in(end, exit, network),
        None => 0,
    }
}

/// How many packets of a recording were skipped.
fn skipped_in(end: &Option<TapEnd>) -> u64 {
    end.as_ref().map_or(0, |end| end.skipped)
}

/// How a run over two recordings ended, whose outputs are handed to the system, and the sums of its files.
fn settle<'p>(
    rt: &HostRuntime,
    config: &Config,
    run: Result<
        Watched<TapFiles<'p>, TapFiles<'p>, CaptureSink, LedgerSink>,
        WatchRefused<TapFiles<'p>, TapFiles<'p>, CaptureSink, LedgerSink>,
    >,
) -> (Outcome, RunSums<'p>) {
    let (outcome, worst, [a, b], capture, ledger) = match run {
        Ok(done) => {
            let [a, b] = done.endings;
            let totals = *done.totals();
            (
                Ok(Summary { a, b, totals }),
                worst_links(rt.alloc(), config, &done.tally),
                [Some(end_of(rt, done.a)), Some(end_of(rt, done.b))],
                done.capture,
                done.ledger,
            )
        }
        Err(refused) => (
            Err(Fault::Watch(refused.fault)),
            None,
            [end_if_back(rt, refused.a), end_if_back(rt, refused.b)],
            refused.capture,
            refused.ledger,
        ),
    };
    let (mut capture, mut ledger) = (capture.into_writer(), ledger.into_writer());
    let capture_fails = capture.finish(outcome.is_ok()).err();
    let ledger_fails = ledger.finish(outcome.is_ok()).err();
    let sums = [capture.take_sum(), ledger.take_sum()];
    let exit = Exit::of_watch(outcome, capture_fails.is_none(), ledger_fails.is_none());
    let at = [
        last_file(&a, &exit, Network::A),
        last_file(&b, &exit, Network::B),
    ];
    let ended = Outcome {
        at,
        exit,
        worst,
        skipped: Skipped::two(skipped_in(&a), skipped_in(&b)),
        dropped: [0, 0],
        cause: capture_fails
            .or(ledger_fails)
            .map(|error| Cause::System(error)),
        detail: None,
        unread: None,
    };
    (ended, RunSums::new([a, b], sums, ledger.into_spans()))
}

/// The inputs of a run over two recordings: the arguments, the table, and the filters.
#[derive(Clone, Copy)]
struct Analysis<'a> {
    given: &'a WatchArguments<'a>,
    config: &'a Config,
    programs: &'a [Program],
    /// The sums of the texts of the table and of the filter.
    texts: TextSums,
    taps: &'a Taps,
    reporter: &'a Reporter,
}

/// Judges and filters the frames of two recordings, on threads. What was written before a fault is
/// handed to the system too. An error is a fault that was met before the run.
fn watch_networks<'x, R: Threads + Wait + Sync>(
    rt: &'x HostRuntime,
    threads: &R,
    analysis: &Analysis<'x>,
    pauses: Option<&'x Pauses>,
) -> Result<Outcome, Outcome> {
    let (given, taps) = (analysis.given, analysis.taps);
    let a = open_tap(rt, given.a, Network::A, pauses)?;
    let b = open_tap(rt, given.b, Network::B, pauses)?;
    let [length_a, length_b] = taps.look(rt, &a, &b, analysis.config.late())?;
    let (capture, ledger, manifest) = open_outputs(rt, given, taps)?;
    let progress = if given.quiet {
        None
    } else {
        Progress::begin(rt, length_a, length_b)
    };
    let of_a = Reading {
        rt,
        network: Network::A,
        hashed: given.digest,
        progress: progress.as_ref(),
        pauses,
    };
    let of_b = Reading {
        network: Network::B,
        ..of_a
    };
    let a = files_of(of_a, taps.of_network(Network::A), a, None)?;
    let b = files_of(of_b, taps.of_network(Network::B), b, None)?;
    let (spans, traffic) = match manifest {
        Some(_) => (
            Some(Spans::new()),
            Some(Traffic::new(rt.alloc(), analysis.config)?),
        ),
        None => (None, None),
    };
    let seen = (spans, traffic);
    let (ended, sums) = run_watch(threads, analysis, of_a, (a, b), (capture, ledger), seen)?;
    match manifest {
        Some(output) => {
            Ok(with_manifest(rt, (given, taps), analysis.texts, ended, &sums, output))
        }
        None => Ok(ended),
    }
}

/// Carries out a run over two recordings, into a capture and a ledger.
fn run_watch<'p, R: Threads + Wait + Sync>(
    threads: &R,
    analysis: &Analysis<'p>,
    reading: Reading<'p>,
    (a, b): (TapFiles<'p>, TapFiles<'p>),
    (capture, ledger): (Blocks, Blocks),
    (spans, traffic): (Option<Spans>, Option<Traffic<'p>>),
) -> Result<(Outcome, RunSums<'p>), Outcome> {
    let Reading {
        rt,
        progress,
        pauses,
        ..
    } = reading;
    let (capture, live_capture) = shared(rt, capture)?;
    let (ledger, live_ledger) = shared(rt, ledger)?;
    let outputs = (live_capture, live_ledger);
    let given = analysis.given;
    let reporter = analysis.reporter;
    let watcher = Watcher::new(
        rt,
        (*given, analysis.taps),
        outputs,
        progress,
        pauses,
        reporter,
    )
    .counting(traffic);
    let plan = Plan {
        programs: analysis.programs,
        format: format_of(given.pcapng, Interfaces::Networks, Some(analysis.config)),
        version: version_of(given.details),
    };
    let run = sized_watch(
        threads,
        rt.alloc(),
        RunSizes::default(),
        analysis.config,
        plan,
        u32::from(given.workers),
        a,
        b,
        WriteSink::new(capture),
        WriteSink::new(LedgerWriter::new(ledger, spans)),
        &watcher,
    );
    if let Some(progress) = progress {
        progress.erase(rt);
    }
    let (ended, sums) = settle(rt, analysis.config, run);
    Ok((ended, sums.with_traffic(watcher.take_traffic())))
}

/// Judges and filters the frames of two recordings that may pause, while another thread tells of pauses.
fn watch_pauses<R: Threads + Wait + Sync>(
    rt: &HostRuntime,
    threads: &R,
    analysis: &Analysis<'_>,
    pauses: &Pauses,
) -> Result<Outcome, Outcome> {
    thread::scope(thread::scope_env(), threads, |scope| {
        // Without that thread nothing is told of them.
        let _ = scope.spawn(|| pauses.tell(rt, threads));
        let ended = watch_networks(rt, threads, analysis, Some(pauses));
        pauses.end();
        ended
    })
}

/// Reads what a run over two recordings is given, and carries it out.
pub fn watch<R: Threads + Wait + Sync>(
    rt: &HostRuntime,
    threads: &R,
    given: &WatchArguments<'_>,
    taps: &Taps,
    reporter: &Reporter,
) -> Result<Outcome, Outcome> {
    if given.capture.is_some_and(|path| is_at_terminal(rt, path)) {
        return Ok(Outcome::from(Exit::Terminal));
    }
    let (config, programs, texts) = set_up(rt, given)?;
    let analysis = Analysis {
        given,
        config: &config,
        programs: &programs,
        texts,
        taps,
        reporter,
    };
    let ended = match Pauses::begin(rt, given) {
        Some(pauses) => watch_pauses(rt, threads, &analysis, &pauses)?,
        None => watch_networks(rt, threads, &analysis, None)?,
    };
    Ok(Outcome {
        dropped: taps.dropped(rt),
        ..ended
    })
}
