//! The manifest of a run: what it was of, and what it wrote.
use crate::outputs::spans::Spans;
use afdx_frame::Network;
use command_line::{Exit, Fault, WatchArguments, fault_line, version};
use pcap_io::Ending;
use run_manifest::{
    FileRecord, Inputs, MANIFEST_VERSION, Manifest, Outputs, Program, RecordingRecord, Span, Sum,
    TornRecord, manifest_text,
};
use std::alloc::{AllocError, Global};
use std::io;
use std::io::{ErrorKind, Write};
use tap_inputs::{Blocks, Cause, Outcome, Tap, TapEnd, Taps};
use traffic_survey::Traffic;

/// The sums of the texts that a run is given.
#[derive(Clone, Copy)]
pub struct TextSums {
    pub config: Sum,
    pub filter: Option<Sum>,
}

/// The knowledge of a run's recordings, where it is had, the sums of its outputs, and when frames came.
#[derive(Drop)]
pub struct RunSums<'t> {
    recordings: [Option<TapEnd>; 2],
    /// The counts of what the frames carry, if they were counted.
    traffic: Option<Traffic<'t>>,
    outputs: [Sum; 2],
    spans: [Option<Span>; 2],
}

impl<'t> RunSums<'t> {
    /// Of the recordings of networks A and B, of the capture and the ledger, and of what was seen of that.
    pub fn new(
        recordings: [Option<TapEnd>; 2],
        outputs: [Sum; 2],
        spans: Option<Spans>,
    ) -> RunSums<'t> {
        RunSums {
            recordings,
            traffic: None,
            outputs,
            spans: match spans {
                Some(spans) => [spans.a, spans.b],
                None => [None, None],
            },
        }
    }

    /// The same, with what the frames carry.
    pub fn with_traffic(self, traffic: Option<Traffic<'t>>) -> RunSums<'t> {
        RunSums { traffic, ..self }
    }
}

fn file_if(
    alloc: Global,
    path: Option<&str>,
    sum: Option<Sum>,
) -> Result<Option<FileRecord>, AllocError> {
    match (path, sum) {
        (Some(path), Some(sum)) => Ok(Some(FileRecord::new(alloc, path, sum)?)),
        _ => Ok(None),
    }
}

/// The record of a recording's files. One of several has the path of the first, and the files that were read.
fn record_of(
    alloc: Global,
    path: &str,
    tap: &Tap,
    end: &Option<TapEnd>,
) -> Result<RecordingRecord, AllocError> {
    let sums = match end {
        Some(end) => end.sums.as_slice(),
        None => &[],
    };
    if !tap.is_of_several() {
        return RecordingRecord::new(alloc, path, sums.first().copied());
    }
    let mut record = RecordingRecord::new(alloc, path, None)?;
    for (file, sum) in tap.files.iter().zip(sums) {
        record.add_file(alloc, FileRecord::new(alloc, &file.path, *sum)?)?;
    }
    Ok(record)
}

/// Adds the torn files of a recording.
fn add_torn(
    rt: &HostRuntime,
    record: &mut RecordingRecord,
    tap: &Tap,
    end: &TapEnd,
) -> Result<(), AllocError> {
    for number in 0..tap.files.len() {
        if let Some(file) = tap.torn_file(rt, end, number) {
            let (alloc, how) = (rt.alloc(), file.how.word());
            record.add_torn(
                alloc,
                TornRecord::new(alloc, file.path, how, file.last, file.next)?,
            )?;
        }
    }
    Ok(())
}

/// Adds what the frames of a network carry beside what the ledger tells.
fn add_traffic(
    alloc: Global,
    record: &mut RecordingRecord,
    traffic: &Traffic<'_>,
    network: Network,
) -> Result<(), AllocError> {
    record.tagged = Some(traffic.tagged(network));
    let kinds = traffic.kinds(network);
    for kind in kinds.kinds() {
        record.add_kind(alloc, Some(kind.ethertype), kind.name(), kind.frames)?;
    }
    if kinds.others() > 0 {
        record.add_kind(alloc, None, None, kinds.others())?;
    }
    for link in traffic.crossed(alloc, network)? {
        let span = Span {
            first: link.first,
            last: link.last,
        };
        record.add_crossed(alloc, link.link.0, (link.frames, link.of), span)?;
    }
    Ok(())
}

/// A recording, with its ending and when its frames came, where the run met no fault.
fn recording_if(
    rt: &HostRuntime,
    (path, tap): (Option<&str>, &Tap),
    end: &Option<TapEnd>,
    ending: Option<Ending>,
    span: Option<Span>,
) -> Result<Option<RecordingRecord>, AllocError> {
    let Some(path) = path else {
        return Ok(None);
    };
    let alloc = rt.alloc();
    let mut record = record_of(alloc, path, tap, end)?;
    let dropped = tap.dropped(rt);
    if dropped > 0 {
        record.dropped = Some(dropped);
    }
    if let Some(end) = end {
        add_torn(rt, &mut record, tap, end)?;
    }
    let Some(ending) = ending else {
        return Ok(Some(record));
    };
    let reason = match ending {
        Ending::Bad(_, reason) => Some(reason.word()),
        Ending::Clean(_) | Ending::Cut(_) => None,
    };
    record.end(alloc, ending.frames(), ending.word(), reason)?;
    if let Some(span) = span {
        record.span(alloc, span)?;
    }
    Ok(Some(record))
}

fn inputs_of(
    rt: &HostRuntime,
    (given, taps): (&WatchArguments<'_>, &Taps),
    texts: TextSums,
    exit: &Exit,
    sums: &RunSums<'_>,
) -> Result<Inputs, AllocError> {
    let alloc = rt.alloc();
    let (end_a, end_b) = match exit {
        Exit::Watched(summary) => (Some(summary.a), Some(summary.b)),
        _ => (None, None),
    };
    let ([of_a, of_b], [span_a, span_b]) = (&sums.recordings, sums.spans);
    let a = (given.a, taps.of_network(Network::A));
    let b = (given.b, taps.of_network(Network::B));
    let mut a = recording_if(rt, a, of_a, end_a, span_a)?;
    let mut b = recording_if(rt, b, of_b, end_b, span_b)?;
    if let (Some(traffic), Exit::Watched(_)) = (&sums.traffic, exit) {
        if let Some(record) = &mut a {
            add_traffic(alloc, record, traffic, Network::A)?;
        }
        if let Some(record) = &mut b {
            add_traffic(alloc, record, traffic, Network::B)?;
        }
    }
    Ok(Inputs {
        config: FileRecord::new(alloc, given.config, texts.config)?,
        filter: file_if(alloc, given.filter, texts.filter)?,
        a,
        b,
    })
}

fn outputs_of(
    alloc: Global,
    given: &WatchArguments<'_>,
    sums: &RunSums<'_>,
) -> Result<Outputs, AllocError> {
    let [capture, ledger] = sums.outputs;
    Ok(Outputs {
        capture: file_if(alloc, given.capture, Some(capture))?,
        ledger: FileRecord::new(alloc, given.ledger, ledger)?,
    })
}

/// The line of the fault that a run met, without what begins each.
fn fault_of(alloc: Global, exit: &Exit) -> Result<Option<String>, AllocError> {
    let Exit::Fault(fault) = exit else {
        return Ok(None);
    };
    let line = fault_line(alloc, fault)?;
    let line = line.strip_prefix("afdxmon: ").unwrap_or(&line);
    Ok(Some(String::from_str(alloc, line)?))
}

/// The arguments that the program was called with, its own name first.
pub fn arguments(rt: &HostRuntime) -> io::Result<Vec<String>> {
    Ok(std::env::args(rt)?.collect(rt.alloc())?)
}

/// The manifest's text.
fn text_for(
    rt: &HostRuntime,
    (given, taps): (&WatchArguments<'_>, &Taps),
    texts: TextSums,
    exit: &Exit,
    sums: &RunSums<'_>,
) -> io::Result<String> {
    let alloc = rt.alloc();
    let manifest = Manifest {
        manifest: MANIFEST_VERSION,
        program: Program::of_version(alloc, "afdxmon", version())?,
        command: arguments(rt)?,
        fault: fault_of(alloc, exit)?,
        inputs: inputs_of(rt, (given, taps), texts, exit, sums)?,
        outputs: outputs_of(alloc, given, sums)?,
    };
    manifest_text(alloc, &manifest).map_err(|_| io::Error::from(ErrorKind::OutOfMemory))
}

fn write_manifest(text: io::Result<String>, output: &mut Blocks) -> io::Result<()> {
    output.write_all(text?.as_bytes())?;
    output.finish(true)
}

/// Writes the manifest of a run. Where that fails, a run that met no other fault has met this one.
pub fn with_manifest(
    rt: &HostRuntime,
    (given, taps): (&WatchArguments<'_>, &Taps),
    texts: TextSums,
    ended: Outcome,
    sums: &RunSums<'_>,
    mut output: Blocks,
) -> Outcome {
    let text = text_for(rt, (given, taps), texts, &ended.exit, sums);
    let is_sound = matches!(ended.exit, Exit::Watched(_));
    match write_manifest(text, &mut output) {
        Err(error) if is_sound => Outcome {
            cause: Some(Cause::System(error)),
            ..Outcome::from(Exit::Fault(Fault::Manifest))
        },
        Ok(()) | Err(_) => ended,
    }
}
