//! The frames of a recording that a filter accepts.
use crate::files::refuse_shared;
use crate::inputs::{filter, is_at_terminal, late_of};
use crate::outputs::{create, file_in, format_of, live_output};
use afdx_frame::Network;
use capture_run::{CaptureRun, capture_by};
use command_line::{CaptureArguments, Exit, FileOption, Invocation};
use pcap_io::WriteSink;
use pcapng::Interfaces;
use tap_inputs::{Cause, Outcome, Reading, Skipped, Taps, end_of, files_of, open};

/// Copies the frames of a recording that the filter accepts. What was written before a fault is handed to
/// the system too. An error is a fault that was met before.
pub fn capture(
    rt: &HostRuntime,
    given: &CaptureArguments<'_>,
    taps: &Taps,
) -> Result<Outcome, Outcome> {
    if is_at_terminal(rt, given.output) {
        return Ok(Outcome::from(Exit::Terminal));
    }
    let program = filter(rt, given.filter)?;
    let recording = open(rt, given.recording, FileOption::Recording)?;
    refuse_shared(rt, Invocation::Capture(*given), taps)?;
    let (tap, late) = (taps.of_network(Network::A), late_of(given.late));
    let length = tap.look(rt, (FileOption::Recording, &recording), late)?;
    let output = create(rt, given.output, FileOption::Output)?;
    let (output, live) = live_output(rt, output, length.is_none())?;
    let source = files_of(Reading::quiet(rt, Network::A), tap, recording, live)?;
    let format = format_of(given.pcapng, Interfaces::One, None);
    let CaptureRun {
        outcome,
        source,
        sink,
    } = capture_by(
        rt.alloc(),
        &program,
        late,
        format,
        source,
        WriteSink::new(output),
    );
    let refused = sink.into_writer().finish(outcome.is_ok()).err();
    let end = end_of(rt, source);
    let exit = Exit::of_capture(outcome, refused.is_none());
    Ok(Outcome {
        skipped: Skipped::one(end.skipped),
        at: [file_in(&end, &exit, Network::A), 0],
        cause: refused.map(|error| Cause::System(error)),
        ..Outcome::from(exit)
    })
}
