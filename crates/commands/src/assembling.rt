//! A filter's source, assembled.
use crate::standard_input::StandardInput;
use command_line::Exit;
use filter_run::{AsmRun, run_asm};
use pcap_io::{ReadSource, WriteSink};
use tap_inputs::{Cause, Detail, Noting, Outcome, standard_output};

/// Assembles the filter's source on standard input, and prints its numeric form to standard output.
pub fn asm(rt: &HostRuntime) -> Outcome {
    let AsmRun {
        outcome,
        text,
        source,
        sink,
    } = run_asm(
        rt.alloc(),
        ReadSource::new(StandardInput::new(rt)),
        WriteSink::new(Noting::new(standard_output(rt))),
    );
    let (flushed, refused) = sink.into_writer().finish();
    let detail = match text {
        Some(text) => Some(Detail::Source(text)),
        None => source.into_reader().told(rt),
    };
    Outcome {
        detail,
        cause: refused.map(|error| Cause::System(error)),
        ..Outcome::from(Exit::of_text(outcome, flushed))
    }
}
