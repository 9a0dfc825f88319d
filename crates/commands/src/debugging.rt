//! Sessions of the debugger: commands of standard input, or typed at a terminal.
use crate::inputs::{filter, late_of};
use crate::outputs::file_in;
use crate::standard_input::StandardInput;
use afdx_frame::{Network, TapFrame};
use bpf_debugger::DebugFault;
use bpf_loader::Program;
use command_line::{DebugArguments, Exit, Fault, FileOption};
use filter_run::{HeldTap, TapRead, answer_line, begin_session, read_tap, run_session};
use pcap_io::{Ending, ReadSource, WriteSink};
use std::alloc::Global;
use std::io::{BufRead, BufReader, BufWriter, ErrorKind, IsTerminal, Stdout, Write};
use tap_inputs::{
    BLOCK, Cause, Input, Limited, Noting, Outcome, Progress, Reading, Skipped, TapEnd, Taps,
    end_of, files_of, open, standard_output,
};

/// There is no memory for a session.
const NO_SESSION: Fault = Fault::Debug(DebugFault::Memory);

/// How a session ended whose replies went to this sink.
fn ended_by<W: Write + Drop>(
    sink: WriteSink<Noting<W>>,
    ending: Ending,
    outcome: Result<(), Fault>,
) -> Outcome {
    let (flushed, refused) = sink.into_writer().finish();
    Outcome {
        cause: refused.map(|error| Cause::System(error)),
        ..Outcome::from(Exit::of_session(ending, outcome, flushed))
    }
}

/// Answers the commands on standard input. What was printed before a fault is handed to the system too.
fn debug_input(rt: &HostRuntime, program: Program, tap: HeldTap) -> Outcome {
    let Ok(output) = BufWriter::with_capacity(rt.alloc(), BLOCK, standard_output(rt)) else {
        return Outcome::from(NO_SESSION);
    };
    let mut commands = ReadSource::new(StandardInput::new(rt));
    let mut sink = WriteSink::new(Noting::new(output));
    let outcome = run_session(rt.alloc(), program, tap.frames, &mut commands, &mut sink);
    Outcome {
        detail: commands.into_reader().told(rt),
        ..ended_by(sink, tap.ending, outcome)
    }
}

/// The words for a person at the start of a session.
const COMMANDS: &str =
    "commands: select N, step [+|-]N, cont, breakpoint N, disassemble, tally, quit";

/// The next line that a person types, with its newline. None at the end.
fn typed_line<R: BufRead>(alloc: Global, input: &mut R) -> Result<Option<String>, Fault> {
    let mut line = String::new(alloc);
    match input.read_line(&mut line) {
        Ok(0) => Ok(None),
        Ok(_) => Ok(Some(line)),
        Err(error) if error.kind() == ErrorKind::OutOfMemory => Err(NO_SESSION),
        Err(_) => Err(Fault::File(FileOption::Standard)),
    }
}

/// Answers the commands that a person types at a terminal, each as soon as it is typed. The prompt and the
/// help go to standard error, if that is a terminal too.
fn answer_typed(
    rt: &HostRuntime,
    program: Program,
    frames: Vec<TapFrame>,
    sink: &mut WriteSink<Noting<Limited<Stdout>>>,
) -> Result<(), Fault> {
    let mut session = begin_session(rt.alloc(), program, frames, sink)?;
    let Ok(mut input) = BufReader::new(rt.alloc(), rt.stdin()) else {
        return Err(NO_SESSION);
    };
    let prompts = rt.stderr().is_terminal();
    if prompts {
        let _ = rt.eprintln(COMMANDS);
    }
    for _ in 0..u64::MAX {
        if prompts {
            let _ = rt.eprint("> ");
        }
        let Some(line) = typed_line(rt.alloc(), &mut input)? else {
            break;
        };
        let line = line.strip_suffix('\n').unwrap_or(&line);
        if !answer_line(rt.alloc(), &mut session, line, sink)? {
            break;
        }
    }
    Ok(())
}

/// Steps through a filter by commands that a person types at a terminal.
fn debug_terminal(rt: &HostRuntime, program: Program, tap: HeldTap) -> Outcome {
    let mut sink = WriteSink::new(Noting::new(standard_output(rt)));
    let outcome = answer_typed(rt, program, tap.frames, &mut sink);
    ended_by(sink, tap.ending, outcome)
}

/// Reads a recording whole, and shows its progress.
fn read_tap_shown(
    rt: &HostRuntime,
    taps: &Taps,
    first: Input,
    late: u64,
) -> Result<(HeldTap, TapEnd), Outcome> {
    let tap = taps.of_network(Network::A);
    let length = tap.look(rt, (FileOption::Tap, &first), late)?;
    let progress = Progress::begin(rt, length, None);
    let reading = Reading {
        progress: progress.as_ref(),
        ..Reading::quiet(rt, Network::A)
    };
    let source = files_of(reading, tap, first, None)?;
    let TapRead { outcome, source } = read_tap(rt.alloc(), late, source);
    if let Some(progress) = &progress {
        progress.erase(rt);
    }
    match outcome {
        Ok(held) => Ok((held, end_of(rt, source))),
        Err(fault) => {
            let file = end_of(rt, source).file;
            Err(Outcome::from(Fault::Watch(fault)).at(FileOption::Tap, file))
        }
    }
}

/// Steps through a filter on the frames of a recording. An error is a fault that was met before the session.
pub fn debug(
    rt: &HostRuntime,
    given: &DebugArguments<'_>,
    taps: &Taps,
) -> Result<Outcome, Outcome> {
    let program = filter(rt, given.filter)?;
    let first = open(rt, given.tap, FileOption::Tap)?;
    let (tap, end) = read_tap_shown(rt, taps, first, late_of(given.late))?;
    let ended = if rt.stdin().is_terminal() {
        debug_terminal(rt, program, tap)
    } else {
        debug_input(rt, program, tap)
    };
    Ok(Outcome {
        skipped: Skipped::one(end.skipped),
        at: [file_in(&end, &ended.exit, Network::A), 0],
        ..ended
    })
}
