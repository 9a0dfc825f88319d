//! `afdxmon`: analyses recordings of AFDX networks (ARINC 664 Part 7).
//!
//! The program reads its command line, hands it to its command and tells how that ended. What a command does
//! stands in the crates below: `watch_run`, `cut_run`, `capture_run`, `filter_run`, and `commands`.
#![tactic(auto)]

mod watcher;
mod watching;

use clap::Error;
use command_line::{
    CommandLine, Exit, FAILED, Fault, FileOption, Invocation, Typed, UNWRITTEN_ADVICE, USAGE,
    gathered, has_standard_among, read_arguments,
};
use commands::{
    arguments, asm, capture, check, cut, cut_transits, debug, links, refuse_streams, report,
    summarise, transit,
};
use messages::{CommandEnd, STANDARD_AMONG, tell};
use std::io::{ErrorKind, IsTerminal};
use std::process::ExitCode;
use std::sync::Wait;
use std::sync::atomic::{AtomicBool, Ordering};
use std::thread::Threads;
use std::{env, io};
use tap_inputs::{NO_RUN, Outcome, Taps, print, status_of, takes_messages, tell_dropped};
use watcher::Reporter;
use watching::watch;

/// Why the arguments can't be had as text.
fn unreadable(error: &io::Error) -> &'static str {
    match error.kind() {
        ErrorKind::InvalidData => "afdxmon: an argument is not valid UTF-8",
        _ => "afdxmon: the arguments can't be read",
    }
}

/// The same, where the files of a recording are one word.
fn gathered_arguments(rt: &HostRuntime) -> io::Result<Vec<String>> {
    Ok(gathered(rt.alloc(), &arguments(rt)?)?)
}

/// Tells standard error that standard output can't be written, at a terminal why. Gives the exit status.
fn tell_unprinted(rt: &HostRuntime, error: io::Error) -> u8 {
    let exit = Exit::Fault(Fault::File(FileOption::Standard));
    let _ = rt.eprintln(Fault::File(FileOption::Standard));
    if rt.stderr().is_terminal() {
        let _ = eprintln!(rt; "standard output: {error}");
        let _ = rt.eprintln(UNWRITTEN_ADVICE);
    }
    exit.status()
}

/// Tells standard error why clap refuses the arguments. One with a line break would make lines of its own
/// there.
fn tell_refusal(rt: &HostRuntime, text: &str, arguments: &[String]) -> io::Result<()> {
    if arguments.iter().any(|argument| argument.contains('\n')) {
        rt.eprintln("afdxmon: the arguments aren't taken, nor shown, since one has a line break")
    } else {
        rt.eprint(Typed(text))
    }
}

/// Prints what clap answers in place of a command: why it refuses the arguments, or the help or the version
/// that they ask for. Gives the exit status.
fn print_answer(rt: &HostRuntime, answer: &Error, arguments: &[String]) -> u8 {
    let Ok(text) = answer.to_string(rt.alloc()) else {
        let _ = answer.print(rt);
        return USAGE;
    };
    if answer.use_stderr() {
        let _ = tell_refusal(rt, &text, arguments);
        return USAGE;
    }
    match print(rt, &text) {
        Ok(()) => 0,
        Err(error) => tell_unprinted(rt, error),
    }
}

/// Carries out a command. An error is a fault that was met before it began.
fn run<R: Threads + Wait + Sync>(
    rt: &HostRuntime,
    threads: &R,
    command: Invocation<'_>,
    taps: &Taps,
    reporter: &Reporter,
) -> Result<Outcome, Outcome> {
    command.refuse_taken()?;
    refuse_streams(rt, command, taps)?;
    match command {
        Invocation::Watch(given) => watch(rt, threads, &given, taps, reporter),
        Invocation::Asm => Ok(asm(rt)),
        Invocation::Capture(given) => capture(rt, &given, taps),
        Invocation::Debug(given) => debug(rt, &given, taps),
        Invocation::Cut(given) => cut(rt, &given, taps),
        Invocation::TransitCut(given) => cut_transits(rt, &given, taps),
        Invocation::Links(given) => links(rt, &given, taps, reporter.full),
        Invocation::Report(given) => report(rt, &given, taps),
        Invocation::Check(given) => check(rt, &given, taps),
        Invocation::Transit(given) => transit(rt, &given, taps),
    }
}

/// Tells standard error how a command ended.
fn tell_end(rt: &HostRuntime, asked: Invocation<'_>, taps: &Taps, outcome: &Outcome, full: bool) {
    let known = CommandEnd {
        outcome,
        taps,
        full,
    };
    let _ = tell(rt, taps.named(asked, outcome.at), known);
    let _ = outcome.skipped.tell(rt, &outcome.exit);
    let _ = tell_dropped(rt, outcome);
    let _ = taps.tell_torn(rt);
}

/// Carries out what a command line asks for, and tells standard error how it ended: all of it, where that is
/// asked for or standard error is a terminal. Where it is asked for, a quiet run has its summary too.
fn carry_out<R: Threads + Wait + Sync>(
    rt: &HostRuntime,
    threads: &R,
    asked: CommandLine<'_>,
) -> u8 {
    let quiet = matches!(asked.command, Invocation::Watch(given) if given.quiet);
    let Ok(taps) = Taps::of(rt, asked.command) else {
        let _ = rt.eprintln(NO_RUN);
        return status_of(&Exit::Fault(NO_RUN));
    };
    let reporter = Reporter {
        told: AtomicBool::new(false),
        full: asked.verbose || rt.stderr().is_terminal(),
    };
    let command = taps.named(asked.command, [0, 0]);
    let (Ok(outcome) | Err(outcome)) = run(rt, threads, command, &taps, &reporter);
    let status = status(asked.command, &outcome.exit, &taps);
    // Where standard error is a full file, the status alone tells how the command ended.
    if !takes_messages(rt) {
        return status;
    }
    if !reporter.told.load(Ordering::SeqCst) {
        tell_end(rt, asked.command, &taps, &outcome, reporter.full);
    }
    if asked.verbose || (reporter.full && !quiet) {
        let _ = summarise(rt, &outcome, &taps);
    }
    status
}

/// Does the environment ask for what `--verbose` asks for?
fn is_verbose(rt: &HostRuntime) -> bool {
    match env::var(rt, "AFDXMON_VERBOSE") {
        Ok(value) => value.as_str() == "1",
        Err(_) => false,
    }
}

/// The exit status. A strict run fails where a recording ends early, or went on behind a torn file.
fn status(command: Invocation<'_>, exit: &Exit, taps: &Taps) -> u8 {
    let strict = matches!(command, Invocation::Watch(given) if given.strict);
    match status_of(exit) {
        0 if strict && (exit.is_early() || taps.are_torn()) => FAILED,
        status => status,
    }
}

fn main(rt: HostRuntime) -> ExitCode {
    // Where standard error can't be written, the status alone tells how the program ended.
    let arguments = match gathered_arguments(&rt) {
        Ok(arguments) => arguments,
        Err(error) => {
            let _ = rt.eprintln(unreadable(&error));
            return ExitCode::from(USAGE);
        }
    };
    if has_standard_among(&arguments) {
        let _ = eprintln!(&rt; "afdxmon: {STANDARD_AMONG}");
        return ExitCode::from(USAGE);
    }
    let status = match read_arguments(rt.alloc(), &arguments) {
        Ok(asked) => {
            let asked = CommandLine {
                verbose: asked.verbose || is_verbose(&rt),
                ..asked
            };
            carry_out(&rt, &rt, asked)
        }
        Err(answer) => print_answer(&rt, &answer, &arguments),
    };
    ExitCode::from(status)
}
