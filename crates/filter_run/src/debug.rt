//! The command `debug`: a filter is stepped through on the frames of a recording.
ghost use Rattle.std.specs.Prelude.{◌≡◌, ◌<◌, ◌∷◌, IfSome, Some, length};
ghost use Rattle.filter_run.specs.Sessions.{Answers, AnswersCommand, AreAnswered, IsAnswered, IsBegun, IsSessionRun};
ghost use Rattle.filter_run.specs.Sessions.{commands_fault, ends_session, is_blank, lines_left, lines_of, text_of};
ghost use Rattle.run_fault.specs.Device.{sink_at, source_at};

use afdx_frame::TapFrame;
use bpf_debugger::{Command, DebugFault, Session, bad_command_line, read_command, render};
use bpf_loader::Program;
use command_line::{Fault, FileOption};
use pcap_io::{OutSink, TapSource, write_all};
use run_inputs::{TextRefusal, read_text};
use std::alloc::{AllocError, Global};

/// The answer to a line: a text that needs no memory, or one that was rendered.
#[derive(Drop)]
enum Answer {
    Fixed(&'static str),
    Rendered(String),
}

impl Answer {
    fn as_str(&self) -> &str
        ensures { result.now ≡ text_of self.now }
    {
        match self {
            Answer::Fixed(text) => text,
            Answer::Rendered(text) => text,
        }
    }
}

/// Has the line no word?
fn is_blank(line: &str) -> bool
    ensures { result ≡ is_blank line.now }
{
    line.as_bytes().iter().all(|byte| *byte == b' ')
}

/// Carries a command out, and renders its reply.
fn carry_out(alloc: Global, session: &mut Session, command: Command) -> Answer
    ensures { AnswersCommand session.old (Some command) (text_of result) session.new }
{
    match session.command(command) {
        Ok(reply) => match render(alloc, &reply) {
            Ok(text) => Answer::Rendered(text),
            Err(AllocError) => Answer::Fixed(DebugFault::Memory.line()),
        },
        Err(fault) => Answer::Fixed(fault.line()),
    }
}

/// The answer to a line of commands. A blank line is answered by nothing.
fn answer_to(alloc: Global, session: &mut Session, line: &str) -> Answer
    ensures { Answers session.old line.now (text_of result) session.new }
{
    if is_blank(line) {
        return Answer::Fixed("");
    }
    match read_command(line) {
        Some(command) => carry_out(alloc, session, command),
        None => Answer::Fixed(bad_command_line()),
    }
}

/// Does the session end after the line?
fn ends_session(line: &str) -> bool
    ensures { result ≡ ends_session line.now }
{
    match read_command(line) {
        Some(Command::Quit) => true,
        _ => false,
    }
}

/// Answers a line of commands, without its newline, and says whether the session goes on: it ends after
/// `quit`. A line of spaces alone is answered by nothing, one that is no command by `fault 0 BadCommand`. A
/// reply that there is no memory to render is answered by `fault 4 Memory`, and its command has been
/// carried out.
///
/// # Errors
///
/// `Fault::File(FileOption::Standard)` if the sink fails. The line's command has been carried out.
pub fn answer_line<W: OutSink>(
    alloc: Global,
    session: &mut Session,
    line: &str,
    sink: &mut W,
) -> Result<bool, Fault>
    ensures { IsAnswered line.now result session.old session.new
        (sink_at W.OutSink sink.old) (sink_at W.OutSink sink.new) }
{
    let answer = answer_to(alloc, session, line);
    match write_all(sink, answer.as_str().as_bytes()) {
        Ok(()) => Ok(!ends_session(line)),
        Err(_) => Err(Fault::File(FileOption::Standard)),
    }
}

/// The first line of a text, and what follows its newline, if it has one.
fn next_line(text: &str) -> (&str, Option<&str>)
    ensures lines { lines_of text.now ≡ result.0.now ∷ lines_left result.1 }
    ensures shorter { IfSome result.1 (λ rest. length rest.now < length text.now) }
{
    match text.split_once('\n') {
        Some((line, rest)) => (line, Some(rest)),
        None => (text, None),
    }
}

/// Answers the lines of a text, up to the first that ends the session.
fn answer_lines<W: OutSink>(
    alloc: Global,
    session: &mut Session,
    text: &str,
    sink: &mut W,
) -> Result<(), Fault>
    ensures { AreAnswered (lines_of text.now) result session.old session.new
        (sink_at W.OutSink sink.old) (sink_at W.OutSink sink.new) }
{
    let mut left = Some(text);
    while let Some(text) = left {
        let (line, rest) = next_line(text);
        if !answer_line(alloc, session, line, sink)? {
            return Ok(());
        }
        left = rest;
    }
    Ok(())
}

/// Begins a session of a filter on frames, and prints how many frames there are.
///
/// # Errors
///
/// `Fault::Debug(DebugFault::Memory)` if there is no memory for the session or its first line, and
/// `Fault::File(FileOption::Standard)` if the sink fails.
pub fn begin_session<W: OutSink>(
    alloc: Global,
    program: Program,
    frames: Vec<TapFrame>,
    sink: &mut W,
) -> Result<Session, Fault>
    ensures { IsBegun program frames.items result
        (sink_at W.OutSink sink.old) (sink_at W.OutSink sink.new) }
{
    let Ok(session) = Session::new(alloc, program, frames) else {
        return Err(Fault::Debug(DebugFault::Memory));
    };
    let count = session.frames();
    let Ok(line) = format!(in alloc; "frames {count}\n") else {
        return Err(Fault::Debug(DebugFault::Memory));
    };
    match write_all(sink, line.as_bytes()) {
        Ok(()) => Ok(session),
        Err(_) => Err(Fault::File(FileOption::Standard)),
    }
}

/// The fault for commands that weren't read.
fn fault_of_commands(refusal: TextRefusal) -> Fault
    ensures { result ≡ commands_fault refusal }
{
    match refusal {
        TextRefusal::Device | TextRefusal::TooLong | TextRefusal::NotUtf8 => {
            Fault::File(FileOption::Standard)
        }
        TextRefusal::Memory => Fault::Debug(DebugFault::Memory),
    }
}

/// Reads the commands whole, at most 16777216 bytes. Then it prints `frames <n>`, and answers the commands
/// line by line. Lines are ended by newlines alone.
///
/// # Errors
///
/// `Fault::File(FileOption::Standard)` if the commands can't be read, are longer or not UTF-8, or if the
/// sink fails. `Fault::Debug(DebugFault::Memory)` if there is no memory for the commands or the session.
pub fn run_session<C: TapSource, W: OutSink>(
    alloc: Global,
    program: Program,
    frames: Vec<TapFrame>,
    commands: &mut C,
    sink: &mut W,
) -> Result<(), Fault>
    ensures { IsSessionRun program frames.items result
        (source_at C.TapSource commands.old)
        (source_at C.TapSource commands.new)
        (sink_at W.OutSink sink.old) (sink_at W.OutSink sink.new) }
{
    let text = match read_text(alloc, commands) {
        Ok(text) => text,
        Err(refusal) => return Err(fault_of_commands(refusal)),
    };
    let mut session = begin_session(alloc, program, frames, sink)?;
    answer_lines(alloc, &mut session, &text, sink)
}
