//! The answer on standard output whether a run of `watch` would be sound.
use crate::inputs::{MAX_LATE, shown_path, text_of};
use afdx_frame::Network;
use bpf_loader::Program;
use check_answer::{Answer, FilterAnswer, TapAnswer, json_of, text_of as answer_text, verdict_of};
use command_line::{CheckArguments, Exit, Fault, FileOption, Invocation, kinds_in};
use pcap_io::Ending;
use run_fault::{MAX_FRAMES, WatchFault};
use run_inputs::filter_of;
use run_manifest::Sum;
use std::alloc::{AllocError, Global};
use std::fmt::Write;
use table_check::{TableFault, table_faults};
use tap_inputs::{
    Cause, Disorder, NO_RUN, Outcome, Tap, TapFiles, Taps, end_of, open_both, print, tell_gaps,
};
use traffic_survey::{
    Extent, Inputs, Look, Pass, Question, Reach, Recorded, link_questions, questions_of,
    show_recordings,
};
use vl_config::Config;

/// How many frames of each recording are read at most, where they aren't read whole.
const MAX_LOOKED_AT: u64 = 1_000_000;

/// The result of a pass over the recordings.
#[derive(Clone, Copy)]
struct Passed<'a> {
    a: Option<TapAnswer<'a>>,
    b: Option<TapAnswer<'a>>,
    unread: Option<Fault>,
}

fn tap_answer<'a>(
    rt: &HostRuntime,
    given: &CheckArguments<'_>,
    (network, tap): (Network, &'a Tap),
    name: &'a str,
    source: TapFiles<'_>,
    recorded: Recorded,
) -> Option<TapAnswer<'a>> {
    if name.is_empty() {
        return None;
    }
    let end = end_of(rt, source);
    let _ = tell_gaps(rt, network, tap, &end);
    Some(TapAnswer {
        name,
        tap,
        format: end.format,
        recorded,
        percent: percent_of(tap, rt, &end.sums),
        disorder: Disorder::of(Invocation::Check(*given), recorded.ending),
        skipped: end.skipped,
        dropped: tap.dropped(rt),
    })
}

/// How many per cent of a recording's bytes were read, where it goes on. None: a file's length isn't known.
fn percent_of(tap: &Tap, rt: &HostRuntime, read: &[Sum]) -> Option<u64> {
    let mut length = 0u64;
    for file in &tap.files {
        length = length.saturating_add(file.length(rt)?);
    }
    let bytes = read
        .iter()
        .fold(0u64, |sum: u64, file| sum.saturating_add(file.bytes));
    let percent = bytes.saturating_mul(100).checked_div(length)?;
    Some(percent.min(99))
}

/// The name of a recording for a person: empty if it isn't given.
fn name_of(rt: &HostRuntime, tap: &Tap) -> Result<String, Fault> {
    let mut name = String::new(rt.alloc());
    let Some(first) = tap.path_at(0) else {
        return Ok(name);
    };
    let written = match tap.files.len() {
        1 => write!(name, "{}", shown_path(first)),
        2 => write!(name, "{first} and 1 more file"),
        count => write!(name, "{first} and {} more files", count.saturating_sub(1)),
    };
    match written {
        Ok(()) => Ok(name),
        Err(_) => Err(NO_RUN),
    }
}

/// Reads the first frames of both recordings.
fn read_recordings<'a>(
    rt: &HostRuntime,
    given: &CheckArguments<'_>,
    (taps, names): (&'a Taps, [&'a str; 2]),
    config: Option<&Config>,
    inputs: &mut Inputs<'_>,
) -> Result<Passed<'a>, Outcome> {
    let extent = Extent {
        frames: if given.whole {
            MAX_FRAMES
        } else {
            MAX_LOOKED_AT
        },
        late: config.map_or(MAX_LATE, |config| config.late()),
    };
    let (a, b) = open_both(rt, (given.a, given.b), taps, extent.late)?;
    let tap_a = (Network::A, taps.of_network(Network::A));
    let tap_b = (Network::B, taps.of_network(Network::B));
    let Pass { outcome, a, b } = show_recordings(rt.alloc(), extent, a, b, inputs);
    match outcome {
        Ok((of_a, of_b)) => Ok(Passed {
            a: tap_answer(rt, given, tap_a, names[0], a, of_a),
            b: tap_answer(rt, given, tap_b, names[1], b, of_b),
            unread: None,
        }),
        Err(WatchFault::Memory) => Err(Outcome::from(NO_RUN)),
        Err(fault) => Ok(Passed {
            a: None,
            b: None,
            unread: Some(Fault::Watch(fault)),
        }),
    }
}

fn filter_answer(
    number: Option<u8>,
    loaded: Result<Program, Fault>,
) -> Result<FilterAnswer, Fault> {
    let loaded = match loaded {
        Ok(program) => Ok(program.len()),
        Err(Fault::Watch(fault)) => return Err(Fault::Watch(fault)),
        Err(fault) => Err(fault),
    };
    Ok(FilterAnswer { number, loaded })
}

/// True if the filters load: that of the command line, and those of the table.
fn filter_answers(
    rt: &HostRuntime,
    given: &CheckArguments<'_>,
    config: Option<&Config>,
) -> Result<Vec<FilterAnswer>, Outcome> {
    let mut answers = Vec::new(rt.alloc());
    if let Some(path) = given.filter {
        let code = text_of(rt, path, FileOption::Filter)?;
        let answer = filter_answer(None, filter_of(rt.alloc(), &code, None))?;
        answers.push(answer).map_err(|_| NO_RUN)?;
    }
    let Some(config) = config else {
        return Ok(answers);
    };
    for (index, code) in config.filters().iter().enumerate() {
        let number = Some(index as u8 + 1);
        let answer = filter_answer(number, filter_of(rt.alloc(), code, number))?;
        answers.push(answer).map_err(|_| NO_RUN)?;
    }
    Ok(answers)
}

/// The part of a recording that was read.
fn reach_of(tap: Option<TapAnswer<'_>>) -> Option<Reach> {
    let recorded = tap?.recorded;
    let span = recorded.span?;
    Some(Reach {
        least: span.least,
        greatest: span.greatest,
        whole: recorded.whole,
    })
}

/// Does a recording end without a frame, and without a packet that can't be read?
fn is_empty(tap: Option<TapAnswer<'_>>) -> bool {
    match tap {
        Some(tap) => matches!(tap.recorded.ending, Ending::Clean(0) | Ending::Cut(0)),
        None => false,
    }
}

/// The table of a text without a fault.
fn table_in(rt: &HostRuntime, text: &str, faults: &[TableFault]) -> Result<Option<Config>, Fault> {
    if !faults.is_empty() {
        return Ok(None);
    }
    match Config::read(rt.alloc(), text) {
        Ok(config) => Ok(Some(config)),
        Err(_) => Err(NO_RUN),
    }
}

/// A table's text, its faults, and the table where it has none.
#[derive(Clone, Copy)]
struct Table<'a> {
    text: &'a str,
    faults: &'a [TableFault],
    config: Option<&'a Config>,
}

/// Tells whether a run with these inputs would be sound.
pub fn check(
    rt: &HostRuntime,
    given: &CheckArguments<'_>,
    taps: &Taps,
) -> Result<Outcome, Outcome> {
    let text = text_of(rt, given.config, FileOption::Config)?;
    let faults = table_faults(rt.alloc(), &text)?;
    let config = table_in(rt, &text, &faults)?;
    let table = Table {
        text: &text,
        faults: &faults,
        config: config.as_ref(),
    };
    check_inputs(rt, given, taps, table)
}

/// Looks at the filters and the recordings, and tells the answer.
fn check_inputs(
    rt: &HostRuntime,
    given: &CheckArguments<'_>,
    taps: &Taps,
    table: Table<'_>,
) -> Result<Outcome, Outcome> {
    let name_a = name_of(rt, taps.of_network(Network::A))?;
    let name_b = name_of(rt, taps.of_network(Network::B))?;
    let recordings = (taps, [name_a.as_str(), name_b.as_str()]);
    let filters = filter_answers(rt, given, table.config)?;
    let expected = kinds_in(rt.alloc(), given.expected.unwrap_or(""))?;
    let mut inputs = Inputs::new(rt.alloc(), table.config, &expected)?;
    let passed = read_recordings(rt, given, recordings, table.config, &mut inputs)?;
    tell_inputs(rt, given, table, &filters, &inputs, passed)
}

/// The questions that recordings leave open: of the run, and then of single links.
fn all_questions(
    alloc: Global,
    inputs: &Inputs<'_>,
    look: Look,
) -> Result<Vec<Question>, AllocError> {
    let mut questions = questions_of(alloc, inputs, look)?;
    for question in link_questions(alloc, inputs)? {
        questions.push(question)?;
    }
    Ok(questions)
}

/// Tells what was found.
fn tell_inputs(
    rt: &HostRuntime,
    given: &CheckArguments<'_>,
    table: Table<'_>,
    filters: &[FilterAnswer],
    inputs: &Inputs<'_>,
    passed: Passed<'_>,
) -> Result<Outcome, Outcome> {
    let look = Look {
        a: reach_of(passed.a),
        b: reach_of(passed.b),
        empty_a: is_empty(passed.a),
        empty_b: is_empty(passed.b),
    };
    let questions = all_questions(rt.alloc(), inputs, look)?;
    let answer = Answer {
        table: shown_path(given.config),
        text: table.text,
        faults: table.faults,
        config: table.config,
        filters,
        a: passed.a,
        b: passed.b,
        unread: passed.unread,
        inputs,
        look,
        questions: &questions,
    };
    tell_answer(rt, given, &answer)
}

/// Prints the answer.
fn tell_answer(
    rt: &HostRuntime,
    given: &CheckArguments<'_>,
    answer: &Answer<'_>,
) -> Result<Outcome, Outcome> {
    let alloc = rt.alloc();
    let text = if given.json {
        let mut text = json_of(alloc, answer).map_err(|_| NO_RUN)?;
        text.push('\n')?;
        text
    } else {
        answer_text(alloc, answer)?
    };
    if let Err(error) = print(rt, &text) {
        return Err(Outcome::of_file(FileOption::Standard, Cause::System(error)));
    }
    let exit = if verdict_of(answer).is_sound() {
        Exit::Success
    } else {
        Exit::Fault(Fault::Unsound)
    };
    Ok(Outcome {
        unread: answer.unread,
        ..Outcome::from(exit)
    })
}
