//! The answer on standard output on what a switch did with the frames that went in.
use crate::files::refuse_shared;
use crate::inputs::{shown_path, text_of};
use crate::outputs::create;
use afdx_frame::{VL_ID_COUNT, VlId};
use command_line::{Exit, Fault, FileOption, Invocation, SelectionOption, TransitArguments};
use ledger_text::{LinkSet, LinkSetFault};
use pcap_io::WriteSink;
use run_fault::{Output, WatchFault};
use run_inputs::read_config;
use std::io;
use tap_inputs::{
    Blocks, Cause, Outcome, Skipped, TapEnd, TapFiles, Taps, end_of, open_both, print,
};
use transit_answer::{
    Answer, Question, Transits, WalkRun, json_of, notes_of, questions_of, text_of as answer_text,
    walk_both,
};
use transit_run::Options;
use vl_config::Config;

/// The ledger can't be written.
const LEDGER_FAILED: WatchFault = WatchFault::Write {
    output: Output::Ledger,
};

/// There is no memory for a pass.
const NO_TRANSIT: Fault = Fault::Transit(WatchFault::Memory);

/// The fault of a pass, by the names of its options: the port in stands for network A, that out for B.
fn fault_of(fault: Fault) -> Fault {
    match fault {
        Fault::File(file) => Fault::File(file_of(file)),
        Fault::Interfaces(file) => Fault::Interfaces(file_of(file)),
        Fault::Order(file) => Fault::Order(file_of(file)),
        Fault::Repeated(file) => Fault::Repeated(file_of(file)),
        Fault::Watch(fault) => Fault::Transit(fault),
        fault => fault,
    }
}

fn file_of(file: FileOption) -> FileOption {
    match file {
        FileOption::A => FileOption::Before,
        FileOption::B => FileOption::After,
        file => file,
    }
}

/// The outcome with its fault by the names of the command's options.
fn named(outcome: Outcome) -> Outcome {
    let exit = match outcome.exit {
        Exit::Fault(fault) => Exit::Fault(fault_of(fault)),
        exit => exit,
    };
    Outcome { exit, ..outcome }
}

/// The links that are routed to the port out, if they are given.
fn routed_of(
    rt: &HostRuntime,
    text: Option<&str>,
    config: &Config,
) -> Result<Option<Vec<VlId>>, Fault> {
    let Some(text) = text else {
        return Ok(None);
    };
    let set = match LinkSet::read(rt.alloc(), text, Some(config)) {
        Ok(set) => set,
        Err(LinkSetFault::Item(item, _)) => {
            let option = SelectionOption::Routed;
            return Err(Fault::Selection { option, item });
        }
        Err(LinkSetFault::Memory) => return Err(NO_TRANSIT),
    };
    let mut links = Vec::new(rt.alloc());
    for id in 0..VL_ID_COUNT {
        let id = VlId(u16::try_from(id).unwrap_or(u16::MAX));
        if set.contains(id) {
            links.push(id).map_err(|_| NO_TRANSIT)?;
        }
    }
    Ok(Some(links))
}

/// How the recordings are compared.
fn options_of(
    rt: &HostRuntime,
    given: &TransitArguments<'_>,
    config: &Config,
) -> Result<Options, Fault> {
    Ok(Options {
        within: given.within,
        early: given.early,
        bound: given.bound,
        grace: given.grace,
        frames: given.by_frames,
        routed: routed_of(rt, given.routed, config)?,
    })
}

/// How far a timestamp may lie below the greatest one before it, in nanoseconds.
fn late_of(given: &TransitArguments<'_>, config: &Config) -> u64 {
    match given.late {
        Some(late) => late.nanoseconds(),
        None => config.late(),
    }
}

/// The ledger that is written, if one is.
fn ledger_of(
    rt: &HostRuntime,
    given: &TransitArguments<'_>,
) -> Result<Option<WriteSink<Blocks>>, Outcome> {
    match given.ledger {
        Some(path) => {
            let output = create(rt, path, FileOption::Ledger)?;
            Ok(Some(WriteSink::new(output)))
        }
        None => Ok(None),
    }
}

/// Hands the system the rest of the ledger. Why it takes no more, if it doesn't.
fn finish_ledger(ledger: Option<WriteSink<Blocks>>, is_whole: bool) -> Option<io::Error> {
    let ledger = ledger?;
    ledger.into_writer().finish(is_whole).err()
}

/// The answer, as text or as JSON.
fn answer_of(
    rt: &HostRuntime,
    given: &TransitArguments<'_>,
    answer: &Answer<'_, '_>,
    questions: &[Question],
) -> Result<String, Fault> {
    let alloc = rt.alloc();
    let notes = notes_of(alloc, answer).map_err(|_| NO_TRANSIT)?;
    if !given.json {
        return answer_text(alloc, answer, questions, &notes).map_err(|_| NO_TRANSIT);
    }
    let mut text = json_of(alloc, answer, questions, &notes).map_err(|_| NO_TRANSIT)?;
    text.push('\n').map_err(|_| NO_TRANSIT)?;
    Ok(text)
}

/// Prints the answer on what was found.
fn tell(
    rt: &HostRuntime,
    given: &TransitArguments<'_>,
    found: &Transits<'_>,
) -> Result<Exit, Outcome> {
    let name_before = shown_path(given.before);
    let name_after = shown_path(given.after);
    let pass = &found.pass;
    let looks = &found.looks;
    let answer = Answer {
        pass,
        looks,
        before: found.before,
        after: found.after,
        name_before,
        name_after,
        network: given.network,
        shift: given.shift,
    };
    let questions = match questions_of(rt.alloc(), &answer) {
        Ok(questions) => questions,
        Err(_) => return Err(Outcome::from(NO_TRANSIT)),
    };
    let text = answer_of(rt, given, &answer, &questions)?;
    if let Err(error) = print(rt, &text) {
        return Err(Outcome::of_file(FileOption::Standard, Cause::System(error)));
    }
    Ok(if questions.is_empty() {
        Exit::Success
    } else {
        Exit::Fault(Fault::Questioned)
    })
}

/// The fault of a pass, and why the system took no more of its ledger.
fn walk_fault(fault: WatchFault, refused: Option<io::Error>) -> Outcome {
    Outcome {
        cause: refused.map(|error| Cause::System(error)),
        ..Outcome::from(Fault::Watch(fault))
    }
}

/// The findings of a pass whose ledger is written, or how it ended.
fn found_of<'t>(
    outcome: Result<Transits<'t>, WatchFault>,
    refused: Option<io::Error>,
) -> Result<Transits<'t>, Outcome> {
    let found = match outcome {
        Ok(found) => found,
        Err(fault) => return Err(walk_fault(fault, refused)),
    };
    match refused {
        None => Ok(found),
        Some(error) => Err(walk_fault(LEDGER_FAILED, Some(error))),
    }
}

/// Compares the recordings, writes the ledger and tells the answer.
fn compare(
    rt: &HostRuntime,
    given: &TransitArguments<'_>,
    config: &Config,
    options: Options,
    (before, after): (TapFiles<'_>, TapFiles<'_>),
) -> (Result<Exit, Outcome>, TapEnd, TapEnd) {
    let late = late_of(given, config);
    let ledger = match ledger_of(rt, given) {
        Ok(ledger) => ledger,
        Err(refused) => return (Err(refused), end_of(rt, before), end_of(rt, after)),
    };
    let run = walk_both(
        rt.alloc(),
        config,
        options,
        (given.network, given.shift, late),
        (before, after),
        ledger,
    );
    let WalkRun {
        outcome,
        ledger,
        before,
        after,
    } = run;
    let (before, after) = (end_of(rt, before), end_of(rt, after));
    let refused = finish_ledger(ledger, outcome.is_ok());
    match found_of(outcome, refused) {
        Ok(found) => (tell(rt, given, &found), before, after),
        Err(refused) => (Err(refused), before, after),
    }
}

/// Opens what is read, and compares.
fn transit_by(
    rt: &HostRuntime,
    given: &TransitArguments<'_>,
    taps: &Taps,
) -> Result<Outcome, Outcome> {
    let text = text_of(rt, given.config, FileOption::Config)?;
    let config = read_config(rt.alloc(), &text)?;
    let options = options_of(rt, given, &config)?;
    let late = late_of(given, &config);
    let recordings = open_both(rt, (Some(given.before), Some(given.after)), taps, late)?;
    refuse_shared(rt, Invocation::Transit(*given), taps)?;
    let (told, before, after) = compare(rt, given, &config, options, recordings);
    let ended = match told {
        Ok(exit) => Outcome::from(exit),
        Err(refused) => refused,
    };
    Ok(Outcome {
        skipped: Skipped::two(before.skipped, after.skipped),
        at: [before.file, after.file],
        ..ended
    })
}

/// Tells what a switch did with the frames that went in: two recordings, made by one clock at a port in and
/// at a port out. The ledger is written first.
pub fn transit(
    rt: &HostRuntime,
    given: &TransitArguments<'_>,
    taps: &Taps,
) -> Result<Outcome, Outcome> {
    match transit_by(rt, given, taps) {
        Ok(ended) => Ok(named(ended)),
        Err(refused) => Err(named(refused)),
    }
}
