//! The table of virtual links that is drafted from recordings and a document.
use crate::inputs::{MAX_LATE, text_of};
use command_line::{Exit, Fault, FileOption, IcdLines, LinksArguments};
use icd_links::{IcdLinks, IcdRefusal};
use pcap_io::Ending;
use std::io;
use table_draft::{Comparison, DraftFault, LeftOut, Recordings, Sources, Unspecified, draft_of};
use tap_inputs::{Cause, Detail, NO_RUN, Outcome, Skipped, Taps, end_of, open_both, print};
use traffic_survey::{GROUP_BITS, SurveyRun, survey_recordings};
use vl_config::ConfigFault;

/// The constant field that a text names, in decimal or after `0x` in hexadecimal digits.
fn constant_of(text: Option<&str>) -> Result<Option<u32>, Fault> {
    let Some(text) = text else {
        return Ok(None);
    };
    let read = match text.strip_prefix("0x") {
        Some(digits) => u32::from_str_radix(digits, 16),
        None => text.parse(),
    };
    match read {
        Ok(constant) if constant & GROUP_BITS == GROUP_BITS => Ok(Some(constant)),
        Ok(_) | Err(_) => Err(Fault::Constant),
    }
}

/// How the command ended, from how its recordings did: of two that ended early the first is told, and the
/// draft has both.
fn exit_of(a: Ending, b: Ending) -> Exit {
    match (a, b) {
        (Ending::Clean(_), Ending::Clean(_)) => Exit::Success,
        (Ending::Clean(_), early) => Exit::Note(early),
        (early, _) => Exit::Note(early),
    }
}

/// The links that a document specifies, if one is given.
fn icd_of(rt: &HostRuntime, given: &LinksArguments<'_>) -> Result<Option<IcdLinks>, Outcome> {
    let Some(path) = given.icd else {
        return Ok(None);
    };
    let text = text_of(rt, path, FileOption::Icd)?;
    match IcdLinks::read(rt.alloc(), &text, &given.columns) {
        Ok(links) => Ok(Some(links)),
        Err(refusal) => Err(refused(rt, &refusal)),
    }
}

/// The outcome of a document that is refused, with its faults.
fn refused(rt: &HostRuntime, refusal: &IcdRefusal) -> Outcome {
    let outcome = Outcome::from(Fault::Icd(refusal.first()));
    let IcdRefusal::Faults(faults) = refusal else {
        return outcome;
    };
    match IcdLines(faults).to_string(rt.alloc()) {
        Ok(lines) => outcome.with(Detail::Listed(lines)),
        Err(_) => outcome,
    }
}

/// Tells a person how many links differ, of each kind that there is.
fn tell_comparison(rt: &HostRuntime, comparison: Comparison) -> io::Result<()> {
    if comparison.is_empty() {
        return Ok(());
    }
    eprintln!(rt; "afdxmon: note: {comparison}. The draft's comments say how")
}

/// The fault of a draft that isn't made.
fn fault_of(fault: DraftFault) -> Fault {
    match fault {
        DraftFault::NoTable(fault) => Fault::Draft(fault),
        DraftFault::Unlike => Fault::Draft(ConfigFault::Text),
        DraftFault::Memory => NO_RUN,
    }
}

/// Notes which links the draft leaves out.
fn note_left_out(rt: &HostRuntime, links: LeftOut<'_>) -> io::Result<()> {
    if links.is_empty() {
        return Ok(());
    }
    eprintln!(rt; "afdxmon: note: not drafted, since all their frames are cut short: links {links}")
}

/// Notes which links the draft has in comments alone, since the document lacks them.
fn note_unspecified(rt: &HostRuntime, links: Unspecified<'_>) -> io::Result<()> {
    if links.is_empty() {
        return Ok(());
    }
    eprintln!(rt; "afdxmon: note: not drafted, since the ICD has no such links: {links}")
}

/// Prints the draft.
fn print_draft(rt: &HostRuntime, sources: &Sources<'_>) -> Result<Comparison, Outcome> {
    let draft = draft_of(rt.alloc(), sources).map_err(fault_of)?;
    match print(rt, &draft.text) {
        Ok(()) => Ok(draft.comparison),
        Err(error) => Err(Outcome::of_file(FileOption::Standard, Cause::System(error))),
    }
}

/// Prints a draft of the table of virtual links that recordings have and a document specifies.
pub fn links<'x>(
    rt: &'x HostRuntime,
    given: &LinksArguments<'_>,
    taps: &'x Taps,
    full: bool,
) -> Result<Outcome, Outcome> {
    let constant = constant_of(given.constant)?;
    let icd = icd_of(rt, given)?;
    let (a, b) = open_both(rt, (given.a, given.b), taps, MAX_LATE)?;
    let SurveyRun { outcome, cut, a, b } = survey_recordings(rt.alloc(), constant, a, b);
    let (mut end_a, mut end_b) = (end_of(rt, a), end_of(rt, b));
    let exit = match outcome {
        Ok((survey, a, b)) => {
            let recordings = Recordings {
                a: given.a.map(|_| a),
                b: given.b.map(|_| b),
            };
            let icd = icd.as_ref();
            let sources = Sources {
                survey: &survey,
                cut: &cut,
                recordings,
                constant,
                icd,
            };
            let comparison = print_draft(rt, &sources)?;
            let _ = note_left_out(rt, LeftOut(&sources));
            let _ = note_unspecified(rt, Unspecified(&sources));
            if full {
                let _ = tell_comparison(rt, comparison);
            }
            (end_a.file, end_b.file) = (end_a.file_of(a.ending), end_b.file_of(b.ending));
            exit_of(a.ending, b.ending)
        }
        Err(fault) => Exit::Fault(Fault::Watch(fault)),
    };
    Ok(Outcome {
        skipped: Skipped::two(end_a.skipped, end_b.skipped),
        at: [end_a.file, end_b.file],
        ..Outcome::from(exit)
    })
}
