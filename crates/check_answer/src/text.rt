//! The answer as text.

use crate::advice::QuestionAdvice;
use crate::answer::{Answer, FilterAnswer, TapAnswer};
use crate::faults::{ToldFault, told_faults};
use crate::lines::{push_absent, push_foreign, push_unlisted};
use crate::questions::QuestionText;
use crate::verdict::verdict_of;
use crate::words::{Counted, Utc, format_words};
use command_line::{Fault, Shown, push_advice, push_wrapped, reason_words};
use pcap_io::Ending;
use std::alloc::{AllocError, Global};
use std::fmt::Write;
use traffic_survey::{Overlap, Question};

/// How many columns a line of a question has at most.
const COLUMNS: usize = 100;

/// How many torn files of a recording are named at most.
const MAX_TORN: usize = 16;

/// The fault line of a command, without what begins each.
fn push_fault(out: &mut String, alloc: Global, fault: &Fault) -> Result<(), AllocError> {
    let line = fault.to_string(alloc)?;
    out.push_str(line.strip_prefix("afdxmon: ").unwrap_or(&line))
}

fn push_table(out: &mut String, answer: &Answer<'_>) -> Result<(), AllocError> {
    let name = Shown(answer.table);
    write!(out, "table: {name}: ")?;
    match answer.config {
        Some(config) => {
            let links = Counted(config.links().len() as u64, "link");
            let constant = config.constant();
            writeln!(out, "{links}, constant {constant}")
        }
        None => {
            let faults = Counted(answer.faults.len() as u64, "fault");
            writeln!(out, "{faults}")
        }
    }
}

fn push_told(out: &mut String, name: &str, fault: &ToldFault) -> Result<(), AllocError> {
    let name = Shown(name);
    write!(out, "fault: {name}")?;
    if let Some(place) = fault.place {
        write!(out, ":{place}")?;
    }
    if fault.found.is_empty() {
        let word = fault.word;
        return writeln!(out, ": {word}");
    }
    let (found, allowed) = (Shown(&fault.found), fault.allowed.as_str());
    writeln!(out, ": {found}: {allowed}")
}

fn push_faults(out: &mut String, alloc: Global, answer: &Answer<'_>) -> Result<(), AllocError> {
    let told = told_faults(alloc, answer.text, answer.faults)?;
    for fault in &told {
        push_told(out, answer.table, fault)?;
    }
    let more = answer.faults.len().saturating_sub(told.len());
    if more > 0 {
        writeln!(out, "fault: and {more} more in the table")?;
    }
    Ok(())
}

fn push_filter(out: &mut String, alloc: Global, filter: &FilterAnswer) -> Result<(), AllocError> {
    match (&filter.loaded, filter.number) {
        (Ok(count), number) => {
            match number {
                Some(number) => write!(out, "filter: {number} of the table: ")?,
                None => out.push_str("filter: --filter: ")?,
            }
            let count = Counted(*count as u64, "instruction");
            writeln!(out, "{count}")
        }
        (Err(fault), _) => {
            out.push_str("fault: ")?;
            push_fault(out, alloc, fault)?;
            out.push_str("\n")
        }
    }
}

/// How a recording ends.
fn push_ending(out: &mut String, tap: &TapAnswer<'_>) -> Result<(), AllocError> {
    if !tap.recorded.whole {
        return out.push_str("; it goes on, and no more was read");
    }
    match tap.recorded.ending {
        Ending::Clean(_) => out.push_str("; it ends clean"),
        Ending::Cut(_) => out.push_str("; it ends cut, within a record"),
        Ending::Bad(_, reason) => {
            let reason = reason_words(reason);
            write!(out, "; it ends bad: {reason}")
        }
    }
}

fn push_tap(out: &mut String, network: &str, tap: &TapAnswer<'_>) -> Result<(), AllocError> {
    let (name, format) = (Shown(tap.name), format_words(tap.format));
    let frames = Counted(tap.recorded.ending.frames(), "frame");
    write!(out, "network {network}: {name}: {format}; {frames}")?;
    if let Some(span) = tap.recorded.span {
        let (least, greatest) = (Utc(span.least), Utc(span.greatest));
        write!(out, ", {least} to {greatest}")?;
    }
    push_ending(out, tap)?;
    if tap.skipped > 0 {
        let skipped = Counted(tap.skipped, "packet");
        write!(out, "; {skipped} not of Ethernet")?;
    }
    out.push_str("\n")
}

/// The fault of a recording that ends bad.
fn push_bad(out: &mut String, network: &str, tap: &TapAnswer<'_>) -> Result<(), AllocError> {
    let Ending::Bad(count, reason) = tap.recorded.ending else {
        return Ok(());
    };
    let (frames, reason) = (Counted(count, "frame"), reason_words(reason));
    write!(
        out,
        "fault: of network {network} no frame is read after {frames}: {reason}"
    )?;
    if let Some(disorder) = tap.disorder {
        write!(out, "{disorder}")?;
    }
    out.push_str("\n")
}

/// The faults of a recording's torn files.
fn push_torn(out: &mut String, network: &str, tap: &TapAnswer<'_>) -> Result<(), AllocError> {
    let mut told = 0usize;
    for (number, file) in tap.tap.files.iter().enumerate() {
        if let Some(how) = tap.tap.torn(number) {
            told = told.saturating_add(1);
            if told <= MAX_TORN {
                let (path, how) = (Shown(&file.path), how.words());
                writeln!(out, "fault: of network {network} {path} {how}")?;
            }
        }
    }
    let more = told.saturating_sub(MAX_TORN);
    if more > 0 {
        writeln!(out, "fault: of network {network} {more} more files end so")?;
    }
    Ok(())
}

fn push_taps(out: &mut String, alloc: Global, answer: &Answer<'_>) -> Result<(), AllocError> {
    for (network, tap) in [("A", answer.a), ("B", answer.b)] {
        if let Some(tap) = tap {
            push_tap(out, network, &tap)?;
            push_torn(out, network, &tap)?;
            push_bad(out, network, &tap)?;
        }
    }
    if let Some(fault) = &answer.unread {
        out.push_str("fault: ")?;
        push_fault(out, alloc, fault)?;
        out.push_str("\n")?;
    }
    match answer.look.overlap() {
        Some(Overlap::Together) => out.push_str("overlap: the recordings overlap in time\n"),
        Some(Overlap::Unknown) => {
            out.push_str("overlap: not within what was read of the recordings\n")
        }
        Some(Overlap::Apart) => out.push_str("overlap: none\n"),
        None => Ok(()),
    }
}

/// A note of the packets that the recorder of each network says that it dropped.
fn push_dropped(out: &mut String, answer: &Answer<'_>) -> Result<(), AllocError> {
    for (network, tap) in [("A", answer.a), ("B", answer.b)] {
        let dropped = tap.map_or(0, |tap| tap.dropped);
        if dropped > 0 {
            let packets = Counted(dropped, "packet");
            writeln!(
                out,
                "note: the recorder of network {network} dropped {packets}"
            )?;
        }
    }
    Ok(())
}

/// Writes a question in lines of at most 100 columns, and below it what to do.
fn push_question(out: &mut String, alloc: Global, question: &Question) -> Result<(), AllocError> {
    let (asked, advice) = (QuestionText(question), QuestionAdvice(question));
    let mut line = String::new(alloc);
    write!(line, "question: {asked}")?;
    push_wrapped(out, COLUMNS, 0, &line)?;
    let advice = advice.to_string(alloc)?;
    push_advice(out, &advice)
}

/// Writes the part of the recordings that was read, where that isn't all of them.
fn push_extent(out: &mut String, answer: &Answer<'_>) -> Result<(), AllocError> {
    for (network, tap) in [("A", answer.a), ("B", answer.b)] {
        if let Some(tap) = tap {
            if !tap.recorded.whole {
                let frames = Counted(tap.recorded.ending.frames(), "frame");
                write!(out, "; of {network} by its first {frames}")?;
                if let Some(percent) = tap.percent {
                    write!(out, " ({percent} %)")?;
                }
            }
        }
    }
    out.push_str("\n")
}

/// The answer as lines of text.
///
/// # Errors
///
/// `AllocError` if the system is out of memory.
pub fn text_of(alloc: Global, answer: &Answer<'_>) -> Result<String, AllocError> {
    let mut out = String::new(alloc);
    push_table(&mut out, answer)?;
    push_faults(&mut out, alloc, answer)?;
    for filter in answer.filters {
        push_filter(&mut out, alloc, filter)?;
    }
    push_taps(&mut out, alloc, answer)?;
    for question in answer.questions {
        push_question(&mut out, alloc, question)?;
    }
    if answer.a.is_some() || answer.b.is_some() {
        push_absent(&mut out, answer.inputs)?;
        push_unlisted(&mut out, answer.inputs)?;
        push_foreign(&mut out, answer.inputs)?;
        push_dropped(&mut out, answer)?;
    }
    let verdict = verdict_of(answer);
    if verdict.is_sound() {
        out.push_str("sound: yes")?;
    } else {
        let faults = Counted(verdict.faults as u64, "fault");
        let questions = Counted(verdict.questions as u64, "question");
        write!(out, "sound: no, {faults} and {questions}")?;
    }
    push_extent(&mut out, answer)?;
    Ok(out)
}
