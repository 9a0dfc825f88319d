//! The notes on what is judged less surely.

use crate::answer::{Answer, Side};
use crate::words::Counted;
use command_line::{EndingAdvice, MAX_LATE_MICROS, reason_words};
use pcap_io::{BadReason, Ending};
use std::alloc::{AllocError, Global};
use std::fmt::Write;
use transit_run::{Fate, Origin, Pass};

const SHORTER: &str = "Give a shorter --within-us and --early-us, as far as latencies allow it";

const WHOLE: &str = "Record whole frames, by tcpdump -s 0";

/// A note: what is judged less surely, and what to do.
#[derive(Drop)]
pub struct Note {
    pub text: String,
    pub advice: String,
}

/// Where a recording ends early, and why.
fn write_ending(
    note: &mut String,
    side: Side,
    frames: u64,
    reason: Option<BadReason>,
) -> Result<(), AllocError> {
    let (side, frames) = (side.word(), Counted(frames, "frame"));
    write!(note, "the recording of --{side} ends ")?;
    match reason {
        None => write!(note, "within a packet, after {frames}."),
        Some(BadReason::StampBack { by }) => {
            let by = by.div_ceil(1000);
            write!(
                note,
                "bad after {frames}: a timestamp is out of order by {by} us."
            )
        }
        Some(reason) => {
            let reason = reason_words(reason);
            write!(note, "bad after {frames}: {reason}.")
        }
    }
}

/// The advice on a recording that ends early.
fn write_ending_advice(advice: &mut String, ending: Ending) -> Result<(), AllocError> {
    if let Ending::Bad(_, BadReason::StampBack { by }) = ending {
        let by = by.div_ceil(1000);
        if by <= MAX_LATE_MICROS {
            return write!(
                advice,
                "Give --late-us {by}, or sort it: reordercap in.pcap out.pcap"
            );
        }
    }
    let words = EndingAdvice(ending);
    write!(advice, "{words}")
}

/// The note on a recording that ends early.
fn ending_note(alloc: Global, side: Side, ending: Ending) -> Result<Option<Note>, AllocError> {
    let reason = match ending {
        Ending::Clean(_) => return Ok(None),
        Ending::Cut(_) => None,
        Ending::Bad(_, reason) => Some(reason),
    };
    let (mut text, mut advice) = (String::new(alloc), String::new(alloc));
    write_ending(&mut text, side, ending.frames(), reason)?;
    write_ending_advice(&mut advice, ending)?;
    Ok(Some(Note { text, advice }))
}

/// The note on frames that may be one another.
fn choice_note(alloc: Global, pass: &Pass<'_>) -> Result<Option<Note>, AllocError> {
    let choices = pass.tally().choices;
    if choices == 0 {
        return Ok(None);
    }
    let mut text = String::new(alloc);
    let frames = Counted(choices, "frame");
    write!(
        text,
        "of {frames} an equal one was in the window: which is which isn't certain."
    )?;
    let advice = String::from_str(alloc, SHORTER)?;
    Ok(Some(Note { text, advice }))
}

/// The note on transits that are as long as the window.
fn window_note(alloc: Global, pass: &Pass<'_>) -> Result<Option<Note>, AllocError> {
    let within = pass.options().within;
    let greatest = pass.latency().range.map_or(0, |range| range.1);
    if i128::from(greatest) * 10 <= i128::from(within) * 9 {
        return Ok(None);
    }
    let text = String::from_str(alloc, "latencies reach the window's end.")?;
    let (mut advice, micros) = (String::new(alloc), within / 500);
    write!(advice, "Give --within-us {micros}")?;
    Ok(Some(Note { text, advice }))
}

/// The note on frames that aren't compared.
fn cut_note(alloc: Global, pass: &Pass<'_>) -> Result<Option<Note>, AllocError> {
    let tally = pass.tally();
    let cut = tally
        .fates(Fate::Cut)
        .saturating_add(tally.origins(Origin::Cut));
    if cut == 0 {
        return Ok(None);
    }
    let mut text = String::new(alloc);
    let frames = Counted(cut, "frame");
    write!(
        text,
        "{frames} cut short, not compared: as many of the dropped and the new may be none."
    )?;
    let advice = String::from_str(alloc, WHOLE)?;
    Ok(Some(Note { text, advice }))
}

/// The notes on what is judged less surely.
///
/// # Errors
///
/// `AllocError` if the system is out of memory.
pub fn notes_of(alloc: Global, answer: &Answer<'_, '_>) -> Result<Vec<Note>, AllocError> {
    let (pass, mut notes) = (answer.pass, Vec::new(alloc));
    for side in Side::ALL {
        if let Some(note) = ending_note(alloc, side, answer.recorded(side).ending)? {
            notes.push(note)?;
        }
    }
    if let Some(note) = choice_note(alloc, pass)? {
        notes.push(note)?;
    }
    if let Some(note) = window_note(alloc, pass)? {
        notes.push(note)?;
    }
    if let Some(note) = cut_note(alloc, pass)? {
        notes.push(note)?;
    }
    Ok(notes)
}
