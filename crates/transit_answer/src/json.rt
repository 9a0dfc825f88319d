//! The answer as JSON.

use crate::advice::QuestionAdvice;
use crate::answer::{Answer, Side};
use crate::notes::Note;
use crate::questions::Question;
use command_line::join_advice;
use serde::Serialize;
use serde_json::Error;
use std::alloc::{AllocError, Global};
use std::fmt::Write;
use transit_run::{Fate, FaultFrame, Kind, Latency, LinkTransits, Origin, Pass, Silence, Tally};

/// Moments are in nanoseconds since 1970, as decimal strings.
#[derive(Drop, Serialize)]
struct JsonRecording<'a> {
    path: &'a str,
    frames: u64,
    end: &'static str,
    first: Option<String>,
    last: Option<String>,
}

#[derive(Drop, Serialize)]
struct JsonSpan {
    first: String,
    last: String,
}

#[derive(Drop, Serialize)]
struct JsonTotal {
    passed: u64,
    slow: u64,
    overtaken: u64,
    changed: u64,
    lax: u64,
    leak: u64,
    dropped: u64,
    refused: u64,
    unrouted: u64,
    twice: u64,
    new: u64,
    elsewhere: u64,
    open_before: u64,
    open_after: u64,
    cut_before: u64,
    cut_after: u64,
    choice: u64,
}

#[derive(Drop, Serialize)]
struct JsonLatency {
    count: u64,
    sum: i64,
    mean: i64,
    least: i64,
    p50: Option<i64>,
    p99: Option<i64>,
    p999: Option<i64>,
    greatest: i64,
    over: u64,
    negative: u64,
    histogram: Vec<(i64, u64)>,
}

#[derive(Drop, Serialize)]
struct JsonLink<'a> {
    id: u16,
    name: Option<&'a str>,
    before: u64,
    after: u64,
    passed: u64,
    slow: u64,
    overtaken: u64,
    changed: u64,
    lax: u64,
    leak: u64,
    dropped: u64,
    refused: u64,
    unrouted: u64,
    twice: u64,
    new: u64,
    elsewhere: u64,
    open_before: u64,
    open_after: u64,
    row: u64,
    first: Option<String>,
    latency: Option<JsonLatency>,
}

#[derive(Drop, Serialize)]
struct JsonSilence {
    from: String,
    to: String,
    frames: u64,
    links: u64,
}

#[derive(Drop, Serialize)]
struct JsonSilences {
    before: Vec<JsonSilence>,
    after: Vec<JsonSilence>,
}

#[derive(Drop, Serialize)]
struct JsonKind {
    frames: u64,
    links: u64,
    first: String,
    last: String,
    most_in_a_second: u64,
    second: u64,
}

#[derive(Drop, Serialize)]
struct JsonKinds {
    #[serde(skip_serializing_if = "Option::is_none")]
    dropped: Option<JsonKind>,
    #[serde(skip_serializing_if = "Option::is_none")]
    lax: Option<JsonKind>,
    #[serde(skip_serializing_if = "Option::is_none")]
    leak: Option<JsonKind>,
    #[serde(skip_serializing_if = "Option::is_none")]
    slow: Option<JsonKind>,
    #[serde(skip_serializing_if = "Option::is_none")]
    overtaken: Option<JsonKind>,
    #[serde(skip_serializing_if = "Option::is_none")]
    changed: Option<JsonKind>,
    #[serde(skip_serializing_if = "Option::is_none")]
    twice: Option<JsonKind>,
    #[serde(skip_serializing_if = "Option::is_none")]
    new: Option<JsonKind>,
}

#[derive(Drop, Serialize)]
struct JsonFault {
    time: String,
    side: &'static str,
    number: u64,
    link: Option<u16>,
    sequence: Option<u8>,
    fault: &'static str,
}

#[derive(Drop, Serialize)]
struct JsonQuestion {
    question: &'static str,
    text: String,
    #[serde(skip_serializing_if = "Option::is_none")]
    nanoseconds: Option<i64>,
    #[serde(skip_serializing_if = "Option::is_none")]
    at_least: Option<bool>,
    #[serde(skip_serializing_if = "Option::is_none")]
    shift_ns: Option<i64>,
    #[serde(skip_serializing_if = "Option::is_none")]
    parts_per_billion: Option<i64>,
    #[serde(skip_serializing_if = "Option::is_none")]
    from: Option<String>,
    #[serde(skip_serializing_if = "Option::is_none")]
    to: Option<String>,
    #[serde(skip_serializing_if = "Option::is_none")]
    frames: Option<u64>,
    #[serde(skip_serializing_if = "Option::is_none")]
    links: Option<u64>,
}

#[derive(Drop, Serialize)]
struct JsonAnswer<'a> {
    transit: u8,
    network: Option<&'a str>,
    sound: bool,
    within_ns: u64,
    early_ns: u64,
    shift_ns: i64,
    bound_ns: Option<u64>,
    police: &'static str,
    grace_ns: u32,
    routed: Option<Vec<u16>>,
    before: JsonRecording<'a>,
    after: JsonRecording<'a>,
    common: Option<JsonSpan>,
    total: JsonTotal,
    latency: Option<JsonLatency>,
    links: Vec<JsonLink<'a>>,
    unlisted: Vec<JsonLink<'a>>,
    silences: JsonSilences,
    kinds: JsonKinds,
    faults: Vec<JsonFault>,
    questions: Vec<JsonQuestion>,
    notes: Vec<String>,
}

fn decimal(alloc: Global, number: u64) -> Result<String, AllocError> {
    let mut out = String::new(alloc);
    write!(out, "{number}")?;
    Ok(out)
}

fn decimal_if(alloc: Global, number: Option<u64>) -> Result<Option<String>, AllocError> {
    match number {
        Some(number) => Ok(Some(decimal(alloc, number)?)),
        None => Ok(None),
    }
}

fn recording_of<'a>(
    alloc: Global,
    answer: &Answer<'a, '_>,
    side: Side,
) -> Result<JsonRecording<'a>, AllocError> {
    let recorded = answer.recorded(side);
    let path = match side {
        Side::Before => answer.name_before,
        Side::After => answer.name_after,
    };
    let (first, last) = match recorded.span {
        Some(span) => (
            Some(answer.moment(side, span.least)),
            Some(answer.moment(side, span.greatest)),
        ),
        None => (None, None),
    };
    Ok(JsonRecording {
        path,
        frames: recorded.ending.frames(),
        end: recorded.ending.word(),
        first: decimal_if(alloc, first)?,
        last: decimal_if(alloc, last)?,
    })
}

fn total_of(tally: &Tally) -> JsonTotal {
    JsonTotal {
        passed: tally.fates(Fate::Passed),
        slow: tally.fates(Fate::Slow),
        overtaken: tally.fates(Fate::Overtaken),
        changed: tally.fates(Fate::Changed),
        lax: tally.fates(Fate::Lax),
        leak: tally.fates(Fate::Leak),
        dropped: tally.fates(Fate::Dropped),
        refused: tally.fates(Fate::Refused),
        unrouted: tally.fates(Fate::Unrouted),
        twice: tally.origins(Origin::Twice),
        new: tally.origins(Origin::New),
        elsewhere: tally.origins(Origin::Elsewhere),
        open_before: tally.fates(Fate::Open),
        open_after: tally.origins(Origin::Open),
        cut_before: tally.fates(Fate::Cut),
        cut_after: tally.origins(Origin::Cut),
        choice: tally.choices,
    }
}

fn latency_of(alloc: Global, latency: &Latency) -> Result<Option<JsonLatency>, AllocError> {
    let (Some((least, greatest)), Some(mean)) = (latency.range, latency.mean()) else {
        return Ok(None);
    };
    let mut histogram = Vec::new(alloc);
    for (bin, count) in latency.bins() {
        histogram.push((*bin, *count))?;
    }
    Ok(Some(JsonLatency {
        count: latency.count,
        sum: i64::try_from(latency.sum).unwrap_or(i64::MAX),
        mean,
        least,
        p50: latency.rank(500),
        p99: latency.rank(990),
        p999: latency.rank(999),
        greatest,
        over: latency.over,
        negative: latency.negative,
        histogram,
    }))
}

fn link_of<'a>(
    alloc: Global,
    id: u16,
    name: Option<&'a str>,
    link: LinkTransits<'_>,
) -> Result<JsonLink<'a>, AllocError> {
    let tally = link.tally;
    Ok(JsonLink {
        id,
        name,
        before: tally.before,
        after: tally.after,
        passed: tally.fates(Fate::Passed),
        slow: tally.fates(Fate::Slow),
        overtaken: tally.fates(Fate::Overtaken),
        changed: tally.fates(Fate::Changed),
        lax: tally.fates(Fate::Lax),
        leak: tally.fates(Fate::Leak),
        dropped: tally.fates(Fate::Dropped),
        refused: tally.fates(Fate::Refused),
        unrouted: tally.fates(Fate::Unrouted),
        twice: tally.origins(Origin::Twice),
        new: tally.origins(Origin::New),
        elsewhere: tally.origins(Origin::Elsewhere),
        open_before: tally.fates(Fate::Open),
        open_after: tally.origins(Origin::Open),
        row: link.row,
        first: decimal_if(alloc, link.first_fault)?,
        latency: latency_of(alloc, link.latency)?,
    })
}

/// The links of the table.
fn links_of<'a>(alloc: Global, pass: &'a Pass<'_>) -> Result<Vec<JsonLink<'a>>, AllocError> {
    let mut list = Vec::new(alloc);
    for (place, row) in pass.table().links().iter().enumerate() {
        if let Some(link) = pass.link(place.saturating_add(1)) {
            let name = Some(row.name.as_str());
            list.push(link_of(alloc, row.id.0, name, link)?)?;
        }
    }
    Ok(list)
}

/// Other links of which a frame went in or came out, by their identifiers.
fn unlisted_of<'a>(alloc: Global, pass: &Pass<'_>) -> Result<Vec<JsonLink<'a>>, AllocError> {
    let mut places: Vec<(u16, usize)> = Vec::new(alloc);
    for place in pass.table().links().len().saturating_add(1)..pass.link_count() {
        if let Some(id) = pass.link(place).and_then(|link| link.id) {
            places.push((id.0, place))?;
        }
    }
    places.sort_unstable();
    let mut list = Vec::new(alloc);
    for (id, place) in &places {
        if let Some(link) = pass.link(*place) {
            list.push(link_of(alloc, *id, None, link)?)?;
        }
    }
    Ok(list)
}

fn silences_of(alloc: Global, silences: &[Silence]) -> Result<Vec<JsonSilence>, AllocError> {
    let mut list = Vec::new(alloc);
    for silence in silences {
        list.push(JsonSilence {
            from: decimal(alloc, silence.from)?,
            to: decimal(alloc, silence.to)?,
            frames: silence.frames,
            links: silence.links,
        })?;
    }
    Ok(list)
}

fn kind_of(alloc: Global, pass: &Pass<'_>, kind: Kind) -> Result<Option<JsonKind>, AllocError> {
    let Some(tally) = pass.faults().of(kind) else {
        return Ok(None);
    };
    Ok(Some(JsonKind {
        frames: tally.frames,
        links: pass.links_with(kind),
        first: decimal(alloc, tally.first)?,
        last: decimal(alloc, tally.last)?,
        most_in_a_second: tally.most,
        second: tally.second,
    }))
}

fn kinds_of(alloc: Global, pass: &Pass<'_>) -> Result<JsonKinds, AllocError> {
    Ok(JsonKinds {
        dropped: kind_of(alloc, pass, Kind::Dropped)?,
        lax: kind_of(alloc, pass, Kind::Lax)?,
        leak: kind_of(alloc, pass, Kind::Leak)?,
        slow: kind_of(alloc, pass, Kind::Slow)?,
        overtaken: kind_of(alloc, pass, Kind::Overtaken)?,
        changed: kind_of(alloc, pass, Kind::Changed)?,
        twice: kind_of(alloc, pass, Kind::Twice)?,
        new: kind_of(alloc, pass, Kind::New)?,
    })
}

fn fault_of(alloc: Global, fault: &FaultFrame) -> Result<JsonFault, AllocError> {
    let (link, sequence) = match fault.address {
        Some((link, sequence)) => (Some(link.0), Some(sequence)),
        None => (None, None),
    };
    Ok(JsonFault {
        time: decimal(alloc, fault.moment)?,
        side: if fault.is_after { "after" } else { "before" },
        number: fault.number,
        link,
        sequence,
        fault: fault.kind.word(),
    })
}

fn faults_of(alloc: Global, pass: &Pass<'_>) -> Result<Vec<JsonFault>, AllocError> {
    let mut list = Vec::new(alloc);
    for fault in pass.faults().first_frames() {
        list.push(fault_of(alloc, fault)?)?;
    }
    Ok(list)
}

/// A question without its numbers.
fn plain(alloc: Global, question: &Question) -> Result<JsonQuestion, AllocError> {
    let advice = QuestionAdvice(question).to_string(alloc)?;
    let mut text = question.to_string(alloc)?;
    join_advice(&mut text, &advice)?;
    Ok(JsonQuestion {
        question: question.word(),
        text,
        nanoseconds: None,
        at_least: None,
        shift_ns: None,
        parts_per_billion: None,
        from: None,
        to: None,
        frames: None,
        links: None,
    })
}

impl JsonQuestion {
    /// By how much clocks are apart, or at least are, and the shift to try.
    fn set_clocks(&mut self, nanoseconds: i64, at_least: bool, shift: i64) {
        self.nanoseconds = Some(nanoseconds);
        self.at_least = Some(at_least);
        self.shift_ns = Some(shift);
    }
}

fn question_of(alloc: Global, question: &Question) -> Result<JsonQuestion, AllocError> {
    let mut json = plain(alloc, question)?;
    match *question {
        Question::Drift(parts) => json.parts_per_billion = Some(parts),
        Question::Step { step, .. } => {
            json.nanoseconds = Some(step.change);
            json.from = Some(decimal(alloc, step.from)?);
            json.to = Some(decimal(alloc, step.to)?);
        }
        Question::ClocksOrSwapped { least, shift } => json.set_clocks(least, true, shift),
        Question::ClocksApart { least, shift, .. } => json.set_clocks(least, true, shift),
        Question::ClocksFar { apart, shift, .. } => json.set_clocks(apart, false, shift),
        Question::Silence(_, silence) => {
            json.from = Some(decimal(alloc, silence.from)?);
            json.to = Some(decimal(alloc, silence.to)?);
            json.frames = Some(silence.frames);
            json.links = Some(silence.links);
        }
        _ => {}
    }
    Ok(json)
}

fn questions_of(alloc: Global, questions: &[Question]) -> Result<Vec<JsonQuestion>, AllocError> {
    let mut list = Vec::new(alloc);
    for question in questions {
        list.push(question_of(alloc, question)?)?;
    }
    Ok(list)
}

fn routed_of(alloc: Global, pass: &Pass<'_>) -> Result<Option<Vec<u16>>, AllocError> {
    let Some(routed) = &pass.options().routed else {
        return Ok(None);
    };
    let mut list = Vec::with_capacity(alloc, routed.len())?;
    for link in routed {
        list.push(link.0)?;
    }
    Ok(Some(list))
}

fn common_of(alloc: Global, pass: &Pass<'_>) -> Result<Option<JsonSpan>, AllocError> {
    match pass.common() {
        Some((first, last)) => Ok(Some(JsonSpan {
            first: decimal(alloc, first)?,
            last: decimal(alloc, last)?,
        })),
        None => Ok(None),
    }
}

/// The notes, each with what to do in one line.
fn texts_of(alloc: Global, notes: &[Note]) -> Result<Vec<String>, AllocError> {
    let mut list = Vec::new(alloc);
    for note in notes {
        let mut text = String::from_str(alloc, &note.text)?;
        join_advice(&mut text, &note.advice)?;
        list.push(text)?;
    }
    Ok(list)
}

fn answer_of<'a>(
    alloc: Global,
    answer: &Answer<'a, '_>,
    questions: &[Question],
    notes: &[Note],
) -> Result<JsonAnswer<'a>, AllocError> {
    let pass = answer.pass;
    let options = pass.options();
    Ok(JsonAnswer {
        transit: 1,
        network: answer.network,
        sound: questions.is_empty(),
        within_ns: options.within,
        early_ns: options.early,
        shift_ns: answer.shift,
        bound_ns: options.bound,
        police: if options.frames { "frames" } else { "bytes" },
        grace_ns: options.grace,
        routed: routed_of(alloc, pass)?,
        before: recording_of(alloc, answer, Side::Before)?,
        after: recording_of(alloc, answer, Side::After)?,
        common: common_of(alloc, pass)?,
        total: total_of(pass.tally()),
        latency: latency_of(alloc, pass.latency())?,
        links: links_of(alloc, pass)?,
        unlisted: unlisted_of(alloc, pass)?,
        silences: JsonSilences {
            before: silences_of(alloc, pass.silences_in())?,
            after: silences_of(alloc, pass.silences_out())?,
        },
        kinds: kinds_of(alloc, pass)?,
        faults: faults_of(alloc, pass)?,
        questions: questions_of(alloc, questions)?,
        notes: texts_of(alloc, notes)?,
    })
}

/// The answer as one JSON object.
///
/// # Errors
///
/// The system is out of memory.
pub fn json_of(
    alloc: Global,
    answer: &Answer<'_, '_>,
    questions: &[Question],
    notes: &[Note],
) -> Result<String, Error> {
    let json = answer_of(alloc, answer, questions, notes)?;
    serde_json::to_string(alloc, &json)
}
