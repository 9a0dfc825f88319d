//! The answer as JSON.

use crate::advice::QuestionAdvice;
use crate::answer::{Answer, FilterAnswer, TapAnswer};
use crate::faults::{ToldFault, told_faults};
use crate::questions::QuestionText;
use crate::verdict::verdict_of;
use crate::words::{Utc, format_words, question_word};
use afdx_frame::{Network, VlId};
use command_line::{Fault, join_advice, reason_words};
use pcap_io::Ending;
use serde::Serialize;
use serde_json::Error;
use std::alloc::{AllocError, Global};
use std::fmt::Write;
use tap_inputs::Tap;
use traffic_survey::{Kind, Overlap, Question};

#[derive(Drop, Serialize)]
struct JsonFault {
    fault: &'static str,
    line: Option<u64>,
    column: Option<u64>,
    link: Option<u32>,
    id: Option<i64>,
    name: Option<String>,
    key: Option<String>,
    found: String,
    allowed: String,
}

#[derive(Drop, Serialize)]
struct JsonTable<'a> {
    path: &'a str,
    links: Option<u64>,
    constant: Option<u32>,
    fault_count: u64,
    faults: Vec<JsonFault>,
}

#[derive(Drop, Serialize)]
struct JsonFilter {
    filter: u8,
    instructions: Option<u64>,
    fault: Option<String>,
}

/// A file that is torn, behind which the recording goes on.
#[derive(Drop, Serialize)]
struct JsonTorn<'a> {
    path: &'a str,
    how: &'static str,
}

/// Timestamps are in nanoseconds since 1970, as decimal strings, and in UTC.
#[derive(Drop, Serialize)]
struct JsonTap<'a> {
    path: &'a str,
    format: &'static str,
    frames: u64,
    whole: bool,
    percent: Option<u64>,
    end: &'static str,
    reason: Option<&'static str>,
    first: Option<String>,
    last: Option<String>,
    first_utc: Option<String>,
    last_utc: Option<String>,
    not_ethernet: u64,
    dropped: u64,
    torn: Vec<JsonTorn<'a>>,
}

#[derive(Drop, Serialize)]
struct JsonLink<'a> {
    id: u16,
    name: &'a str,
    a: u64,
    b: u64,
    copies: u64,
}

#[derive(Drop, Serialize)]
struct JsonUnlisted {
    id: u16,
    frames: u32,
}

/// Foreign frames of an EtherType. 0: they have a length in its place.
#[derive(Drop, Serialize)]
struct JsonKind {
    ethertype: Option<u16>,
    kind: Option<&'static str>,
    frames: u64,
    expected: bool,
}

#[derive(Drop, Serialize)]
struct JsonDifference {
    ahead: &'static str,
    nanoseconds: String,
    links: u64,
    of: u64,
}

#[derive(Drop, Serialize)]
struct JsonQuestion {
    question: &'static str,
    text: String,
    difference: Option<JsonDifference>,
}

#[derive(Drop, Serialize)]
struct JsonAnswer<'a> {
    version: u8,
    sound: bool,
    faults: u64,
    table: JsonTable<'a>,
    filters: Vec<JsonFilter>,
    a: Option<JsonTap<'a>>,
    b: Option<JsonTap<'a>>,
    unread: Option<String>,
    overlap: Option<&'static str>,
    questions: Vec<JsonQuestion>,
    links: Vec<JsonLink<'a>>,
    unlisted: Vec<JsonUnlisted>,
    foreign: Vec<JsonKind>,
}

/// A fault's line, without what begins each.
fn line_of(alloc: Global, fault: &Fault) -> Result<String, AllocError> {
    let line = fault.to_string(alloc)?;
    String::from_str(alloc, line.strip_prefix("afdxmon: ").unwrap_or(&line))
}

fn decimal(alloc: Global, number: u64) -> Result<String, AllocError> {
    let mut out = String::new(alloc);
    write!(out, "{number}")?;
    Ok(out)
}

fn utc(alloc: Global, stamp: u64) -> Result<String, AllocError> {
    let mut out = String::new(alloc);
    let moment = Utc(stamp);
    write!(out, "{moment}")?;
    Ok(out)
}

fn filters_of(alloc: Global, filters: &[FilterAnswer]) -> Result<Vec<JsonFilter>, AllocError> {
    let mut list = Vec::new(alloc);
    for filter in filters {
        let (instructions, fault) = match &filter.loaded {
            Ok(count) => (Some(*count as u64), None),
            Err(fault) => (None, Some(line_of(alloc, fault)?)),
        };
        list.push(JsonFilter {
            filter: filter.number.unwrap_or(0),
            instructions,
            fault,
        })?;
    }
    Ok(list)
}

fn torn_of(alloc: Global, tap: &Tap) -> Result<Vec<JsonTorn<'_>>, AllocError> {
    let mut list = Vec::new(alloc);
    for (number, file) in tap.files.iter().enumerate() {
        if let Some(how) = tap.torn(number) {
            list.push(JsonTorn {
                path: &file.path,
                how: how.word(),
            })?;
        }
    }
    Ok(list)
}

fn tap_of<'a>(alloc: Global, tap: &TapAnswer<'a>) -> Result<JsonTap<'a>, AllocError> {
    let recorded = tap.recorded;
    let mut json = JsonTap {
        path: tap.name,
        format: format_words(tap.format),
        frames: recorded.ending.frames(),
        whole: recorded.whole,
        percent: if recorded.whole {
            Some(100)
        } else {
            tap.percent
        },
        end: recorded.ending.word(),
        reason: match recorded.ending {
            Ending::Bad(_, reason) => Some(reason_words(reason)),
            Ending::Clean(_) | Ending::Cut(_) => None,
        },
        first: None,
        last: None,
        first_utc: None,
        last_utc: None,
        not_ethernet: tap.skipped,
        dropped: tap.dropped,
        torn: torn_of(alloc, tap.tap)?,
    };
    if let Some(span) = recorded.span {
        json.first = Some(decimal(alloc, span.least)?);
        json.last = Some(decimal(alloc, span.greatest)?);
        json.first_utc = Some(utc(alloc, span.least)?);
        json.last_utc = Some(utc(alloc, span.greatest)?);
    }
    Ok(json)
}

fn tap_if<'a>(
    alloc: Global,
    tap: &Option<TapAnswer<'a>>,
) -> Result<Option<JsonTap<'a>>, AllocError> {
    match tap {
        Some(tap) => Ok(Some(tap_of(alloc, tap)?)),
        None => Ok(None),
    }
}

fn difference_of(alloc: Global, question: &Question) -> Result<Option<JsonDifference>, AllocError> {
    match question {
        Question::Clocks(Some(difference)) | Question::Rounds { difference, .. } => {
            Ok(Some(JsonDifference {
                ahead: difference.ahead.letter(),
                nanoseconds: decimal(alloc, difference.nanos)?,
                links: difference.links as u64,
                of: difference.of as u64,
            }))
        }
        Question::Stepped(step) => Ok(Some(JsonDifference {
            ahead: step.ahead.letter(),
            nanoseconds: decimal(alloc, step.nanos)?,
            links: step.links as u64,
            of: step.of as u64,
        })),
        _ => Ok(None),
    }
}

fn questions_of(alloc: Global, questions: &[Question]) -> Result<Vec<JsonQuestion>, AllocError> {
    let mut list = Vec::new(alloc);
    for question in questions {
        let (asked, advice) = (QuestionText(question), QuestionAdvice(question));
        let mut text = asked.to_string(alloc)?;
        let advice = advice.to_string(alloc)?;
        join_advice(&mut text, &advice)?;
        list.push(JsonQuestion {
            question: question_word(question),
            text,
            difference: difference_of(alloc, question)?,
        })?;
    }
    Ok(list)
}

fn links_of<'a>(alloc: Global, answer: &Answer<'a>) -> Result<Vec<JsonLink<'a>>, AllocError> {
    let mut list = Vec::new(alloc);
    let (links, tallies) = (answer.inputs.links(), answer.inputs.tallies());
    for (link, tally) in links.iter().zip(tallies) {
        list.push(JsonLink {
            id: link.id.0,
            name: link.name.as_str(),
            a: tally.frames(Network::A),
            b: tally.frames(Network::B),
            copies: tally.copies(),
        })?;
    }
    Ok(list)
}

fn unlisted_of(alloc: Global, answer: &Answer<'_>) -> Result<Vec<JsonUnlisted>, AllocError> {
    let mut list = Vec::new(alloc);
    for id in 0..=u16::MAX {
        let frames = answer.inputs.unlisted(VlId(id));
        if frames > 0 {
            list.push(JsonUnlisted { id, frames })?;
        }
    }
    Ok(list)
}

fn kind_of(kind: &Kind, expected: bool) -> JsonKind {
    JsonKind {
        ethertype: Some(kind.ethertype),
        kind: kind.name(),
        frames: kind.frames,
        expected,
    }
}

/// The foreign frames by what they carry: those that are expected first.
fn foreign_of(alloc: Global, answer: &Answer<'_>) -> Result<Vec<JsonKind>, AllocError> {
    let mut list = Vec::new(alloc);
    let Some(kinds) = answer.inputs.kinds() else {
        return Ok(list);
    };
    for kind in kinds.expected() {
        list.push(kind_of(kind, true))?;
    }
    for kind in kinds.kinds() {
        list.push(kind_of(kind, false))?;
    }
    if kinds.others() > 0 {
        list.push(JsonKind {
            ethertype: None,
            kind: None,
            frames: kinds.others(),
            expected: false,
        })?;
    }
    Ok(list)
}

fn overlap_word(answer: &Answer<'_>) -> Option<&'static str> {
    Some(match answer.look.overlap()? {
        Overlap::Together => "yes",
        Overlap::Apart => "no",
        Overlap::Unknown => "unknown",
    })
}

fn fault_of(told: ToldFault) -> JsonFault {
    let ToldFault {
        place,
        word,
        link,
        id,
        name,
        key,
        found,
        allowed,
    } = told;
    JsonFault {
        fault: word,
        line: place.map(|place| place.line as u64),
        column: place.map(|place| place.column as u64),
        link,
        id,
        name,
        key,
        found,
        allowed,
    }
}

fn faults_of(alloc: Global, answer: &Answer<'_>) -> Result<Vec<JsonFault>, AllocError> {
    let told = told_faults(alloc, answer.text, answer.faults)?;
    let mut faults = Vec::with_capacity(alloc, told.len())?;
    for fault in told {
        faults.push(fault_of(fault))?;
    }
    Ok(faults)
}

fn table_of<'a>(alloc: Global, answer: &Answer<'a>) -> Result<JsonTable<'a>, AllocError> {
    Ok(JsonTable {
        path: answer.table,
        links: answer.config.map(|config| config.links().len() as u64),
        constant: answer.config.map(|config| config.constant()),
        fault_count: answer.faults.len() as u64,
        faults: faults_of(alloc, answer)?,
    })
}

fn answer_of<'a>(alloc: Global, answer: &Answer<'a>) -> Result<JsonAnswer<'a>, AllocError> {
    let verdict = verdict_of(answer);
    let unread = match &answer.unread {
        Some(fault) => Some(line_of(alloc, fault)?),
        None => None,
    };
    Ok(JsonAnswer {
        version: 1,
        sound: verdict.is_sound(),
        faults: verdict.faults as u64,
        table: table_of(alloc, answer)?,
        filters: filters_of(alloc, answer.filters)?,
        a: tap_if(alloc, &answer.a)?,
        b: tap_if(alloc, &answer.b)?,
        unread,
        overlap: overlap_word(answer),
        questions: questions_of(alloc, answer.questions)?,
        links: links_of(alloc, answer)?,
        unlisted: unlisted_of(alloc, answer)?,
        foreign: foreign_of(alloc, answer)?,
    })
}

/// The answer as one JSON object.
///
/// # Errors
///
/// The system is out of memory.
pub fn json_of(alloc: Global, answer: &Answer<'_>) -> Result<String, Error> {
    let json = answer_of(alloc, answer)?;
    serde_json::to_string(alloc, &json)
}
