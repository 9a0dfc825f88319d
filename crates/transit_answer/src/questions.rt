//! The questions on recordings that look wrong.

use crate::answer::{Answer, Side};
use crate::apart::{agreed_difference, usual_lead};
use crate::words::{Counted, Length, length_of};
use std::alloc::{AllocError, Global};
use std::fmt;
use std::fmt::{Display, Formatter};
use transit_run::{Fate, Latency, Origin, Pass, Silence, Step};

/// A question: each is of something that looks wrong. Lengths of time are in nanoseconds.
#[derive(Clone, Copy)]
pub enum Question {
    /// A recording has no frame.
    Empty(Side),
    /// More than one frame in a hundred of a recording isn't whole.
    Cut(Side),
    /// Nine in ten of a recording's first frames end with their check sequences.
    CheckSequence(Side),
    /// Nine in ten of the frames that went in have another constant field.
    Constant,
    /// More than half of the frames that went in are of links that the table lacks.
    OtherTable,
    /// The least transit rises or falls, by so many parts of 10^9.
    Drift(i64),
    /// The least transit steps to another level, so many nanoseconds after the start.
    Step {
        step: Step,
        since: u64,
    },
    /// All frames come out before they go in, and queueing makes that shorter.
    Swapped,
    /// All frames come out before they go in: by so much at most. The shift has the fastest come out at once.
    ClocksOrSwapped {
        least: i64,
        shift: i64,
    },
    /// So many frames come out before they go in.
    ClocksApart {
        least: i64,
        shift: i64,
        negative: u64,
        of: u64,
    },
    /// So many frames with unique bytes agree on a difference beyond the window.
    ClocksFar {
        apart: i64,
        shift: i64,
        frames: u64,
        of: u64,
    },
    /// All transits are 0, and no frame is changed.
    SameRecording,
    /// A quarter of a recording's frames stand in it twice.
    Twice(Side),
    /// The recordings have no common time.
    Apart,
    /// No frame that came out went in.
    OtherPort,
    /// Most frames are changed, in the byte that names the network.
    TwoNetworks,
    /// Most frames are changed.
    Rewritten,
    /// Many frames in a row never came out, and many that never went in: transits may be longer than this.
    Window {
        within: u64,
    },
    /// The same, where frames come out so much before they go in, earlier than the window begins.
    Early {
        lead: u64,
    },
    /// For a time nothing was recorded.
    Silence(Side, Silence),
}

/// The question that the clocks raise, or recordings in each other's place.
fn clock_question(answer: &Answer<'_, '_>) -> Option<Question> {
    if let Some(parts) = answer.pass.drift() {
        return Some(Question::Drift(parts));
    }
    if let Some(step) = answer.pass.step() {
        let start = answer.pass.start().unwrap_or(step.moment);
        let since = step.moment.saturating_sub(start);
        return Some(Question::Step { step, since });
    }
    let latency = answer.pass.latency();
    let (least, greatest) = latency.range?;
    let shift = answer.shift.saturating_sub(least);
    let fewer = answer.frames(Side::Before).min(answer.frames(Side::After));
    let changed = answer.pass.tally().fates(Fate::Changed);
    if latency.negative == latency.count && latency.count.saturating_mul(2) > fewer {
        Some(if is_reversed(latency) {
            Question::Swapped
        } else {
            Question::ClocksOrSwapped { least, shift }
        })
    } else if least == 0 && greatest == 0 && changed == 0 {
        Some(Question::SameRecording)
    } else if latency.negative > 0 {
        Some(Question::ClocksApart {
            least,
            shift,
            negative: latency.negative,
            of: latency.count,
        })
    } else {
        None
    }
}

/// Is the long tail of the transits on the side of the short ones? Queueing makes a transit longer, never
/// shorter.
fn is_reversed(latency: &Latency) -> bool {
    match (latency.rank(10), latency.rank(500), latency.rank(990)) {
        (Some(low), Some(middle), Some(high)) => {
            middle.saturating_sub(low) > high.saturating_sub(middle)
        }
        _ => false,
    }
}

/// Asks whether the frames are those of the table, and whole.
fn ask_of_frames(questions: &mut Vec<Question>, answer: &Answer<'_, '_>) -> Result<(), AllocError> {
    let (pass, looks) = (answer.pass, answer.looks);
    let (before, after) = (answer.frames(Side::Before), answer.frames(Side::After));
    if pass.tally().fates(Fate::Cut).saturating_mul(100) > before {
        questions.push(Question::Cut(Side::Before))?;
    }
    if pass.tally().origins(Origin::Cut).saturating_mul(100) > after {
        questions.push(Question::Cut(Side::After))?;
    }
    if looks.before.has_checks() {
        questions.push(Question::CheckSequence(Side::Before))?;
    }
    if looks.after.has_checks() {
        questions.push(Question::CheckSequence(Side::After))?;
    }
    if pass.foreign().saturating_mul(10) >= before.saturating_mul(9) {
        questions.push(Question::Constant)?;
    } else if pass.unconfigured().saturating_mul(2) > before {
        questions.push(Question::OtherTable)?;
    }
    Ok(())
}

/// Asks whether a recording has its frames twice.
fn ask_of_copies(questions: &mut Vec<Question>, answer: &Answer<'_, '_>) -> Result<(), AllocError> {
    let tally = answer.pass.tally();
    if tally.choices.saturating_mul(4) > answer.frames(Side::Before) {
        questions.push(Question::Twice(Side::Before))?;
    }
    if tally.origins(Origin::Twice).saturating_mul(4) > answer.frames(Side::After) {
        questions.push(Question::Twice(Side::After))?;
    }
    Ok(())
}

/// The clocks that are apart by more than the window, where hardly a frame has a partner.
fn far_clocks(alloc: Global, answer: &Answer<'_, '_>) -> Result<Option<Question>, AllocError> {
    let pass = answer.pass;
    let fewer = answer.frames(Side::Before).min(answer.frames(Side::After));
    if pass.latency().count.saturating_mul(8) >= fewer {
        return Ok(None);
    }
    let options = pass.options();
    let Some(found) = agreed_difference(alloc, answer.looks, options.early)? else {
        return Ok(None);
    };
    let apart = i128::from(found.median);
    if -i128::from(options.early) <= apart && apart <= i128::from(options.within) {
        return Ok(None);
    }
    Ok(Some(Question::ClocksFar {
        apart: found.median,
        shift: answer.shift.saturating_sub(found.least),
        frames: found.frames,
        of: found.of,
    }))
}

/// The silence that is told of a recording: the first.
fn silence_of(pass: &Pass<'_>, side: Side) -> Option<Silence> {
    let silences = match side {
        Side::Before => pass.silences_in(),
        Side::After => pass.silences_out(),
    };
    silences.first().copied()
}

/// The question whether the window is too short, and on which side.
fn window_question(alloc: Global, answer: &Answer<'_, '_>) -> Result<Question, AllocError> {
    let (within, early) = (answer.pass.options().within, answer.pass.options().early);
    match usual_lead(alloc, answer.looks, early, within)? {
        Some(lead) => Ok(Question::Early { lead }),
        None => Ok(Question::Window { within }),
    }
}

/// The question whether the recordings are of one switch, and whole in between.
fn pair_question(answer: &Answer<'_, '_>) -> Option<Question> {
    let pass = answer.pass;
    let changed = pass.tally().fates(Fate::Changed);
    let pairs = pass.latency().count.saturating_add(changed);
    if pass.common().is_none() {
        return Some(Question::Apart);
    }
    if pairs == 0 {
        return Some(Question::OtherPort);
    }
    if changed.saturating_mul(2) > pairs {
        let others = pass.other_network().saturating_mul(10);
        return Some(if others >= changed.saturating_mul(9) {
            Question::TwoNetworks
        } else {
            Question::Rewritten
        });
    }
    match (
        silence_of(pass, Side::Before),
        silence_of(pass, Side::After),
    ) {
        (Some(_), Some(_)) => {
            let within = pass.options().within;
            Some(Question::Window { within })
        }
        (Some(silence), None) => Some(Question::Silence(Side::Before, silence)),
        (None, Some(silence)) => Some(Question::Silence(Side::After, silence)),
        (None, None) => None,
    }
}

/// All that looks wrong, in the order in which it is to be mended. What may come of an earlier question isn't
/// asked.
///
/// # Errors
///
/// `AllocError` if the system is out of memory.
pub fn questions_of(alloc: Global, answer: &Answer<'_, '_>) -> Result<Vec<Question>, AllocError> {
    let mut questions = Vec::new(alloc);
    for side in Side::ALL {
        if answer.frames(side) == 0 {
            questions.push(Question::Empty(side))?;
            return Ok(questions);
        }
    }
    ask_of_frames(&mut questions, answer)?;
    if let Some(question) = clock_question(answer) {
        questions.push(question)?;
    }
    ask_of_copies(&mut questions, answer)?;
    if !questions.is_empty() {
        return Ok(questions);
    }
    let question = match far_clocks(alloc, answer)? {
        Some(question) => Some(question),
        None => pair_question(answer),
    };
    match question {
        Some(Question::Window { .. }) => questions.push(window_question(alloc, answer)?)?,
        Some(question) => questions.push(question)?,
        None => {}
    }
    Ok(questions)
}

impl Question {
    /// Its word, for scripts.
    pub fn word(&self) -> &'static str {
        match self {
            Question::Empty(Side::Before) => "empty_before",
            Question::Empty(Side::After) => "empty_after",
            Question::Cut(Side::Before) => "cut_before",
            Question::Cut(Side::After) => "cut_after",
            Question::CheckSequence(Side::Before) => "check_sequence_before",
            Question::CheckSequence(Side::After) => "check_sequence_after",
            Question::Constant => "constant",
            Question::OtherTable => "other_table",
            Question::Drift(_) => "drift",
            Question::Step { .. } => "step",
            Question::Swapped => "swapped",
            Question::ClocksOrSwapped { .. }
            | Question::ClocksApart { .. }
            | Question::ClocksFar { .. } => "clocks",
            Question::SameRecording => "same_recording",
            Question::Twice(Side::Before) => "twice_before",
            Question::Twice(Side::After) => "twice_after",
            Question::Apart => "apart",
            Question::OtherPort => "other_port",
            Question::TwoNetworks => "two_networks",
            Question::Rewritten => "rewritten",
            Question::Window { .. } | Question::Early { .. } => "window",
            Question::Silence(Side::Before, _) => "silence_before",
            Question::Silence(Side::After, _) => "silence_after",
        }
    }
}

const CONSTANT: &str = "\
is the table's 'constant' that of this network? Nine frames in ten have another.";

const OTHER_TABLE: &str = "\
is the table that of another aircraft? It lacks the links of more than half of the frames.";

const SWAPPED: &str = "\
are --before and --after swapped? All frames come out before they go in.";

const SAME_RECORDING: &str = "are --before and --after one recording? All latencies are 0.";

const TWICE_BEFORE: &str = "\
does the recording of --before hold its frames twice? More than a quarter have an equal one.";

const TWICE_AFTER: &str = "\
does the recording of --after hold its frames twice, or two ports? More than a quarter came out before.";

const APART: &str = "do the recordings belong together? They have no common time.";

const OTHER_PORT: &str = "is --after of another port? None of its frames went in.";

const TWO_NETWORKS: &str = "\
are --before and --after of two networks? Most frames differ in the byte that names it.";

const REWRITTEN: &str = "\
does the switch rewrite frames, or are they of two flights? More than half came out changed.";

/// The words of the question whether the clocks drift by so many nanoseconds a second.
fn write_drift<W: fmt::Write>(parts: i64, f: &mut Formatter<W>) -> fmt::Result {
    let way = if parts < 0 { "falls" } else { "rises" };
    let size = parts.unsigned_abs();
    let (whole, tenth) = (size / 1000, size % 1000 / 100);
    write!(
        f,
        "do the clocks drift? The least latency {way} by {whole}.{tenth} us a second."
    )
}

/// The words of the question why the least latency changed, so many nanoseconds after the start.
fn write_step<W: fmt::Write>(change: i64, since: u64, f: &mut Formatter<W>) -> fmt::Result {
    let way = if change < 0 { "falls" } else { "rises" };
    let size = length_of(change.unsigned_abs());
    let seconds = since.saturating_add(500_000_000) / 1_000_000_000;
    write!(
        f,
        "did a clock step, or the load or path change? The least latency {way} by {size} at {seconds} s."
    )
}

/// The words of a question about the clocks.
fn write_clocks<W: fmt::Write>(question: &Question, f: &mut Formatter<W>) -> fmt::Result {
    match *question {
        Question::Drift(parts) => write_drift(parts, f),
        Question::Step { step, since } => write_step(step.change, since, f),
        Question::ClocksOrSwapped { least, .. } => {
            let apart = Length(least.saturating_neg());
            write!(
                f,
                "are the clocks apart, or --before and --after swapped? Frames come out up to {apart} \
                 before they go in."
            )
        }
        Question::ClocksApart {
            least,
            negative,
            of,
            ..
        } => {
            let apart = Length(least.saturating_neg());
            write!(
                f,
                "are the clocks apart by {apart} or more? {negative} frames of {of} come out before \
                 they go in."
            )
        }
        Question::ClocksFar {
            apart,
            frames,
            of,
            ..
        } => {
            let apart = length_of(apart.unsigned_abs());
            write!(
                f,
                "are the clocks apart by {apart}? {frames} of {of} frames agree on it."
            )
        }
        _ => Ok(()),
    }
}

/// The words of the question whether the window is too short.
fn write_window<W: fmt::Write>(question: &Question, f: &mut Formatter<W>) -> fmt::Result {
    match *question {
        Question::Window { within } => {
            let longest = length_of(within);
            write!(
                f,
                "are latencies above {longest}? Many frames in a row never came out, and many never \
                 went in."
            )
        }
        Question::Early { lead } => {
            let lead = length_of(lead);
            write!(
                f,
                "do frames come out {lead} before they go in? Many in a row never came out, and many \
                 never went in."
            )
        }
        _ => Ok(()),
    }
}

/// The words of a question about a silence.
fn write_silence<W: fmt::Write>(side: Side, silence: Silence, f: &mut Formatter<W>) -> fmt::Result {
    let option = side.word();
    let lasted = length_of(silence.to.saturating_sub(silence.from));
    let (frames, links) = (silence.frames, Counted(silence.links, "link"));
    let what = match side {
        Side::Before => "was seen to go in",
        Side::After => "came out",
    };
    write!(
        f,
        "did the recorder of --{option} lose frames? For {lasted} nothing {what}: {frames} frames of \
         {links}."
    )
}

impl Display for Question {
    fn fmt<W: fmt::Write>(&self, f: &mut Formatter<W>) -> fmt::Result {
        match *self {
            Question::Empty(side) => {
                let side = side.word();
                write!(
                    f,
                    "was the recording {side} the switch made? It has no frame."
                )
            }
            Question::Cut(side) => {
                let side = side.word();
                write!(
                    f,
                    "does the recorder of --{side} cut frames? More than one in a hundred is cut short."
                )
            }
            Question::CheckSequence(side) => {
                let side = side.word();
                write!(
                    f,
                    "does the recording of --{side} hold frame check sequences?"
                )
            }
            Question::Constant => f.write_str(CONSTANT),
            Question::OtherTable => f.write_str(OTHER_TABLE),
            Question::Swapped => f.write_str(SWAPPED),
            Question::SameRecording => f.write_str(SAME_RECORDING),
            Question::Twice(Side::Before) => f.write_str(TWICE_BEFORE),
            Question::Twice(Side::After) => f.write_str(TWICE_AFTER),
            Question::Apart => f.write_str(APART),
            Question::OtherPort => f.write_str(OTHER_PORT),
            Question::TwoNetworks => f.write_str(TWO_NETWORKS),
            Question::Rewritten => f.write_str(REWRITTEN),
            Question::Window { .. } | Question::Early { .. } => write_window(self, f),
            Question::Silence(side, silence) => write_silence(side, silence, f),
            _ => write_clocks(self, f),
        }
    }
}
