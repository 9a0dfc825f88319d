//! The questions in words: what is asked, and what was seen.

use crate::words::{Counted, Seconds, Utc};
use std::fmt;
use std::fmt::{Display, Formatter};
use traffic_survey::{Affected, Constant, Difference, Drift, Question, Step, Wiring};

const SAME_RECORDING: &str = "are --a and --b one recording? All their frames are the same.";

const SWAPPED: &str = "\
are the networks swapped? The source addresses in --a are of network B, those in --b of A.";

const BOTH_OF_A: &str = "are both recordings of network A? So say their source addresses.";

const BOTH_OF_B: &str = "are both recordings of network B? So say their source addresses.";

const APART: &str = "do the recordings belong together? One ends before the other begins.";

const CONSTANT: &str = "is the table's 'constant' that of this network?";

const SMAX: &str = "does 'smax' count a frame without its check sequence?";

const OTHER_TABLE: &str = "is the table that of another aircraft?";

const AGAIN: &str = "Most links' numbers come again at once.";

const DOUBLED: &str = "\
frames there have all bytes of the one before, less than half of a BAG later";

const DRIFT: &str = "do the clocks of the taps drift?";

const UNLIKE: &str = "\
copies have other bytes than their frames, source addresses aside";

const ROUNDS: &str = "\
are the clocks of the taps apart by rounds of 255 numbers? Most frames have a copy, and";

const CLOCKS: &str = "\
are the clocks of the taps apart? Under half of the frames have a copy within SkewMax.";

/// A question in words, as a line without a break.
#[derive(Clone, Copy)]
pub struct QuestionText<'a>(pub &'a Question);

/// The constant field that most frames have, after the question.
#[derive(Clone, Copy)]
struct ConstantPart(Option<Constant>);

impl Display for ConstantPart {
    fn fmt<W: fmt::Write>(&self, f: &mut Formatter<W>) -> fmt::Result {
        let Some(most) = self.0 else {
            return Ok(());
        };
        let (constant, frames) = (most.constant, most.frames);
        write!(f, "; {frames} have {constant}")
    }
}

/// How far the clocks are apart, after the question.
#[derive(Clone, Copy)]
struct DifferencePart(Option<Difference>);

impl Display for DifferencePart {
    fn fmt<W: fmt::Write>(&self, f: &mut Formatter<W>) -> fmt::Result {
        let Some(difference) = self.0 else {
            return Ok(());
        };
        let (ahead, seconds) = (difference.ahead.letter(), Seconds(difference.nanos));
        let (links, of) = (difference.links, difference.of);
        write!(
            f,
            " By equal sequence numbers that of {ahead} is {seconds} s ahead, say {links} of {of} links."
        )
    }
}

/// When a clock was set, as a question.
#[derive(Clone, Copy)]
struct StepPart(Step);

impl Display for StepPart {
    fn fmt<W: fmt::Write>(&self, f: &mut Formatter<W>) -> fmt::Result {
        let step = self.0;
        let (ahead, other) = (step.ahead.letter(), step.ahead.other().letter());
        let (seconds, links, of) = (Seconds(step.nanos), step.links, step.of);
        let (from, to) = (Utc(step.after.0), Utc(step.before.0));
        if step.is_silence {
            write!(
                f,
                "was the clock of network {ahead} set forward while it recorded? The network is silent for \
                 {seconds} s, from {from} to {to}, and no number is missing, say {links} of {of} links."
            )
        } else {
            write!(
                f,
                "was the clock of network {ahead} set forward by {seconds} s while it recorded, or that of \
                 {other} back? Between {from} and {to}, say {links} of {of} links."
            )
        }
    }
}

/// How fast the clocks move apart, after the question.
#[derive(Clone, Copy)]
struct DriftPart(Drift);

impl Display for DriftPart {
    fn fmt<W: fmt::Write>(&self, f: &mut Formatter<W>) -> fmt::Result {
        let faster = self.0.faster.letter();
        let (whole, tenth) = (self.0.parts / 1_000_000, self.0.parts / 100_000 % 10);
        let (links, of) = (self.0.links, self.0.of);
        write!(
            f,
            "That of {faster} is {whole}.{tenth} ppm faster, say {links} of {of} links."
        )
    }
}

/// The links and the time of the frames that a question is of.
#[derive(Clone, Copy)]
struct WherePart(Affected);

impl Display for WherePart {
    fn fmt<W: fmt::Write>(&self, f: &mut Formatter<W>) -> fmt::Result {
        let affected = self.0;
        let link = affected.link.0;
        let (from, to) = (Utc(affected.first.0), Utc(affected.last.0));
        write!(f, ", of link {link}")?;
        if affected.links > 1 {
            let more = affected.links.saturating_sub(1);
            write!(f, " and {more} more")?;
        }
        write!(f, ", from {from} to {to}.")
    }
}

/// The question on frames of a network that are of the other one.
#[derive(Clone, Copy)]
struct CrossedPart(Affected);

impl Display for CrossedPart {
    fn fmt<W: fmt::Write>(&self, f: &mut Formatter<W>) -> fmt::Result {
        let crossing = self.0;
        let (on, other) = (crossing.network.letter(), crossing.network.other().letter());
        let (frames, of, place) = (crossing.frames, crossing.of, WherePart(crossing));
        write!(
            f,
            "were cables of network {on} swapped? {frames} of {of} frames there have source addresses of \
             network {other}{place}"
        )
    }
}

/// The question on frames of a network that stand twice in its recording.
#[derive(Clone, Copy)]
struct DoubledPart(Affected);

impl Display for DoubledPart {
    fn fmt<W: fmt::Write>(&self, f: &mut Formatter<W>) -> fmt::Result {
        let doubled = self.0;
        let (network, place) = (doubled.network.letter(), WherePart(doubled));
        let (frames, of) = (doubled.frames, doubled.of);
        write!(
            f,
            "does the recording of network {network} hold frames twice? {frames} of {of} {DOUBLED}{place}"
        )
    }
}

/// The words on a network's recorder or tap: it cuts frames, tags them, or records them twice.
#[derive(Clone, Copy)]
struct RecorderPart<'a>(&'a Question);

impl Display for RecorderPart<'_> {
    fn fmt<W: fmt::Write>(&self, f: &mut Formatter<W>) -> fmt::Result {
        match *self.0 {
            Question::Cut {
                network,
                frames,
                of,
                snaplen,
            } => {
                let network = network.letter();
                write!(
                    f,
                    "does the recorder of network {network} cut frames at {snaplen} bytes? {frames} of {of} \
                     frames are cut short."
                )
            }
            Question::Tagged {
                network,
                frames,
                of,
            } => {
                let network = network.letter();
                write!(
                    f,
                    "do the frames of network {network} have 802.1Q tags? {frames} of {of} of them have one, \
                     as some taps add it."
                )
            }
            _ => Ok(()),
        }
    }
}

/// The words on a recording: it is empty, has check sequences, or has frames twice.
#[derive(Clone, Copy)]
struct RecordingPart<'a>(&'a Question);

impl Display for RecordingPart<'_> {
    fn fmt<W: fmt::Write>(&self, f: &mut Formatter<W>) -> fmt::Result {
        match *self.0 {
            Question::Empty(network) => {
                let network = network.letter();
                write!(
                    f,
                    "was network {network} recorded? Its recording has no frame."
                )
            }
            Question::CheckSequence(network) => {
                let network = network.letter();
                write!(
                    f,
                    "does the recording of network {network} hold frame check sequences?"
                )
            }
            Question::Twice { network, mixed } => {
                let network = network.letter();
                let held = if mixed {
                    "both networks"
                } else {
                    "its frames twice"
                };
                write!(
                    f,
                    "does the recording of network {network} hold {held}? {AGAIN}"
                )
            }
            _ => Ok(()),
        }
    }
}

/// The words on some frames: of the other network, recorded twice, or other ones than their copies.
#[derive(Clone, Copy)]
struct FramesPart<'a>(&'a Question);

impl Display for FramesPart<'_> {
    fn fmt<W: fmt::Write>(&self, f: &mut Formatter<W>) -> fmt::Result {
        match *self.0 {
            Question::Crossed(crossing) => {
                let part = CrossedPart(crossing);
                write!(f, "{part}")
            }
            Question::Doubled(doubled) => {
                let part = DoubledPart(doubled);
                write!(f, "{part}")
            }
            Question::Unlike(unlike) => {
                let (frames, of, place) = (unlike.frames, unlike.of, WherePart(unlike));
                write!(
                    f,
                    "do both networks carry the same frames? {frames} of {of} {UNLIKE}{place}"
                )
            }
            _ => Ok(()),
        }
    }
}

/// The words on the clocks.
#[derive(Clone, Copy)]
struct ClocksPart<'a>(&'a Question);

impl Display for ClocksPart<'_> {
    fn fmt<W: fmt::Write>(&self, f: &mut Formatter<W>) -> fmt::Result {
        match *self.0 {
            Question::Stepped(step) => {
                let part = StepPart(step);
                write!(f, "{part}")
            }
            Question::Drift(drift) => {
                let part = DriftPart(drift);
                write!(f, "{DRIFT} {part}")
            }
            Question::Rounds { lonely, difference } => {
                let (links, part) = (Counted(lonely, "link"), DifferencePart(Some(difference)));
                write!(f, "{ROUNDS} {links} have none.{part}")
            }
            Question::Clocks(difference) => {
                let part = DifferencePart(difference);
                write!(f, "{CLOCKS}{part}")
            }
            _ => Ok(()),
        }
    }
}

impl Display for QuestionText<'_> {
    fn fmt<W: fmt::Write>(&self, f: &mut Formatter<W>) -> fmt::Result {
        match *self.0 {
            Question::SameRecording => f.write_str(SAME_RECORDING),
            Question::Wiring(Wiring::Swapped) => f.write_str(SWAPPED),
            Question::Wiring(Wiring::BothOfA) => f.write_str(BOTH_OF_A),
            Question::Wiring(Wiring::BothOfB) => f.write_str(BOTH_OF_B),
            Question::Apart => f.write_str(APART),
            Question::Constant { frames, of, most } => {
                let part = ConstantPart(most);
                write!(f, "{CONSTANT} {frames} of {of} frames have another{part}.")
            }
            Question::TooLong { frames, of } => {
                write!(f, "{SMAX} {frames} of {of} frames are longer.")
            }
            Question::OtherTable { frames, of } => {
                write!(
                    f,
                    "{OTHER_TABLE} {frames} of {of} frames are of links that it lacks."
                )
            }
            Question::Empty(_) | Question::CheckSequence(_) | Question::Twice { .. } => {
                let part = RecordingPart(self.0);
                write!(f, "{part}")
            }
            Question::Cut { .. } | Question::Tagged { .. } => {
                let part = RecorderPart(self.0);
                write!(f, "{part}")
            }
            Question::Crossed(_) | Question::Doubled(_) | Question::Unlike(_) => {
                let part = FramesPart(self.0);
                write!(f, "{part}")
            }
            Question::Stepped(_)
            | Question::Drift(_)
            | Question::Rounds { .. }
            | Question::Clocks(_) => {
                let part = ClocksPart(self.0);
                write!(f, "{part}")
            }
        }
    }
}
