//! The questions on the inputs of a run that look wrong: counts can't tell a wrong input from a strange
//! network.

use crate::clocks::{Meeting, most_supported};
use crate::decide::{
    Overlap, Reach, Wiring, are_copies_few, is_agreed, is_nearly_all, overlap_of, wiring_of,
};
use crate::drift::Drift;
use crate::inputs::{Constant, Inputs};
use crate::link::LinkTally;
use crate::steps::{Step, steps_of};
use crate::tap_tally::TapTally;
use afdx_frame::{Network, Stamp, VlId};
use std::alloc::{AllocError, Global};

/// Of so many frames on both networks at least some have copies.
const LEAST_FRAMES: u64 = 8;

/// So many links without a copy at least say that clocks are apart by rounds of numbers.
const LEAST_LONELY: u64 = 2;

/// How far the clock of one tap is ahead of the other's.
#[derive(Clone, Copy)]
pub struct Difference {
    /// The tap whose clock is ahead.
    pub ahead: Network,
    /// By how many nanoseconds.
    pub nanos: u64,
    /// How many links say so, to some milliseconds, of those that meet.
    pub links: usize,
    pub of: usize,
}

/// Frames of a network that a question is of.
#[derive(Clone, Copy)]
pub struct Affected {
    pub network: Network,
    pub frames: u64,
    /// How many frames of the table's links there are on it.
    pub of: u64,
    /// The first link of the table that has such frames, and how many have.
    pub link: VlId,
    pub links: u64,
    /// When the first and the last of these frames came.
    pub first: Stamp,
    pub last: Stamp,
}

impl Affected {
    /// These frames, after those of links before.
    pub(crate) fn after(self, before: Option<Affected>) -> Affected {
        let Some(before) = before else {
            return self;
        };
        Affected {
            frames: before.frames.saturating_add(self.frames),
            link: before.link,
            links: before.links.saturating_add(self.links),
            first: Stamp(before.first.0.min(self.first.0)),
            last: Stamp(before.last.0.max(self.last.0)),
            ..self
        }
    }
}

/// The questions: each is of something that looks wrong.
#[derive(Clone, Copy)]
pub enum Question {
    /// The recording of a network has no frame.
    Empty(Network),
    /// Both networks' recordings have the same frames.
    SameRecording,
    /// The source addresses name other networks.
    Wiring(Wiring),
    /// One recording ends before the other begins.
    Apart,
    /// Nearly all frames have another constant field than the table's, most of them this one.
    Constant {
        frames: u64,
        of: u64,
        most: Option<Constant>,
    },
    /// The frames of a network end with their frame check sequence.
    CheckSequence(Network),
    /// Nearly all frames of a network have an 802.1Q tag.
    Tagged {
        network: Network,
        frames: u64,
        of: u64,
    },
    /// Nearly all frames are longer than their link's Smax allows.
    TooLong {
        frames: u64,
        of: u64,
    },
    /// More than half of all frames are of links that the table lacks.
    OtherTable {
        frames: u64,
        of: u64,
    },
    /// The recording of a network doesn't hold so many of its frames whole, and at most so many bytes of one.
    Cut {
        network: Network,
        frames: u64,
        of: u64,
        snaplen: u64,
    },
    /// The frames of links come twice on a network; their source addresses name both networks, or don't.
    Twice {
        network: Network,
        mixed: bool,
    },
    /// Frames of a network have all bytes of the one before, at nearly its time.
    Doubled(Affected),
    /// Frames of a network have source addresses of the other one.
    Crossed(Affected),
    /// The copies of links have other bytes than their frames; `network` says nothing.
    Unlike(Affected),
    /// A clock was set while it recorded.
    Stepped(Step),
    /// The clocks move apart.
    Drift(Drift),
    /// So many links have no copy, though most frames have one: the clocks may be apart by rounds of numbers.
    Rounds {
        lonely: u64,
        difference: Difference,
    },
    /// Under half of the frames have a copy; the sequence numbers may say how far the clocks are apart.
    Clocks(Option<Difference>),
}

/// The parts that were read of the recordings of networks A and B. None: no frame.
#[derive(Clone, Copy)]
pub struct Look {
    pub a: Option<Reach>,
    pub b: Option<Reach>,
    /// Does the recording of A end without a frame, and without a packet that can't be read?
    pub empty_a: bool,
    /// The same of B.
    pub empty_b: bool,
}

impl Look {
    /// True if the recordings overlap in time. None: one has no frame.
    pub fn overlap(&self) -> Option<Overlap> {
        Some(overlap_of(self.a?, self.b?))
    }
}

/// The counts of the links with redundancy management on: frames of A and B, copies, the links of which
/// both taps' first frames have a number in common, and these frames where they are further apart than their
/// link's SkewMax.
#[derive(Drop)]
struct Pairs {
    a: u64,
    b: u64,
    copies: u64,
    met: usize,
    beyond: Vec<Meeting>,
    /// How many links have frames on both networks, and no copy.
    lonely: u64,
}

/// Has a link frames on both networks, and no copy?
fn is_lonely(tally: &LinkTally) -> bool {
    let least = tally.frames(Network::A).min(tally.frames(Network::B));
    least >= LEAST_FRAMES && tally.copies() == 0
}

fn pairs_of(alloc: Global, inputs: &Inputs<'_>) -> Result<Pairs, AllocError> {
    let mut pairs = Pairs {
        a: 0,
        b: 0,
        copies: 0,
        met: 0,
        beyond: Vec::new(alloc),
        lonely: 0,
    };
    for (link, tally) in inputs.links().iter().zip(inputs.tallies()) {
        if !link.redundancy {
            continue;
        }
        pairs.a = pairs.a.saturating_add(tally.frames(Network::A));
        pairs.b = pairs.b.saturating_add(tally.frames(Network::B));
        pairs.copies = pairs.copies.saturating_add(tally.copies());
        if is_lonely(tally) {
            pairs.lonely = pairs.lonely.saturating_add(1);
        }
        if let Some(meeting) = tally.meeting() {
            pairs.met = pairs.met.saturating_add(1);
            if link.skew < meeting.b.abs_diff(meeting.a) {
                pairs.beyond.push(meeting)?;
            }
        }
    }
    Ok(pairs)
}

/// How far the clocks are apart, if half of the links that meet tell it beyond their own SkewMax.
fn difference_of(pairs: &Pairs) -> Option<Difference> {
    let (meeting, links) = most_supported(&pairs.beyond)?;
    if !is_agreed(links, pairs.met) {
        return None;
    }
    let ahead = if meeting.a < meeting.b {
        Network::B
    } else {
        Network::A
    };
    Some(Difference {
        ahead,
        nanos: meeting.a.abs_diff(meeting.b),
        links,
        of: pairs.met,
    })
}

/// Are the clocks apart by rounds of numbers, so that links pair, but for some?
fn ask_of_rounds(
    questions: &mut Vec<Question>,
    pairs: &Pairs,
    difference: Option<Difference>,
) -> Result<(), AllocError> {
    let Some(difference) = difference else {
        return Ok(());
    };
    let lonely = pairs.lonely;
    let do_all_say = is_nearly_all(difference.links as u64, difference.of as u64);
    let rounds = Question::Rounds { lonely, difference };
    ask_if(questions, lonely >= LEAST_LONELY && do_all_say, rounds)
}

/// Are the clocks apart, or was one set?
fn ask_of_clocks(
    alloc: Global,
    questions: &mut Vec<Question>,
    inputs: &Inputs<'_>,
    overlap: Option<Overlap>,
) -> Result<(), AllocError> {
    let steps = steps_of(alloc, inputs)?;
    for step in &steps {
        questions.push(Question::Stepped(*step))?;
    }
    if !steps.is_empty() {
        return Ok(());
    }
    let pairs = pairs_of(alloc, inputs)?;
    let difference = difference_of(&pairs);
    if !are_copies_few(pairs.copies, pairs.a, pairs.b) {
        return ask_of_rounds(questions, &pairs, difference);
    }
    let none = pairs.copies == 0 && overlap == Some(Overlap::Together);
    let are_apart = difference.is_some() || none;
    ask_if(questions, are_apart, Question::Clocks(difference))
}

/// Do nearly all frames end with their check sequence?
fn has_checks(tap: &TapTally) -> bool {
    is_nearly_all(tap.with_check, tap.checked)
}

/// The constant field beside the table's that most frames have, the first seen of several.
fn most_common(constants: &[Constant]) -> Option<Constant> {
    let mut most: Option<Constant> = None;
    for constant in constants {
        let held = most.map_or(0, |best| best.frames);
        if constant.frames > held {
            most = Some(*constant);
        }
    }
    most
}

/// Whose recordings these are.
fn ask_of_networks(
    questions: &mut Vec<Question>,
    a: &TapTally,
    b: &TapTally,
    overlap: Option<Overlap>,
) -> Result<(), AllocError> {
    if a.is_same(b) {
        return ask_if(questions, true, Question::SameRecording);
    }
    if let Some(wiring) = wiring_of(a.marks, b.marks) {
        questions.push(Question::Wiring(wiring))?;
    }
    let are_apart = overlap == Some(Overlap::Apart);
    ask_if(questions, are_apart, Question::Apart)
}

/// Have nearly all frames another constant field than the table's? Those that are expected don't count.
fn ask_of_constant(
    questions: &mut Vec<Question>,
    inputs: &Inputs<'_>,
    all: u64,
) -> Result<(), AllocError> {
    let (a, b) = (inputs.tap(Network::A), inputs.tap(Network::B));
    let expected = inputs.expected();
    let of = all.saturating_sub(expected);
    let frames = a.foreign.saturating_add(b.foreign).saturating_sub(expected);
    let most = most_common(inputs.constants());
    let foreign = Question::Constant { frames, of, most };
    ask_if(questions, is_nearly_all(frames, of), foreign)
}

/// True if the frames are those of the table. Do they end with check sequences?
fn ask_of_frames(questions: &mut Vec<Question>, inputs: &Inputs<'_>) -> Result<bool, AllocError> {
    let (a, b) = (inputs.tap(Network::A), inputs.tap(Network::B));
    let of = a.frames().saturating_add(b.frames());
    ask_of_constant(questions, inputs, of)?;
    let (of_a, of_b) = (has_checks(a), has_checks(b));
    ask_if(questions, of_a, Question::CheckSequence(Network::A))?;
    ask_if(questions, of_b, Question::CheckSequence(Network::B))?;
    let are_tagged_a = ask_of_tags(questions, Network::A, a)?;
    let are_tagged = ask_of_tags(questions, Network::B, b)? || are_tagged_a;
    let frames = a.long.saturating_add(b.long);
    // Frames with their check sequence or a tag are too long by that.
    let are_too_long = !of_a && !of_b && !are_tagged && is_nearly_all(frames, of);
    ask_if(questions, are_too_long, Question::TooLong { frames, of })?;
    ask_of_copies(questions, inputs, of_a || of_b || are_tagged)?;
    Ok(of_a || of_b)
}

/// Have copies other bytes than their frames? Of frames with check sequences or tags they have.
fn ask_of_copies(
    questions: &mut Vec<Question>,
    inputs: &Inputs<'_>,
    is_known: bool,
) -> Result<(), AllocError> {
    let mut unlike: Option<Affected> = None;
    let mut of = 0u64;
    for (link, tally) in inputs.links().iter().zip(inputs.tallies()) {
        let more = tally.unlike();
        of = of.saturating_add(more.of);
        if more.frames > 0 {
            let more = Affected {
                network: Network::B,
                frames: more.frames,
                of: 0,
                link: link.id,
                links: 1,
                first: more.first,
                last: more.last,
            };
            unlike = Some(more.after(unlike));
        }
    }
    match unlike {
        Some(unlike) => ask_if(
            questions,
            !is_known,
            Question::Unlike(Affected { of, ..unlike }),
        ),
        None => Ok(()),
    }
}

/// Have nearly all frames of a recording a tag?
fn ask_of_tags(
    questions: &mut Vec<Question>,
    network: Network,
    tap: &TapTally,
) -> Result<bool, AllocError> {
    let (frames, of) = (tap.tagged, tap.frames());
    let are_tagged = is_nearly_all(frames, of);
    let tagged = Question::Tagged {
        network,
        frames,
        of,
    };
    ask_if(questions, are_tagged, tagged)?;
    Ok(are_tagged)
}

/// True if the table is that of the frames, and the recordings hold them whole.
fn ask_of_classes(
    questions: &mut Vec<Question>,
    a: &TapTally,
    b: &TapTally,
) -> Result<(), AllocError> {
    let of = a.frames().saturating_add(b.frames());
    let frames = a.unlisted.saturating_add(b.unlisted);
    let is_other = u128::from(frames) * 2 > u128::from(of);
    ask_if(questions, is_other, Question::OtherTable { frames, of })?;
    ask_of_cut(questions, Network::A, a)?;
    ask_of_cut(questions, Network::B, b)
}

/// Are more than one in a hundred of a recording's frames cut short? Fewer are told by the run itself.
fn ask_of_cut(
    questions: &mut Vec<Question>,
    network: Network,
    tap: &TapTally,
) -> Result<(), AllocError> {
    let cut = Question::Cut {
        network,
        frames: tap.cut,
        of: tap.frames(),
        snaplen: tap.snaplen,
    };
    ask_if(questions, tap.cut > tap.frames() / 100, cut)
}

fn ask_if(
    questions: &mut Vec<Question>,
    holds: bool,
    question: Question,
) -> Result<(), AllocError> {
    if holds {
        questions.push(question)?;
    }
    Ok(())
}

/// All that looks wrong, in the order in which it is to be mended.
///
/// # Errors
///
/// `AllocError` if the system is out of memory.
pub fn questions_of(
    alloc: Global,
    inputs: &Inputs<'_>,
    look: Look,
) -> Result<Vec<Question>, AllocError> {
    let mut questions = Vec::new(alloc);
    let (a, b) = (inputs.tap(Network::A), inputs.tap(Network::B));
    let overlap = look.overlap();
    ask_if(&mut questions, look.empty_a, Question::Empty(Network::A))?;
    ask_if(&mut questions, look.empty_b, Question::Empty(Network::B))?;
    ask_of_networks(&mut questions, a, b, overlap)?;
    let have_checks = ask_of_frames(&mut questions, inputs)?;
    ask_of_classes(&mut questions, a, b)?;
    if !have_checks && !a.is_same(b) {
        ask_of_clocks(alloc, &mut questions, inputs, overlap)?;
    }
    Ok(questions)
}
