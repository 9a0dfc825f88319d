//! The advice on each question: what to do, in lines of at most 100 columns that begin with a verb or are a
//! command.

use crate::answer::Side;
use crate::questions::Question;
use std::fmt;
use std::fmt::{Display, Formatter};

const WHOLE: &str = "Record whole frames, by tcpdump -s 0";

const CHECK_SEQUENCES: &str = "Take them off: editcap -F nsecpcap -L -C -4 in.pcap out.pcap";

const CONSTANT: &str = "Set 'constant' in the table to that of this network";

const OTHER_TABLE: &str = "Name this network's table as --config";

const DRIFT: &str = "Record both ports by one clock, as two ports of one recorder";

const STEP: &str = "\
Look at the switch's load, or record both ports by one clock that isn't set meanwhile";

const SWAPPED: &str = "Swap --before and --after";

const SAME_RECORDING: &str = "Name the recording of the port out as --after";

const TWICE_BEFORE: &str = "\
Record each frame once, or take off the second:
editcap -F nsecpcap -d in.pcap out.pcap";

const TWICE_AFTER: &str = "\
Record one port alone and each frame once, or take off the second:
editcap -F nsecpcap -d in.pcap out.pcap";

const APART: &str = "Take both recordings of one flight, or set the clocks right by --shift-ns";

const OTHER_PORT: &str = "Name the recording of a port that these links come out of as --after";

const TWO_NETWORKS: &str = "Name two recordings of one network";

const REWRITTEN: &str = "Take both recordings of one flight, or compare a frame in Wireshark";

const LOST: &str = "Look at what the recorder dropped (capinfos), or record again";

/// The longest that `--early-us` takes.
const MAX_EARLY_MICROS: u64 = 1_000_000;

/// The advice on a question.
#[derive(Clone, Copy)]
pub struct QuestionAdvice<'a>(pub &'a Question);

/// The words on a recording without frames.
fn write_empty<W: fmt::Write>(side: Side, f: &mut Formatter<W>) -> fmt::Result {
    let side = side.word();
    write!(f, "Look at its tap, or name another recording as --{side}")
}

/// The words on clocks that a shift sets right.
fn write_shift<W: fmt::Write>(shift: i64, f: &mut Formatter<W>) -> fmt::Result {
    write!(
        f,
        "Give --shift-ns {shift}, by which the fastest comes out at once"
    )
}

/// The words on frames that come out so much before they go in.
fn write_early<W: fmt::Write>(lead: u64, f: &mut Formatter<W>) -> fmt::Result {
    let micros = (lead / 500).min(MAX_EARLY_MICROS);
    write!(f, "Give --early-us {micros}")
}

impl Display for QuestionAdvice<'_> {
    fn fmt<W: fmt::Write>(&self, f: &mut Formatter<W>) -> fmt::Result {
        let words = match *self.0 {
            Question::Empty(side) => return write_empty(side, f),
            Question::ClocksOrSwapped { shift, .. } => {
                return write!(
                    f,
                    "Swap both, or have the fastest come out at once by --shift-ns {shift}"
                );
            }
            Question::ClocksApart { shift, .. } => return write_shift(shift, f),
            Question::ClocksFar { shift, .. } => return write_shift(shift, f),
            Question::Window { within } => {
                let micros = within / 100;
                return write!(f, "Give --within-us {micros}");
            }
            Question::Early { lead } => return write_early(lead, f),
            Question::Cut(_) => WHOLE,
            Question::CheckSequence(_) => CHECK_SEQUENCES,
            Question::Constant => CONSTANT,
            Question::OtherTable => OTHER_TABLE,
            Question::Drift(_) => DRIFT,
            Question::Step { .. } => STEP,
            Question::Swapped => SWAPPED,
            Question::SameRecording => SAME_RECORDING,
            Question::Twice(Side::Before) => TWICE_BEFORE,
            Question::Twice(Side::After) => TWICE_AFTER,
            Question::Apart => APART,
            Question::OtherPort => OTHER_PORT,
            Question::TwoNetworks => TWO_NETWORKS,
            Question::Rewritten => REWRITTEN,
            Question::Silence(..) => LOST,
        };
        f.write_str(words)
    }
}
