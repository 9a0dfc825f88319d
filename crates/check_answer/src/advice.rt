//! The advice on each question: what to do, in lines of at most 100 columns that begin with a verb or are a
//! command.

use crate::words::Seconds;
use std::fmt;
use std::fmt::{Display, Formatter};
use traffic_survey::{Constant, Difference, Question, Wiring};

const NO_FRAME: &str = "Look at its tap, or leave the recording out";

const SAME_RECORDING: &str = "Name the other network's recording in the place of one";

const SWAPPED: &str = "Swap --a and --b";

const BOTH_OF_A: &str = "Name a recording of network B as --b";

const BOTH_OF_B: &str = "Name a recording of network A as --a";

const APART: &str = "Take both recordings of one flight, or set one right by editcap -t";

const CHECK_SEQUENCES: &str = "Take them off: editcap -F nsecpcap -L -C -4 in.pcap out.pcap";

const TAGS: &str = "Take them off: editcap -F nsecpcap -L -C 12:4 in.pcap out.pcap";

const SMAX: &str = "Add 4 to each 'smax' of the table";

const OTHER_TABLE: &str = "Name this network's table as --config";

const WHOLE: &str = "Record whole frames, by tcpdump -s 0: no rule can judge these";

const SPLIT: &str = "\
Split it by the network in the source address, which is 0x20 for A and 0x40 for B:
tcpdump --nano -r x.pcap -w a.pcap 'ether[11] & 0xe0 = 0x20'";

const ONCE: &str = "\
Record each frame once, or take off the second: editcap -F nsecpcap -d in.pcap out.pcap";

const MIRRORED: &str = "\
Record each frame once (a mirror port brings both ways), or take off the second:
editcap -F nsecpcap -d in.pcap out.pcap";

const CABLES: &str = "\
Swap the cables or taps back, and judge the parts before and after alone (editcap -B, -A)";

const UNLIKE: &str = "\
Compare a pair in Wireshark. Clocks that are a round of 255 numbers apart look so, too";

const PARTS: &str = "\
Judge the parts before and after alone (editcap -B, -A), or set the later right by editcap -t";

const DRIFT: &str = "\
Synchronise them (PTP), or judge parts of a minute: editcap -F nsecpcap -i 60 in.pcap out.pcap";

const CLOCKS: &str = "Synchronise the taps (PTP), or take both recordings of one flight";

/// The advice on a question.
#[derive(Clone, Copy)]
pub struct QuestionAdvice<'a>(pub &'a Question);

/// The words on the table's constant field.
fn write_constant<W: fmt::Write>(most: Option<Constant>, f: &mut Formatter<W>) -> fmt::Result {
    match most {
        Some(most) => {
            let constant = most.constant;
            write!(
                f,
                "Set 'constant' to {constant} in the table, if that is this network's"
            )
        }
        None => f.write_str("Set 'constant' in the table to that of this network"),
    }
}

/// The words on clocks that are apart.
fn write_clocks<W: fmt::Write>(
    difference: Option<Difference>,
    f: &mut Formatter<W>,
) -> fmt::Result {
    let Some(difference) = difference else {
        return f.write_str(CLOCKS);
    };
    let (ahead, seconds) = (difference.ahead.letter(), Seconds(difference.nanos));
    write!(
        f,
        "Set that of {ahead} back: editcap -F nsecpcap -t -{seconds} in.pcap out.pcap"
    )
}

impl Display for QuestionAdvice<'_> {
    fn fmt<W: fmt::Write>(&self, f: &mut Formatter<W>) -> fmt::Result {
        let words = match *self.0 {
            Question::Constant { most, .. } => return write_constant(most, f),
            Question::Rounds { difference, .. } => return write_clocks(Some(difference), f),
            Question::Clocks(difference) => return write_clocks(difference, f),
            Question::Empty(_) => NO_FRAME,
            Question::SameRecording => SAME_RECORDING,
            Question::Wiring(Wiring::Swapped) => SWAPPED,
            Question::Wiring(Wiring::BothOfA) => BOTH_OF_A,
            Question::Wiring(Wiring::BothOfB) => BOTH_OF_B,
            Question::Apart => APART,
            Question::CheckSequence(_) => CHECK_SEQUENCES,
            Question::Tagged { .. } => TAGS,
            Question::TooLong { .. } => SMAX,
            Question::OtherTable { .. } => OTHER_TABLE,
            Question::Cut { .. } => WHOLE,
            Question::Twice { mixed: true, .. } => SPLIT,
            Question::Twice { mixed: false, .. } => ONCE,
            Question::Doubled(_) => MIRRORED,
            Question::Crossed(_) => CABLES,
            Question::Unlike(_) => UNLIKE,
            Question::Stepped(_) => PARTS,
            Question::Drift(_) => DRIFT,
        };
        f.write_str(words)
    }
}
