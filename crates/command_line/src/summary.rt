//! The summary of a run of `watch`, told to a person at a terminal.

use integrity::Integrity;
use pcap_io::Ending;
use policing::Policing;
use std::fmt;
use std::fmt::{Display, Formatter};
use traffic_survey::is_nearly_all;
use verdict_ledger::Totals;
use vl_config::Class;

/// Which input of a run its counts speak against.
#[derive(Clone, Copy, PartialEq, Eq)]
pub enum Hint {
    /// The table's constant: nearly all frames are foreign.
    Constant,
    /// Smax, or the recordings: nearly all frames are longer than their link's Smax.
    FrameLength,
    /// The table: more than half of the frames are of links that it lacks.
    OtherTable,
    /// The recorders: more than one frame in a hundred is cut short.
    CutFrames,
    /// The recordings: more than one frame in eight is out. So it is where one holds check sequences, whose
    /// last byte is taken for the sequence number, or both networks, or each frame twice.
    Numbers,
    /// The recordings: more than one frame in four is excess. So it is where one holds both networks, or each
    /// frame twice, or where the table has too long a BAG.
    Repeats,
    /// The clocks of the taps: both networks have frames, and none is the copy of another.
    Clocks,
}

/// Which input is likely wrong, by the endings of both recordings and the counts of their frames.
pub fn hint_of(a: Ending, b: Ending, totals: &Totals) -> Option<Hint> {
    let (a, b) = (a.frames(), b.frames());
    if is_nearly_all(totals.foreign, totals.frames) {
        Some(Hint::Constant)
    } else if is_nearly_all(totals.toolong, totals.frames) {
        Some(Hint::FrameLength)
    } else if totals.frames / 2 < totals.unconfigured {
        Some(Hint::OtherTable)
    } else if totals.frames / 100 < totals.cut {
        Some(Hint::CutFrames)
    } else if totals.frames / 8 < totals.out {
        Some(Hint::Numbers)
    } else if totals.frames / 4 < totals.excess {
        Some(Hint::Repeats)
    } else if 0 < a && 0 < b && 0 < totals.delivered && totals.copy == 0 {
        Some(Hint::Clocks)
    } else {
        None
    }
}

fn hint_words(hint: Hint) -> &'static str {
    match hint {
        Hint::Constant => {
            "nearly all frames are foreign: is the table's 'constant' that of this network?"
        }
        Hint::FrameLength => {
            "nearly all frames are too long: does 'smax' count a frame without its check sequence?"
        }
        Hint::OtherTable => {
            "more than half of the frames are unconfigured: is the table that of another aircraft?"
        }
        Hint::CutFrames => {
            "more than one frame in a hundred is cut short: record frames whole, tcpdump -s 0"
        }
        Hint::Numbers => {
            "more than one frame in eight is out: does a recording hold check sequences, both \
             networks, or each frame twice? afdxmon check tells"
        }
        Hint::Repeats => {
            "more than one frame in four is excess: does a recording hold both networks, or each \
             frame twice (afdxmon check tells), or is a bag_ms of the table too long?"
        }
        Hint::Clocks => "no frame is a copy of another: are the clocks of the taps apart?",
    }
}

/// The counts of a run over two recordings. Its text is the summary, without the last newline.
#[derive(Clone, Copy)]
pub struct Summary {
    /// How the recording of network A ended.
    pub a: Ending,
    /// How the recording of network B ended.
    pub b: Ending,
    /// The counts of all frames.
    pub totals: Totals,
}

/// The frames of a run, by network and by what became of them.
fn write_frames<W: fmt::Write>(run: &Summary, f: &mut Formatter<W>) -> fmt::Result {
    let totals = &run.totals;
    write!(
        f,
        "frames {}, delivered {}, copies {}, accepted {}; of network A {}, of network B {}",
        totals.frames,
        totals.delivered,
        totals.copy,
        totals.accepted,
        run.a.frames(),
        run.b.frames(),
    )
}

/// The counts of all frames by what discarded them.
fn write_discards<W: fmt::Write>(totals: &Totals, f: &mut Formatter<W>) -> fmt::Result {
    let counts = [
        (Class::Cut.word(), totals.cut),
        (Class::Runt.word(), totals.runt),
        (Class::Oversize.word(), totals.oversize),
        (Class::Foreign.word(), totals.foreign),
        (Class::Unconfigured.word(), totals.unconfigured),
        (Class::TooLong.word(), totals.toolong),
        (Policing::Excess.word(), totals.excess),
        (Integrity::Out.word(), totals.out),
    ];
    for (index, (word, count)) in counts.iter().enumerate() {
        let comma = if index == 0 { "" } else { ", " };
        write!(f, "{comma}{word} {count}")?;
    }
    Ok(())
}

impl Display for Summary {
    fn fmt<W: fmt::Write>(&self, f: &mut Formatter<W>) -> fmt::Result {
        f.write_str("afdxmon: summary: ")?;
        write_frames(self, f)?;
        f.write_str("\nafdxmon: summary: discarded ")?;
        write_discards(&self.totals, f)?;
        match hint_of(self.a, self.b, &self.totals) {
            Some(hint) => write!(f, "\nafdxmon: hint: {}", hint_words(hint)),
            None => Ok(()),
        }
    }
}
