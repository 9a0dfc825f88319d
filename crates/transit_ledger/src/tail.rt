//! The lines after those of frames.

use crate::counts::OutcomeCounts;
use crate::fields::Fields;
use crate::line::id_of;
use crate::number::{number_of, sum_of};
use afdx_frame::{Network, VlId};

/// The counts of a link of the table.
#[derive(Clone, Copy)]
pub struct LinkLine {
    pub id: VlId,
    pub counts: OutcomeCounts,
}

/// How long frames took that came out unchanged, in nanoseconds. The ranks are rounded towards zero to eight
/// leading binary digits.
#[derive(Clone, Copy, PartialEq, Eq)]
pub struct LatencyFigures {
    /// How many frames there are, one or more, and their sum.
    pub count: u64,
    pub sum: i128,
    pub least: i64,
    pub p50: i64,
    pub p99: i64,
    pub p999: i64,
    pub greatest: i64,
}

/// How long the frames of a link took, or all frames.
#[derive(Clone, Copy)]
pub struct LatencyLine {
    /// None: they are all frames.
    pub link: Option<VlId>,
    /// None: there are none.
    pub figures: Option<LatencyFigures>,
}

/// How a recording ends.
#[derive(Clone, Copy, PartialEq, Eq)]
pub enum TapEnd {
    /// After a frame.
    Clean,
    /// Within a frame.
    Cut,
    /// It isn't read on.
    Bad,
}

impl TapEnd {
    /// Its word.
    pub fn word(self) -> &'static str {
        match self {
            TapEnd::Clean => "clean",
            TapEnd::Cut => "cut",
            TapEnd::Bad => "bad",
        }
    }

    fn from_word(word: &[u8]) -> Option<TapEnd> {
        match word {
            b"clean" => Some(TapEnd::Clean),
            b"cut" => Some(TapEnd::Cut),
            b"bad" => Some(TapEnd::Bad),
            _ => None,
        }
    }
}

/// How a recording ends, and after how many frames.
#[derive(Clone, Copy, PartialEq, Eq)]
pub struct TapLine {
    pub side: Network,
    pub end: TapEnd,
    pub frames: u64,
}

/// The counts of all frames.
#[derive(Clone, Copy)]
pub struct TotalLine {
    /// How many lines of frames there are.
    pub lines: u64,
    pub counts: OutcomeCounts,
    /// For how many frames there was an equal one.
    pub choices: u64,
}

/// Reads the counts of a link.
pub(crate) fn read_link(line: &[u8]) -> Option<LinkLine> {
    let mut fields = Fields::new(line);
    let id = id_of(fields.after("link")?)?;
    let _name = fields.next()?;
    let counts = OutcomeCounts::of_link(&mut fields)?;
    fields.ended(LinkLine { id, counts })
}

/// The name of the link of which these are the counts.
pub fn name_in(line: &[u8]) -> Option<&[u8]> {
    let mut fields = Fields::new(line);
    let _id = fields.after("link")?;
    fields.next()
}

/// The words of the figures, in their order.
const FIGURES: [&str; 5] = ["least", "p50", "p99", "p999", "greatest"];

/// Passes the dashes of no frame.
fn pass_none(fields: &mut Fields<'_>) -> Option<()> {
    for word in FIGURES {
        if fields.after(word)? != b"-".as_slice() {
            return None;
        }
    }
    Some(())
}

/// The figures of so many frames with this sum.
fn figures_of(fields: &mut Fields<'_>, count: u64, sum: i128) -> Option<LatencyFigures> {
    let figures = LatencyFigures {
        count,
        sum,
        least: fields.signed_after("least")?,
        p50: fields.signed_after("p50")?,
        p99: fields.signed_after("p99")?,
        p999: fields.signed_after("p999")?,
        greatest: fields.signed_after("greatest")?,
    };
    let rises = figures.p50 <= figures.p99 && figures.p99 <= figures.p999;
    if rises && figures.least <= figures.greatest {
        Some(figures)
    } else {
        None
    }
}

/// Reads how long frames took.
pub(crate) fn read_latency(line: &[u8]) -> Option<LatencyLine> {
    let mut fields = Fields::new(line);
    let link = match fields.after("latency")? {
        b"all" => None,
        field => Some(id_of(field)?),
    };
    let count = fields.number_after("count")?;
    let sum = sum_of(fields.after("sum")?)?;
    let figures = if count > 0 {
        Some(figures_of(&mut fields, count, sum)?)
    } else {
        pass_none(&mut fields)?;
        None
    };
    if count == 0 && sum != 0 {
        return None;
    }
    fields.ended(LatencyLine { link, figures })
}

/// A recording that isn't read on has a reason, one word of small letters.
fn is_reason(field: &[u8]) -> bool {
    !field.is_empty() && field.iter().all(u8::is_ascii_lowercase)
}

/// Reads how a recording ends.
pub(crate) fn read_tap(line: &[u8]) -> Option<TapLine> {
    let mut fields = Fields::new(line);
    let side = match fields.after("tap")? {
        b"before" => Network::A,
        b"after" => Network::B,
        _ => return None,
    };
    let end = TapEnd::from_word(fields.next()?)?;
    let frames = number_of(fields.next()?)?;
    if end == TapEnd::Bad && !is_reason(fields.next()?) {
        return None;
    }
    fields.ended(TapLine { side, end, frames })
}

/// Reads the counts of all frames.
pub(crate) fn read_total(line: &[u8]) -> Option<TotalLine> {
    let mut fields = Fields::new(line);
    fields.pass("total")?;
    let lines = fields.number_after("frames")?;
    let counts = OutcomeCounts::of_all(&mut fields)?;
    let choices = fields.number_after("choice")?;
    fields.ended(TotalLine {
        lines,
        counts,
        choices,
    })
}
