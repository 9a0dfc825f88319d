//! The lines of a ledger of transits.

ghost use Rattle.std.specs.Prelude.{◌≡◌, ◌+◌, ◌≤◌, ◌++◌, OnErr, OnOk, codes, decimal, drop, length};
ghost use Rattle.transit_run.specs.Counts.{head_of};
ghost use Rattle.transit_run.specs.Line.{difference, line_text, link_number, link_of, number_text, partner_number, policing_text, sequence_of, transit_text};
ghost use Rattle.transit_run.specs.Outcome.{fate_word};
ghost use Rattle.transit_run.specs.declared.line.Line.TheVariants.{Before, After};
ghost use Rattle.transit_run.specs.declared.line.TheConstants.{FIELD, HEAD, MAX_LINE, NUMBER, REST, SIDE, WORD};
ghost use Rattle.vl_config.specs.Class.{class_word};

use crate::outcome::{Fate, Origin};
use crate::rows::{Head, Partner};
use afdx_frame::VlId;
use itoa::{Buffer, write_digits};
use std::alloc::AllocError;
use std::fmt;
use transit_policing::Policed;
use vl_config::Class;

/// The line of a frame.
#[derive(Clone, Copy)]
pub(crate) enum Line {
    /// Of one that went in.
    Before(BeforeLine),
    /// Of one that came out without a partner.
    After(AfterLine),
}

/// The line of a frame that went in.
#[derive(Clone, Copy)]
pub(crate) struct BeforeLine {
    pub(crate) head: Head,
    /// The frame that it came out as.
    pub(crate) partner: Option<Partner>,
    /// How policing judges it, where its link has any.
    pub(crate) policed: Option<Policed>,
    pub(crate) fate: Fate,
    /// How long it took, in nanoseconds.
    pub(crate) transit: Option<i64>,
}

/// The line of a frame without a partner that came out.
#[derive(Clone, Copy)]
pub(crate) struct AfterLine {
    pub(crate) head: Head,
    /// When it came out, in nanoseconds.
    pub(crate) moment: u64,
    pub(crate) origin: Origin,
}

impl Line {
    /// The frame's link, where its class says that the bytes hold it.
    pub(crate) fn link(&self) -> Option<VlId>
        ensures { result ≡ link_of (head_of self.now) }
    {
        match self {
            Line::Before(line) => line.head.link(),
            Line::After(line) => line.head.link(),
        }
    }
}

/// A transit, or a dash.
#[derive(Clone, Copy)]
pub(crate) struct TransitOrDash(pub(crate) Option<i64>);

impl fmt::Display for TransitOrDash {
    ghost use Rattle.std.specs.Prelude.{Some};
    ghost use Rattle.transit_run.specs.Line.{transit_text};

    ghost output = { λ transit. Some (transit_text transit.0) };

    fn fmt<W: fmt::Write>(&self, f: &mut fmt::Formatter<W>) -> fmt::Result {
        match self.0 {
            Some(transit) => write!(f, "{transit}"),
            None => f.write_str("-"),
        }
    }
}

/// The most bytes of a number, and with the space before it.
const NUMBER: usize = 20;

const FIELD: usize = NUMBER + 1;

/// The most bytes of the word of a class, of policing or of an outcome, with the space before it.
const WORD: usize = 13;

/// The most bytes of the side, with the space before it.
const SIDE: usize = 7;

/// The most bytes of a line up to its class, and of what follows, with the newline.
const HEAD: usize = NUMBER + SIDE + 3 * FIELD + WORD;

const REST: usize = 2 * WORD + 3 * FIELD + 1;

/// Room for a line.
const MAX_LINE: usize = HEAD + REST;

// A line is written from its end to its start, since a division gives a number's last digit first. Each
// function below writes its text so that it ends at `end`, and returns where it starts.

/// Writes bytes.
#[inline(always)]
fn write_bytes(bytes: &[u8], line: &mut [u8], end: usize) -> usize
    requires room { length bytes.now ≤ end }
    requires within { end ≤ length line.old }
    ensures start { result + length bytes.now ≡ end }
    ensures written { drop result line.new ≡ bytes.now ++ drop end line.old }
{
    let start = end - bytes.len();
    line[start..end].copy_from_slice(bytes);
    start
}

/// Writes a space and a word.
#[inline(always)]
fn write_word(word: &str, line: &mut [u8], end: usize) -> usize
    requires room { length word.now + 1 ≤ end }
    requires within { end ≤ length line.old }
    ensures start { result + (length word.now + 1) ≡ end }
    ensures written { drop result line.new ≡ codes " " ++ (word.now ++ drop end line.old) }
{
    let start = write_bytes(word.as_bytes(), line, end);
    write_bytes(b" ", line, start)
}

/// Writes a number.
#[inline(always)]
#[tactic(auto, using(crate::proofs::Written::number_short))]
fn write_number(number: u64, line: &mut [u8], end: usize) -> usize
    requires room { NUMBER ≤ end }
    requires within { end ≤ length line.old }
    ensures order { result ≤ end }
    ensures near { end ≤ result + NUMBER }
    ensures written { drop result line.new ≡ decimal number ++ drop end line.old }
{
    write_digits(number, line, end)
}

/// Writes a space, and a number or a dash.
#[inline(always)]
fn write_field(number: Option<u64>, line: &mut [u8], end: usize) -> usize
    requires room { FIELD ≤ end }
    requires within { end ≤ length line.old }
    ensures order { result ≤ end }
    ensures near { end ≤ result + FIELD }
    ensures written { drop result line.new ≡ codes " " ++ (number_text number ++ drop end line.old) }
{
    match number {
        Some(number) => {
            let start = write_number(number, line, end);
            write_bytes(b" ", line, start)
        }
        None => write_bytes(b" -", line, end),
    }
}

/// Writes a space, and a transit or a dash.
#[inline(always)]
fn write_transit(transit: Option<i64>, line: &mut [u8], end: usize) -> usize
    requires room { FIELD ≤ end }
    requires within { end ≤ length line.old }
    ensures order { result ≤ end }
    ensures near { end ≤ result + FIELD }
    ensures written { drop result line.new ≡ codes " " ++ (transit_text transit ++ drop end line.old) }
{
    match transit {
        Some(transit) => {
            let mut digits = Buffer::new();
            write_word(digits.format(transit), line, end)
        }
        None => write_bytes(b" -", line, end),
    }
}

/// The word of a frame's class.
#[inline(always)]
fn class_text(class: Class) -> &'static str
    ensures word { result.now ≡ class_word class }
    ensures short { length result.now + 1 ≤ WORD }
{
    match class {
        Class::Cut => "cut",
        Class::Runt => "runt",
        Class::Oversize => "oversize",
        Class::Foreign => "foreign",
        Class::Unconfigured => "unconfigured",
        Class::TooLong => "toolong",
        Class::Regular => "regular",
    }
}

/// The word of a frame's policing, or a dash.
#[inline(always)]
fn policing_word(policed: Option<Policed>) -> &'static str
    ensures word { result.now ≡ policing_text policed }
    ensures short { length result.now + 1 ≤ WORD }
{
    match policed {
        Some(Policed::Within) => "within",
        Some(Policed::Excess) => "excess",
        Some(Policed::Unsure) => "unsure",
        None => "-",
    }
}

#[inline]
fn partner_number(partner: Option<Partner>) -> Option<u64>
    ensures { result ≡ partner_number partner }
{
    match partner {
        Some(partner) => Some(partner.number),
        None => None,
    }
}

#[inline]
fn difference(partner: Option<Partner>) -> Option<u64>
    ensures { result ≡ difference partner }
{
    match partner {
        Some(partner) => match partner.differs {
            Some(place) => Some(place as u64),
            None => None,
        },
        None => None,
    }
}

/// Writes the moment, the side, the number, the link, the sequence number and the class of a frame.
#[inline(always)]
fn write_head(head: &Head, moment: u64, side: &str, line: &mut [u8], end: usize) -> usize
    requires room { HEAD ≤ end }
    requires short { length side.now + 1 ≤ SIDE }
    requires within { end ≤ length line.old }
    ensures order { result ≤ end }
    ensures written { drop result line.new ≡ decimal moment ++ (codes " " ++ (side.now ++ (codes " "
        ++ (decimal head.now.number ++ (codes " " ++ (number_text (link_number head.now) ++ (codes " "
        ++ (number_text (sequence_of head.now) ++ (codes " " ++ (class_word head.now.class
        ++ drop end line.old)))))))))) }
{
    let end = write_word(class_text(head.class), line, end);
    let end = write_field(head.sequence(), line, end);
    let end = write_field(head.link_number(), line, end);
    let end = write_field(Some(head.number), line, end);
    let end = write_word(side, line, end);
    write_number(moment, line, end)
}

/// Writes the policing and the fate of a frame, and of the frame that it came out as the number, the transit
/// and the first byte that differs.
#[inline(always)]
fn write_fate(before: &BeforeLine, line: &mut [u8], end: usize) -> usize
    requires room { REST ≤ end }
    requires within { end ≤ length line.old }
    ensures order { result ≤ end }
    ensures near { end ≤ result + REST }
    ensures written { drop result line.new ≡ codes " " ++ (policing_text before.now.policed ++ (codes " "
        ++ (fate_word before.now.fate ++ (codes " " ++ (number_text (partner_number before.now.partner)
        ++ (codes " " ++ (transit_text before.now.transit ++ (codes " "
        ++ (number_text (difference before.now.partner) ++ (codes "\n" ++ drop end line.old)))))))))) }
{
    let end = write_bytes(b"\n", line, end);
    let end = write_field(difference(before.partner), line, end);
    let end = write_transit(before.transit, line, end);
    let end = write_field(partner_number(before.partner), line, end);
    let end = write_word(before.fate.word(), line, end);
    write_word(policing_word(before.policed), line, end)
}

/// Writes the line of a frame that went in at the end of the room, and returns where it starts.
#[inline(always)]
fn write_before(before: &BeforeLine, line: &mut [u8; MAX_LINE]) -> usize
    ensures within { result ≤ MAX_LINE }
    ensures written { drop result line.new ≡ line_text (Before before.now) }
{
    let end = write_fate(before, line, MAX_LINE);
    write_head(&before.head, before.head.moment, "before", line, end)
}

/// The same of a frame without a partner that came out.
fn write_after(after: &AfterLine, line: &mut [u8; MAX_LINE]) -> usize
    ensures within { result ≤ MAX_LINE }
    ensures written { drop result line.new ≡ line_text (After after.now) }
{
    let rest = write_bytes(b" - - -\n", line, MAX_LINE);
    let origin = after.origin.word();
    let named = write_word(origin, line, rest);
    let dash = write_bytes(b" -", line, named);
    write_head(&after.head, after.moment, "after", line, dash)
}

/// Appends the line of a frame that went in.
#[inline]
fn push_before(text: &mut Vec<u8>, before: &BeforeLine) -> Result<(), AllocError>
    ensures added { OnOk result (text.new.items ≡ text.old.items ++ line_text (Before before.now)) }
    ensures memory { OnErr result (text.new.items ≡ text.old.items) }
{
    let mut line = [0; MAX_LINE];
    let start = write_before(before, &mut line);
    text.extend_from_slice(&line[start..])
}

/// The same of a frame without a partner that came out.
fn push_after(text: &mut Vec<u8>, after: &AfterLine) -> Result<(), AllocError>
    ensures added { OnOk result (text.new.items ≡ text.old.items ++ line_text (After after.now)) }
    ensures memory { OnErr result (text.new.items ≡ text.old.items) }
{
    let mut line = [0; MAX_LINE];
    let start = write_after(after, &mut line);
    text.extend_from_slice(&line[start..])
}

/// Appends a line.
#[inline]
pub(crate) fn push_line(text: &mut Vec<u8>, line: &Line) -> Result<(), AllocError>
    ensures added { OnOk result (text.new.items ≡ text.old.items ++ line_text line.now) }
    ensures memory { OnErr result (text.new.items ≡ text.old.items) }
{
    match line {
        Line::Before(before) => push_before(text, before),
        Line::After(after) => push_after(text, after),
    }
}
