//! The faults of a document of links, in words: a line each.

use crate::shown::Shown;
use icd_links::{HeadFault, IcdCell, IcdFault, IcdFaults, ListedFault};
use std::fmt;
use std::fmt::{Display, Formatter};
use vl_config::Key;

/// The faults of a document, a line each, which begins with the number of the document's line: `3: column B,
/// "smax", has "0": smax is an integer, 64 to 1518`. The last says how many aren't told, if any.
#[derive(Clone, Copy)]
pub struct IcdLines<'a>(pub &'a IcdFaults);

impl Display for IcdLines<'_> {
    fn fmt<W: fmt::Write>(&self, f: &mut Formatter<W>) -> fmt::Result {
        for listed in self.0.listed() {
            let (line, fault) = (listed.fault.line().unwrap_or(0), FaultWords(listed));
            write!(f, "{line}: {fault}\n")?;
        }
        match self.0.more() {
            0 => Ok(()),
            1 => f.write_str(" and 1 more fault\n"),
            more => write!(f, " and {more} more faults\n"),
        }
    }
}

/// The letters of a column, as spreadsheets have them, up to `ZZ`; else its number.
#[derive(Clone, Copy)]
struct Letters(usize);

/// A letter of the alphabet, from 0.
fn letter(at: usize) -> char {
    char::from(b'A'.saturating_add((at % 26) as u8))
}

impl Display for Letters {
    fn fmt<W: fmt::Write>(&self, f: &mut Formatter<W>) -> fmt::Result {
        let at = self.0;
        if at < 26 {
            f.write_char(letter(at))
        } else if at < 702 {
            f.write_char(letter((at / 26).saturating_sub(1)))?;
            f.write_char(letter(at))
        } else {
            let number = at.saturating_add(1);
            write!(f, "{number}")
        }
    }
}

/// A column, by its letters and its head.
#[derive(Clone, Copy)]
struct Column<'a>(&'a IcdCell);

impl Display for Column<'_> {
    fn fmt<W: fmt::Write>(&self, f: &mut Formatter<W>) -> fmt::Result {
        let (letters, head) = (Letters(self.0.place), Shown(&self.0.head));
        write!(f, "column {letters}, \"{head}\",")
    }
}

/// A cell and what stands in it.
#[derive(Clone, Copy)]
struct Filled<'a>(&'a IcdCell);

impl Display for Filled<'_> {
    fn fmt<W: fmt::Write>(&self, f: &mut Formatter<W>) -> fmt::Result {
        let (column, text) = (Column(self.0), Shown(&self.0.text));
        if self.0.text.is_empty() {
            write!(f, "{column} is blank: ")
        } else {
            write!(f, "{column} has \"{text}\": ")
        }
    }
}

/// The values that a key's column takes.
fn allowed(key: Key) -> &'static str {
    match key {
        Key::Integrity | Key::Redundancy => "a flag is true or false, yes or no, 1 or 0",
        _ => key.allowed(),
    }
}

/// In what a key's column is read.
fn unit_of(key: Key) -> &'static str {
    match key {
        Key::BagMs => "ms",
        Key::Smax => "bytes",
        _ => "us",
    }
}

/// The words for a fault of the heads.
#[derive(Clone, Copy)]
struct HeadWords(HeadFault);

impl Display for HeadWords {
    fn fmt<W: fmt::Write>(&self, f: &mut Formatter<W>) -> fmt::Result {
        match self.0 {
            HeadFault::NoId => f.write_str(
                "no head is id; others may be name, bag_ms, jitter_us, smax, integrity, redundancy, \
                 skew_us and group",
            ),
            HeadFault::Twice(key) => {
                let name = key.name();
                write!(
                    f,
                    " is the second of {name}: --column {name}=HEAD says which is"
                )
            }
            HeadFault::Unit(key) => {
                let (name, unit) = (key.name(), unit_of(key));
                write!(
                    f,
                    " doesn't say {unit}: if it is in {unit}, --column {name}=HEAD takes it, "
                )?;
                write!(f, "and --column {name}= passes it over")
            }
            HeadFault::Absent(key) => {
                let name = key.name();
                write!(f, "no head is the one that --column {name}= names")
            }
        }
    }
}

/// A fault without its line.
#[derive(Clone, Copy)]
struct FaultWords<'a>(&'a ListedFault);

impl Display for FaultWords<'_> {
    fn fmt<W: fmt::Write>(&self, f: &mut Formatter<W>) -> fmt::Result {
        match (&self.0.cell, self.0.fault) {
            (Some(cell), IcdFault::Head { .. }) => {
                let column = Column(cell);
                write!(f, "{column}")?;
            }
            (Some(cell), _) => {
                let filled = Filled(cell);
                write!(f, "{filled}")?;
            }
            (None, _) => {}
        }
        write_fault(f, self.0.fault)
    }
}

/// Writes the fault, after the cell.
fn write_fault<W: fmt::Write>(f: &mut Formatter<W>, fault: IcdFault) -> fmt::Result {
    match fault {
        IcdFault::Quote { .. } => f.write_str("a quote isn't closed, or text follows it"),
        IcdFault::Length { cells, heads, .. } => {
            write!(f, "the row has {cells} cells, and the heads are {heads}")
        }
        IcdFault::Head { wrong, .. } => {
            let words = HeadWords(wrong);
            write!(f, "{words}")
        }
        IcdFault::Value { column, .. } => f.write_str(allowed(column)),
        IcdFault::TwiceId { earlier, .. } => write!(
            f,
            "the row of line {earlier} has the identifier"
        ),
        IcdFault::TwiceName { earlier, .. } => write!(f, "the row of line {earlier} has the name"),
        IcdFault::TooMany { .. } => {
            f.write_str("there are at most 4096 links in a table, and no further row is read")
        }
        IcdFault::Memory => f.write_str("out of memory"),
    }
}
