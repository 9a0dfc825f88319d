//! The writer of a page.

use crate::numbers::{MINUTE, SECOND, quotient, rounded, share};
use afdx_frame::Network;
use jiff::Timestamp;
use std::alloc::{AllocError, Global};
use std::fmt::Write;

/// Numbers of A and B.
#[derive(Clone, Copy)]
pub struct Pair(pub u64, pub u64);

impl Pair {
    /// Both together, 2^64 - 1 at most.
    pub fn sum(self) -> u64 {
        self.0.saturating_add(self.1)
    }

    /// Both, each at most that of the other pair.
    pub fn min(self, other: Pair) -> Pair {
        Pair(self.0.min(other.0), self.1.min(other.1))
    }
}

/// The filling of a hole of a template.
#[derive(Clone, Copy)]
pub enum Part<'a> {
    Text(&'a str),
    /// A text that was given to the program, of whatever characters.
    Given(&'a str),
    /// The same as a word of a shell.
    Word(&'a str),
    Letter(Network),
    Number(u64),
    /// A number, its groups of three digits apart.
    Grouped(u64),
    /// So many tenths, with one decimal.
    Tenths(u64),
    /// So many of so many in per cent, rounded down to one decimal, or to the first digit that isn't 0.
    Percent(u64, u64),
    /// So many hundredths, with two decimals.
    Hundredths(u64),
    /// So many thousandths, with three decimals.
    Thousandths(u64),
    /// Nanoseconds as milliseconds, or bits a second as megabits, with two decimals.
    Millionths(u64),
    /// Nanoseconds in the unit that fits, rounded to three digits.
    Duration(u64),
    /// Nanoseconds in milliseconds, rounded to three digits.
    Milliseconds(u64),
    /// Nanoseconds since the first line, as seconds with their unit.
    Since(u64),
    /// A moment of a long flight: its timestamp, and the nanoseconds since the first line.
    Moment(u64, u64),
    /// Nanoseconds as seconds, with as many decimals as they need, at most three.
    Tick(u64),
    /// The hour and the minute of a timestamp, in UTC.
    Clock(u64),
    /// A timestamp in UTC, as `cut --from` takes it.
    Utc(u64),
    Both(Pair),
    /// A cell of counts; `off` where there are none.
    Cell(Option<Pair>),
}

/// A cell of counts that are 0.
const NO_COUNT: &str = "<td class=\"p\"><i class=\"z\">&#183;</i></td>";

/// A part with the name of the holes where it stands.
pub type Named<'a> = (&'a str, Part<'a>);

impl Part<'_> {
    /// Is it a text without characters, or a count of 0?
    fn is_blank(self) -> bool {
        match self {
            Part::Text(text) => text.is_empty(),
            Part::Number(value) | Part::Grouped(value) | Part::Duration(value) => value == 0,
            Part::Both(pair) => pair.sum() == 0,
            _ => false,
        }
    }
}

/// The text, or nothing where this doesn't hold.
pub fn flag(holds: bool) -> Part<'static> {
    Part::Text(if holds { "yes" } else { "" })
}

/// The name in a piece of a template, of which every other is one.
pub fn name_in(at: usize, piece: &str) -> &str {
    if at % 2 == 0 {
        return "";
    }
    piece.strip_prefix("?").unwrap_or(piece)
}

/// The part of this name, if there is one.
pub fn part_of<'a>(parts: &[Named<'a>], name: &str) -> Option<Part<'a>> {
    if name.is_empty() {
        return None;
    }
    let named = parts.iter().find(|part| part.0 == name);
    named.map(|part| part.1)
}

/// A page as it is written. It keeps the failure of an append, so that nothing that appends has a result.
#[derive(Drop)]
pub struct Page {
    written: String,
    failed: bool,
    /// Is it a text, and not a page?
    plain: bool,
    /// How many conditions of a template are open, and the first of them that doesn't hold, counted from 1.
    depth: usize,
    hidden: usize,
}

impl Page {
    /// An empty page.
    pub fn new(alloc: Global) -> Page {
        Page {
            written: String::new(alloc),
            failed: false,
            plain: false,
            depth: 0,
            hidden: 0,
        }
    }

    /// An empty text, in which no character is written as a browser takes it.
    pub fn plain(alloc: Global) -> Page {
        Page {
            plain: true,
            ..Page::new(alloc)
        }
    }

    /// The text of another page, for this one to append: where an append failed there, it failed here.
    pub fn written_on<'a>(&mut self, other: &'a Page) -> &'a str {
        self.failed |= other.failed;
        &other.written
    }

    /// The text that was written.
    ///
    /// # Errors
    ///
    /// `AllocError` if the system was out of memory at an append.
    pub fn into_text(self) -> Result<String, AllocError> {
        if self.failed {
            Err(AllocError)
        } else {
            Ok(self.written)
        }
    }

    /// Appends a text.
    pub fn text(&mut self, text: &str) {
        self.failed |= self.written.push_str(text).is_err();
    }

    /// Appends a text as a string of JSON.
    pub fn quoted(&mut self, text: &str) {
        self.text("\"");
        for character in text.chars() {
            match character {
                '"' => self.text("\\\""),
                '\\' => self.text("\\\\"),
                '\u{0}'..='\u{1f}' => {
                    let code = u32::from(character);
                    self.failed |= write!(self.written, "\\u{code:04x}").is_err();
                }
                _ => self.failed |= self.written.push(character).is_err(),
            }
        }
        self.text("\"");
    }

    /// Appends a text as a word of a shell.
    fn word(&mut self, text: &str) {
        let is_safe = |character: char| {
            character.is_ascii_alphanumeric()
                || matches!(character, '/' | '.' | '_' | '-' | '@' | '+' | ',')
        };
        if !text.is_empty() && text.chars().all(is_safe) {
            return self.given(text);
        }
        self.given("'");
        for (at, piece) in text.split('\'').enumerate() {
            self.given(if at > 0 { "'\\''" } else { "" });
            self.given(piece);
        }
        self.given("'");
    }

    /// Appends a text in which nothing means anything to a browser.
    fn given(&mut self, text: &str) {
        if self.plain {
            return self.text(text);
        }
        for character in text.chars() {
            if matches!(character, ' '..='~') && !matches!(character, '&' | '<' | '>' | '"') {
                self.failed |= self.written.push(character).is_err();
            } else {
                self.path(&[("&#", u64::from(u32::from(character)))]);
                self.text(";");
            }
        }
    }

    /// Appends a template. `$name$` is the part of that name, and what stands between `$?name$` and its
    /// `$/$` is left out where that part is blank.
    pub fn fill(&mut self, template: &str, parts: &[Named<'_>]) {
        for (at, piece) in template.split('$').enumerate() {
            let part = part_of(parts, name_in(at, piece));
            self.piece(at, piece, part.unwrap_or(Part::Text("")));
        }
    }

    /// Appends a piece of a template, of which every other is a name or a condition, with its part.
    pub fn piece(&mut self, at: usize, piece: &str, part: Part<'_>) {
        if at % 2 == 0 {
            self.shown_text(piece);
        } else if piece == "/" {
            self.leave();
        } else if piece.starts_with('?') {
            self.enter(part.is_blank());
        } else if self.is_shown() {
            self.part(part);
        }
    }

    /// Appends a text where nothing is left out.
    pub fn shown_text(&mut self, text: &str) {
        self.text(if self.is_shown() { text } else { "" });
    }

    /// Is nothing left out now?
    pub fn is_shown(&self) -> bool {
        self.hidden == 0
    }

    /// Begins what is left out where a part is blank.
    fn enter(&mut self, blank: bool) {
        self.depth = self.depth.saturating_add(1);
        if self.hidden == 0 && blank {
            self.hidden = self.depth;
        }
    }

    /// Ends it.
    fn leave(&mut self) {
        if self.hidden == self.depth {
            self.hidden = 0;
        }
        self.depth = self.depth.saturating_sub(1);
    }

    fn part(&mut self, part: Part<'_>) {
        match part {
            Part::Text(text) => self.text(text),
            Part::Given(text) => self.given(text),
            Part::Word(text) => self.word(text),
            Part::Letter(network) => self.text(network.letter()),
            Part::Number(value) => self.number(value, 1),
            Part::Grouped(value) => self.grouped(value),
            Part::Tenths(value) => self.decimal(value, 10, 1),
            Part::Percent(count, of) => self.percent(count, of),
            Part::Hundredths(value) => self.decimal(value, 100, 2),
            Part::Thousandths(value) => self.decimal(value, 1000, 3),
            Part::Millionths(value) => self.decimal(value / 10_000, 100, 2),
            Part::Duration(value) => self.duration(value),
            Part::Milliseconds(value) => self.three_digits(value, 1_000_000),
            Part::Since(value) => self.since(value),
            Part::Moment(stamp, since) => self.moment(stamp, since),
            Part::Tick(value) => self.short(value / 1_000_000),
            Part::Clock(stamp) => self.clock(stamp),
            Part::Utc(stamp) => self.utc(stamp),
            Part::Both(counts) => self.both(counts),
            Part::Cell(None) => self.text("<td class=\"p z\">off</td>"),
            Part::Cell(Some(counts)) if counts.sum() == 0 => self.text(NO_COUNT),
            Part::Cell(Some(counts)) => {
                self.text("<td class=\"p\">");
                self.both(counts);
                self.text("</td>");
            }
        }
    }

    fn both(&mut self, counts: Pair) {
        self.side("a", counts.0);
        self.text("<i>/</i>");
        self.side("b", counts.1);
    }

    /// Appends steps of a path: texts, each before a number.
    pub fn path(&mut self, steps: &[(&str, u64)]) {
        for (text, number) in steps {
            self.text(text);
            self.number(*number, 1);
        }
    }

    /// Appends a word on the left of a field of eight columns, and a number on the right of one of five after
    /// a space.
    pub fn columns(&mut self, word: &str, value: u64) {
        self.failed |= write!(self.written, "{word:<8} {value:>5}").is_err();
    }

    /// Appends a word on the left of a field of eight columns, and a space.
    pub fn level(&mut self, word: &str) {
        self.failed |= write!(self.written, "{word:<8} ").is_err();
    }

    /// Appends a number with so many digits at least.
    fn number(&mut self, value: u64, digits: usize) {
        self.failed |= write!(self.written, "{value:0digits$}").is_err();
    }

    /// Appends a number of parts, of which `of` make one.
    fn decimal(&mut self, value: u64, of: u64, digits: usize) {
        let whole = quotient(value, of);
        self.number(whole, 1);
        self.text(".");
        self.number(value.saturating_sub(whole.saturating_mul(of)), digits);
    }

    fn percent(&mut self, count: u64, of: u64) {
        let (mut parts, mut unit, mut digits) = (share(count, 1000, of), 10u64, 1);
        for more in 2..=9 {
            if count == 0 || parts > 0 {
                break;
            }
            unit = unit.saturating_mul(10);
            parts = share(count, unit.saturating_mul(100), of);
            digits = more;
        }
        self.decimal(parts, unit, digits);
    }

    fn grouped(&mut self, value: u64) {
        let (mut digits, mut place) = (1, 1_000_000_000_000_000_000u64);
        for _ in 0..6 {
            if value >= place {
                self.number(quotient(value, place) % 1000, digits);
                self.text(if self.plain { "" } else { "&#8239;" });
                digits = 3;
            }
            place /= 1000;
        }
        self.number(value % 1000, digits);
    }

    fn side(&mut self, class: &str, count: u64) {
        let zero = if count == 0 { " z" } else { "" };
        for text in ["<span class=\"", class, zero, "\">"] {
            self.text(text);
        }
        self.grouped(count);
        self.text("</span>");
    }

    /// Appends thousandths with no zero at the end.
    fn short(&mut self, thousandths: u64) {
        if thousandths % 10 > 0 {
            self.decimal(thousandths, 1000, 3);
        } else if thousandths % 100 > 0 {
            self.decimal(thousandths / 10, 100, 2);
        } else if thousandths % 1000 > 0 {
            self.decimal(thousandths / 100, 10, 1);
        } else {
            self.number(thousandths / 1000, 1);
        }
    }

    /// Appends a number of units with three digits, or with as many as its whole units have.
    fn three_digits(&mut self, value: u64, unit: u64) {
        let hundredths = rounded(value, 100, unit);
        if hundredths >= 10_000 {
            self.grouped(rounded(value, 1, unit));
        } else if hundredths >= 1_000 {
            self.short(rounded(value, 10, unit).saturating_mul(100));
        } else {
            self.short(hundredths.saturating_mul(10));
        }
    }

    fn duration(&mut self, value: u64) {
        // A unit begins where the one before would be rounded up to it.
        let (unit, name) = match value {
            0 | 999_500_000.. => (SECOND, "s"),
            999_500.. => (1_000_000, "ms"),
            1_000.. => (1_000, if self.plain { "us" } else { "&#181;s" }),
            _ => (1, "ns"),
        };
        self.three_digits(value, unit);
        self.text(if self.plain { " " } else { "&#8239;" });
        self.text(name);
    }

    fn since(&mut self, value: u64) {
        self.decimal(rounded(value, 1, 1_000_000), 1000, 3);
        self.text(" s");
    }

    /// Appends the time of day, and in brackets the seconds since the first line, as `cut --from` takes both.
    fn moment(&mut self, stamp: u64, since: u64) {
        self.clock(stamp);
        self.text(":");
        self.number(quotient(stamp, SECOND) % 60, 2);
        self.text(" (+");
        self.decimal(rounded(since, 1, 100_000_000), 10, 1);
        self.text(" s)");
    }

    fn clock(&mut self, stamp: u64) {
        let minutes = quotient(stamp, MINUTE) % 1440;
        self.number(minutes / 60, 2);
        self.text(":");
        self.number(minutes % 60, 2);
    }

    fn utc(&mut self, stamp: u64) {
        if let Ok(moment) = Timestamp::from_nanosecond(i128::from(stamp)) {
            self.failed |= write!(self.written, "{moment:.9}").is_err();
        }
    }
}
