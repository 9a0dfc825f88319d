//! The lines that a cut saw of its ledger, and the notes on that: lines of a network without a recording,
//! which are passed over, and a selection that takes no line.
use afdx_frame::{Network, Stamp};
use command_line::CutArguments;
use cut_run::LineObserver;
use jiff::Timestamp;
use ledger_text::{FrameLine, Selection};
use std::fmt::{Display, Formatter};
use std::sync::atomic::{AtomicU64, Ordering};
use std::{fmt, io};

/// The lines of a ledger's frames as a cut meets them.
#[derive(Drop)]
pub struct LineTally {
    lines: AtomicU64,
    written: AtomicU64,
    passed: AtomicU64,
    /// The timestamps of the first line and of the last.
    first: AtomicU64,
    last: AtomicU64,
}

/// One more.
fn count(number: &AtomicU64) {
    let before = number.load(Ordering::Relaxed);
    number.store(before.saturating_add(1), Ordering::Relaxed);
}

/// A timestamp in nanoseconds since 1970, as RFC 3339 writes it in UTC, and as `--from` and `--to` take it.
#[derive(Clone, Copy)]
struct Utc(u128);

impl Display for Utc {
    fn fmt<W: fmt::Write>(&self, f: &mut Formatter<W>) -> fmt::Result {
        let nanos = self.0;
        let timestamp = match i128::try_from(nanos) {
            Ok(nanos) => Timestamp::from_nanosecond(nanos).ok(),
            Err(_) => None,
        };
        match timestamp {
            Some(timestamp) => write!(f, "{timestamp}"),
            None => write!(f, "{nanos} ns"),
        }
    }
}

/// An option and its text, after a space, if it is given.
#[derive(Clone, Copy)]
struct OptionText<'a>(&'static str, Option<&'a str>);

impl Display for OptionText<'_> {
    fn fmt<W: fmt::Write>(&self, f: &mut Formatter<W>) -> fmt::Result {
        match self.1 {
            Some(text) => {
                let name = self.0;
                write!(f, " --{name} {text}")
            }
            None => Ok(()),
        }
    }
}

/// The moment at an end of a span, after its word, if there is one.
#[derive(Clone, Copy)]
struct End(&'static str, Option<u128>);

impl Display for End {
    fn fmt<W: fmt::Write>(&self, f: &mut Formatter<W>) -> fmt::Result {
        match self.1 {
            Some(nanos) => {
                let (word, moment) = (self.0, Utc(nanos));
                write!(f, " {word} {moment}")
            }
            None => Ok(()),
        }
    }
}

impl LineObserver for LineTally {
    fn reads(&self, line: &FrameLine) {
        if self.lines.load(Ordering::Relaxed) == 0 {
            self.first.store(line.stamp.0, Ordering::Relaxed);
        }
        self.last.store(line.stamp.0, Ordering::Relaxed);
        count(&self.lines);
    }

    fn writes(&self, _line: &FrameLine) {
        count(&self.written);
    }

    fn passes(&self, _line: &FrameLine) {
        count(&self.passed);
    }
}

impl LineTally {
    /// No line was met yet.
    pub fn new() -> LineTally {
        LineTally {
            lines: AtomicU64::new(0),
            written: AtomicU64::new(0),
            passed: AtomicU64::new(0),
            first: AtomicU64::new(0),
            last: AtomicU64::new(0),
        }
    }

    /// Notes how many lines were passed over, and that none was selected, where it is so.
    pub fn tell(
        &self,
        rt: &HostRuntime,
        given: &CutArguments<'_>,
        selection: &Selection,
        skips: Option<Network>,
    ) -> io::Result<()> {
        let passed = self.passed.load(Ordering::Relaxed);
        if passed > 0 {
            return note_passed(rt, passed, skips);
        }
        if self.written.load(Ordering::Relaxed) > 0 {
            return Ok(());
        }
        self.note_nothing(rt, given, selection)
    }

    /// Notes that no line is selected: by what options, from when to when, and what times the ledger has.
    fn note_nothing(
        &self,
        rt: &HostRuntime,
        given: &CutArguments<'_>,
        selection: &Selection,
    ) -> io::Result<()> {
        if self.lines.load(Ordering::Relaxed) == 0 {
            return rt.eprintln("afdxmon: note: no line is selected: the ledger has no frames");
        }
        let first = self.first.load(Ordering::Relaxed);
        let last = self.last.load(Ordering::Relaxed);
        let start = Stamp(first);
        let from = End(
            "from",
            selection.from.map(|moment| moment.nanoseconds(start)),
        );
        let to = End("to", selection.to.map(|moment| moment.nanoseconds(start)));
        let links = OptionText("link", given.link);
        let network = OptionText("network", given.network);
        let words = OptionText("verdict", given.verdict);
        let filters = OptionText("filters", given.filters);
        let (first, last) = (Utc(u128::from(first)), Utc(u128::from(last)));
        eprintln!(rt;
            "afdxmon: note: no line is selected:{links}{network}{words}{filters}{from}{to}"
        )?;
        eprintln!(rt; "afdxmon: note: the ledger has frames from {first} to {last}")
    }
}

/// Notes how many lines of a network were passed over.
fn note_passed(rt: &HostRuntime, passed: u64, skips: Option<Network>) -> io::Result<()> {
    let network = match skips {
        Some(Network::A) => "A",
        Some(Network::B) => "B",
        None => return Ok(()),
    };
    let lines = if passed == 1 {
        "selected line"
    } else {
        "selected lines"
    };
    eprintln!(rt;
        "afdxmon: note: {passed} {lines} of network {network} passed over: no recording is given"
    )
}
