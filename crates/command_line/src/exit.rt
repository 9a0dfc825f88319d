//! How the program ends: its exit status, and what it tells standard error.

use crate::arguments::FailOn;
use crate::fault::{Fault, FileOption};
use crate::summary::Summary;
use cut_run::{CutEnding, CutFault};
use ledger_text::LedgerStop;
use pcap_io::Ending;
use run_fault::{Output, WatchFault};
use std::fmt;
use std::fmt::{Display, Formatter};

/// The exit status of invalid arguments, after clap's text.
pub const USAGE: u8 = 2;

/// The exit status of a command that did its work, and found what it was told to fail on.
pub const FAILED: u8 = 3;

/// The words for a person whose terminal packets would be written to.
pub const TO_A_TERMINAL: &str = "\
afdxmon: packets aren't written to a terminal
Name a file by -o (of watch by --capture), or use a pipe";

/// Findings of a report that it was told to fail on.
#[derive(Clone, Copy)]
pub struct Found {
    pub level: FailOn,
    /// How many there are.
    pub count: u64,
    /// Where the ledger ends that was read, if that is before its line `total`.
    pub stop: Option<LedgerStop>,
}

/// The line that says so.
impl Display for Found {
    fn fmt<W: fmt::Write>(&self, f: &mut Formatter<W>) -> fmt::Result {
        let Found { level, count, .. } = *self;
        let words = match level {
            FailOn::Trouble => "of trouble: --fail-on trouble",
            FailOn::Notice => "of trouble or notice: --fail-on notice",
        };
        write!(f, "afdxmon: findings {count} {words}")
    }
}

/// How a command ended.
#[derive(Clone, Copy)]
pub enum Exit {
    /// Status 0: all was read and done.
    Success,
    /// Status 0: the recording ended early. What stands before the ending was read.
    Note(Ending),
    /// Status 0: both recordings were read up to their endings.
    Watched(Summary),
    /// Status 0: the ledger that was read ends before its line `total`. What stands there was taken.
    WithoutTotal(LedgerStop),
    /// Status 3: the report is written, and there are findings that it was told to fail on.
    Found(Found),
    /// Status 1.
    Fault(Fault),
    /// Status 2: packets would be written to a terminal. Nothing was opened.
    Terminal,
}

/// Was a recording read to its end?
fn is_whole(ending: Ending) -> bool {
    matches!(ending, Ending::Clean(_))
}

impl Exit {
    /// The end of a capture, from what it came to and whether its output was flushed. An output that
    /// can't be flushed is one that can't be written.
    pub fn of_capture(outcome: Result<Ending, Fault>, flushed: bool) -> Exit {
        match outcome {
            Err(fault) => Exit::Fault(fault),
            Ok(_) if !flushed => Exit::Fault(Fault::Watch(WatchFault::Write {
                output: Output::Capture,
            })),
            Ok(ending) => Exit::at(ending),
        }
    }

    /// The end of a command that read its one recording up to this ending.
    fn at(ending: Ending) -> Exit {
        match ending {
            Ending::Clean(_) => Exit::Success,
            Ending::Cut(_) | Ending::Bad(..) => Exit::Note(ending),
        }
    }

    /// The end of a run over two recordings, from what it came to or why it was aborted, and whether its
    /// capture and its ledger were flushed.
    pub fn of_watch(
        outcome: Result<Summary, Fault>,
        capture_flushed: bool,
        ledger_flushed: bool,
    ) -> Exit {
        let output = match outcome {
            Err(fault) => return Exit::Fault(fault),
            Ok(_) if !capture_flushed => Output::Capture,
            Ok(_) if !ledger_flushed => Output::Ledger,
            Ok(summary) => return Exit::Watched(summary),
        };
        Exit::Fault(Fault::Watch(WatchFault::Write { output }))
    }

    /// The end of a command that prints a text, from what it came to and whether its output was flushed.
    pub fn of_text(outcome: Result<(), Fault>, flushed: bool) -> Exit {
        match outcome {
            Err(fault) => Exit::Fault(fault),
            Ok(()) if !flushed => Exit::Fault(Fault::File(FileOption::Standard)),
            Ok(()) => Exit::Success,
        }
    }

    /// The end of a session of the debugger, from how its recording ended, what the session came to and
    /// whether its output was flushed.
    pub fn of_session(ending: Ending, outcome: Result<(), Fault>, flushed: bool) -> Exit {
        match Exit::of_text(outcome, flushed) {
            Exit::Success => Exit::at(ending),
            exit => exit,
        }
    }

    /// The end of a cut, from what it came to and whether its output was flushed. An output that can't be
    /// flushed is one that can't be written.
    pub fn of_cut(outcome: Result<CutEnding, Fault>, flushed: bool) -> Exit {
        match outcome {
            Err(fault) => Exit::Fault(fault),
            Ok(_) if !flushed => Exit::Fault(Fault::Cut(CutFault::Write)),
            Ok(CutEnding::Complete) => Exit::Success,
            Ok(CutEnding::Incomplete(stop)) => Exit::WithoutTotal(stop),
        }
    }

    /// The program's exit status.
    pub fn status(&self) -> u8 {
        match self {
            Exit::Success | Exit::Note(_) | Exit::Watched(_) | Exit::WithoutTotal(_) => 0,
            Exit::Fault(_) => 1,
            Exit::Found(_) => FAILED,
            Exit::Terminal => USAGE,
        }
    }

    /// Did a run over two recordings end before the end of one of them?
    pub fn is_early(&self) -> bool {
        match self {
            Exit::Watched(run) => !(is_whole(run.a) && is_whole(run.b)),
            _ => false,
        }
    }
}
