//! How a command ended, or why it wasn't begun.
use crate::interface::Skipped;
use command_line::{Exit, Fault, FileOption};
use run_fault::WatchFault;
use std::alloc::AllocError;
use std::fmt::{Display, Formatter};
use std::{fmt, io};

/// There is no memory for a run.
pub const NO_RUN: Fault = Fault::Watch(WatchFault::Memory);

/// The most bytes of a text: of a table, a filter, a document, a manifest, a list of files. 16 MiB.
pub const MAX_TEXT: usize = 16_777_216;

/// Why a file can't be opened, read or written.
#[derive(Clone, Copy)]
pub enum Cause {
    /// An error of the system.
    System(io::Error),
    /// A text that has so many bytes.
    TooLong(u64),
    /// A text of more bytes than are taken, of which no more were read.
    Longer,
    /// A text that isn't UTF-8 from this byte on.
    NotUtf8(usize),
    /// A list of a recording's files that has no path.
    NoPath,
}

impl From<io::Error> for Cause {
    fn from(error: io::Error) -> Cause {
        Cause::System(error)
    }
}

impl Display for Cause {
    fn fmt<W: fmt::Write>(&self, f: &mut Formatter<W>) -> fmt::Result {
        match self {
            Cause::System(error) => write!(f, "{error}"),
            Cause::TooLong(len) => write!(f, "it has {len} bytes"),
            Cause::Longer => write!(f, "it has more than {MAX_TEXT} bytes"),
            Cause::NotUtf8(at) => write!(f, "not UTF-8 at byte {at}"),
            Cause::NoPath => f.write_str("the list has no path"),
        }
    }
}

/// The subject of a fault, beside the file of its option.
#[derive(Drop)]
pub enum Detail {
    /// The filter's source in which it lies.
    Source(String),
    /// The interfaces of a recording's file, its files by time, or the faults of a document.
    Listed(String),
    /// The fault of a standard stream or a pipe.
    Stream(String),
    /// The reason why standard input is no text.
    Text(String),
    /// How a line of a ledger and the table differ on a link.
    Disputed(String),
}

/// How a command ended, or why it wasn't begun, and what a person is told of that.
#[derive(Drop)]
pub struct Outcome {
    pub exit: Exit,
    /// Why the file of a fault can't be opened, read or written.
    pub cause: Option<Cause>,
    pub detail: Option<Detail>,
    /// Of `watch` the line on the worst links.
    pub worst: Option<String>,
    /// How many packets of the recordings are not of Ethernet.
    pub skipped: Skipped,
    /// How many packets the recorders of networks A and B say that they dropped.
    pub dropped: [u64; 2],
    /// Why a recording wasn't read that the answer of `check` is about.
    pub unread: Option<Fault>,
    /// The numbers of the files that were read last of the recordings.
    pub at: [usize; 2],
}

impl From<Exit> for Outcome {
    fn from(exit: Exit) -> Outcome {
        Outcome {
            exit,
            cause: None,
            detail: None,
            worst: None,
            skipped: Skipped::none(),
            dropped: [0, 0],
            unread: None,
            at: [0, 0],
        }
    }
}

impl From<Fault> for Outcome {
    fn from(fault: Fault) -> Outcome {
        Outcome::from(Exit::Fault(fault))
    }
}

impl From<AllocError> for Outcome {
    fn from(_error: AllocError) -> Outcome {
        Outcome::from(NO_RUN)
    }
}

impl Outcome {
    /// A file can't be had or written.
    pub fn of_file(option: FileOption, cause: Cause) -> Outcome {
        Outcome {
            cause: Some(cause),
            ..Outcome::from(Fault::File(option))
        }
    }

    /// The same, of the file of this number of the recording that an option names.
    pub fn at(self, option: FileOption, number: usize) -> Outcome {
        let at = if option == FileOption::B {
            [0, number]
        } else {
            [number, 0]
        };
        Outcome { at, ..self }
    }

    /// The same, with what a fault is about.
    pub fn with(self, detail: Detail) -> Outcome {
        Outcome {
            detail: Some(detail),
            ..self
        }
    }
}
