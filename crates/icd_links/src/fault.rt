//! The faults of a document, apart from the code that finds them.

use thiserror::Error;
use vl_config::Key;

/// The faults of the heads.
#[derive(Clone, Copy, Debug, PartialEq, Eq)]
pub enum HeadFault {
    /// None is of the identifiers.
    NoId,
    /// Two are of this key.
    Twice(Key),
    /// One that is of this key has another unit, or lacks the one that it has to say.
    Unit(Key),
    /// The one that is given for this key isn't there.
    Absent(Key),
}

/// The faults of a document. Lines are counted from 1.
#[derive(Clone, Copy, Debug, PartialEq, Eq, Error)]
pub enum IcdFault {
    /// A quote isn't closed, or text follows it.
    #[error("a quote that isn't closed or that text follows")]
    Quote {
        line: u64,
    },
    /// A row has more or fewer cells than the heads.
    #[error("a row of another length than the heads")]
    Length {
        line: u64,
        cells: usize,
        heads: usize,
    },
    /// The heads don't say which column is of which key.
    #[error("heads that don't say which column is which")]
    Head {
        line: u64,
        wrong: HeadFault,
    },
    /// A cell has none of its column's values, or the identifier is blank.
    #[error("a value out of its column's range")]
    Value {
        line: u64,
        column: Key,
    },
    /// The row of an earlier line has the identifier.
    #[error("an earlier row has the identifier")]
    TwiceId {
        line: u64,
        earlier: u64,
    },
    /// The row of an earlier line has the name.
    #[error("an earlier row has the name")]
    TwiceName {
        line: u64,
        earlier: u64,
    },
    /// More links than a table has.
    #[error("too many links")]
    TooMany {
        line: u64,
    },
    /// Out of memory.
    #[error("out of memory")]
    Memory,
}

impl IcdFault {
    /// The line of the document that is wrong.
    pub fn line(self) -> Option<u64> {
        match self {
            IcdFault::Quote { line }
            | IcdFault::Length { line, .. }
            | IcdFault::Head { line, .. }
            | IcdFault::Value { line, .. }
            | IcdFault::TwiceId { line, .. }
            | IcdFault::TwiceName { line, .. }
            | IcdFault::TooMany { line } => Some(line),
            IcdFault::Memory => None,
        }
    }
}
