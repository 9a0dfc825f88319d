//! Reads a ledger of version 2 or 3 line by line, as a stream.
//!
//! A [`LedgerReader`] reads from a [`TapSource`](pcap_io::TapSource) a block of 64 KiB at a time, and
//! allocates that block alone. Each call finds the next line, and lends its bytes until the next call.
//!
//! ```text
//! let mut reader = LedgerReader::new(alloc, source)?;
//! while let FoundLine::Line(line) = reader.advance()? {
//!     if let LedgerLine::Frame(frame) = line {
//!         // frame.stamp, frame.link, .., and reader.line() as it stands
//!     }
//! }
//! ```
//!
//! - [`LedgerReader`], with [`FoundLine`], [`LedgerLine`] and [`Counts`], and its faults [`ReadFault`] and
//!   [`LineFault`]. The first wrong line is named by its number, counted from 1.
//! - [`read_frame`], the values of a frame's line ([`FrameLine`]) of a version, or its first wrong field
//!   ([`FrameFault`]); [`read_line`], a line at its place ([`LedgerStage`]).
//! - [`LineSource`], the lines of any source, with [`LineFound`].
//! - [`Selection`], which lines are taken, by words and fields, with the links of a [`LinkSet`]; [`Chooser`],
//!   which of a ledger's lines it takes, with [`Neighbours`]: those around the taken ones.
//! - Laws: a line has one reading ([`line_reads_one_way`]), and what `verdict_ledger` writes of an entry
//!   reads back as what its line shows ([`entries_read_back`]).
#![tactic(auto)]

mod bounds;
mod chooser;
mod fault;
mod fields;
mod frame;
mod laws;
mod lines;
mod link_list;
mod link_runs;
mod link_set;
mod mask;
mod moment;
mod neighbours;
mod number;
mod order;
mod pattern;
mod reader;
mod selection;
mod word;
mod word_list;
mod words;

pub use bounds::{BLOCK_LEN, MAX_LINES, bounds_are_documented};
pub use chooser::Chooser;
pub use fault::{FrameFault, LineFault, ReadFault};
pub use frame::{FrameLine, read_frame};
pub use laws::{entries_read_back, line_reads_one_way};
pub use lines::{LineFound, LineSource, LinesRefused};
pub use link_list::{ItemFault, LinkSetFault};
pub use link_set::LinkSet;
pub use mask::read_mask;
pub use moment::{Moment, until_of_day};
pub use neighbours::Neighbours;
pub use order::{Counts, LedgerLine, LedgerStage, read_line};
pub use pattern::{MAX_NAME, matches};
pub use reader::{FoundLine, LedgerReader, LedgerStop};
pub use selection::Selection;
pub use word::Word;
pub use word_list::{WordFault, read_words};
