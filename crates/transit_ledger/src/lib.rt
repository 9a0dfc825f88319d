//! Reads a ledger of transits, which `afdxmon transit` writes (docs/TRANSIT.md), line by line, as a stream.
//!
//! ```text
//! let (mut reader, run) = TransitReader::open(alloc, source).map_err(|(fault, _)| fault)?;
//! while let TransitFound::Frame(line) = reader.advance()? {
//!     // line.time, line.side, line.link, line.outcome, ..
//! }
//! ```
//!
//! - [`TransitReader`], with [`TransitRun`], how the recordings were compared, [`TransitFound`], a line, and
//!   its faults [`TransitFault`] and [`LineFault`]. The first wrong line is named by its number from 1.
//! - [`read_line`], the values of a frame's line ([`TransitLine`]), or its first field that is wrong
//!   ([`Field`]); [`parse_line`], the values alone.
//! - The lines at the end: [`LinkLine`], [`LatencyLine`], [`TapLine`] and [`TotalLine`].
#![tactic(auto)]

mod counts;
mod fault;
mod fields;
mod line;
mod number;
mod outcome;
mod reader;
mod run;
mod tail;
mod words;

pub use counts::OutcomeCounts;
pub use fault::{LineFault, TransitFault};
pub use line::{Field, TransitLine, parse_line, read_line};
pub use outcome::Outcome;
pub use reader::{TransitFound, TransitReader};
pub use run::TransitRun;
pub use tail::{LatencyFigures, LatencyLine, LinkLine, TapEnd, TapLine, TotalLine, name_in};
pub use words::PolicingWord;
