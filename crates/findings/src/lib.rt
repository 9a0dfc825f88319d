//! The findings of a flight: what went wrong in it, as its ledger says.
//!
//! A *sign* is one countable fact of a ledger's lines: a discard by its word, a number missing on a network,
//! a frame closer than its BAG allows. Each sign is in exactly one *finding*, which names its cause, so the
//! sums over the findings are the totals of signs; and a link is as bad as the worst finding that names it.
//!
//! [`Analysis`] takes a ledger's lines as they come, in memory bounded by the table's links, and gives the
//! findings at the end. docs/REPORT.md defines signs and kinds.
//!
//! ```text
//! let mut analysis = Analysis::new(alloc, &config, recorders)?;
//! analysis.note(&line)?;
//! let findings = analysis.end(RecordingEnd::Whole, RecordingEnd::Whole)?;
//! ```
#![tactic(auto)]

mod accounts;
mod analysis;
mod claims;
mod clocks;
mod common;
mod ending;
mod finding;
mod fit;
mod flight;
mod groups;
mod kind;
mod lane;
mod link;
mod long;
mod network;
mod passage;
mod per_network;
mod rate;
mod recorder;
mod samples;
mod signs;
mod skews;
mod tell;
mod tidy;

pub use accounts::{Facts, Noted, Span};
pub use analysis::{Analysis, Line, RecordingEnd};
pub use finding::{Finding, Findings, LinkLevel, LinkRate};
pub use kind::{Kind, Level};
pub use long::{Long, Time};
pub use network::Outside;
pub use per_network::PerNetwork;
pub use recorder::{Crossing, Hole, RecorderFacts};
pub use signs::{Side, Sign, SignCount, Signs, Word};
