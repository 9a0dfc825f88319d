//! The numbers of a report on a ledger of transits: what it says of each fault of the switch, of each link,
//! and of times in which nothing came.
//!
//! [`read_transits`] reads a ledger once, line by line, and keeps numbers alone: its memory is bounded by the
//! links. It refuses a ledger whose classes contradict the table, or whose counts its lines of frames don't
//! give.
//!
//! ```text
//! let report = read_transits(alloc, &config, source, columns)?;
//! let dropped = report.fault(Outcome::Dropped).frames;
//! ```
#![tactic(auto)]

mod columns;
mod fault_report;
mod link;
mod reading;
mod report;
mod silence;

pub use columns::TimeColumns;
pub use fault_report::{FaultPlace, FaultReport};
pub use link::LinkTransits;
pub use report::{TransitReport, read_transits};
pub use silence::Silence;
