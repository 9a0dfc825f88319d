//! A report's section on what a switch did, by a ledger of transits: of the page, of the JSON object and of
//! the lines for a terminal. It goes into each by `report_page`'s [`Shown`](report_page::Shown).
//!
//! - [`section_of`]: a table of faults, a strip of each over the page's columns, how long each link's frames
//!   took, and silences.
//! - [`json_of`]: the same numbers as one JSON object; docs/REPORT.md has its members.
//! - [`lines_of`]: at most six lines of at most 80 columns.
#![tactic(auto)]

mod faults;
mod json;
mod latency;
mod lengths;
mod lines;
mod scale;
mod section;

pub use json::json_of;
pub use lines::lines_of;
pub use section::section_of;
