//! The numbers of a report: what a ledger of version 2 says of each virtual link and of each network.
//!
//! [`read_report`] reads a ledger once, line by line, and keeps numbers alone: its memory is bounded by the
//! table's links, and no line allocates but for the first hits of each series. docs/REPORT.md defines
//! every number over the list of lines.
//!
//! [`Part`] takes some of a ledger's lines alone. [`read_part`] reads lines of frames of which others are
//! left out.
//!
//! ```text
//! let report = read_report(alloc, &config, source, None, recorders)?;
//! let lost = report.links[0].lanes.a.signs.of(Anomaly::Lost).count;
//! ```
#![tactic(auto)]

mod accounts;
mod activity;
mod anomalies;
mod bounds;
mod counts;
mod counts_lines;
mod deliveries;
mod disputed;
mod fault;
mod flights;
mod frame_lines;
mod lane;
mod link;
mod median;
mod moment;
mod network;
mod numbers;
mod part;
mod per_number;
mod report;
mod series;
mod statistics;
mod worse;

pub use accounts::{Unheld, UnheldLine};
pub use activity::{Activity, Bin, Measure};
pub use anomalies::{Anomalies, Anomaly, AnomalyTally};
pub use bounds::{BINS, FIRST_WIDTH};
pub use counts::FrameCounts;
pub use counts_lines::{TapEnd, TapEnding};
pub use disputed::{Difference, Disputed};
pub use fault::{NoReport, ReportRefused, WrongLine};
pub use findings::{Crossing, Hole, PerNetwork, RecorderFacts};
pub use flights::{comparison_at, is_new_outside};
pub use lane::LaneReport;
pub use link::LinkReport;
pub use moment::FramePlace;
pub use network::NetworkReport;
pub use numbers::{COUNTS, Count, LinkNumbers};
pub use part::Part;
pub use report::{OutsideLink, Report, read_part, read_report};
pub use series::Series;
pub use verdict_ledger::{LinkCounts, Totals};
pub use worse::{CHANGES, Change, LEAST_GROWTH, LEAST_SKEW, LinkComparison, WORSE, Worse};
