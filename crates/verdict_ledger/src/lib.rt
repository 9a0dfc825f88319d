//! The ledger of an analysis: a line of text for each frame of both networks with its verdict, and the
//! counts of each virtual link, of each filter and of all frames.
//!
//! A [`Ledger`] is begun for a table of virtual links. It gets each frame with its verdict, in the
//! order of the frames' keys, and writes its lines to an [`OutSink`](pcap_io::OutSink), one by one or
//! a round at a time. When both recordings have ended it writes the counts.
//!
//! ```text
//! let mut ledger = Ledger::begin(alloc, &config, 1, LedgerVersion::Two, sink)?;
//! ledger.round(&frames, &verdicts, &keeps, &masks)?;
//! let (sink, totals) = ledger.finish(Ending::Clean(2), Ending::Clean(1))?;
//! ```
//!
//! ```text
//! afdx-ledger 2
//! 0 A 0 5 1 regular within first deliver - 00
//! 100 A 1 5 2 regular within next deliver 60 01
//! 200 B 0 5 2 regular within first copy 60 01
//! link 5 brake frames 3 toolong 0 excess 0 out 0 copy 1 delivered 2
//! filter 0 accepted 2
//! tap A clean 2
//! tap B clean 1
//! total frames 3 accepted 2 cut 0 runt 0 oversize 0 foreign 0 unconfigured 0 toolong 0 excess 0 ..
//! ```
//!
//! - [`Ledger`], with its faults [`LedgerFault`] and [`LedgerRefused`], and its [`LedgerVersion`].
//! - [`append_lines`], the lines of a round as text, for callers that format on other threads and then
//!   hand the text to [`Ledger::round_text`].
//! - [`Totals`], the counts of all frames, and [`LinkCounts`], those of a link. Each frame counts in one
//!   column of its line ([`counts_add_up`]). A [`Tally`] counts both; [`push_link`], [`push_filter`] and
//!   [`push_total`] write their lines.
#![tactic(auto)]

mod bounds;
mod fault;
mod kept;
mod laws;
mod ledger;
mod line;
mod lines;
mod link_counts;
mod spool;
mod summary;
mod tally;
mod totals;
mod version;
mod words;

pub use bounds::{MAX_FILTERS, MAX_LINES};
pub use fault::{LedgerFault, LedgerRefused};
pub use laws::counts_add_up;
pub use ledger::Ledger;
pub use lines::append_lines;
pub use link_counts::LinkCounts;
pub use summary::{push_filter, push_link, push_total};
pub use tally::Tally;
pub use totals::Totals;
pub use version::LedgerVersion;
