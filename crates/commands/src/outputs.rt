//! How commands end and what they write: captures, ledgers, manifests.
//!
//! - [`summarise`] tells a person what a run came to, and of which links ([`worst_links`]) the most frames
//!   were discarded.
//! - [`create`], [`format_of`], [`version_of`] and [`LedgerWriter`]: what is written.
//! - [`with_manifest`]: writes the manifest of a run.
//! - [`LineTally`]: what a cut saw of its ledger, and its notes.
//!
//! All stands over the system's files, so what is written is tested, and proved not to panic.

mod ended;
mod line_tally;
mod manifest;
mod opening;
mod spans;
mod worst;

pub use ended::{file_in, summarise};
pub use line_tally::LineTally;
pub use manifest::{RunSums, TextSums, arguments, with_manifest};
pub use opening::{blocks_of, create, create_hashed, format_of, live_output, shared, version_of};
pub use spans::{LedgerWriter, Spans};
pub use worst::worst_links;
