//! Each command but `watch`: it opens files and standard streams, refuses an output that is another file of
//! the command, hands them to the crate that does its work, and says how that ended. And of all commands,
//! `watch` too, what they write (`outputs`).
//!
//! No contract can say what a file holds, so functions that open one or hand it on have none: they are proved
//! not to panic, and to end.
#![tactic(auto)]

mod assembling;
mod capturing;
mod checking;
mod cutting;
mod debugging;
mod disputed;
mod drafting;
mod files;
mod inputs;
mod outputs;
mod reporting;
mod standard_input;
mod transit_cutting;
mod transiting;

pub use assembling::asm;
pub use capturing::capture;
pub use checking::check;
pub use cutting::cut;
pub use debugging::debug;
pub use drafting::links;
pub use files::{refuse_shared, refuse_streams};
pub use inputs::{MAX_LATE, is_at_terminal, text_of};
pub use outputs::{
    LedgerWriter, RunSums, Spans, TextSums, arguments, blocks_of, create, create_hashed, file_in,
    format_of, shared, summarise, version_of, with_manifest, worst_links,
};
pub use reporting::report;
pub use transit_cutting::cut_transits;
pub use transiting::transit;
