//! Two recordings, up to eight filters: the capture of the accepted frames in one order, and the ledger
//! of all verdicts.
//!
//! [`watch_whole`] does it on the calling thread; [`watch`] reads each recording by a thread of its own
//! and shares each round of frames among workers. What stands after either is one definition
//! (`IsWatched`).
#![tactic(auto)]

mod capture_laws;
mod entries;
mod gate;
mod laws;
mod one_thread;
mod outputs;
mod plan;
mod running;
mod shared;
mod sizes;
mod threads;

pub use capture_laws::pcap_has_accepted_frames;
pub use gate::{OpenGate, RunObserver};
pub use laws::{
    reads_first_lines, run_ledger_is_read, same_bytes_in_same_bytes_out, verdicts_are_shown,
    written_ledger_is_read, written_lines_are_not_refused,
};
pub use one_thread::{Watched, sized_watch_whole, watch_whole};
pub use plan::Plan;
pub use sizes::RunSizes;
pub use threads::{sized_watch, watch};
