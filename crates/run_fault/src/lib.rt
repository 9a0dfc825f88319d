//! The faults of runs over recordings: why one was aborted, and what was given back with the fault.
//! The definitions of `specs/` say how far a recording was read, and what a run sees of its devices.
#![tactic(auto)]

mod fault;
mod refused;

pub use fault::{CAPTURE_FAILED, Output, WatchFault, fault_of_open};
pub use refused::WatchRefused;

/// The most frames of a recording that are read.
pub const MAX_FRAMES: u64 = 1 << 32;
