//! Two recordings as they are read and merged into rounds of frames in order: read by the calling thread,
//! or taken from rings that a thread for each fills.
#![tactic(auto)]

mod feeding;
mod local_tap;
mod parcel;
mod rings;
mod tap_thread;
mod taps;

pub use rings::Rings;
pub use tap_thread::{TapFeed, leave_tap, settle_tap, start_tap};
pub use taps::{ROUND, Taps, Unopened};
