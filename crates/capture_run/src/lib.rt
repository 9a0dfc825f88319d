//! The command `capture`: the frames of one recording that a filter accepts, copied.
//!
//! ```text
//! let run = capture_by(alloc, &program, 0, PacketFormat::Pcap, source, sink);
//! let exit = Exit::of_capture(run.outcome, true);
//! ```
//!
//! A run gives its devices back with the recording's ending, or with a [`command_line::Fault`].
#![tactic(auto)]

mod capture;
mod capture_laws;
mod copy;

pub use capture::{CaptureRun, capture_by};
pub use capture_laws::capture_gives_the_accepted_frames;
pub use copy::capture_within;
