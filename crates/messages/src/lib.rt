//! The words on a command's end for standard error: the fault line or the notes, and in full which file it is
//! about, why, and what to do. See [`tell`].
//!
//! What a file is found to be by then is only told, and decides nothing: so nothing here has a contract, but
//! that it doesn't panic, and ends.
#![tactic(auto)]

mod messages;

pub use messages::{CommandEnd, STANDARD_AMONG, tell};
