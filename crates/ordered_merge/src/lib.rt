//! The one order of the frames of both networks.
//!
//! The taps of both networks record at once, and each gives its frames in the order of its recording.
//! A [`Merger`] puts them into rising order of timestamp, network and number, while they come: it gives a
//! frame as soon as no frame that may still come has a lower key. Stamps of a tap may go back within a
//! window (this project's profile).
//!
//! ```
//! let mut merger = Merger::new(alloc, late);
//! merger.fetch(frame_of_a)?;
//! merger.fetch(frame_of_b)?;
//! let round = merger.cut(256)?;
//! for index in 0..round.len() {
//!     println!(rt; "{}", round.frame(index).stamp().0)?;
//! }
//! ```
//!
//! [`runs_follow`] says what holds along a whole run of a merger: `Follows` ties what was fetched of
//! each network to what was cut and what is pending.
#![tactic(auto)]

mod buffer;
mod cursor;
mod laws;
mod merger;
mod order;

pub use laws::{one_order, rounds_are_one_list, runs_end_in_order, runs_follow};
pub use merger::Merger;
