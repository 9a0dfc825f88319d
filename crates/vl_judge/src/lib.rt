//! The verdict of each frame: its class, and what policing, integrity checking and redundancy
//! management say of it (ARINC 664 Part 7). A frame that one of them stops is not seen by the next.
//!
//! [`Lanes`] has one lane for each link of the table, and judges the frames of both networks in the
//! order of their keys.
//!
//! ```text
//! let config = Config::read(alloc, text)?;
//! let mut lanes = Lanes::new(alloc, &config)?;
//! let verdict = lanes.judge(&frame);
//! ```
//!
//! [`Lanes::judge_frames`] judges a round of frames, one after the other.
#![tactic(auto)]

mod lane;
mod lanes;
mod verdict;

pub use lanes::Lanes;
pub use verdict::Verdict;
