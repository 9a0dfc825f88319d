//! Integrity checking of one virtual link on one network (ARINC 664 Part 7): is a frame's sequence
//! number the next one, or the one after it?
//!
//! A receiver has one [`Check`] for each virtual link and each network, and shows it the sequence
//! number of each frame that policing has passed, in the order of time. `vl_judge` does so.
//!
//! ```text
//! let mut check = Check::new();
//! check.judge(true, 254);  // First
//! check.judge(true, 255);  // Next
//! check.judge(true, 2);    // Skip: number 1 is missing
//! check.judge(true, 5);    // Out
//! check.judge(true, 6);    // Next: it follows 5, though 5 was out
//! check.judge(true, 0);    // Reset: the sender has started anew
//! ```
#![tactic(auto)]

mod check;
mod verdict;

pub use check::Check;
pub use verdict::Integrity;
