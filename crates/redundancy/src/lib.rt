//! Redundancy management of one virtual link (ARINC 664 Part 7): of a frame that both networks
//! bring, the first is delivered and the second is a copy.
//!
//! A receiver has one [`Pair`] for each virtual link, and shows it each frame that integrity
//! checking has found valid, of both networks, in the order of time. `vl_judge` does so.
//!
//! ```text
//! let mut pair = Pair::new();
//! pair.judge(true, 1_000_000, Network::A, 7, Stamp(0));          // Deliver
//! pair.judge(true, 1_000_000, Network::B, 7, Stamp(1_000_000));  // Copy: no more than SkewMax later
//! pair.judge(true, 1_000_000, Network::A, 7, Stamp(1_000_001));  // Deliver: on the same network
//! ```
#![tactic(auto)]

mod pair;
mod verdict;

pub use pair::{Delivery, Pair};
pub use verdict::Redundancy;
