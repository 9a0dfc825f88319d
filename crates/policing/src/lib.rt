//! Byte-based policing of one virtual link on one network (ARINC 664 Part 7): does a frame fit the
//! bandwidth that the link is given?
//!
//! A receiver has one [`Account`] for each virtual link and each network, and shows it each frame of
//! the link, in the order of time. The account begins full, is credited with Smax bytes for each
//! bandwidth allocation gap (BAG) that passes, and is charged with each frame that it lets through.
//! `vl_judge` does so.
//!
//! ```text
//! // BAG 1 ms, jitter 0, Smax 200 bytes: a full account holds 200 bytes
//! let mut account = Account::full(link);
//! account.judge(Stamp(0), 200);          // Within: nothing is left
//! account.judge(Stamp(999_999), 200);    // Excess: a byte is missing, and none is charged
//! account.judge(Stamp(1_000_000), 200);  // Within
//! ```
#![tactic(auto)]

mod account;
mod verdict;

pub use account::Account;
pub use verdict::Policing;
