//! The policing of a switch (ARINC 664 Part 7), as far as what came out of it tells what it may have done.
//!
//! A recording begins anywhere, and its stamps aren't the switch's: what a link's account held is known
//! only in bounds. An [`Observed`] account is shown each regular frame that went in, in order, and
//! whether it came out. It charges those that did, and says of each frame whether any switch would have
//! let it through, or none, or whether either is right.
//!
//! ```text
//! // Smax 200 bytes, BAG 1 ms, jitter 0, frames of Smax; times may be off by 1 us
//! let price = 200 * 1_000_000;
//! let mut account = Observed::new(200, price, 1_000, 0);
//! account.judge(0, price, true);           // Unsure: what was before isn't known
//! account.judge(500_000, price, true);     // Excess: half a BAG is no room, though it came out
//! account.judge(1_000_500, price, true);   // Unsure: within the grace
//! account.judge(2_002_000, price, false);  // Within: the switch lost it
//! ```
#![tactic(auto)]

mod observed;

pub use observed::{Observed, Policed};
