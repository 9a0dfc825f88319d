//! Which frame that came out of a switch is which that went in.
//!
//! Both were recorded by one clock, and each has a key: its bytes, or its link and sequence number. A
//! frame comes out within a window after it went in. Each frame that comes out, in order, is that one
//! of its key and window that went in first and hasn't come out yet.
//!
//! ```text
//! // Three frames that went in, two of them alike; they come out within 10 ns
//! let mut waiting = Waiting::new(alloc, 10);
//! waiting.add(0, 100, 7)?;
//! waiting.add(1, 101, 7)?;
//! waiting.add(2, 102, 8)?;
//! waiting.take(&8, 5);         // Some(102)
//! waiting.take(&7, 6);         // Some(100), which went in first
//! waiting.take(&7, 12);        // None: the window of the other one ended at 11
//! ```
#![tactic(auto)]

mod laws;
mod waiting;

pub use laws::{none_is_missed, one_pairing, order_is_kept, pairing_is_symmetric};
pub use waiting::{Entry, Waiting};
