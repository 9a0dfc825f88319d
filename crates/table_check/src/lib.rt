//! The faults of a table of virtual links, for a person who mends it: [`vl_config::Config::read`] gives
//! the first fault alone.
//!
//! - [`table_faults`] gives every fault:
//!
//! ```text
//! for found in &table_faults(alloc, "constant = 1\nlate_us = 2000000\n")? {
//!     // ConfigFault::Range { link: None } of Key::Constant, and then of Key::LateUs
//! }
//! ```
//!
//! - [`key_offset`] and [`link_offset`] find where a key or a link stands in the text, and [`slip_of`] what
//!   stands there and what is allowed. The text is read again for them, which only a person waits for.
#![tactic(auto)]

mod fault;
mod faults;
mod keys;
mod links;
mod scan;
mod slip;

pub use fault::TableFault;
pub use faults::table_faults;
pub use scan::{key_offset, link_offset};
pub use slip::{Slip, link_of, link_table, slip_at, slip_of};
