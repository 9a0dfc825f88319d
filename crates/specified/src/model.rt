//! The model over events: both taps, their rings, the merger and the workers as one machine, each of whose
//! steps is one event.
//!
//! A run on threads is some interleaving of such steps, and which one isn't known; so
//! [`Core`] takes them one by one from its caller, and what its contracts say holds for every list of them
//! ([`every_run_is_in_order`]). The merger in it is the one that the program runs.

mod engine;
mod event;
mod parts;
mod round;
mod side;
mod sizes;

pub use engine::{Core, MAX_WORKERS, every_run_is_in_order};
pub use event::{Answered, Event, Work};
pub use sizes::CoreSizes;
