//! The answer of `transit` on two recordings, by the ports in and out of a switch: the pass over both, its
//! ledger, and the answer as text for a person and as JSON for scripts (docs/TRANSIT.md).
//!
//! A question says that the recordings may not be what they are taken for, as where the clocks are apart. It
//! only asks: no outcome depends on it.
#![tactic(auto)]

mod advice;
mod answer;
mod apart;
mod bars;
mod json;
mod look;
mod notes;
mod questions;
mod text;
mod walk;
mod words;

pub use answer::{Answer, Side};
pub use json::json_of;
pub use look::Looks;
pub use notes::{Note, notes_of};
pub use questions::{Question, questions_of};
pub use text::text_of;
pub use walk::{Transits, WalkRun, walk_both};
