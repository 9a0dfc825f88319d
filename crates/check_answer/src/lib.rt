//! The answer of `check`, as text for a person and as JSON for scripts (docs/MESSAGES.md): whether a run of
//! `watch` with these inputs would be sound.
#![tactic(auto)]

mod advice;
mod answer;
mod faults;
mod json;
mod lines;
mod questions;
mod text;
mod verdict;
mod words;

pub use answer::{Answer, FilterAnswer, TapAnswer};
pub use faults::MAX_TOLD;
pub use json::json_of;
pub use text::text_of;
pub use verdict::{Verdict, verdict_of};
