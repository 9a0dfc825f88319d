//! Calls that no program runs, whose contracts say of the crates below what the program's own don't.
//!
//! [`Core`] is a model of a run on threads, over events: it says what holds for every interleaving
//! ([`every_run_is_in_order`]). [`judge_round`] and [`filter_round`] say of a whole round what the program
//! does frame by frame, and the calls `.._over` what a whole command leaves, with its status and its
//! fault line.
//!
//! ```text
//! let ran = capture_over(alloc, "1,6 0 0 64,", source, sink);
//! let (lanes, verdicts) = judge_round(lanes, &round)?;
//! ```
#![tactic(auto)]

mod filters;
mod judged;
mod model;
mod recording;
mod whole;

pub use filters::filter_round;
pub use judged::judge_round;
pub use model::{Answered, Core, CoreSizes, Event, MAX_WORKERS, Work, every_run_is_in_order};
pub use recording::is_recording;
pub use whole::{
    DebugRun, Ran, asm_over, capture_one, capture_over, debug_over, run_capture, run_debug,
};
