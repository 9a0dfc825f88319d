//! The commands `asm` and `debug`: a filter's source is assembled, and a filter is run over a recording by
//! steps.
//!
//! `debug` reads its recording whole ([`read_tap`]), since a session goes back and forth in it.
#![tactic(auto)]

mod asm;
mod debug;
mod laws;
mod tap;

pub use asm::{AsmRun, run_asm};
pub use debug::{answer_line, begin_session, run_session};
pub use laws::source_means_its_program;
pub use tap::{HeldTap, TapRead, read_tap};
