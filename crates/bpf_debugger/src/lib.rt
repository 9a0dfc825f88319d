//! The stepping debugger of classic BPF filters: it walks through a filter's run on a recorded frame,
//! forwards and backwards.
//!
//! A [`Session`] has a loaded program and the frames of a tap. [`Session::command`] carries a
//! [`Command`] out and gives a [`Reply`], or says by a [`DebugFault`] why it refuses; a refused command
//! changes nothing. The session has a selected frame and a position, the number of steps made since the
//! start of the filter's run on it. At the last position it shows the return value, before that the
//! state: the pc, A, X and the scratch memory.
//!
//! ```
//! let mut session = Session::new(alloc, program, frames)?;
//! for line in lines {
//!     match read_command(line) {
//!         None => print(bad_command_line()),
//!         Some(command) => match session.command(command) {
//!             Ok(reply) => print(render(alloc, &reply)?),
//!             Err(fault) => print(fault.line()),
//!         },
//!     }
//! }
//! ```
//!
//! A session runs no filter again to step back. It keeps an [`Undo`] record for each step made: what
//! the step overwrites. [`undo`] gives the state before the step.
//!
//! [`chain_is_the_run`] and [`session_is_a_fold`] say what holds for a whole run and a whole session.
#![tactic(auto)]

mod back;
mod command;
mod fault;
mod laws;
mod read;
mod record;
mod reply;
mod session;
mod walk;

pub use back::undo;
pub use command::Command;
pub use fault::{DebugFault, NewRefused, bad_command_line};
pub use laws::{chain_is_the_run, session_is_a_fold};
pub use read::read_command;
pub use record::Undo;
pub use reply::{Reply, render};
pub use session::Session;
