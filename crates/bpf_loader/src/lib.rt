//! The loader of classic BPF programs: it accepts exactly the programs that every frame can be
//! filtered by, and names the first fault of any other.
//!
//! `bpf_isa` reads the packed instructions of a filter, [`Program::load`] checks them once, and
//! `bpf_machine` then runs the program without a check on the way: each instruction can be carried
//! out, each jump stays inside the program, the last instruction is a return, and no path loads a
//! scratch memory slot that it hasn't stored.
//!
//! ```
//! let insns = read_numeric(alloc, "2,32 0 0 0,22 0 0 0,")?;
//! match Program::load(insns) {
//!     Ok(program) => run(&program, &view, whole),
//!     Err(LoadRefused { fault, words }) => return Err(fault),
//! }
//! ```
//!
//! The rules are those of Linux's check of classic filters (net/core/filter.c). [`LoadFault`] lists
//! them, and `Program::load` states their order. Loading allocates nothing.
#![tactic(auto)]

mod fault;
mod insns;
mod program;
mod scratch;

pub use fault::{LoadFault, LoadRefused};
pub use program::Program;
