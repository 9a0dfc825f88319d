//! The machine of classic BPF: it runs a loaded program on a frame.
//!
//! `bpf_isa` says what one instruction does, and `bpf_loader` accepts the programs that can run.
//! [`run`] gives the return value of a program on a frame, which is the number of bytes to keep,
//! and the number of its steps. [`step`] carries out a single instruction, as a debugger needs it.
//!
//! ```
//! let program = Program::load(read_numeric(alloc, "2,32 0 0 0,22 0 0 0,")?)?;
//! let view = FrameView::new(&bytes);
//! let (kept, steps) = run(&program, &view, whole);
//! ```
//!
//! A run of a loaded program always ends: jumps only go forward, so it has at most as many steps as
//! the program has instructions ([`one_run`]).
#![tactic(auto)]

mod machine;

pub use machine::{one_run, run, step};
