//! The assembler of classic BPF filters, in the language of Linux's `bpf_asm`: [`assemble`] gives the
//! program of a source text, or the first fault.
//!
//! `bpf_text` reads the text into statements. This crate gives each its instruction and resolves the
//! labels. `bpf_loader` then says whether the program can be run.
//!
//! ```
//! let insns = assemble(alloc, "ldh [12]\njne #0x800, drop\nret #-1\ndrop: ret #0\n")?;
//! let program = Program::load(insns)?;
//! ```
#![tactic(auto)]

mod assembler;
mod fault;
mod labels;
mod laws;
mod lister;
mod row;

pub use assembler::assemble;
pub use fault::AsmFault;
pub use laws::{
    listing_is_source_of_its_program, statements_mean_their_instructions, text_has_one_program,
};
pub use lister::listing;
