//! The source text of classic BPF filters, in the language of Linux's `bpf_asm`: [`statements`]
//! reads a text into its statements, or names its first fault.
//!
//! An assembler stands on this crate: it gives each statement its instruction and resolves the
//! labels. A [`Statement`] borrows its names from the text.
//!
//! ```
//! let text = "ldh [12]\njne #0x800, drop\nret #-1\ndrop: ret #0\n";
//! for statement in &statements(alloc, text)? {
//!     println!(out; "{:?} at byte {}", statement.mnemonic, statement.at)?;
//! }
//! ```
//!
//! The language is that of Linux's Documentation/networking/filter.rst and tools/bpf/bpf_exp.l and
//! bpf_exp.y, without the extension words (`proto`, `cpu` and so on). [`TextFault`] lists the
//! faults, and [`Operand`] the forms of operands.
#![tactic(auto)]

mod fault;
mod keyword;
mod laws;
mod lexer;
mod number;
mod parser;
mod place;
mod statement;
mod word;

pub use fault::TextFault;
pub use keyword::Mnemonic;
pub use laws::{form_leaves_what_may_follow, text_has_one_reading};
pub use parser::statements;
pub use place::name_offset;
pub use statement::{Operand, Source, Statement};
