//! One fault for each rule, with the pc where it is broken, so that a message can name the instruction.

use bpf_isa::Packed;
use thiserror::Error;

/// Why a program can't be loaded. `at` is the index of an instruction, from 0.
///
/// The rules are those of Linux's check of classic filters (Documentation/networking/filter.rst,
/// net/core/filter.c), but for `Offset`, which is this project's profile.
#[derive(Clone, Copy, Debug, PartialEq, Eq, Error)]
pub enum LoadFault {
    /// The program doesn't have 1 to [`MAX_INSNS`](bpf_isa::MAX_INSNS) instructions.
    #[error("a program has 1 to 4096 instructions")]
    Length,
    /// The code isn't one of the table's 49.
    #[error("instruction {at}: unknown code")]
    UnknownCode { at: usize },
    /// A division or a remainder by k = 0.
    #[error("instruction {at}: division by 0")]
    ZeroDivisor { at: usize },
    /// A shift by k of 32 or more.
    #[error("instruction {at}: shift by 32 or more")]
    Shift { at: usize },
    /// A scratch memory slot of 16 or more.
    #[error("instruction {at}: no such scratch memory slot")]
    Scratch { at: usize },
    /// An absolute offset, or that of a header length, of 2^31 or more.
    #[error("instruction {at}: offset of 2^31 or more")]
    Offset { at: usize },
    /// A jump outside the program.
    #[error("instruction {at}: jump outside the program")]
    Jump { at: usize },
    /// The last instruction is no return.
    #[error("the last instruction is no return")]
    NoReturn,
    /// The instruction loads the scratch memory slot M[word], and some path to it from instruction
    /// 0 hasn't stored that slot.
    #[error("instruction {at}: some path has not stored M[{word}]")]
    Unstored { at: usize, word: u32 },
}

/// A program that can't be loaded, with its instructions as the caller passed them.
#[derive(Debug, Drop, Error)]
#[error("{fault}")]
pub struct LoadRefused {
    /// The first fault.
    pub fault: LoadFault,
    /// The instructions that the caller passed.
    pub words: Vec<Packed>,
}
