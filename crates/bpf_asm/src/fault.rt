//! The faults of the text, of the labels and of the targets in one type, in the order of the checks.

ghost use Rattle.std.specs.Prelude.{◌≡◌};
ghost use Rattle.bpf_asm.specs.declared.fault.AsmFault.TheVariants.{Memory, Text};

use bpf_text::TextFault;
use std::alloc::{AllocError, AllocFailed};
use thiserror::Error;

/// Why a text is no program. `at` is the index of a statement, from 0.
///
/// The first fault is reported, in the order of the variants; of `NoLabel`, `Backward` and `TooFar`
/// that of the first jump that has one, and of its first target.
#[derive(Clone, Copy, Debug, PartialEq, Eq, Error)]
pub enum AsmFault {
    /// The text is no list of statements.
    #[error("text: {0}")]
    Text(TextFault),
    /// There is no statement.
    #[error("no statement")]
    Empty,
    /// There are more statements than [`MAX_INSNS`](bpf_isa::MAX_INSNS).
    #[error("more than 4096 statements")]
    TooMany,
    /// An earlier statement carries the label of this one.
    #[error("statement {at}: the label stands before")]
    TwiceLabel { at: usize },
    /// No statement carries the label of a target.
    #[error("statement {at}: no such label")]
    NoLabel { at: usize },
    /// A target is no later statement. Classic BPF only jumps forward.
    #[error("statement {at}: the target is not later")]
    Backward { at: usize },
    /// A conditional jump skips more than 255 statements.
    #[error("statement {at}: the target is too far")]
    TooFar { at: usize },
    /// Out of memory for the labels or the program.
    #[error("memory")]
    Memory,
}

impl From<TextFault> for AsmFault {
    ghost from_gives = { λ fault e. e ≡ Text fault };

    fn from(fault: TextFault) -> AsmFault {
        AsmFault::Text(fault)
    }
}

impl From<AllocError> for AsmFault {
    ghost from_gives = { λ _ e. e ≡ Memory };

    fn from(_e: AllocError) -> AsmFault {
        AsmFault::Memory
    }
}

impl<T: Drop> From<AllocFailed<T>> for AsmFault {
    ghost from_gives = { λ _ e. e ≡ Memory };

    fn from(_e: AllocFailed<T>) -> AsmFault {
        AsmFault::Memory
    }
}
