//! Each fault carries a byte offset, so that a message can point into the text.

ghost use Rattle.std.specs.Prelude.{◌≡◌};
ghost use Rattle.bpf_isa.specs.declared.numeric.fault.NumericFault.TheVariants.{Memory};

use std::alloc::{AllocError, AllocFailed};
use thiserror::Error;

/// Why a text is no program in the numeric form. `at` is a byte offset in the text, from 0.
///
/// `Character` comes before all others. Then the items are checked from left to right, and in an
/// item its form before its numbers. `Count` comes last.
#[derive(Clone, Copy, Debug, PartialEq, Eq, Error)]
pub enum NumericFault {
    /// The byte is no digit, blank, comma or newline.
    #[error("character at {at}")]
    Character { at: usize },
    /// The number is too large: a code over 65535, a jump over 255, or another over 2^32 - 1.
    #[error("number at {at}")]
    Number { at: usize },
    /// The item that begins here has too few or too many numbers. At the text's length: the text
    /// has no item.
    #[error("form at {at}")]
    Form { at: usize },
    /// The text has fewer or more instructions than its count says. `at` is the text's length.
    #[error("count at {at}")]
    Count { at: usize },
    /// The count is over 4096.
    #[error("too many at {at}")]
    TooMany { at: usize },
    /// Out of memory for the instructions.
    #[error("memory")]
    Memory,
}

impl From<AllocError> for NumericFault {
    ghost from_gives = { λ _ e. e ≡ Memory };

    fn from(_e: AllocError) -> NumericFault {
        NumericFault::Memory
    }
}

impl<T: Drop> From<AllocFailed<T>> for NumericFault {
    ghost from_gives = { λ _ e. e ≡ Memory };

    fn from(_e: AllocFailed<T>) -> NumericFault {
        NumericFault::Memory
    }
}
