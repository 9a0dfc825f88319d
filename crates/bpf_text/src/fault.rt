//! Each fault carries a byte offset, so that a message can point into the text.

ghost use Rattle.std.specs.Prelude.{◌≡◌};
ghost use Rattle.bpf_text.specs.declared.fault.TextFault.TheVariants.{Memory};

use std::alloc::{AllocError, AllocFailed};
use thiserror::Error;

/// Why a text is no filter source. `at` is a byte offset in the text, from 0.
///
/// The fault at the least offset is reported.
#[derive(Clone, Copy, Debug, PartialEq, Eq, Error)]
pub enum TextFault {
    /// The byte begins no token, no blank and no closed comment.
    #[error("character at {at}")]
    Character { at: usize },
    /// The number here is malformed, as `08` or `5a`, or too large: over 2^32 - 1, or over 2^31
    /// after a `-`.
    #[error("number at {at}")]
    Number { at: usize },
    /// No statement goes on with the token here. At the text's length: the text ends inside a
    /// statement.
    #[error("form at {at}")]
    Form { at: usize },
    /// A mnemonic or one of `x`, `a`, `M` and `len` stands here in the place of a label.
    #[error("reserved label at {at}")]
    ReservedLabel { at: usize },
    /// Out of memory for the statements.
    #[error("memory")]
    Memory,
}

impl From<AllocError> for TextFault {
    ghost from_gives = { λ _ e. e ≡ Memory };

    fn from(_e: AllocError) -> TextFault {
        TextFault::Memory
    }
}

impl<T: Drop> From<AllocFailed<T>> for TextFault {
    ghost from_gives = { λ _ e. e ≡ Memory };

    fn from(_e: AllocFailed<T>) -> TextFault {
        TextFault::Memory
    }
}
