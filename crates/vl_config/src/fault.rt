//! The faults, apart from the code that finds them: a fault line prints each.

ghost use Rattle.std.specs.Prelude.{◌≡◌};
ghost use Rattle.vl_config.specs.declared.fault.ConfigFault.TheVariants.{Memory};

use std::alloc::{AllocError, AllocFailed};
use thiserror::Error;

/// Why a table is refused. `link` is the index of the link in the document, from 0; None is the top
/// table. The order of the faults is this project's profile ([`crate::Config::read`]).
#[derive(Clone, Copy, Debug, PartialEq, Eq, Error)]
pub enum ConfigFault {
    /// The text is not a TOML document.
    #[error("not a TOML document")]
    Text,
    /// A required key is missing.
    #[error("a required key is missing")]
    Missing { link: Option<u32> },
    /// A value has another type than its key's.
    #[error("a value of the wrong type")]
    Kind { link: Option<u32> },
    /// A value is out of its key's range.
    #[error("a value out of range")]
    Range { link: Option<u32> },
    /// A key that the table does not have.
    #[error("an unknown key")]
    UnknownKey { link: Option<u32> },
    /// An earlier link has the identifier.
    #[error("an earlier link has the identifier")]
    TwiceId { link: Option<u32> },
    /// An earlier link has the name.
    #[error("an earlier link has the name")]
    TwiceName { link: Option<u32> },
    /// More links than [`crate::MAX_LINKS`], or more filters than [`crate::MAX_TABLE_FILTERS`].
    #[error("too many links or filters")]
    TooMany,
    /// Out of memory.
    #[error("out of memory")]
    Memory,
}

impl From<AllocError> for ConfigFault {
    ghost from_gives = { λ _ e. e ≡ Memory };

    fn from(_e: AllocError) -> ConfigFault {
        ConfigFault::Memory
    }
}

impl<T: Drop> From<AllocFailed<T>> for ConfigFault {
    ghost from_gives = { λ _ e. e ≡ Memory };

    fn from(_e: AllocFailed<T>) -> ConfigFault {
        ConfigFault::Memory
    }
}
