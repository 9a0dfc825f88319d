//! Why a round has no batches.
ghost use Rattle.std.specs.Prelude.{◌≡◌};

use std::alloc::AllocError;
use thiserror::Error;

/// Why a round has no batches.
#[derive(Clone, Copy, Debug, Error, PartialEq, Eq)]
pub enum PoolFault {
    /// Out of memory.
    #[error("out of memory")]
    Memory = 1,
    /// A worker didn't hand back its share, or still holds the round.
    #[error("a worker was lost")]
    Lost = 2,
    /// A round has more than 2^32 chunks.
    #[error("a round is too long")]
    Long = 3,
}

impl From<AllocError> for PoolFault {
    ghost use Rattle.worker_pool.specs.declared.fault.PoolFault.TheVariants.{Memory};

    ghost from_gives = { λ _ e. e ≡ Memory };

    fn from(_fault: AllocError) -> PoolFault {
        PoolFault::Memory
    }
}
