//! Why there are no verdicts.

ghost use Rattle.std.specs.Prelude.{◌≡◌};
ghost use Rattle.witness_pool.specs.declared.pool_fault.PoolFault.TheVariants.{OutOfMemory};

use std::alloc::AllocError;
use thiserror::Error;

/// Why a pool has no verdicts.
#[derive(Clone, Copy, Debug, PartialEq, Eq, Error)]
pub enum PoolFault {
    /// There are no workers, or more than 16.
    #[error("a pool has 1 to 16 workers")]
    BadWorkers,
    /// Memory ran out.
    #[error("out of memory")]
    OutOfMemory,
}

impl From<AllocError> for PoolFault {
    ghost from_gives = { λ _ e. e ≡ OutOfMemory };

    fn from(_error: AllocError) -> PoolFault {
        PoolFault::OutOfMemory
    }
}
