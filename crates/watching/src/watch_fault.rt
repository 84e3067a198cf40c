//! Why an index doesn't take an instruction.

use std::alloc::{AllocError, AllocFailed};
use thiserror::Error;

/// Why an index doesn't take an instruction. It stays as it was.
#[derive(Clone, Copy, Debug, Drop, PartialEq, Eq, Error)]
pub enum WatchFault {
    /// The block can't come next: it hasn't the next number, names another block as the one before it, or has no later
    /// slot.
    #[error("the block doesn't come next")]
    NotNext,
    /// The index keeps no version that ends at the point: its chain doesn't pass there, or not yet; or the point lies
    /// before where the index began, or more than k blocks before the furthest block that was put on.
    #[error("the index keeps no version that ends at the point")]
    UnknownPoint,
    /// Memory ran out.
    #[error("out of memory")]
    OutOfMemory,
}

impl From<AllocError> for WatchFault {
    ghost use Rattle.std.specs.Prelude.{◌≡◌};
    ghost use Rattle.watching.specs.declared.watch_fault.WatchFault.TheVariants.{OutOfMemory};

    ghost from_gives = { λ _ e. e ≡ OutOfMemory };

    fn from(_error: AllocError) -> WatchFault {
        WatchFault::OutOfMemory
    }
}

impl<T: Drop> From<AllocFailed<T>> for WatchFault {
    ghost use Rattle.std.specs.Prelude.{◌≡◌};
    ghost use Rattle.watching.specs.declared.watch_fault.WatchFault.TheVariants.{OutOfMemory};

    ghost from_gives = { λ _ e. e ≡ OutOfMemory };

    fn from(_error: AllocFailed<T>) -> WatchFault {
        WatchFault::OutOfMemory
    }
}
