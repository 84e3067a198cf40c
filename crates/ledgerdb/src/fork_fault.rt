//! Why a fork isn't prepared.

ghost use Rattle.std.specs.Prelude.{◌≡◌};
ghost use Rattle.ledgerdb.specs.declared.fork_fault.ForkFault.TheVariants.{OutOfMemory};

use ledger::BlockFault;
use std::alloc::{AllocError, AllocFailed};
use thiserror::Error;

/// Why a fork isn't prepared: one of its blocks, or a lack of memory.
#[derive(Clone, Copy, Debug, PartialEq, Eq, Error)]
pub enum ForkFault {
    /// The first of the blocks that isn't applied, counted from 0, and its first fault.
    #[error("block {0}: {1}")]
    Refused(usize, BlockFault),
    /// Memory ran out before it was known whether the next block has a fault in its transactions, or while blocks were
    /// rolled back and none is to be put on.
    #[error("out of memory")]
    OutOfMemory,
}

impl<T: Drop> From<AllocFailed<T>> for ForkFault {
    ghost from_gives = { λ _ e. e ≡ OutOfMemory };

    fn from(_error: AllocFailed<T>) -> ForkFault {
        ForkFault::OutOfMemory
    }
}

impl From<AllocError> for ForkFault {
    ghost from_gives = { λ _ e. e ≡ OutOfMemory };

    fn from(_error: AllocError) -> ForkFault {
        ForkFault::OutOfMemory
    }
}
