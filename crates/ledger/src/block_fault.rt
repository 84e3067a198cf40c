//! Why a block isn't applied.

ghost use Rattle.std.specs.Prelude.{◌≡◌};
ghost use Rattle.ledger.specs.declared.block_fault.ApplyFault.TheVariants.{Refused, OutOfMemory};

use std::alloc::{AllocError, AllocFailed};
use thiserror::Error;
use utxo_rules::Reason;

/// What is wrong with a block on the state that it is applied to. The first that applies, in this order, is told.
#[derive(Clone, Copy, Debug, PartialEq, Eq, Error)]
pub enum BlockFault {
    /// Its number isn't one more than that of the tip.
    #[error("the number is not the next one")]
    WrongNumber,
    /// It doesn't name the tip as the block before it; the first block of a chain names none.
    #[error("another block stands before it")]
    WrongPrev,
    /// Its slot isn't after that of the tip.
    #[error("the slot is not after the tip's")]
    SlotNotRising,
    /// Its body has more bytes than the network allows.
    #[error("the body is too big")]
    BodyTooBig,
    /// The first of its transactions, counted from 0, against which there is a reason at the block's slot, on what
    /// those before it leave, with that reason.
    #[error("transaction {0}: {1}")]
    TxFault(usize, Reason),
}

/// Why a block isn't applied: what is wrong with it, or a lack of memory.
#[derive(Clone, Copy, Debug, PartialEq, Eq, Error)]
pub enum ApplyFault {
    /// The first fault of the block.
    #[error("{0}")]
    Refused(BlockFault),
    /// Memory ran out before it was known whether there is a fault in its transactions.
    #[error("out of memory")]
    OutOfMemory,
}

impl From<BlockFault> for ApplyFault {
    ghost from_gives = { λ fault e. e ≡ Refused fault };

    fn from(fault: BlockFault) -> ApplyFault {
        ApplyFault::Refused(fault)
    }
}

impl From<AllocError> for ApplyFault {
    ghost from_gives = { λ _ e. e ≡ OutOfMemory };

    fn from(_error: AllocError) -> ApplyFault {
        ApplyFault::OutOfMemory
    }
}

impl<T: Drop> From<AllocFailed<T>> for ApplyFault {
    ghost from_gives = { λ _ e. e ≡ OutOfMemory };

    fn from(_error: AllocFailed<T>) -> ApplyFault {
        ApplyFault::OutOfMemory
    }
}
