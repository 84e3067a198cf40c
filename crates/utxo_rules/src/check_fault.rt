//! Why a check ends without a transaction's being good.

ghost use Rattle.std.specs.Prelude.{◌≡◌};
ghost use Rattle.utxo_rules.specs.declared.check_fault.CheckFault.TheVariants.{Refused, OutOfMemory};

use crate::reason::Reason;
use std::alloc::AllocError;
use thiserror::Error;

/// Why a check ends without a transaction's being good: a reason against it, or a lack of memory.
#[derive(Clone, Copy, Debug, PartialEq, Eq, Error)]
pub enum CheckFault {
    /// The first reason that there is against the transaction.
    #[error("{0}")]
    Refused(Reason),
    /// Memory ran out before it was known whether there is a reason.
    #[error("out of memory")]
    OutOfMemory,
}

impl From<Reason> for CheckFault {
    ghost from_gives = { λ reason e. e ≡ Refused reason };

    fn from(reason: Reason) -> CheckFault {
        CheckFault::Refused(reason)
    }
}

impl From<AllocError> for CheckFault {
    ghost from_gives = { λ _ e. e ≡ OutOfMemory };

    fn from(_error: AllocError) -> CheckFault {
        CheckFault::OutOfMemory
    }
}
