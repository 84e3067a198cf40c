//! Why a part is not added.

ghost use Rattle.std.specs.Prelude.{◌≡◌};
ghost use Rattle.draft.specs.declared.draft_fault.DraftFault.TheVariants.{OutOfMemory};

use std::alloc::{AllocError, AllocFailed};
use thiserror::Error;

/// Why a part is not added to a draft.
#[derive(Clone, Copy, Debug, PartialEq, Eq, Error)]
pub enum DraftFault {
    /// No transaction has the part beside those that are there.
    #[error("no transaction has this part beside the others")]
    NotBuilt,
    /// Memory ran out.
    #[error("out of memory")]
    OutOfMemory,
}

impl From<AllocError> for DraftFault {
    ghost from_gives = { λ _ e. e ≡ OutOfMemory };

    fn from(_error: AllocError) -> DraftFault {
        DraftFault::OutOfMemory
    }
}
