//! Why a shared core isn't opened.

ghost use Rattle.std.specs.Prelude.{◌≡◌};
ghost use Rattle.shared.specs.declared.open_fault.OpenFault.TheVariants as fault;

use std::alloc::AllocError;
use thiserror::Error;

/// Why a shared core isn't opened, in the order in which the reasons are looked for.
#[derive(Clone, Copy, Debug, PartialEq, Eq, Error)]
pub enum OpenFault {
    /// There are no callers, or more than 64.
    #[error("the callers are not 1 to 64")]
    BadCallers,
    /// Memory ran out, and there are 1 to 64 callers.
    #[error("out of memory")]
    OutOfMemory,
}

impl From<AllocError> for OpenFault {
    ghost from_gives = { λ _ e. e ≡ fault.OutOfMemory };

    fn from(_error: AllocError) -> OpenFault {
        OpenFault::OutOfMemory
    }
}
