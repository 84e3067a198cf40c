//! Why a JSON value calls nothing.

use std::alloc::{AllocError, AllocFailed};

/// Why a JSON value calls nothing, or that memory ran out before that was known.
#[derive(Clone, Copy, Debug, Drop, PartialEq, Eq)]
pub enum CallFault {
    /// It is no request.
    InvalidRequest,
    /// There is no method of the name.
    MethodNotFound,
    /// The method takes other parameters.
    InvalidParams,
    /// Memory ran out.
    OutOfMemory,
}

impl From<AllocError> for CallFault {
    ghost use Rattle.std.specs.Prelude.{◌≡◌};
    ghost use Rattle.conversing.specs.declared.call_fault.CallFault.TheVariants.{OutOfMemory};

    ghost from_gives = { λ _ e. e ≡ OutOfMemory };

    fn from(_error: AllocError) -> CallFault {
        CallFault::OutOfMemory
    }
}

impl<T: Drop> From<AllocFailed<T>> for CallFault {
    ghost use Rattle.std.specs.Prelude.{◌≡◌};
    ghost use Rattle.conversing.specs.declared.call_fault.CallFault.TheVariants.{OutOfMemory};

    ghost from_gives = { λ _ e. e ≡ OutOfMemory };

    fn from(_error: AllocFailed<T>) -> CallFault {
        CallFault::OutOfMemory
    }
}
