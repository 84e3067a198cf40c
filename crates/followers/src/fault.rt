//! Why a call on a follower is refused.

use std::alloc::{AllocError, AllocFailed};
use thiserror::Error;

/// Why no follower is opened.
#[derive(Clone, Copy, Debug, Drop, PartialEq, Eq, Error)]
pub enum OpenFollowerFault {
    /// There are 1,024 open followers.
    #[error("too many followers")]
    TooManyFollowers,
    /// Memory ran out.
    #[error("out of memory")]
    OutOfMemory,
}

impl From<AllocError> for OpenFollowerFault {
    ghost use Rattle.std.specs.Prelude.{◌≡◌};
    ghost use Rattle.followers.specs.declared.fault.OpenFollowerFault.TheVariants.{OutOfMemory};

    ghost from_gives = { λ _ e. e ≡ OutOfMemory };

    fn from(_error: AllocError) -> OpenFollowerFault {
        OpenFollowerFault::OutOfMemory
    }
}

impl<T: Drop> From<AllocFailed<T>> for OpenFollowerFault {
    ghost use Rattle.std.specs.Prelude.{◌≡◌};
    ghost use Rattle.followers.specs.declared.fault.OpenFollowerFault.TheVariants.{OutOfMemory};

    ghost from_gives = { λ _ e. e ≡ OutOfMemory };

    fn from(_error: AllocFailed<T>) -> OpenFollowerFault {
        OpenFollowerFault::OutOfMemory
    }
}

/// No follower of that number is open.
#[derive(Clone, Copy, Debug, Drop, PartialEq, Eq, Error)]
#[error("unknown follower")]
pub struct UnknownFollower {}
