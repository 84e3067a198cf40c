//! Why no script was made.

ghost use Rattle.std.specs.Prelude.{◌≡◌};
ghost use Rattle.timelock.specs.declared.fault.ScriptFault.TheVariants.{OutOfMemory};

use std::alloc::AllocError;
use thiserror::Error;

/// Why a timelock makes no script.
#[derive(Clone, Copy, Debug, PartialEq, Eq, Error)]
pub enum ScriptFault {
    /// More than 32 timelocks stand in one another, so that the text would nest deeper than 64.
    #[error("too many scripts in one another")]
    TooDeep,
    /// Memory ran out.
    #[error("out of memory")]
    OutOfMemory,
}

impl From<AllocError> for ScriptFault {
    ghost from_gives = { λ _ e. e ≡ OutOfMemory };

    fn from(_error: AllocError) -> ScriptFault {
        ScriptFault::OutOfMemory
    }
}
