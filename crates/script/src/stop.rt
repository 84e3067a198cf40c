//! Why a line is not run.

ghost use Rattle.std.specs.Prelude.{◌≡◌};
ghost use Rattle.script.specs.declared.stop.Stop.TheVariants.{OutOfMemory};
ghost use Rattle.script.specs.Adding.{stop_of};

use crate::fault::LineFault;
use draft::DraftFault;
use std::alloc::{AllocError, AllocFailed};

/// Why a line is not run.
#[derive(Clone, Copy, Debug, PartialEq, Eq)]
pub enum Stop {
    /// The line has a fault.
    Fault(LineFault),
    /// There is no memory for what it says.
    OutOfMemory,
}

impl From<AllocError> for Stop {
    ghost from_gives = { λ _ e. e ≡ OutOfMemory };

    fn from(_error: AllocError) -> Stop {
        Stop::OutOfMemory
    }
}

impl<T: Drop> From<AllocFailed<T>> for Stop {
    ghost from_gives = { λ _ e. e ≡ OutOfMemory };

    fn from(_error: AllocFailed<T>) -> Stop {
        Stop::OutOfMemory
    }
}

impl From<DraftFault> for Stop {
    ghost from_gives = { λ fault e. e ≡ stop_of fault };

    fn from(fault: DraftFault) -> Stop {
        match fault {
            DraftFault::NotBuilt => Stop::Fault(LineFault::NotBuilt),
            DraftFault::OutOfMemory => Stop::OutOfMemory,
        }
    }
}
