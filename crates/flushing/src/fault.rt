//! Why no shared core is opened on a log.

ghost use Rattle.std.specs.Prelude.{◌≡◌};
ghost use Rattle.flushing.specs.Beginning.{reopening_fault, opening_fault};

use chain_core::ReopenFault;
use shared::OpenFault;
use thiserror::Error;

/// Why no shared core is opened on the blocks of a log. The callers are looked at first.
#[derive(Clone, Copy, Debug, PartialEq, Eq, Error)]
pub enum SharedOnFault {
    /// There are no callers, or more than 64.
    #[error("the callers are not 1 to 64")]
    BadCallers,
    /// The block of this number, counted from 1, is the first whose bytes are the text of no block, or that can't come
    /// after those before it.
    #[error("invalid block {0}")]
    InvalidBlock(u64),
    /// Memory ran out.
    #[error("out of memory")]
    OutOfMemory,
}

impl From<ReopenFault> for SharedOnFault {
    ghost from_gives = { λ fault e. e ≡ reopening_fault fault };

    fn from(fault: ReopenFault) -> SharedOnFault {
        match fault {
            ReopenFault::InvalidBlock(number) => SharedOnFault::InvalidBlock(number),
            ReopenFault::OutOfMemory => SharedOnFault::OutOfMemory,
        }
    }
}

impl From<OpenFault> for SharedOnFault {
    ghost from_gives = { λ fault e. e ≡ opening_fault fault };

    fn from(fault: OpenFault) -> SharedOnFault {
        match fault {
            OpenFault::BadCallers => SharedOnFault::BadCallers,
            OpenFault::OutOfMemory => SharedOnFault::OutOfMemory,
        }
    }
}
