//! Why no item was read.

ghost use Rattle.std.specs.Prelude.{◌≡◌};
ghost use Rattle.cbor.specs.declared.fault.CborFault.TheVariants.{OutOfMemory};

use std::alloc::{AllocError, AllocFailed};
use thiserror::Error;

/// What is wrong with the bytes, or that memory ran out before it was known.
#[derive(Clone, Copy, Debug, PartialEq, Eq, Error)]
pub enum CborFault {
    /// The bytes are not the deterministic text of what was to be read: of an item that nests at most 64 deep,
    /// or of a shape that is made of items.
    #[error("malformed CBOR")]
    Malformed,
    /// Memory ran out.
    #[error("out of memory")]
    OutOfMemory,
}

impl From<AllocError> for CborFault {
    ghost from_gives = { λ _ e. e ≡ OutOfMemory };

    fn from(_error: AllocError) -> CborFault {
        CborFault::OutOfMemory
    }
}

impl<T: Drop> From<AllocFailed<T>> for CborFault {
    ghost from_gives = { λ _ e. e ≡ OutOfMemory };

    fn from(_error: AllocFailed<T>) -> CborFault {
        CborFault::OutOfMemory
    }
}
