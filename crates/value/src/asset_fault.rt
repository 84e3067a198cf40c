//! Why no value and no mint is made of parts.

ghost use Rattle.std.specs.Prelude.{◌≡◌};
ghost use Rattle.value.specs.declared.asset_fault.AssetFault.TheVariants.{OutOfMemory};

use std::alloc::{AllocError, AllocFailed};
use thiserror::Error;

/// What is wrong with the assets, the first of these that is; or that memory ran out where nothing is.
#[derive(Clone, Copy, Debug, PartialEq, Eq, Error)]
pub enum AssetFault {
    /// An asset name has more than 32 bytes.
    #[error("an asset name of more than 32 bytes")]
    NameTooLong,
    /// A quantity is 0.
    #[error("a quantity of 0")]
    ZeroQuantity,
    /// Two of them are of one policy and name.
    #[error("an asset that stands there twice")]
    Repeated,
    /// Memory ran out.
    #[error("out of memory")]
    OutOfMemory,
}

impl From<AllocError> for AssetFault {
    ghost from_gives = { λ _ e. e ≡ OutOfMemory };

    fn from(_error: AllocError) -> AssetFault {
        AssetFault::OutOfMemory
    }
}
