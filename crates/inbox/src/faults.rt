//! Why an inbox isn't opened, and why nothing more enters.

ghost use Rattle.std.specs.Prelude.{◌≡◌};
ghost use Rattle.inbox.specs.declared.faults.InboxFault.TheVariants as fault;

use std::alloc::AllocError;
use thiserror::Error;

/// Why an inbox isn't opened, in the order in which the reasons are looked for.
#[derive(Clone, Copy, Debug, PartialEq, Eq, Error)]
pub enum InboxFault {
    /// There are no places, or more than 4,096.
    #[error("the places are not 1 to 4096")]
    BadCapacity,
    /// Memory ran out, and there are 1 to 4,096 places.
    #[error("out of memory")]
    OutOfMemory,
}

impl From<AllocError> for InboxFault {
    ghost from_gives = { λ _ e. e ≡ fault.OutOfMemory };

    fn from(_error: AllocError) -> InboxFault {
        InboxFault::OutOfMemory
    }
}

/// Each place of the inbox was taken. Gives back the bytes that did not enter.
#[derive(Debug, Drop, Error)]
#[error("the inbox is full")]
pub struct Full {
    /// The bytes that were to be sent.
    pub bytes: Vec<u8>,
}
