//! Why parts are not the text of a state, and why a state has none.

ghost use Rattle.std.specs.Prelude.{◌≡◌};
ghost use Rattle.cbor.specs.declared.fault.CborFault.TheVariants as cbor;
ghost use Rattle.snapshot.specs.declared.fault.SnapshotFault.TheVariants as faults;
ghost use Rattle.snapshot.specs.declared.fault.WriteFault.TheVariants as write;

use cbor::CborFault;
use std::alloc::{AllocError, AllocFailed};
use thiserror::Error;

/// Why a part is refused, or what was read is no state. What is told is so; where several things are wrong one of them
/// is told.
#[derive(Clone, Copy, Debug, PartialEq, Eq, Error)]
pub enum SnapshotFault {
    /// The bytes are no part: the first part isn't one of a state that a chain can have, or a later one has no output,
    /// more than 1,048,576 bytes, or something in it that is no output's text.
    #[error("the bytes are no part of a state's text")]
    NotAPart,
    /// The first part has the digest of another network.
    #[error("the state is one of another network")]
    OtherNetwork,
    /// The part before had room for the first output of this one.
    #[error("the part before had room for the first output")]
    RoomLeft,
    /// An output doesn't come after the one before it.
    #[error("an output does not come after the one before it")]
    WrongOrder,
    /// There are more outputs than the first part announced.
    #[error("there are more outputs than announced")]
    TooMany,
    /// The outputs and the fees hold more lovelace than there is.
    #[error("the outputs and the fees hold more lovelace than there is")]
    CoinsOverSupply,
    /// The first part is missing, or outputs that it announced.
    #[error("the text is not finished")]
    Unfinished,
    /// The outputs and the fees hold less lovelace than there is.
    #[error("the outputs and the fees hold less lovelace than there is")]
    CoinsMissing,
    /// Memory ran out.
    #[error("out of memory")]
    OutOfMemory,
}

/// Why the next part of a state's text isn't written.
#[derive(Clone, Copy, Debug, PartialEq, Eq, Error)]
pub enum WriteFault {
    /// The next output is too long for a part: the state has no text.
    #[error("an output is too long for a part")]
    TooLong,
    /// Memory ran out.
    #[error("out of memory")]
    OutOfMemory,
}

impl From<AllocError> for SnapshotFault {
    ghost from_gives = { λ _ e. e ≡ faults.OutOfMemory };

    fn from(_error: AllocError) -> SnapshotFault {
        SnapshotFault::OutOfMemory
    }
}

impl From<AllocError> for WriteFault {
    ghost from_gives = { λ _ e. e ≡ write.OutOfMemory };

    fn from(_error: AllocError) -> WriteFault {
        WriteFault::OutOfMemory
    }
}

impl From<CborFault> for SnapshotFault {
    ghost use Rattle.snapshot.specs.FaultView.{fault_of};

    ghost from_gives = { λ fault e. e ≡ fault_of fault };

    fn from(fault: CborFault) -> SnapshotFault {
        match fault {
            CborFault::Malformed => SnapshotFault::NotAPart,
            CborFault::OutOfMemory => SnapshotFault::OutOfMemory,
        }
    }
}
