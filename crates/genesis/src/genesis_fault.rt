//! Why a text is no genesis.

ghost use Rattle.std.specs.Prelude.{◌≡◌};
ghost use Rattle.genesis.specs.declared.genesis_fault.GenesisFault.TheVariants.{OutOfMemory};
ghost use Rattle.genesis.specs.Meaning.{fault_number};

use std::alloc::{AllocError, AllocFailed};
use thiserror::Error;

/// What is wrong with the text of a genesis: the first of these that is; or that memory ran out before that was known.
#[derive(Clone, Copy, Debug, PartialEq, Eq, Error)]
pub enum GenesisFault {
    /// The text is no TOML document. A whole number outside 64 bits is none either.
    #[error("NotToml")]
    NotToml,
    /// A key is missing, unknown or of another type, one key of a second era is there without the other, an output has
    /// both an address and a key, or neither, or a scheme is named that there isn't.
    #[error("BadShape")]
    BadShape,
    /// One of the numbers is out of its range.
    #[error("OutOfRange")]
    OutOfRange,
    /// An address or a key has another length or other digits, or an address is of another kind or network.
    #[error("BadAddress")]
    BadAddress,
    /// A coin is below 1, or the coins sum up to 2^63 or more.
    #[error("BadCoin")]
    BadCoin,
    /// There is no output, or there are more than 10,000.
    #[error("BadOutputs")]
    BadOutputs,
    /// Memory ran out.
    #[error("OutOfMemory")]
    OutOfMemory,
}

impl GenesisFault {
    /// The number of the fault, 1 to 6. None where memory ran out, which is no fault of the text.
    pub fn number(self) -> Option<u8>
        ensures { result ≡ fault_number self }
    {
        match self {
            GenesisFault::NotToml => Some(1),
            GenesisFault::BadShape => Some(2),
            GenesisFault::OutOfRange => Some(3),
            GenesisFault::BadAddress => Some(4),
            GenesisFault::BadCoin => Some(5),
            GenesisFault::BadOutputs => Some(6),
            GenesisFault::OutOfMemory => None,
        }
    }
}

impl From<AllocError> for GenesisFault {
    ghost from_gives = { λ _ e. e ≡ OutOfMemory };

    fn from(_error: AllocError) -> GenesisFault {
        GenesisFault::OutOfMemory
    }
}

impl<T: Drop> From<AllocFailed<T>> for GenesisFault {
    ghost from_gives = { λ _ e. e ≡ OutOfMemory };

    fn from(_error: AllocFailed<T>) -> GenesisFault {
        GenesisFault::OutOfMemory
    }
}
