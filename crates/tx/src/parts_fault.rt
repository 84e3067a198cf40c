//! Why no transaction is made of parts.

ghost use Rattle.std.specs.Prelude.{◌≡◌};
ghost use Rattle.tx.specs.declared.parts_fault.PartsFault.TheVariants.{OutOfMemory};

use crate::input::Input;
use ident::ScriptHash;
use std::alloc::{AllocError, AllocFailed};
use thiserror::Error;

/// What is wrong with the parts of a transaction, the first of these that is; or that memory ran out where nothing is.
#[derive(Clone, Copy, Debug, PartialEq, Eq, Error)]
pub enum PartsFault {
    /// The least of the inputs that stand there more than once.
    #[error("an input that stands there twice")]
    RepeatedInput(Input),
    /// This many outputs, which are more than 65,536: the index of an input has 16 bits.
    #[error("{0} outputs, where there may be 65536")]
    TooManyOutputs(u64),
    /// The least of the keys of which there is more than one signature.
    #[error("two signatures by one key")]
    RepeatedKey([u8; 32]),
    /// The least of the hashes of scripts that stand there more than once.
    #[error("the script {0} stands there twice")]
    RepeatedScript(ScriptHash),
    /// A script nests deeper than 61, so that the transaction's text would nest deeper than 64.
    #[error("a script that nests too deep")]
    TooDeep,
    /// Memory ran out.
    #[error("out of memory")]
    OutOfMemory,
}

impl From<AllocError> for PartsFault {
    ghost from_gives = { λ _ e. e ≡ OutOfMemory };

    fn from(_error: AllocError) -> PartsFault {
        PartsFault::OutOfMemory
    }
}
