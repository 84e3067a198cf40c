//! Why nothing was told.

ghost use Rattle.std.specs.Prelude.{◌≡◌};
ghost use Rattle.block.specs.Read.{IsBadBytes};
ghost use Rattle.telling.specs.declared.kind.Kind.TheVariants.{Block};
ghost use Rattle.telling.specs.Faults.{IsUntold};

use crate::misreading::{Misreading, misreading_of};
use block::BadBytes;
use thiserror::Error;

/// Why nothing was told of bytes.
#[derive(Clone, Copy, Debug, PartialEq, Eq, Error)]
pub enum TellFault {
    /// They are the text of no transaction.
    #[error("no transaction: {0}")]
    NoTransaction(Misreading),
    /// They are the text of no block.
    #[error("no block: {0}")]
    MisreadBlock(Misreading),
    /// They are no block, for another reason than `Malformed`, of which `MisreadBlock` tells.
    #[error("no block: {0}")]
    NoBlock(BadBytes),
    /// They are the text of no native script.
    #[error("no script: {0}")]
    NoScript(Misreading),
    /// They are the text of no value.
    #[error("no value: {0}")]
    NoValue(Misreading),
    /// What they are has no identifier.
    #[error("no text that has an identifier")]
    NoIdentifier,
    /// The writer failed.
    #[error("write failed")]
    WriteFailed,
    /// Memory ran out.
    #[error("out of memory")]
    OutOfMemory,
}

/// Why nothing was told of these bytes, which are no block for this reason.
pub fn block_fault(bad: BadBytes, bytes: &[u8]) -> TellFault
    requires { IsBadBytes bytes.now bad }
    ensures { IsUntold Block bytes.now result }
{
    match bad {
        BadBytes::Malformed => TellFault::MisreadBlock(misreading_of(bytes)),
        BadBytes::TooLarge | BadBytes::BodyHashMismatch => TellFault::NoBlock(bad),
    }
}
