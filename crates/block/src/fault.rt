//! Why bytes are no block, and why a block has no text.

ghost use Rattle.std.specs.Prelude.{◌≡◌};
ghost use Rattle.block.specs.declared.fault.ReadFault.TheVariants as read;
ghost use Rattle.block.specs.declared.fault.WriteFault.TheVariants as write;
ghost use Rattle.block.specs.declared.fault.NoText.TheVariants as text;
ghost use Rattle.block.specs.Read.{bad_fault};
ghost use Rattle.witness_pool.specs.declared.pool_fault.PoolFault.TheVariants as pool;

use std::alloc::{AllocError, AllocFailed};
use thiserror::Error;
use witness_pool::PoolFault;

/// Why bytes are no block, whatever the memory, in the order in which the reasons are looked for.
#[derive(Clone, Copy, Debug, PartialEq, Eq, Error)]
pub enum BadBytes {
    /// There are more than 1,048,576 bytes.
    #[error("the block is larger than 1048576 bytes")]
    TooLarge,
    /// The bytes are the text of no block.
    #[error("the bytes are no block")]
    Malformed,
    /// The header names another body hash than the body's.
    #[error("the body has another hash than the header names")]
    BodyHashMismatch,
}

/// Why bytes are not read as a block, in the order in which the reasons are looked for.
#[derive(Clone, Copy, Debug, PartialEq, Eq, Error)]
pub enum ReadFault {
    /// There are more than 1,048,576 bytes.
    #[error("the block is larger than 1048576 bytes")]
    TooLarge,
    /// The bytes are the text of no block.
    #[error("the bytes are no block")]
    Malformed,
    /// The header names another body hash than the body's.
    #[error("the body has another hash than the header names")]
    BodyHashMismatch,
    /// Memory ran out: the bytes are not too many and begin with the head of an array of two, and where they are the
    /// text of a block without transactions they are read as it.
    #[error("out of memory")]
    OutOfMemory,
}

/// Bytes that were not read, for lack of memory or of workers. They come back.
#[derive(Debug, Drop, Error)]
#[error("{fault}")]
pub struct NotRead {
    /// Why they were not read.
    pub fault: PoolFault,
    /// The bytes.
    pub bytes: Vec<u8>,
}

/// Why a header has no text.
#[derive(Clone, Copy, Debug, PartialEq, Eq, Error)]
pub enum WriteFault {
    /// The number or the slot is 2^63 or more.
    #[error("the number or the slot is 2^63 or more")]
    OutOfRange,
    /// The header has a text, and there is no memory for it.
    #[error("out of memory")]
    OutOfMemory,
}

/// Why a block of transactions that are handed in has no text, in the order in which the reasons are looked for.
#[derive(Clone, Copy, Debug, PartialEq, Eq, Error)]
pub enum NoText {
    /// The number or the slot is 2^63 or more.
    #[error("the number or the slot is 2^63 or more")]
    OutOfRange,
    /// The transaction at this place, counted from 0, nests deeper than 62.
    #[error("transaction {0} nests deeper than 62")]
    TooDeep(usize),
    /// Memory ran out, and neither of the others applies.
    #[error("out of memory")]
    OutOfMemory,
}

impl From<AllocFailed<Vec<u8>>> for NotRead {
    ghost from_gives = { λ failed e. e ≡ record { fault = pool.OutOfMemory; bytes = failed.value } };

    fn from(failed: AllocFailed<Vec<u8>>) -> NotRead {
        NotRead {
            fault: PoolFault::OutOfMemory,
            bytes: failed.value,
        }
    }
}

impl From<AllocError> for ReadFault {
    ghost from_gives = { λ _ e. e ≡ read.OutOfMemory };

    fn from(_error: AllocError) -> ReadFault {
        ReadFault::OutOfMemory
    }
}

impl From<BadBytes> for ReadFault {
    ghost from_gives = { λ bad e. e ≡ bad_fault bad };

    fn from(bad: BadBytes) -> ReadFault {
        match bad {
            BadBytes::TooLarge => ReadFault::TooLarge,
            BadBytes::Malformed => ReadFault::Malformed,
            BadBytes::BodyHashMismatch => ReadFault::BodyHashMismatch,
        }
    }
}

impl From<AllocError> for WriteFault {
    ghost from_gives = { λ _ e. e ≡ write.OutOfMemory };

    fn from(_error: AllocError) -> WriteFault {
        WriteFault::OutOfMemory
    }
}

impl From<AllocError> for NoText {
    ghost from_gives = { λ _ e. e ≡ text.OutOfMemory };

    fn from(_error: AllocError) -> NoText {
        NoText::OutOfMemory
    }
}
