//! What has a text: how it is read, written, copied and told.

use block::ReadFault;
use cbor::CborFault;
use std::alloc::{AllocError, Global};
use thiserror::Error;

/// Why bytes are the text of nothing.
#[derive(Clone, Copy, Debug, Error)]
pub enum Unread {
    #[error("Malformed")]
    Malformed,
    #[error("TooLarge")]
    TooLarge,
    #[error("BodyHashMismatch")]
    BodyHashMismatch,
    /// A text stands in front, of what may be followed by others.
    #[error("read in front of other bytes")]
    Followed,
    #[error("out of memory")]
    OutOfMemory,
}

impl From<CborFault> for Unread {
    fn from(fault: CborFault) -> Unread {
        match fault {
            CborFault::Malformed => Unread::Malformed,
            CborFault::OutOfMemory => Unread::OutOfMemory,
        }
    }
}

impl From<ReadFault> for Unread {
    fn from(fault: ReadFault) -> Unread {
        match fault {
            ReadFault::Malformed => Unread::Malformed,
            ReadFault::TooLarge => Unread::TooLarge,
            ReadFault::BodyHashMismatch => Unread::BodyHashMismatch,
            ReadFault::OutOfMemory => Unread::OutOfMemory,
        }
    }
}

/// What has a text.
pub trait Spelled: Drop + Sized {
    /// What the bytes are the text of.
    fn read_whole(alloc: Global, bytes: &[u8]) -> Result<Self, Unread>;

    /// How many bytes are left behind the text that stands in front, where a text may be followed by others.
    fn left_behind(alloc: Global, bytes: &[u8]) -> Option<usize>;

    /// Puts its text behind others.
    fn put_text(&self, out: &mut Vec<u8>) -> Result<(), AllocError>;

    /// Puts the text of its copy behind others.
    fn put_text_of_copy(&self, out: &mut Vec<u8>) -> Result<(), AllocError>;

    /// Puts what is known of it under this name behind a text.
    fn tell(&self, name: &str, out: &mut String) -> Result<(), AllocError>;
}

/// Puts a number behind a text.
pub fn put_number(out: &mut String, number: u64) -> Result<(), AllocError> {
    write!(out, "{number}")
}

/// Puts a slot behind a text, if there is one.
pub fn put_slot(out: &mut String, slot: Option<u64>) -> Result<(), AllocError> {
    match slot {
        Some(slot) => write!(out, "{slot}"),
        None => out.push_str("none"),
    }
}

/// Puts the answer to a name that says nothing.
pub fn put_unknown(out: &mut String) -> Result<(), AllocError> {
    out.push_str("is not known")
}
