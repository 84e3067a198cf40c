//! Why a log isn't listed to its end.

use thiserror::Error;

/// Why a log isn't listed to its end. The records before are.
#[derive(Clone, Copy, Debug, PartialEq, Eq, Error)]
pub enum ListFault {
    /// No log left the bytes.
    #[error("no log")]
    NoLog,
    /// At this place, in bytes from 0, stands an open gate with no record behind it, or a closed one and what no log
    /// leaves behind one.
    #[error("damaged at {0}")]
    Damaged(usize),
    /// The reader failed.
    #[error("read failed")]
    ReadFailed,
    /// The writer failed.
    #[error("write failed")]
    WriteFailed,
    /// Memory ran out.
    #[error("out of memory")]
    OutOfMemory,
}
