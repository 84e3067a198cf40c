//! Why a call on the log is refused.

use thiserror::Error;

/// Why no log is made on a disk.
#[derive(Clone, Copy, Debug, PartialEq, Eq, Error)]
pub enum CreateFault {
    /// The disk failed in this call.
    #[error("disk fault")]
    DiskFault,
}

/// Why a disk isn't opened as a log.
#[derive(Clone, Copy, Debug, PartialEq, Eq, Error)]
pub enum OpenLogFault {
    /// The first open gate with no record behind it stands at this place, counted in bytes from 0: the record runs past
    /// the end, or its length isn't that of a block, or its digest is another.
    #[error("damaged at {0}")]
    Damaged(usize),
    /// The disk failed in this call.
    #[error("disk fault")]
    DiskFault,
    /// Memory ran out for what is read of the disk at once and found in it, or for what is kept of each block.
    #[error("out of memory")]
    OutOfMemory,
}

/// Why blocks aren't put onto a log.
#[derive(Clone, Copy, Debug, PartialEq, Eq, Error)]
pub enum AppendFault {
    /// The disk failed in an earlier call, and the log wasn't opened again since.
    #[error("the log is broken")]
    Broken,
    /// Memory ran out for what is kept of each block, or for the longest record. The disk wasn't touched.
    #[error("out of memory")]
    OutOfMemory,
    /// The disk failed in this call. The log is broken now.
    #[error("disk fault")]
    DiskFault,
}

/// Why a block isn't read again.
#[derive(Clone, Copy, Debug, PartialEq, Eq, Error)]
pub enum ReadFault {
    /// The disk failed in an earlier call, and the log wasn't opened again since.
    #[error("the log is broken")]
    Broken,
    /// Where the block of this number, counted from 1, should be, the disk gives fewer bytes, or others.
    #[error("block {0} is damaged")]
    Damaged(u64),
    /// The disk failed in this call. The log is broken now.
    #[error("disk fault")]
    DiskFault,
    /// Memory ran out for the block.
    #[error("out of memory")]
    OutOfMemory,
}
