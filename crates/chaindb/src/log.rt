//! The blocks that are never rolled back, on a disk that may stop at any moment.
//!
//! [`flush`] puts those of a core onto a [`Log`], and [`flush_shared`] does so beside the threads that share it. While
//! a log is opened, [`Restart`] makes a core of its blocks. [`FileDisk`] is a disk that is a file.

pub use file_disk::FileDisk;
pub use flushing::{Restart, SharedOnFault, flush, flush_shared};
pub use immlog::{
    AppendFault, CreateFault, Disk, DiskFailed, Log, LogBlocks, Look, LookFault, Nobody,
    OpenLogFault, ReadFault, Sink, look_at,
};
