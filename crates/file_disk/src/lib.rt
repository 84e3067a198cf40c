//! A disk that is a file.
//!
//! ```text
//! let file = OpenOptions::new().read(true).write(true).create(true).open(&rt, path)?;
//! let log = Log::open(&rt, alloc, FileDisk::open(alloc, file)?, &mut sink)?;
//! ```
#![tactic(auto)]

mod file_disk;
mod giving;
mod shown;
mod step;

pub use file_disk::FileDisk;
