//! A disk, as it is shown.

use crate::file_disk::FileDisk;
use std::fmt;
use std::fs::OpenFile;
use std::io::{Read, Seek, Write};

impl<F: Read + Write + Seek + OpenFile + Drop> fmt::Debug for FileDisk<F> {
    /// Writes that it is a disk.
    fn fmt<W: fmt::Write>(&self, f: &mut fmt::Formatter<W>) -> fmt::Result {
        f.debug_struct("FileDisk").finish_non_exhaustive()
    }
}
