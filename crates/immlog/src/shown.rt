//! A log and its blocks, as they are shown.

use crate::disk::Disk;
use crate::log::Log;
use crate::log_blocks::LogBlocks;
use crate::sink::Nobody;
use std::fmt;

impl<D: Disk> fmt::Debug for Log<D> {
    /// Writes how many blocks are durable, and whether a call of the disk failed.
    fn fmt<W: fmt::Write>(&self, f: &mut fmt::Formatter<W>) -> fmt::Result {
        f.debug_struct("Log")
            .field("durable", &self.durable())
            .field("broken", &self.is_broken())
            .finish_non_exhaustive()
    }
}

impl<D: Disk> fmt::Debug for LogBlocks<D> {
    /// Writes that these are the blocks of a log.
    fn fmt<W: fmt::Write>(&self, f: &mut fmt::Formatter<W>) -> fmt::Result {
        f.debug_struct("LogBlocks").finish_non_exhaustive()
    }
}

impl fmt::Debug for Nobody {
    /// Writes that it is nobody.
    fn fmt<W: fmt::Write>(&self, f: &mut fmt::Formatter<W>) -> fmt::Result {
        f.debug_struct("Nobody").finish_non_exhaustive()
    }
}
