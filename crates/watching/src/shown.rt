//! An index, and what it tells, as they are shown.

use crate::history::{History, HistoryEntries};
use crate::watch::Watch;
use crate::which::Which;
use std::fmt;

impl fmt::Debug for Watch {
    /// Writes how many blocks its chain has, how many of them can be rolled back, and how many outputs it keeps.
    fn fmt<W: fmt::Write>(&self, f: &mut fmt::Formatter<W>) -> fmt::Result {
        f.debug_struct("Watch")
            .field("height", &self.tip().number)
            .field("depth", &self.depth())
            .field("outputs", &self.all().len())
            .finish_non_exhaustive()
    }
}

impl fmt::Debug for Which {
    /// Writes whether these are all outputs.
    fn fmt<W: fmt::Write>(&self, f: &mut fmt::Formatter<W>) -> fmt::Result {
        f.debug_struct("Which")
            .field("all", &self.is_all())
            .finish_non_exhaustive()
    }
}

impl fmt::Debug for History {
    /// Writes how many transactions there are.
    fn fmt<W: fmt::Write>(&self, f: &mut fmt::Formatter<W>) -> fmt::Result {
        f.debug_struct("History")
            .field("transactions", &self.len())
            .finish_non_exhaustive()
    }
}

impl<'a> fmt::Debug for HistoryEntries<'a> {
    /// Writes that these are entries.
    fn fmt<W: fmt::Write>(&self, f: &mut fmt::Formatter<W>) -> fmt::Result {
        f.debug_struct("HistoryEntries").finish_non_exhaustive()
    }
}
