//! A ledger database, as it is shown.

use crate::ledger_db::LedgerDb;
use crate::prepared::Prepared;
use std::fmt;

impl fmt::Debug for LedgerDb {
    /// Writes the state of the chain, and how many blocks can be rolled back.
    fn fmt<W: fmt::Write>(&self, f: &mut fmt::Formatter<W>) -> fmt::Result {
        f.debug_struct("LedgerDb")
            .field("state", &self.state())
            .field("depth", &self.depth())
            .finish_non_exhaustive()
    }
}

impl fmt::Debug for Prepared {
    /// Writes that it is what a fork leads to.
    fn fmt<W: fmt::Write>(&self, f: &mut fmt::Formatter<W>) -> fmt::Result {
        f.debug_struct("Prepared").finish_non_exhaustive()
    }
}
