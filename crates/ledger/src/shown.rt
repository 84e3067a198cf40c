//! A ledger's state, as it is shown.

use crate::block_diff::BlockDiff;
use crate::ledger_state::LedgerState;
use std::fmt;

impl fmt::Debug for LedgerState {
    /// Writes where its chain ends, and how many outputs are unspent.
    fn fmt<W: fmt::Write>(&self, f: &mut fmt::Formatter<W>) -> fmt::Result {
        f.debug_struct("LedgerState")
            .field("tip", &self.tip())
            .field("outputs", &self.utxo().len())
            .finish_non_exhaustive()
    }
}

impl fmt::Debug for BlockDiff {
    /// Writes that it is what a block changed.
    fn fmt<W: fmt::Write>(&self, f: &mut fmt::Formatter<W>) -> fmt::Result {
        f.debug_struct("BlockDiff").finish_non_exhaustive()
    }
}
