//! A mempool, as it is shown.

use crate::mempool::{Mempool, Resynced};
use std::fmt;
use witness_pool::SigScheme;

impl<S: SigScheme> fmt::Debug for Mempool<S> {
    /// Writes how many transactions wait.
    fn fmt<W: fmt::Write>(&self, f: &mut fmt::Formatter<W>) -> fmt::Result {
        f.debug_struct("Mempool")
            .field("waiting", &self.len())
            .finish_non_exhaustive()
    }
}

impl<S: SigScheme> fmt::Debug for Resynced<S> {
    /// Writes that it is what stays of a mempool.
    fn fmt<W: fmt::Write>(&self, f: &mut fmt::Formatter<W>) -> fmt::Result {
        f.debug_struct("Resynced").finish_non_exhaustive()
    }
}
