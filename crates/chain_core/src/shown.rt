//! A core as it is shown.

use crate::node_core::Core;
use crate::reopening::Reopening;
use std::fmt;
use witness_pool::SigScheme;

impl<S: SigScheme> fmt::Debug for Core<S> {
    /// Writes how high the selected chain is, how many of its blocks are never rolled back, and how many transactions
    /// wait.
    fn fmt<W: fmt::Write>(&self, f: &mut fmt::Formatter<W>) -> fmt::Result {
        f.debug_struct("Core")
            .field("height", &self.height())
            .field("immutable", &self.immutable())
            .field("mempool", &self.mempool().len())
            .finish_non_exhaustive()
    }
}

impl<S: SigScheme> fmt::Debug for Reopening<S> {
    /// Writes that it is one, and nothing of what it has so far.
    fn fmt<W: fmt::Write>(&self, f: &mut fmt::Formatter<W>) -> fmt::Result {
        f.debug_struct("Reopening").finish_non_exhaustive()
    }
}
