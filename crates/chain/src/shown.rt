//! A chain and an index, as they are shown.

use crate::chain::Chain;
use crate::index::HashIndex;
use std::fmt;
use witness_pool::SigScheme;

impl<S: SigScheme> fmt::Debug for Chain<S> {
    /// Writes how many blocks it has, and how many of these left memory.
    fn fmt<W: fmt::Write>(&self, f: &mut fmt::Formatter<W>) -> fmt::Result {
        f.debug_struct("Chain")
            .field("blocks", &self.len())
            .field("gone", &self.gone_len())
            .finish_non_exhaustive()
    }
}

impl fmt::Debug for HashIndex {
    /// Writes how many blocks are indexed.
    fn fmt<W: fmt::Write>(&self, f: &mut fmt::Formatter<W>) -> fmt::Result {
        f.debug_struct("HashIndex")
            .field("blocks", &self.len())
            .finish_non_exhaustive()
    }
}
