//! A store and live blocks, as they are shown.

use crate::live_block::LiveBlock;
use crate::store::BlockStore;
use crate::stored_block::StoredBlock;
use crate::unconnected::Unconnected;
use std::fmt;
use witness_pool::SigScheme;

impl<S: SigScheme> fmt::Debug for BlockStore<S> {
    /// Writes how many blocks it has.
    fn fmt<W: fmt::Write>(&self, f: &mut fmt::Formatter<W>) -> fmt::Result {
        f.debug_struct("BlockStore")
            .field("blocks", &self.len())
            .finish_non_exhaustive()
    }
}

impl<S: SigScheme> fmt::Debug for LiveBlock<S> {
    /// Writes the number and the hash.
    fn fmt<W: fmt::Write>(&self, f: &mut fmt::Formatter<W>) -> fmt::Result {
        f.debug_struct("LiveBlock")
            .field("number", &self.block().number())
            .field("hash", &self.block().hash())
            .finish_non_exhaustive()
    }
}

impl<S: SigScheme> fmt::Debug for StoredBlock<S> {
    /// Writes the number and the hash.
    fn fmt<W: fmt::Write>(&self, f: &mut fmt::Formatter<W>) -> fmt::Result {
        f.debug_struct("StoredBlock")
            .field("number", &self.block().number())
            .field("hash", &self.block().hash())
            .finish_non_exhaustive()
    }
}

impl<'a, S: SigScheme> fmt::Debug for Unconnected<'a, S> {
    /// Writes that these are unconnected blocks.
    fn fmt<W: fmt::Write>(&self, f: &mut fmt::Formatter<W>) -> fmt::Result {
        f.debug_struct("Unconnected").finish_non_exhaustive()
    }
}
