//! Blocks that were looked at, as they are shown.

use crate::block_ref::BlockRef;
use crate::seen::Seen;
use std::fmt;
use witness_pool::SigScheme;

impl<'a> fmt::Debug for BlockRef<'a> {
    /// Writes the number and the hash.
    fn fmt<W: fmt::Write>(&self, f: &mut fmt::Formatter<W>) -> fmt::Result {
        f.debug_struct("BlockRef")
            .field("number", &self.number())
            .field("hash", &self.hash())
            .finish_non_exhaustive()
    }
}

impl<S: SigScheme> fmt::Debug for Seen<S> {
    /// Writes that bytes were looked at.
    fn fmt<W: fmt::Write>(&self, f: &mut fmt::Formatter<W>) -> fmt::Result {
        f.debug_struct("Seen").finish_non_exhaustive()
    }
}
