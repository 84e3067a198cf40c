//! A checked transaction and a pool, as they are shown.

use crate::checked_tx::CheckedTx;
use crate::pool::Pool;
use crate::scheme::SigScheme;
use std::fmt;

impl<S: SigScheme> fmt::Debug for CheckedTx<S> {
    /// Writes the identifier.
    fn fmt<W: fmt::Write>(&self, f: &mut fmt::Formatter<W>) -> fmt::Result {
        f.debug_struct("CheckedTx")
            .field("id", &self.tx().id())
            .finish_non_exhaustive()
    }
}

impl<G> fmt::Debug for Pool<G> {
    /// Writes that it is a pool.
    fn fmt<W: fmt::Write>(&self, f: &mut fmt::Formatter<W>) -> fmt::Result {
        f.debug_struct("Pool").finish_non_exhaustive()
    }
}
