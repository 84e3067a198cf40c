//! A restart, as it is shown.

use crate::restart::Restart;
use std::fmt;
use witness_pool::SigScheme;

impl<S: SigScheme> fmt::Debug for Restart<S> {
    /// Writes that it is a restart.
    fn fmt<W: fmt::Write>(&self, f: &mut fmt::Formatter<W>) -> fmt::Result {
        f.debug_struct("Restart").finish_non_exhaustive()
    }
}
