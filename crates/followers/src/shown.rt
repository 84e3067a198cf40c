//! Followers, as they are shown.

use crate::followers::Followers;
use std::fmt;

impl fmt::Debug for Followers {
    /// Writes how many are open.
    fn fmt<W: fmt::Write>(&self, f: &mut fmt::Formatter<W>) -> fmt::Result {
        f.debug_struct("Followers")
            .field("open", &self.count())
            .finish_non_exhaustive()
    }
}
