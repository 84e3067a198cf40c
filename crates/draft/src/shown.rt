//! A draft, as it is shown.

use crate::draft::Draft;
use std::fmt;

impl<K> fmt::Debug for Draft<K> {
    /// Writes that it is a draft, and no key of it.
    fn fmt<W: fmt::Write>(&self, f: &mut fmt::Formatter<W>) -> fmt::Result {
        f.debug_struct("Draft").finish_non_exhaustive()
    }
}
