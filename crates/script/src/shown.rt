//! Names, as they are shown.

use crate::names::Names;
use std::fmt;

impl fmt::Debug for Names {
    /// Writes that these are the names of a script.
    fn fmt<W: fmt::Write>(&self, f: &mut fmt::Formatter<W>) -> fmt::Result {
        f.debug_struct("Names").finish_non_exhaustive()
    }
}
