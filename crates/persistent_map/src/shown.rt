//! A map and its entries, as they are shown.

use crate::iter::Iter;
use crate::persistent_map::PersistentMap;
use std::fmt;

impl<K: Copy + Ord, V> fmt::Debug for PersistentMap<K, V> {
    /// Writes how many entries it has.
    fn fmt<W: fmt::Write>(&self, f: &mut fmt::Formatter<W>) -> fmt::Result {
        f.debug_struct("PersistentMap")
            .field("entries", &self.len())
            .finish_non_exhaustive()
    }
}

impl<'a, K: Copy + Ord, V> fmt::Debug for Iter<'a, K, V> {
    /// Writes that these are entries.
    fn fmt<W: fmt::Write>(&self, f: &mut fmt::Formatter<W>) -> fmt::Result {
        f.debug_struct("Iter").finish_non_exhaustive()
    }
}
