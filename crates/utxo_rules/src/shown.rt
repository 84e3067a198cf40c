//! Unspent outputs, as they are shown.

use crate::diff::Diff;
use crate::entries::{Entries, EntriesOf};
use crate::utxo::Utxo;
use std::fmt;

impl fmt::Debug for Utxo {
    /// Writes how many outputs there are, and the lovelace that they hold together.
    fn fmt<W: fmt::Write>(&self, f: &mut fmt::Formatter<W>) -> fmt::Result {
        f.debug_struct("Utxo")
            .field("outputs", &self.len())
            .field("coin", &self.coin())
            .finish_non_exhaustive()
    }
}

impl<'a> fmt::Debug for Entries<'a> {
    /// Writes that these are entries.
    fn fmt<W: fmt::Write>(&self, f: &mut fmt::Formatter<W>) -> fmt::Result {
        f.debug_struct("Entries").finish_non_exhaustive()
    }
}

impl<'a> fmt::Debug for EntriesOf<'a> {
    /// Writes that these are entries of an address.
    fn fmt<W: fmt::Write>(&self, f: &mut fmt::Formatter<W>) -> fmt::Result {
        f.debug_struct("EntriesOf").finish_non_exhaustive()
    }
}

impl fmt::Debug for Diff {
    /// Writes that it is what a transaction changed.
    fn fmt<W: fmt::Write>(&self, f: &mut fmt::Formatter<W>) -> fmt::Result {
        f.debug_struct("Diff").finish_non_exhaustive()
    }
}
