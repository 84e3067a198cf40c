//! Sums, as they are shown.

use crate::amounts::Amounts;
use crate::totals::Totals;
use std::fmt;

impl fmt::Debug for Totals {
    /// Writes how many values were added or taken, and the coin of the sum.
    fn fmt<W: fmt::Write>(&self, f: &mut fmt::Formatter<W>) -> fmt::Result {
        f.debug_struct("Totals")
            .field("values", &self.values())
            .field("coin", &self.coin())
            .finish_non_exhaustive()
    }
}

impl fmt::Debug for Amounts {
    /// Writes that these are the amounts of a policy's assets.
    fn fmt<W: fmt::Write>(&self, f: &mut fmt::Formatter<W>) -> fmt::Result {
        f.debug_struct("Amounts").finish_non_exhaustive()
    }
}
