//! What selection answers, as it is shown.

use crate::selection::{Choice, Selection, Switch};
use std::fmt;
use witness_pool::SigScheme;

impl<S: SigScheme> fmt::Debug for Choice<S> {
    /// Writes whether the chain is switched.
    fn fmt<W: fmt::Write>(&self, f: &mut fmt::Formatter<W>) -> fmt::Result {
        f.debug_struct("Choice")
            .field("switches", &matches!(self, Choice::Switch(_)))
            .finish_non_exhaustive()
    }
}

impl<S: SigScheme> fmt::Debug for Switch<S> {
    /// Writes how many blocks are rolled back, and those that are put on.
    fn fmt<W: fmt::Write>(&self, f: &mut fmt::Formatter<W>) -> fmt::Result {
        f.debug_struct("Switch")
            .field("back", &self.back)
            .field("blocks", &self.blocks)
            .finish_non_exhaustive()
    }
}

impl<S: SigScheme> fmt::Debug for Selection<S> {
    /// Writes whether the chain is switched, and the hashes of the blocks that were found invalid.
    fn fmt<W: fmt::Write>(&self, f: &mut fmt::Formatter<W>) -> fmt::Result {
        f.debug_struct("Selection")
            .field("choice", &self.choice)
            .field("invalid", &self.invalid)
            .finish_non_exhaustive()
    }
}
