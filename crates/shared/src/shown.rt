//! A shared core, and who calls it, as they are shown.

use crate::adder::Adder;
use crate::caller::Caller;
use crate::opened::Opened;
use crate::room::Room;
use crate::shared::Shared;
use inbox::Mailroom;
use std::fmt;
use witness_pool::SigScheme;

impl<S: SigScheme, B: Room> fmt::Debug for Shared<S, B> {
    /// Writes that it is one. To tell more it would have to wait for the lock.
    fn fmt<W: fmt::Write>(&self, f: &mut fmt::Formatter<W>) -> fmt::Result {
        f.debug_struct("Shared").finish_non_exhaustive()
    }
}

impl<S: SigScheme> fmt::Debug for Opened<S> {
    /// Writes that it is one.
    fn fmt<W: fmt::Write>(&self, f: &mut fmt::Formatter<W>) -> fmt::Result {
        f.debug_struct("Opened").finish_non_exhaustive()
    }
}

impl<B: Room> fmt::Debug for Caller<B> {
    /// Writes its number.
    fn fmt<W: fmt::Write>(&self, f: &mut fmt::Formatter<W>) -> fmt::Result {
        f.debug_struct("Caller")
            .field("number", &self.number())
            .finish_non_exhaustive()
    }
}

impl<S: SigScheme, G, B: Room, M: Mailroom> fmt::Debug for Adder<S, G, B, M> {
    /// Writes that it is one.
    fn fmt<W: fmt::Write>(&self, f: &mut fmt::Formatter<W>) -> fmt::Result {
        f.debug_struct("Adder").finish_non_exhaustive()
    }
}
