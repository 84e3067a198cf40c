//! A reception and a keeper, as they are shown.

use crate::keeper::Keeper;
use crate::reception::Reception;
use inbox::Mailroom;
use shared::Room;
use std::fmt;
use witness_pool::SigScheme;

impl<B: Room> fmt::Debug for Keeper<B> {
    /// Writes how many blocks were discarded.
    fn fmt<W: fmt::Write>(&self, f: &mut fmt::Formatter<W>) -> fmt::Result {
        f.debug_struct("Keeper")
            .field("discarded", &self.discarded())
            .finish_non_exhaustive()
    }
}

impl<S: SigScheme, B: Room, M: Mailroom> fmt::Debug for Reception<S, B, M> {
    /// Writes its keeper.
    fn fmt<W: fmt::Write>(&self, f: &mut fmt::Formatter<W>) -> fmt::Result {
        f.debug_struct("Reception")
            .field("keeper", &self.keeper)
            .finish_non_exhaustive()
    }
}
