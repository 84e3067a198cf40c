//! A station and what it answers, as they are shown.

use crate::source::Source;
use crate::station::{Answer, Arrived, Notice, Station};
use std::fmt;

impl fmt::Debug for Notice {
    /// Writes the place of the client.
    fn fmt<W: fmt::Write>(&self, f: &mut fmt::Formatter<W>) -> fmt::Result {
        f.debug_struct("Notice")
            .field("place", &self.place)
            .finish_non_exhaustive()
    }
}

impl fmt::Debug for Answer {
    /// Writes whether it comes later.
    fn fmt<W: fmt::Write>(&self, f: &mut fmt::Formatter<W>) -> fmt::Result {
        f.debug_struct("Answer")
            .field("later", &matches!(self, Answer::Later))
            .finish_non_exhaustive()
    }
}

impl fmt::Debug for Arrived {
    /// Writes how many notices there are.
    fn fmt<W: fmt::Write>(&self, f: &mut fmt::Formatter<W>) -> fmt::Result {
        f.debug_struct("Arrived")
            .field("notices", &self.notices.len())
            .finish_non_exhaustive()
    }
}

impl<S: Source> fmt::Debug for Station<S> {
    /// Writes how many places it has.
    fn fmt<W: fmt::Write>(&self, f: &mut fmt::Formatter<W>) -> fmt::Result {
        f.debug_struct("Station")
            .field("places", &self.waits.len())
            .finish_non_exhaustive()
    }
}
