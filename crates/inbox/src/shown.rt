//! An inbox and its ends, as they are shown.

use crate::adder_end::AdderEnd;
use crate::mailroom::Mailroom;
use crate::opened::Opened;
use crate::peer_end::PeerEnd;
use std::fmt;

impl fmt::Debug for Opened {
    /// Writes that it is an inbox.
    fn fmt<W: fmt::Write>(&self, f: &mut fmt::Formatter<W>) -> fmt::Result {
        f.debug_struct("Opened").finish_non_exhaustive()
    }
}

impl<B: Mailroom> fmt::Debug for PeerEnd<B> {
    /// Writes the number of the peer.
    fn fmt<W: fmt::Write>(&self, f: &mut fmt::Formatter<W>) -> fmt::Result {
        f.debug_struct("PeerEnd")
            .field("number", &self.number())
            .finish_non_exhaustive()
    }
}

impl<B: Mailroom> fmt::Debug for AdderEnd<B> {
    /// Writes that it is the end of an adder.
    fn fmt<W: fmt::Write>(&self, f: &mut fmt::Formatter<W>) -> fmt::Result {
        f.debug_struct("AdderEnd").finish_non_exhaustive()
    }
}
