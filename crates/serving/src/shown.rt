//! A clerk, as it is shown.

use crate::clerk::Clerk;
use crate::host::Host;
use shared::Room;
use std::fmt;
use witness_pool::SigScheme;

impl<'a, S: SigScheme, B: Room, R, H: Host> fmt::Debug for Clerk<'a, S, B, R, H> {
    /// Writes that it is a clerk.
    fn fmt<W: fmt::Write>(&self, f: &mut fmt::Formatter<W>) -> fmt::Result {
        f.debug_struct("Clerk").finish_non_exhaustive()
    }
}
