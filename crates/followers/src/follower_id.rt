//! Numbers of followers.

use std::fmt;

/// How many followers may be open.
pub const MAX_FOLLOWERS: usize = 1024;

/// The number of a follower, from 0 to 1,023. One that was closed may be given again.
#[derive(Clone, Copy, Debug, PartialEq, Eq, PartialOrd, Ord, Hash)]
pub struct FollowerId {
    pub number: u64,
}

impl fmt::Display for FollowerId {
    ghost use Rattle.std.specs.Prelude.{Some, decimal};

    ghost output = { λ id. Some (decimal id.number) };

    /// Writes the number.
    fn fmt<W: fmt::Write>(&self, f: &mut fmt::Formatter<W>) -> fmt::Result {
        let number = self.number;
        write!(f, "{number}")
    }
}
