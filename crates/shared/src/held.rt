//! What was taken of an inbox and isn't in the journal yet.

ghost use Rattle.std.specs.Prelude.{◌≡◌, length, option_map};
ghost use Rattle.shared.specs.HeldArrivals.{held_arrival};

use block::Seen;
use inbox::Arrival;
use witness_pool::SigScheme;

/// An arrival whose bytes were read.
pub struct SeenArrival<S: SigScheme> {
    /// The number of the peer that sent it, from 1 on.
    pub peer: u64,
    /// What it sent.
    pub seen: Seen<S>,
}

// By hand, so that each exit calls it: the derived one is copied to each exit of each owner.
impl<S: SigScheme> Drop for SeenArrival<S> {
    fn drop(self) {
        let SeenArrival { peer: _, seen: _ } = self;
    }
}

/// An arrival that was taken and not brought: as it came, or as it was read.
#[derive(Drop)]
pub enum Held<S: SigScheme> {
    Unread(Arrival),
    Seen(SeenArrival<S>),
}

impl<S: SigScheme> Held<S> {
    /// What was just taken, if anything was.
    pub fn taken(found: Option<Arrival>) -> Option<Held<S>>
        ensures { option_map held_arrival result ≡ found }
    {
        match found {
            Some(arrival) => Some(Held::Unread(arrival)),
            None => None,
        }
    }

    /// The number of the peer that sent it, from 1 on.
    pub fn peer(&self) -> u64
        ensures { result ≡ (held_arrival self.now).peer }
    {
        match self {
            Held::Unread(arrival) => arrival.peer,
            Held::Seen(arrival) => arrival.peer,
        }
    }

    /// How many bytes it has.
    pub fn len(&self) -> usize
        ensures { result ≡ length (held_arrival self.now).bytes }
    {
        match self {
            Held::Unread(arrival) => arrival.bytes.len(),
            Held::Seen(arrival) => arrival.seen.bytes().len(),
        }
    }
}
