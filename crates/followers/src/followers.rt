//! The open followers.

ghost use Rattle.std.specs.Prelude.{◌≡◌, option_map};
ghost use Rattle.followers.specs.Places.{moved_place};

use crate::fault::{OpenFollowerFault, UnknownFollower};
use crate::follower_id::{FollowerId, MAX_FOLLOWERS};
use crate::place::{Due, Place};
use std::alloc::Global;
use std::cmp::Reverse;
use std::collections::BinaryHeap;
use std::marker::Model;

/// Where a follower stands once the selected chain has only `common` of the blocks that it had, if one is open.
fn moved_if_open(place: Option<Place>, common: u64) -> Option<Place>
    ensures { result ≡ option_map (moved_place common) place }
{
    match place {
        Some(place) => Some(place.moved(common)),
        None => None,
    }
}

/// The open followers, at most 1,024. Each takes the room of a few numbers and of no block; the room of one that was
/// closed is kept for the next.
#[derive(Drop)]
pub struct Followers {
    places: Vec<Option<Place>>,
    /// The numbers of places in which none is open, the least first, with room for all of them.
    free: BinaryHeap<Reverse<u64>>,
}

impl Model for Followers {
    ghost use Rattle.followers.specs.Places.{Places};
    ghost use Rattle.followers.specs.PlaceCodes.{coded_places};

    ghost Value = { Places };

    ghost coded = { coded_places };

    ghost use Rattle.followers.specs.Inside.{places_of, IsInOrder};

    ghost view = { places_of };

    ghost invariant = { IsInOrder };
}

impl Followers {
    ghost use Rattle.std.specs.Prelude.{◌≡◌, ◌↔◌, [], None, Some, IfOk, IfErr, OnOk, OnErr, IsTrue};
    ghost use Rattle.model.specs.Follower.{follower_of};
    ghost use Rattle.followers.specs.declared.place.Place.{Place as Standing};
    ghost use Rattle.followers.specs.Places.{open_count, due_of, moved_places};
    ghost use Rattle.followers.specs.Calls.{IsOpened, IsOpenFault, IsMovedOn, IsForwarded, IsClosed};

    /// No follower is open. Takes no memory.
    pub fn new(alloc: Global) -> Followers
        ensures { result ≡ [] }
    {
        Followers {
            places: Vec::new(alloc),
            free: BinaryHeap::new(alloc),
        }
    }

    /// Opens a follower of the least number that is free. It stands at genesis. Where there are 1,024, or memory runs
    /// out, nothing changes. Takes time that grows with the logarithm of how many numbers are free.
    pub fn open(&mut self) -> Result<FollowerId, OpenFollowerFault>
        ensures ok { IfOk result (λ id. IsOpened self.old id.number self.new) }
        ensures fault { IfErr result (IsOpenFault self.old) }
        ensures err { OnErr result (self.new ≡ self.old) }
    {
        let place = Some(Place::standing(0));
        if let Some(Reverse(number)) = self.free.pop() {
            self.places[number as usize] = place;
            return Ok(FollowerId { number });
        }
        let number = self.places.len();
        if number >= MAX_FOLLOWERS {
            return Err(OpenFollowerFault::TooManyFollowers);
        }
        self.free.reserve(number + 1)?;
        self.places.push(place)?;
        Ok(FollowerId {
            number: number as u64,
        })
    }

    /// Where the follower of this number stands, if it is open.
    fn place(&self, id: FollowerId) -> Option<Place>
        ensures { result ≡ follower_of self.now id.number }
    {
        if id.number < self.places.len() as u64 {
            self.places[id.number as usize]
        } else {
            None
        }
    }

    /// Whether a follower of this number is open. In constant time, and takes no memory.
    pub fn is_open(&self, id: FollowerId) -> bool
        ensures { IsTrue result ↔ ((place : Standing) × (follower_of self.now id.number ≡ Some place)) }
    {
        self.place(id).is_some()
    }

    /// How many followers are open. In constant time, and takes no memory.
    pub fn count(&self) -> usize
        ensures { result ≡ open_count self.now }
    {
        self.places.len() - self.free.len()
    }

    /// What the follower of this number is told next, beside a selected chain of `height` blocks. Nothing changes. In
    /// constant time, and takes no memory.
    pub fn due(&self, id: FollowerId, height: u64) -> Result<Option<Due>, UnknownFollower>
        ensures ok { IfOk result (λ due. (place : Standing) × (follower_of self.now id.number ≡ Some place)
            × (due ≡ due_of height place)) }
        ensures unknown { OnErr result (follower_of self.now id.number ≡ None) }
    {
        match self.place(id) {
            Some(place) => Ok(place.due(height)),
            None => Err(UnknownFollower {}),
        }
    }

    /// Tells the follower of this number what comes next, beside a selected chain of `height` blocks. Where none is
    /// open nothing changes. In constant time, and takes no memory.
    pub fn next(&mut self, id: FollowerId, height: u64) -> Result<Option<Due>, UnknownFollower>
        ensures ok { IfOk result (λ due. IsMovedOn self.old id.number height due self.new) }
        ensures unknown { OnErr result (follower_of self.old id.number ≡ None) }
        ensures err { OnErr result (self.new ≡ self.old) }
    {
        let Some(place) = self.place(id) else {
            return Err(UnknownFollower {});
        };
        self.places[id.number as usize] = Some(place.moved_on(height));
        Ok(place.due(height))
    }

    /// Sets the follower of this number to the end of the first `length` blocks of the selected chain. Where none is
    /// open nothing changes. In constant time, and takes no memory.
    pub fn forward(&mut self, id: FollowerId, length: u64) -> Result<(), UnknownFollower>
        ensures ok { OnOk result (IsForwarded self.old id.number length self.new) }
        ensures unknown { OnErr result (follower_of self.old id.number ≡ None) }
        ensures err { OnErr result (self.new ≡ self.old) }
    {
        if self.place(id).is_none() {
            return Err(UnknownFollower {});
        }
        self.places[id.number as usize] = Some(Place::standing(length));
        Ok(())
    }

    /// Closes the follower of this number, which is then free. Where none is open nothing changes. Takes time that
    /// grows with the logarithm of how many numbers are free, and no memory.
    pub fn close(&mut self, id: FollowerId) -> Result<(), UnknownFollower>
        ensures ok { OnOk result (IsClosed self.old id.number self.new) }
        ensures unknown { OnErr result (follower_of self.old id.number ≡ None) }
        ensures err { OnErr result (self.new ≡ self.old) }
    {
        if self.place(id).is_none() {
            return Err(UnknownFollower {});
        }
        self.places[id.number as usize] = None;
        if self.free.push(Reverse(id.number)).is_err() {
            unreachable!();
        }
        Ok(())
    }

    /// Another chain is selected, which has `common` blocks in common with the old one. Looks at each follower once,
    /// and takes no memory.
    pub fn moved(&mut self, common: u64)
        ensures { self.new ≡ moved_places common self.old }
    {
        for number in 0..self.places.len() {
            self.places[number] = moved_if_open(self.places[number], common);
        }
    }
}
