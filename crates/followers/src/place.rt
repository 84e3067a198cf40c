//! Where a follower stands, and what comes next for it.

ghost use Rattle.std.specs.Prelude.{◌≡◌};
ghost use Rattle.followers.specs.Places.{standing, moved_place, due_of, place_after};

/// Where a follower stands, in blocks: how many it was told, and how many of these the selected chain still has.
#[derive(Clone, Copy, Debug)]
pub struct Place {
    pub told: u64,
    pub agreed: u64,
}

/// What a follower is told next, in blocks of the selected chain.
#[derive(Clone, Copy, Debug, PartialEq, Eq)]
pub enum Due {
    /// To put on the block behind the first `after`.
    Add { after: u64 },
    /// To go back to the end of the first `to`.
    RollBack { to: u64 },
}

impl Place {
    /// The end of the first `length` blocks.
    pub fn standing(length: u64) -> Place
        ensures { result ≡ standing length }
    {
        Place {
            told: length,
            agreed: length,
        }
    }

    /// The selected chain has only `common` of the blocks that it had.
    pub fn moved(self, common: u64) -> Place
        ensures { result ≡ moved_place common self }
    {
        Place {
            told: self.told,
            agreed: self.agreed.min(common),
        }
    }

    /// What comes next beside a selected chain of this length.
    pub fn due(self, height: u64) -> Option<Due>
        ensures { result ≡ due_of height self }
    {
        if self.agreed < self.told {
            Some(Due::RollBack { to: self.agreed })
        } else if self.told < height {
            Some(Due::Add { after: self.told })
        } else {
            None
        }
    }

    /// Where it stands once that was carried out.
    pub fn moved_on(self, height: u64) -> Place
        ensures { result ≡ place_after height self }
    {
        match self.due(height) {
            None => self,
            Some(Due::RollBack { to }) => Place::standing(to),
            Some(Due::Add { after }) => Place::standing(after + 1),
        }
    }
}
