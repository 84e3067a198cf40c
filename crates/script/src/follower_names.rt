//! What names of followers are bound to.

ghost use Rattle.std.specs.Prelude.{◌≡◌, [], ◌∷◌, ◌++◌, ℕ, List, OnOk, None};
ghost use Rattle.script.specs.Names.{Named, bound_to};
ghost use Rattle.script.specs.FollowerNamesView.{AreFollowersNamed, HasRoom};

use std::alloc::{AllocError, Global};
use std::collections::BTreeMap;

/// The names of followers.
#[derive(Drop)]
pub struct FollowerNames {
    alloc: Global,
    /// A name that only has its room isn't bound, and has None.
    by_name: BTreeMap<Vec<u8>, Option<u64>>,
}

impl FollowerNames {
    /// No names.
    pub fn new(alloc: Global) -> FollowerNames
        ensures { AreFollowersNamed result [] }
    {
        FollowerNames {
            alloc,
            by_name: BTreeMap::new(alloc),
        }
    }

    /// The follower that has a name.
    pub fn get(&self, name: &[u8]) -> Option<u64>
        ensures { (names : List (Named ℕ)) → AreFollowersNamed self.now names
            → result ≡ bound_to name.now names }
    {
        match self.by_name.get(name) {
            Some(Some(id)) => Some(*id),
            _ => None,
        }
    }

    /// Takes the room for a name, and binds nothing.
    pub fn take_room(&mut self, name: &[u8]) -> Result<(), AllocError>
        ensures names { (names : List (Named ℕ)) → AreFollowersNamed self.old names
            → AreFollowersNamed self.new names }
        ensures room { OnOk result (HasRoom self.new name.now) }
    {
        if !self.by_name.contains_key(name) {
            let key = Vec::from_slice(self.alloc, name)?;
            self.by_name.insert(key, None)?;
        }
        Ok(())
    }

    /// Binds a name that is free and has its room. Without its room it isn't bound. Takes no memory.
    pub fn bind(&mut self, name: &[u8], id: u64)
        ensures bound { HasRoom self.old name.now → (names : List (Named ℕ)) → AreFollowersNamed self.old names
            → bound_to name.now names ≡ None
            → AreFollowersNamed self.new (names ++ record { name = name.now; bound = id } ∷ []) }
        ensures no_room { (HasRoom self.old name.now → ⊥) → self.new ≡ self.old }
    {
        if let Some(place) = self.by_name.get_mut(name) {
            *place = Some(id);
        }
    }
}
