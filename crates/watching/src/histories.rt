//! The history of each owner.

use crate::history::History;
use crate::owner::Owner;
use persistent_map::PersistentMap;
use std::alloc::{AllocError, Global};
use std::marker::Model;
use std::sync::Arc;

/// The history of each owner that has one. A copy takes no memory, and shares what the two have in common.
pub struct Histories {
    alloc: Global,
    map: PersistentMap<Owner, History>,
    /// What is lent where an owner has none.
    nothing: History,
}

// By hand, so that each exit calls it: the derived one is copied to each exit of each owner.
impl Drop for Histories {
    fn drop(self) {
        let Histories {
            alloc: _,
            map: _,
            nothing: _,
        } = self;
    }
}

impl Model for Histories {
    ghost use Rattle.watching.specs.Chains.{coded_histories};
    ghost use Rattle.watching.specs.Histories as values;

    ghost Value = { values.Histories };

    ghost coded = { coded_histories };

    ghost use Rattle.watching.specs.Inside.{histories_of, AreHistories};

    ghost view = { histories_of };

    ghost invariant = { AreHistories };
}

impl Histories {
    ghost use Rattle.std.specs.Prelude.{◌≡◌, IfOk, OnOk};
    ghost use Rattle.std.specs.FinMap as finite;
    ghost use Rattle.watching.specs.Changes.{with_history};
    ghost use Rattle.watching.specs.Histories.{history_at, NoneEmpty};

    /// Nobody has a history. Takes no memory.
    pub fn new(alloc: Global) -> Histories
        ensures { result ≡ finite.empty }
    {
        Histories {
            alloc,
            map: PersistentMap::new(alloc),
            nothing: History::new(alloc),
        }
    }

    /// The same again, in constant time and with no memory.
    pub fn try_clone(&self) -> Result<Histories, AllocError>
        ensures { IfOk result (λ copy. copy ≡ self.now) }
    {
        Ok(Histories {
            alloc: self.alloc,
            map: self.map.try_clone()?,
            nothing: self.nothing.try_clone()?,
        })
    }

    /// The history of this owner. Takes a look-up, and copies nothing.
    pub fn of(&self, owner: &Owner) -> &History
        ensures history { result.now ≡ history_at self.now owner.now }
        ensures none_empty { NoneEmpty self.now }
    {
        match self.map.get(owner) {
            Some(history) => history,
            None => &self.nothing,
        }
    }

    /// Gives the owner this history. An empty one takes no room.
    pub fn set(&mut self, owner: Owner, history: History) -> Result<(), AllocError>
        ensures { OnOk result (self.new ≡ with_history self.old owner history) }
    {
        if history.is_empty() {
            self.map.remove(&owner)?;
        } else {
            let history = Arc::new(self.alloc, history)?;
            self.map.insert(owner, history)?;
        }
        Ok(())
    }
}
