//! Where each transaction was put onto a chain.

use crate::inclusion::NewestFirst;
use crate::tx_key::TxKey;
use persistent_map::PersistentMap;
use std::alloc::{AllocError, Global};
use std::marker::Model;
use std::sync::Arc;

/// The inclusion of each transaction. A copy takes no memory, and shares what the two have in common.
pub struct Inclusions {
    alloc: Global,
    map: PersistentMap<TxKey, NewestFirst>,
}

// By hand, so that each exit calls it: the derived one is copied to each exit of each owner.
impl Drop for Inclusions {
    fn drop(self) {
        let Inclusions { alloc: _, map: _ } = self;
    }
}

impl Model for Inclusions {
    ghost use Rattle.std.specs.FinMap as finite;
    ghost use Rattle.persistent_map.specs.Order.{Rise};
    ghost use Rattle.watching.specs.Chains.{coded_inclusions};
    ghost use Rattle.watching.specs.Histories as values;
    ghost use Rattle.watching.specs.Histories.{id_cmp};

    ghost Value = { values.Inclusions };

    ghost coded = { coded_inclusions };

    ghost view = { λ m. finite.from_sorted m.map };

    ghost invariant = { λ m. Rise id_cmp m.map };
}

impl Inclusions {
    ghost use Rattle.std.specs.Prelude.{◌≡◌, IfOk, OnOk};
    ghost use Rattle.std.specs.FinMap as finite;
    ghost use Rattle.watching.specs.Changes.{restored};

    /// Of no transactions. Takes no memory.
    pub fn new(alloc: Global) -> Inclusions
        ensures { result ≡ finite.empty }
    {
        Inclusions {
            alloc,
            map: PersistentMap::new(alloc),
        }
    }

    /// The same again, in constant time and with no memory.
    pub fn try_clone(&self) -> Result<Inclusions, AllocError>
        ensures { IfOk result (λ copy. copy ≡ self.now) }
    {
        Ok(Inclusions {
            alloc: self.alloc,
            map: self.map.try_clone()?,
        })
    }

    /// The inclusion of this transaction, if it has one. Takes a look-up.
    pub fn get(&self, id: &TxKey) -> Option<NewestFirst>
        ensures { result ≡ finite.get self.now id.now }
    {
        let inclusion = self.map.get(id)?;
        Some(*inclusion)
    }

    /// Gives the transaction this inclusion.
    pub fn insert(&mut self, id: TxKey, inclusion: NewestFirst) -> Result<(), AllocError>
        ensures { OnOk result (self.new ≡ finite.insert self.old id inclusion) }
    {
        let inclusion = Arc::new(self.alloc, inclusion)?;
        self.map.insert(id, inclusion)?;
        Ok(())
    }

    /// Gives the transaction what it had before.
    pub fn restore(&mut self, id: &TxKey, before: Option<NewestFirst>) -> Result<(), AllocError>
        ensures { OnOk result (self.new ≡ restored self.old id.now before) }
    {
        match before {
            Some(inclusion) => self.insert(*id, inclusion),
            None => {
                self.map.remove(id)?;
                Ok(())
            }
        }
    }
}
