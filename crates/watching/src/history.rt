//! The transactions of an owner.

ghost use Rattle.std.specs.Prelude.{◌≡◌};

use crate::inclusion::{Inclusion, NewestFirst};
use crate::tx_key::TxKey;
use ident::TxId;
use persistent_map::{Iter, PersistentMap};
use std::alloc::{AllocError, Global};
use std::marker::Model;
use std::sync::Arc;

/// Transactions by where they were put on, the newest first. A copy takes no memory, and shares what the two have in
/// common.
pub struct History {
    alloc: Global,
    map: PersistentMap<NewestFirst, TxKey>,
}

// By hand, so that each exit calls it: the derived one is copied to each exit of each owner.
impl Drop for History {
    fn drop(self) {
        let History { alloc: _, map: _ } = self;
    }
}

impl Model for History {
    ghost use Rattle.std.specs.FinMap as finite;
    ghost use Rattle.model.specs.Codes.{coded_bytes};
    ghost use Rattle.persistent_map.specs.Order.{Rise};
    ghost use Rattle.watching.specs.Histories as values;
    ghost use Rattle.watching.specs.Histories.{coded_inclusion, inclusion_cmp};

    ghost Value = { values.History };

    ghost coded = { finite.code coded_inclusion coded_bytes };

    ghost view = { λ h. finite.from_sorted h.map };

    ghost invariant = { λ h. Rise inclusion_cmp h.map };
}

impl History {
    ghost use Rattle.std.specs.Prelude.{◌≡◌, ◌↔◌, IsTrue, IfOk, OnOk};
    ghost use Rattle.std.specs.Option.{option_copied};
    ghost use Rattle.std.specs.FinMap as finite;
    ghost use Rattle.watching.specs.Changes.{restored};

    /// No transactions. Takes no memory.
    pub(crate) fn new(alloc: Global) -> History
        ensures { result ≡ finite.empty }
    {
        History {
            alloc,
            map: PersistentMap::new(alloc),
        }
    }

    /// How many transactions there are, in constant time.
    pub fn len(&self) -> usize
        ensures { result ≡ finite.len self.now }
    {
        self.map.len()
    }

    /// Whether there are none, in constant time.
    pub fn is_empty(&self) -> bool
        ensures { IsTrue result ↔ (finite.len self.now ≡ 0) }
    {
        self.map.is_empty()
    }

    /// The same again, in constant time and with no memory: it stays while the index goes on. Err where 2^63 copies
    /// share it already.
    pub fn try_clone(&self) -> Result<History, AllocError>
        ensures { IfOk result (λ copy. copy ≡ self.now) }
    {
        Ok(History {
            alloc: self.alloc,
            map: self.map.try_clone()?,
        })
    }

    /// The transactions, the newest first. Takes no memory; each step takes time in proportion to the logarithm of
    /// their number.
    pub fn iter(&self) -> HistoryEntries<'_>
        ensures { result ≡ finite.entries self.now }
    {
        HistoryEntries {
            rest: self.map.iter(),
        }
    }

    /// The transaction of this inclusion, if there is one.
    pub(crate) fn get(&self, inclusion: &NewestFirst) -> Option<TxKey>
        ensures { result ≡ finite.get self.now inclusion.now }
    {
        let id = self.map.get(inclusion)?;
        Some(*id)
    }

    /// Puts the transaction at this inclusion.
    pub(crate) fn insert(&mut self, inclusion: NewestFirst, id: TxKey) -> Result<(), AllocError>
        ensures { OnOk result (self.new ≡ finite.insert self.old inclusion id) }
    {
        let id = Arc::new(self.alloc, id)?;
        self.map.insert(inclusion, id)?;
        Ok(())
    }

    /// Puts at this inclusion what stood there before.
    pub(crate) fn restore(
        &mut self,
        inclusion: &NewestFirst,
        before: Option<TxKey>,
    ) -> Result<(), AllocError>
        ensures { OnOk result (self.new ≡ restored self.old inclusion.now before) }
    {
        match before {
            Some(id) => self.insert(*inclusion, id),
            None => {
                self.map.remove(inclusion)?;
                Ok(())
            }
        }
    }
}

/// The transactions of a history that are still to come, the newest first: each with its inclusion and its identifier.
/// Takes no memory; each step takes time in proportion to the logarithm of the number of all.
#[derive(Drop)]
pub struct HistoryEntries<'a> {
    rest: Iter<'a, NewestFirst, TxKey>,
}

impl<'a> Model for HistoryEntries<'a> {
    ghost use Rattle.std.specs.Prelude.{ℕ, List};
    ghost use Rattle.std.specs.Coded.{coded_list, coded×};
    ghost use Rattle.model.specs.Codes.{coded_bytes};
    ghost use Rattle.watching.specs.Histories as values;
    ghost use Rattle.watching.specs.Histories.{coded_inclusion};

    ghost Value = { List (values.Inclusion × List ℕ) };

    ghost coded = { coded_list (coded× coded_inclusion coded_bytes) };

    ghost view = { λ e. e.rest };
}

impl<'a> Iterator for HistoryEntries<'a> {
    ghost use Rattle.std.specs.Iterator.{YieldsFirstBy, item_count};
    ghost use Rattle.watching.specs.View.{entry_of};

    type Item = (Inclusion, TxId);

    ghost next_gives = { YieldsFirstBy entry_of (λ entries. entries) };

    ghost remaining = { item_count (λ entries. entries) };

    /// The next transaction, or None where no more is to come.
    fn next(&mut self) -> Option<(Inclusion, TxId)> {
        let (inclusion, id) = self.rest.next()?;
        Some((inclusion.inclusion(), id.tx_id()))
    }
}
