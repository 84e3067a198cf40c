//! The outputs of each owner.

use crate::owner::Owner;
use persistent_map::{Iter, PersistentMap};
use std::alloc::{AllocError, Global};
use std::marker::Model;
use std::sync::Arc;
use tx::{Input, Output};
use utxo_rules::Utxo;

/// The outputs of each owner that has some. A copy takes no memory, and shares what the two have in common.
#[derive(Drop)]
pub struct Owners {
    alloc: Global,
    map: PersistentMap<Owner, Utxo>,
}

impl Model for Owners {
    ghost use Rattle.std.specs.FinMap as finite;
    ghost use Rattle.model.specs.Codes.{coded_bytes};
    ghost use Rattle.persistent_map.specs.Order.{Rise};
    ghost use Rattle.watching.specs.Chains.{coded_utxo};
    ghost use Rattle.watching.specs.Owned.{Owned, owner_cmp};

    ghost Value = { Owned };

    ghost coded = { finite.code coded_bytes coded_utxo };

    ghost view = { λ o. finite.from_sorted o.map };

    ghost invariant = { λ o. Rise owner_cmp o.map };
}

impl Owners {
    ghost use Rattle.std.specs.Prelude.{◌≡◌, IfOk, OnOk};
    ghost use Rattle.std.specs.Option.{option_copied};
    ghost use Rattle.std.specs.FinMap as finite;
    ghost use Rattle.tx.specs.View.{input_of, output_of};
    ghost use Rattle.watching.specs.Histories.{owner_of};
    ghost use Rattle.watching.specs.Owned.{owned_at, with_owned, IsGiven};

    /// Nobody has an output. Takes no memory.
    pub fn new(alloc: Global) -> Owners
        ensures { result ≡ finite.empty }
    {
        Owners {
            alloc,
            map: PersistentMap::new(alloc),
        }
    }

    /// The same again, in constant time and with no memory.
    pub fn try_clone(&self) -> Result<Owners, AllocError>
        ensures { IfOk result (λ copy. copy ≡ self.now) }
    {
        Ok(Owners {
            alloc: self.alloc,
            map: self.map.try_clone()?,
        })
    }

    /// What this owner has, if it has something. Takes a look-up, and no memory.
    pub fn get(&self, owner: &Owner) -> Option<&Utxo>
        ensures { option_copied result ≡ finite.get self.now owner.now }
    {
        self.map.get(owner)
    }

    /// What each owner has that has something, in the order of the owners' bytes. Takes no memory; each step takes time
    /// in proportion to the logarithm of their number.
    pub fn iter(&self) -> Iter<'_, Owner, Utxo>
        ensures { result ≡ finite.entries self.now }
    {
        self.map.iter()
    }

    /// A copy of what this owner has, which shares it. Takes a look-up.
    pub fn outputs(&self, owner: &Owner) -> Result<Utxo, AllocError>
        ensures { IfOk result (λ outputs. outputs ≡ owned_at self.now owner.now) }
    {
        match self.get(owner) {
            Some(outputs) => outputs.try_clone(),
            None => Ok(Utxo::new(self.alloc)),
        }
    }

    /// Gives the owner of this output the output beside those that it has. Takes a look-up, and memory for the output
    /// and for a copy of each node on the way that another version shares.
    pub fn add(&mut self, input: &Input, output: &Output) -> Result<(), AllocError>
        ensures { let o = output_of output.now in OnOk result (IsGiven self.old (owner_of o)
            (finite.insert (owned_at self.old (owner_of o)) (input_of input.now) o) self.new) }
    {
        let owner = Owner::of(&output.address);
        let mut outputs = self.outputs(&owner)?;
        outputs.insert(input, output.try_clone()?)?;
        self.set(owner, outputs)?;
        Ok(())
    }

    /// Gives the owner these outputs in the place of those that it had. One that has none takes no room.
    pub fn set(&mut self, owner: Owner, outputs: Utxo) -> Result<(), AllocError>
        ensures { OnOk result (self.new ≡ with_owned self.old owner outputs) }
    {
        if outputs.is_empty() {
            self.map.remove(&owner)?;
        } else {
            let outputs = Arc::new(self.alloc, outputs)?;
            self.map.insert(owner, outputs)?;
        }
        Ok(())
    }
}
