//! The unspent outputs, and those of each address.

use crate::holders::{Holder, holders};
use crate::owner::Owner;
use crate::owners::Owners;
use crate::which::Which;
use ident::ScriptHash;
use std::alloc::{AllocError, Global};
use std::marker::Model;
use tx::{Address, Input, Output};
use utxo_rules::Utxo;

/// Unspent outputs with an index of their addresses. In contracts it is the set of the outputs. A copy takes no memory,
/// and shares what the two have in common.
pub struct Index {
    all: Utxo,
    owners: Owners,
    /// What is lent where an owner has nothing.
    nothing: Utxo,
}

// By hand, so that each exit calls it: the derived one is copied to each exit of each owner.
impl Drop for Index {
    fn drop(self) {
        let Index {
            all: _,
            owners: _,
            nothing: _,
        } = self;
    }
}

impl Model for Index {
    ghost use Rattle.model.specs.Utxo as model;
    ghost use Rattle.watching.specs.Chains.{coded_utxo};

    ghost Value = { model.Utxo };

    ghost coded = { coded_utxo };

    ghost view = { λ i. i.all };

    ghost use Rattle.watching.specs.Inside.{IsIndexed};

    ghost invariant = { IsIndexed };
}

impl Index {
    ghost use Rattle.std.specs.Prelude.{◌≡◌, IfOk, None, is_some, map, option_map};
    ghost use Rattle.std.specs.List.{list_any};
    ghost use Rattle.watching.specs.Changes.{restored};
    ghost use Rattle.watching.specs.Histories.{owner_of};
    ghost use Rattle.watching.specs.Holders.{AreHolders};
    ghost use Rattle.watching.specs.View.{holder_of};
    ghost use Rattle.watching.specs.Which.{watched_among};
    ghost use Rattle.std.specs.FinMap as finite;
    ghost use Rattle.model.specs.Value.{Named};
    ghost use Rattle.model.specs.Utxo.{output_at};
    ghost use Rattle.tx.specs.View.{address_of, input_of, output_of};
    ghost use Rattle.utxo_rules.specs.Entries.{pairs_of};

    /// No outputs. Takes no memory.
    pub fn new(alloc: Global) -> Index
        ensures { result ≡ finite.empty }
    {
        Index {
            all: Utxo::new(alloc),
            owners: Owners::new(alloc),
            nothing: Utxo::new(alloc),
        }
    }

    /// These outputs, all of them, which are shared. Err where memory runs out. Takes a look-up and a copy for each.
    fn of_all(alloc: Global, outputs: &Utxo) -> Result<Index, AllocError>
        ensures { IfOk result (λ index. index ≡ outputs.now) }
    {
        let mut owners = Owners::new(alloc);
        for (input, output) in outputs.iter() {
            owners.add(&input, output)?;
        }
        Ok(Index {
            all: outputs.try_clone()?,
            owners,
            nothing: Utxo::new(alloc),
        })
    }

    /// The watched ones of these outputs. Err where memory runs out. Takes a look-up for each, and a few more and two
    /// copies for each that is watched.
    fn of_watched(alloc: Global, which: &Which, outputs: &Utxo) -> Result<Index, AllocError>
        ensures { IfOk result (λ index. index ≡ watched_among which.now outputs.now) }
    {
        let mut index = Index::new(alloc);
        for (input, output) in outputs.iter() {
            if which.watches(output) {
                index = index.put(&input, output.try_clone()?)?;
            }
        }
        Ok(index)
    }

    /// The watched ones of these outputs. Err where memory runs out. Takes a look-up and a copy for each, where all are
    /// watched; else a look-up for each, and a few more and two copies for each that is watched.
    pub fn from_outputs(alloc: Global, which: &Which, outputs: &Utxo) -> Result<Index, AllocError>
        ensures { IfOk result (λ index. index ≡ watched_among which.now outputs.now) }
    {
        if which.is_all() {
            return Index::of_all(alloc, outputs);
        }
        Index::of_watched(alloc, which, outputs)
    }

    /// The same again, in constant time and with no memory.
    pub fn try_clone(&self) -> Result<Index, AllocError>
        ensures { IfOk result (λ copy. copy ≡ self.now) }
    {
        Ok(Index {
            all: self.all.try_clone()?,
            owners: self.owners.try_clone()?,
            nothing: self.nothing.try_clone()?,
        })
    }

    /// All outputs. Copies nothing.
    pub fn all(&self) -> &Utxo
        ensures { result.now ≡ self.now }
    {
        &self.all
    }

    /// The outputs of this address. Takes a look-up, and copies nothing.
    pub fn of(&self, address: &Address) -> &Utxo
        ensures { finite.entries result.now ≡ pairs_of (address_of address.now) (finite.entries self.now) }
    {
        match self.owners.get(&Owner::of(address)) {
            Some(outputs) => outputs,
            None => &self.nothing,
        }
    }

    /// Who holds the asset of this policy and name, and how much of it. Adds up the outputs of each address by
    /// themselves. Err where memory runs out, and where an address has more than 2^62 outputs.
    pub fn holders(
        &self,
        alloc: Global,
        policy: &ScriptHash,
        name: &[u8],
    ) -> Result<Vec<Holder>, AllocError>
        ensures { IfOk result (λ holders.
            AreHolders (Named policy.now.bytes name.now) self.now (map holder_of holders.items)) }
    {
        holders(alloc, &self.owners, policy, name)
    }

    /// Whose the output is that this input would spend, if one stands there. Takes a look-up.
    pub fn owner_at(&self, input: &Input) -> Option<Owner>
        ensures { result ≡ option_map owner_of (output_at self.now (input_of input.now)) }
    {
        let output = self.all.get(input)?;
        Some(Owner::of(&output.address))
    }

    /// Whether one of these inputs would spend an output. Takes a look-up for each, until one does.
    pub fn has_some(&self, inputs: &[Input]) -> bool
        ensures { result ≡ list_any (λ i. is_some (output_at self.now i)) (map input_of inputs.now) }
    {
        for input in inputs {
            if self.all.get(input).is_some() {
                return true;
            }
        }
        false
    }

    /// The index without the output that this input would spend, and that output, if one stands there. Err where memory
    /// runs out: the index is gone with the call. Takes a few look-ups, and memory for a copy of each node on the way
    /// that another version shares.
    pub fn without(self, input: &Input) -> Result<(Index, Option<Output>), AllocError>
        ensures left { IfOk result (λ made. made.0 ≡ finite.remove self (input_of input.now)) }
        ensures taken { IfOk result (λ made. option_map output_of made.1 ≡ output_at self (input_of input.now)) }
    {
        let output = match self.all.get(input) {
            Some(output) => output.try_clone()?,
            None => return Ok((self, None)),
        };
        let Index {
            mut all,
            mut owners,
            nothing,
        } = self;
        let owner = Owner::of(&output.address);
        let mut outputs = owners.outputs(&owner)?;
        outputs.remove(input)?;
        owners.set(owner, outputs)?;
        all.remove(input)?;
        let index = Index {
            all,
            owners,
            nothing,
        };
        Ok((index, Some(output)))
    }

    /// The index with this output where the input would spend it, where none stands. Err where memory runs out: the
    /// index is gone with the call. Takes a few look-ups, and memory for the output and for a copy of each node on the
    /// way that another version shares.
    pub fn with(self, input: &Input, output: Output) -> Result<Index, AllocError>
        requires { output_at self (input_of input.now) ≡ None }
        ensures { IfOk result (λ index. index ≡ finite.insert self (input_of input.now) (output_of output)) }
    {
        let Index {
            mut all,
            mut owners,
            nothing,
        } = self;
        owners.add(input, &output)?;
        all.insert(input, output)?;
        Ok(Index {
            all,
            owners,
            nothing,
        })
    }

    /// The index with this output in the place of whatever the input would spend. Err where memory runs out: the index
    /// is gone with the call.
    fn put(self, input: &Input, output: Output) -> Result<Index, AllocError>
        ensures { IfOk result (λ index. index ≡ finite.insert self (input_of input.now) (output_of output)) }
    {
        let (index, _) = self.without(input)?;
        index.with(input, output)
    }

    /// The index with what this input would have spent before. Err where memory runs out: the index is gone with the
    /// call.
    pub fn restore(self, input: &Input, before: &Option<Output>) -> Result<Index, AllocError>
        ensures { IfOk result (λ index.
            index ≡ restored self (input_of input.now) (option_map output_of before.now)) }
    {
        match before {
            Some(output) => self.put(input, output.try_clone()?),
            None => {
                let (index, _) = self.without(input)?;
                Ok(index)
            }
        }
    }
}
