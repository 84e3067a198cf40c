//! What is kept while a block is put on.

ghost use Rattle.std.specs.Prelude.{◌≡◌, ◌≤◌, ◌||◌, [], map, length, is_some, IfOk, if◌then◌else◌};
ghost use Rattle.std.specs.List.{list_any};
ghost use Rattle.std.specs.FinMap as finite;
ghost use Rattle.model.specs.Limits.{output_limit};
ghost use Rattle.model.specs.Utxo.{output_at, outputs_at, without, pairs_from};
ghost use Rattle.tx.specs.View.{input_of, output_of};
ghost use Rattle.block.specs.View.{header_of};
ghost use Rattle.watching.specs.Which.{AreWatched, is_all, is_watched, watched_outputs};
ghost use Rattle.watching.specs.Advances.{IsChanged, tables_in, with_outputs, with_histories, with_inclusions};
ghost use Rattle.watching.specs.Advances.{placed, with_watched};
ghost use Rattle.watching.specs.Chains.{tables_after, tables_after_all};
ghost use Rattle.watching.specs.Histories.{with_entry, with_entries, owners_of};
ghost use Rattle.watching.specs.View.{tables_of, inclusion_of};

use crate::change::{Change, Was};
use crate::inclusion::{Inclusion, NewestFirst};
use crate::owner::Owner;
use crate::tables::Tables;
use crate::tx_key::TxKey;
use crate::which::Which;
use block::Header;
use ident::TxId;
use std::alloc::{AllocError, Global};
use tx::{Input, Output, Tx};
use witness_pool::{CheckedTx, SigScheme};

/// A transaction as it is entered: its identifier, and where it is put on.
#[derive(Clone, Copy, Drop)]
pub struct Entry {
    pub id: TxKey,
    pub inclusion: NewestFirst,
}

/// What is kept while a block is put on, and what was changed in it so far. Each call gives it back changed; it is gone
/// with an Err, which comes where memory runs out.
#[derive(Drop)]
pub struct Advance {
    pub tables: Tables,
    pub changes: Vec<Change>,
}

impl Advance {
    /// Nothing was changed so far.
    pub fn new(alloc: Global, tables: Tables) -> Advance
        ensures tables { tables_of result.tables ≡ tables_of tables }
        ensures changes { result.changes.items ≡ [] }
    {
        Advance {
            tables,
            changes: Vec::new(alloc),
        }
    }

    /// Enters a transaction for an owner, where it isn't entered yet.
    fn enter(self, owner: Owner, entry: &Entry) -> Result<Advance, AllocError>
        ensures { IfOk result (λ new. IsChanged self new (with_histories
            (with_entry entry.now.inclusion entry.now.id owner (tables_in self).histories) (tables_in self))) }
    {
        let mut history = self.tables.histories.of(&owner).try_clone()?;
        let inclusion = entry.inclusion;
        let before = history.get(&inclusion);
        if before == Some(entry.id) {
            return Ok(self);
        }
        history.insert(inclusion, entry.id)?;
        let mut advance = self;
        advance.tables.histories.set(owner, history)?;
        let was = Was::EntryAt {
            owner,
            inclusion,
            before,
        };
        advance.changes.push(Change { was })?;
        Ok(advance)
    }

    /// Enters a transaction for the owners of what these inputs would spend.
    fn enter_spent(self, inputs: &[Input], entry: &Entry) -> Result<Advance, AllocError>
        ensures { IfOk result (λ new. IsChanged self new (with_histories
            (with_entries entry.now.inclusion entry.now.id
            (owners_of (outputs_at (tables_in self).outputs (map input_of inputs.now))) (tables_in self).histories)
            (tables_in self))) }
    {
        let mut advance = self;
        for input in inputs {
            if let Some(owner) = advance.tables.index.owner_at(input) {
                advance = advance.enter(owner, entry)?;
            }
        }
        Ok(advance)
    }

    /// Enters a transaction for the owners of the watched ones of these outputs.
    fn enter_made(
        self,
        which: &Which,
        outputs: &[Output],
        entry: &Entry,
    ) -> Result<Advance, AllocError>
        ensures { IfOk result (λ new. IsChanged self new (with_histories
            (with_entries entry.now.inclusion entry.now.id
            (owners_of (watched_outputs which.now (map output_of outputs.now))) (tables_in self).histories)
            (tables_in self))) }
    {
        let mut advance = self;
        for output in outputs {
            if which.watches(output) {
                advance = advance.enter(Owner::of(&output.address), entry)?;
            }
        }
        Ok(advance)
    }

    /// Whether all outputs are watched, or one of these inputs would spend an output, or one of these is watched.
    fn tells(&self, which: &Which, inputs: &[Input], outputs: &[Output]) -> bool
        ensures { result ≡ (is_all which.now
            || (list_any (λ i. is_some (output_at (tables_in self.now).outputs i)) (map input_of inputs.now)
            || list_any (is_watched which.now) (map output_of outputs.now))) }
    {
        which.is_all() || self.tables.index.has_some(inputs) || which.watches_some(outputs)
    }

    /// Gives the transaction its inclusion.
    fn include(self, entry: &Entry) -> Result<Advance, AllocError>
        ensures { IfOk result (λ new. IsChanged self new (with_inclusions
            (finite.insert (tables_in self).inclusions entry.now.id entry.now.inclusion) (tables_in self))) }
    {
        let mut advance = self;
        let id = entry.id;
        let before = advance.tables.inclusions.get(&id);
        advance.tables.inclusions.insert(id, entry.inclusion)?;
        let was = Was::InclusionOf { id, before };
        advance.changes.push(Change { was })?;
        Ok(advance)
    }

    /// Gives the transaction its inclusion, if it is told.
    fn include_if(self, is_told: bool, entry: &Entry) -> Result<Advance, AllocError>
        ensures { IfOk result (λ new. IsChanged self new (with_inclusions (if is_told then
            finite.insert (tables_in self).inclusions entry.now.id entry.now.inclusion
            else (tables_in self).inclusions) (tables_in self))) }
    {
        if is_told {
            self.include(entry)
        } else {
            Ok(self)
        }
    }

    /// Spends what stands at the input. Where nothing does, nothing is noted.
    fn spend(self, input: &Input) -> Result<Advance, AllocError>
        ensures { IfOk result (λ new. IsChanged self new (with_outputs
            (finite.remove (tables_in self).outputs (input_of input.now)) (tables_in self))) }
    {
        if self.tables.index.all().get(input).is_none() {
            return Ok(self);
        }
        let Advance {
            mut tables,
            mut changes,
        } = self;
        let (index, before) = tables.index.without(input)?;
        tables.index = index;
        let was = Was::OutputAt {
            input: *input,
            before,
        };
        changes.push(Change { was })?;
        Ok(Advance { tables, changes })
    }

    /// Puts the output where the input would spend it, if it is watched. Else nothing stands there any more.
    fn place(self, which: &Which, input: Input, output: &Output) -> Result<Advance, AllocError>
        ensures { IfOk result (λ new. IsChanged self new (with_outputs
            (placed which.now (input_of input) (output_of output.now) (tables_in self).outputs) (tables_in self))) }
    {
        if !which.watches(output) {
            return self.spend(&input);
        }
        let Advance {
            mut tables,
            mut changes,
        } = self;
        let (index, before) = tables.index.without(&input)?;
        tables.index = index.with(&input, output.try_clone()?)?;
        let was = Was::OutputAt { input, before };
        changes.push(Change { was })?;
        Ok(Advance { tables, changes })
    }

    /// Spends what these inputs spend.
    fn spend_all(self, inputs: &[Input]) -> Result<Advance, AllocError>
        ensures { IfOk result (λ new. IsChanged self new (with_outputs
            (without (map input_of inputs.now) (tables_in self).outputs) (tables_in self))) }
    {
        let mut advance = self;
        for input in inputs {
            advance = advance.spend(input)?;
        }
        Ok(advance)
    }

    /// Puts in the watched ones of the outputs of the transaction with this identifier, counted from 0 on.
    fn place_all(self, which: &Which, id: TxId, outputs: &[Output]) -> Result<Advance, AllocError>
        requires { length outputs.now ≤ output_limit }
        ensures { IfOk result (λ new. IsChanged self new (with_outputs
            (with_watched which.now (pairs_from id.bytes 0 (map output_of outputs.now)) (tables_in self).outputs)
            (tables_in self))) }
    {
        let mut advance = self;
        for (index, output) in outputs.iter().enumerate() {
            let input = Input {
                transaction: id,
                index: index as u16,
            };
            advance = advance.place(which, input, output)?;
        }
        Ok(advance)
    }

    /// Puts a transaction on, at this inclusion. It isn't judged.
    fn apply(self, which: &Which, tx: &Tx, inclusion: &Inclusion) -> Result<Advance, AllocError>
        requires { AreWatched which.now (tables_in self).outputs }
        ensures { IfOk result (λ new.
            IsChanged self new (tables_after which.now (inclusion_of inclusion.now) (tables_in self) tx.now)) }
    {
        let id = tx.id();
        let entry = Entry {
            id: TxKey::of(&id),
            inclusion: NewestFirst::of(inclusion),
        };
        let inputs = tx.inputs();
        let outputs = tx.outputs();
        let is_told = self.tells(which, inputs, outputs);
        let advance = self.enter_spent(inputs, &entry)?;
        let advance = advance.enter_made(which, outputs, &entry)?;
        let advance = advance.include_if(is_told, &entry)?;
        let advance = advance.spend_all(inputs)?;
        advance.place_all(which, id, outputs)
    }

    /// Puts the transactions of a block with this header on, one after the other.
    pub fn apply_all<S: SigScheme>(
        self,
        which: &Which,
        header: &Header,
        transactions: &[CheckedTx<S>],
    ) -> Result<Advance, AllocError>
        requires { AreWatched which.now (tables_in self).outputs }
        ensures { IfOk result (λ new. IsChanged self new
            (tables_after_all which.now (header_of header.now) 0 (tables_in self) transactions.now)) }
    {
        let mut advance = self;
        for (index, tx) in transactions.iter().enumerate() {
            let inclusion = Inclusion {
                number: header.number,
                slot: header.slot,
                index: index as u64,
            };
            advance = advance.apply(which, tx.tx(), &inclusion)?;
        }
        Ok(advance)
    }
}
