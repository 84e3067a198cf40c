//! An index of a chain.

ghost use Rattle.std.specs.Prelude.{◌≡◌};
ghost use Rattle.block.specs.View.{tip_of};
ghost use Rattle.ident.specs.PointView.{point_of};

use crate::advance::Advance;
use crate::balance::balance;
use crate::difference::{Difference, before_blocks, drop_newest, find, push_newest};
use crate::history::History;
use crate::holders::Holder;
use crate::inclusion::Inclusion;
use crate::owner::Owner;
use crate::tables::Tables;
use crate::tx_key::TxKey;
use crate::watch_fault::WatchFault;
use crate::which::Which;
use block::{CheckedBlock, Tip};
use ident::{Point, ScriptHash, TxId};
use std::alloc::{AllocError, Global};
use std::collections::LinkedList;
use std::marker::Model;
use tx::Address;
use utxo_rules::Utxo;
use value::Totals;
use witness_pool::SigScheme;

/// An index of a chain, which is told the chain block by block and what of it is rolled back, as a follower is: the
/// unspent outputs by their addresses, which transactions spent from an address or paid to it, and where each
/// transaction was put onto the chain. It watches all outputs, or only some ([`Which`]); of the others it tells
/// nothing, so that what it tells of an address, a balance or a holder is that of the watched outputs. It keeps the
/// watched outputs, twice; the identifier of each transaction since it began that spent or made one, once by itself and
/// once for each address whose watched outputs these were; and what of that each of the last blocks changed, at most k
/// of them: memory grows with these alone. Where all outputs are watched, it tells of every transaction. It judges
/// none: who tells it blocks of a chain that isn't valid has an index of that.
pub struct Watch {
    alloc: Global,
    k: u64,
    which: Which,
    tip: Tip,
    tables: Tables,
    /// What each of the last blocks changed, the newest first.
    differences: LinkedList<Difference>,
}

// By hand, so that each exit calls it: the derived one is copied to each exit of each owner.
impl Drop for Watch {
    fn drop(self) {
        let Watch {
            alloc: _,
            k: _,
            which: _,
            tip: _,
            tables: _,
            differences: _,
        } = self;
    }
}

impl Model for Watch {
    ghost use Rattle.watching.specs.Chains.{Watched, coded_watched};

    ghost Value = { Watched };

    ghost coded = { coded_watched };

    ghost use Rattle.watching.specs.View.{watched_of, IsWatching};

    ghost view = { watched_of };

    ghost invariant = { IsWatching };
}

impl Watch {
    ghost use Rattle.std.specs.Prelude.{◌≡◌, ◌≤◌, ◌+◌, ℕ, List, [], ◌∷◌, ◌++◌, length, map, take};
    ghost use Rattle.std.specs.Prelude.{IfOk, IfErr, OnOk, OnErr};
    ghost use Rattle.std.specs.Option.{option_map};
    ghost use Rattle.std.specs.FinMap as finite;
    ghost use Rattle.model.specs.Value.{Asset, Named};
    ghost use Rattle.model.specs.Transaction.{address_bytes};
    ghost use Rattle.model.specs.Block.{Block, SpellsBlock};
    ghost use Rattle.model.specs.Utxo as model;
    ghost use Rattle.model.specs.Utxo.{sum_of};
    ghost use Rattle.model.specs.Chain.{Follows, IsLinked, genesis_tip, tip_after};
    ghost use Rattle.model.specs.Follower.{AddBlock, RollBack};
    ghost use Rattle.tx.specs.View.{address_of};
    ghost use Rattle.utxo_rules.specs.Entries.{pairs_of};
    ghost use Rattle.value.specs.Totals.{total_of};
    ghost use Rattle.watching.specs.Which.{watched_among};
    ghost use Rattle.watching.specs.Chains.{unspent_of, only_outputs, with_block, IsIndexOf};
    ghost use Rattle.watching.specs.Histories.{history_at};
    ghost use Rattle.watching.specs.Ledgers.{IsTaken, IsIndexOfTold};
    ghost use Rattle.watching.specs.Faults.{IsAddFault, IsBackFault};
    ghost use Rattle.watching.specs.Balances.{outputs_with};
    ghost use Rattle.watching.specs.Holders.{AreHolders};
    ghost use Rattle.watching.specs.View.{holder_of, inclusion_of};

    /// An index of a chain that ends at the tip and leaves these outputs, which watches those of them that `which`
    /// says. Blocks that are put on from there on can be rolled back, at most k of them; after a rollback fewer, until
    /// as many were put on again. With [`Tip::genesis`] and what a genesis grants it begins before the first block;
    /// where it begins later, no history goes further back. Err where memory runs out. Takes a few look-ups and a copy
    /// for each output, where all are watched; else a look-up for each, and two copies for each that is watched.
    pub fn new(
        alloc: Global,
        tip: Tip,
        outputs: &Utxo,
        k: u64,
        which: Which,
    ) -> Result<Watch, AllocError>
        ensures new { IfOk result (λ watch. watch ≡ record {
          k = k;
          which = which;
          last = record { tip = tip_of tip; tables = only_outputs (watched_among which outputs.now) };
          older = [];
        }) }
        // It is the index of each chain that ends so and leaves these.
        ensures chain { IfOk result (λ watch. (granted : model.Utxo) (past : List Block) →
            IsLinked genesis_tip past → tip_of tip ≡ tip_after genesis_tip past →
            outputs.now ≡ unspent_of granted past → IsIndexOf granted past [] watch) }
    {
        let tables = Tables::new(alloc, &which, outputs)?;
        Ok(Watch {
            alloc,
            k,
            which,
            tip,
            tables,
            differences: LinkedList::new(alloc),
        })
    }

    /// Which outputs it watches: always those that it was made for.
    pub fn which(&self) -> &Which
        ensures { result.now ≡ self.now.which }
    {
        &self.which
    }

    /// Where the chain ends.
    pub fn tip(&self) -> Tip
        ensures { tip_of result ≡ self.now.last.tip }
    {
        self.tip
    }

    /// How many blocks can be rolled back: at most k.
    pub fn depth(&self) -> usize
        ensures depth { result ≡ length self.now.older }
        ensures within { result ≤ self.now.k }
    {
        self.differences.len()
    }

    /// All watched outputs that are unspent. Copies nothing; [`Utxo::try_clone`] of them is a snapshot that takes no
    /// memory.
    pub fn all(&self) -> &Utxo
        ensures { result.now ≡ self.now.last.tables.outputs }
    {
        self.tables.index.all()
    }

    /// The watched outputs of this address that are unspent, in the order of their inputs. Takes a look-up, and copies
    /// nothing.
    pub fn outputs(&self, address: &Address) -> &Utxo
        ensures { finite.entries result.now ≡
            pairs_of (address_of address.now) (finite.entries self.now.last.tables.outputs) }
    {
        self.tables.index.of(address)
    }

    /// What the watched outputs of this address that are unspent hold together, each asset by itself, and how many they
    /// are. Looks at each of them. Err where memory runs out, and where they are more than 2^62.
    pub fn balance(&self, address: &Address) -> Result<Totals, AllocError>
        ensures sums { IfOk result (λ totals. (asset : Asset) →
            total_of totals asset ≡ sum_of asset (outputs_with (address_of address.now) self.now.last.tables.outputs)) }
        ensures counted { IfOk result (λ totals.
            totals.values ≡ length (outputs_with (address_of address.now) self.now.last.tables.outputs)) }
    {
        balance(self.alloc, self.outputs(address))
    }

    /// Who holds the asset of this policy and name, and how much of it, in the order of the bytes of their addresses:
    /// each address once of which watched outputs hold some. Ada is no asset of a policy. Walks through all watched
    /// outputs, with a few look-ups for each asset in them, and takes memory for the assets of one address at a time
    /// and for the holders. Amounts are exact. Err where memory runs out, and where an address has more than 2^62
    /// outputs, whose sum might not fit 128 bits.
    pub fn holders(&self, policy: &ScriptHash, name: &[u8]) -> Result<Vec<Holder>, AllocError>
        ensures { IfOk result (λ holders.
            AreHolders (Named policy.now.bytes name.now) self.now.last.tables.outputs (map holder_of holders.items)) }
    {
        self.tables.index.holders(self.alloc, policy, name)
    }

    /// Which transactions spent a watched output of this address or made one, since the index began, the newest first:
    /// each one once for each time that it came onto the chain, which on a valid chain is once. Takes a look-up, and
    /// copies nothing.
    pub fn history(&self, address: &Address) -> &History
        ensures { result.now ≡ history_at self.now.last.tables.histories (address_bytes (address_of address.now)) }
    {
        self.tables.histories.of(&Owner::of(address))
    }

    /// Where the transaction with this identifier was put onto the chain, the last time that it spent a watched output
    /// there or made one, if it did since the index began; where all outputs are watched, whatever it did. Takes a
    /// look-up.
    pub fn transaction(&self, id: &TxId) -> Option<Inclusion>
        ensures { option_map inclusion_of result ≡ finite.get self.now.last.tables.inclusions id.now.bytes }
    {
        let inclusion = self.tables.inclusions.get(&TxKey::of(id))?;
        Some(inclusion.inclusion())
    }

    /// Puts a block on. Where it can't come next, or memory runs out, nothing changes. Takes a few look-ups for each
    /// input and each output, and memory for the watched outputs, for what the block changed of what is kept, and for a
    /// copy of each node on the way to a change, until the block is on.
    pub fn add_block<S: SigScheme>(&mut self, block: &CheckedBlock<S>) -> Result<(), WatchFault>
        ensures ok { OnOk result (self.new ≡ with_block self.old block.now) }
        ensures next { OnOk result (Follows self.old.last.tip block.now) }
        ensures fault { IfErr result (IsAddFault self.old block.now) }
        ensures err { OnErr result (self.new ≡ self.old) }
        // The index of a chain is then that of the chain with the block after it.
        ensures chain { OnOk result ((granted : model.Utxo) (past since : List Block) →
            IsIndexOf granted past since self.old → IsIndexOf granted past (since ++ block.now ∷ []) self.new) }
        // It has taken the instruction that has the block's bytes.
        ensures taken { OnOk result ((bytes : List ℕ) → SpellsBlock block.now bytes →
            IsTaken self.old (AddBlock bytes) self.new) }
    {
        if !self.tip.precedes(block.block()) {
            return Err(WatchFault::NotNext);
        }
        let advance = Advance::new(self.alloc, self.tables.try_clone()?);
        let Advance { tables, changes } = advance.apply_all(
            &self.which,
            block.header(),
            block.transactions(),
        )?;
        let tip = self.tip;
        push_newest(&mut self.differences, Difference { tip, changes }, self.k)?;
        self.tables = tables;
        self.tip = Tip::at(block.block());
        Ok(())
    }

    /// Rolls back to the point. Where the index keeps no version that ends there, or memory runs out, nothing changes.
    /// Takes time and memory that grow with the blocks that are rolled back and what they changed; for a point that
    /// isn't kept, time that grows with k.
    pub fn roll_back(&mut self, point: &Point) -> Result<(), WatchFault>
        ensures ok { OnOk result (IsTaken self.old (RollBack (point_of point.now)) self.new) }
        ensures fault { IfErr result (IsBackFault self.old (point_of point.now)) }
        ensures err { OnErr result (self.new ≡ self.old) }
        // The index of a chain is then that of the chain up to the point.
        ensures chain { OnOk result ((granted : model.Utxo) (past since : List Block) →
            IsIndexOf granted past since self.old →
            IsIndexOfTold granted past (take (point_of point.now).number (past ++ since)) self.new) }
    {
        let Some((back, tip)) = find(&self.tip, &self.differences, point) else {
            return Err(WatchFault::UnknownPoint);
        };
        self.tables = before_blocks(self.tables.try_clone()?, &self.differences, back)?;
        self.tip = tip;
        drop_newest(&mut self.differences, back);
        Ok(())
    }
}
