//! Transactions that wait, in the order in which they came.

ghost use Rattle.std.specs.Prelude.{◌≡◌, ◌↔◌, ℕ, [], length, map, sum, Contains, IsTrue, IfOk, OnOk, OnErr, IfErr};
ghost use Rattle.std.specs.Prelude.{Some, None, MatchOption};
ghost use Rattle.std.specs.Option.{option_map};
ghost use Rattle.std.specs.Arc.{arc_value};
ghost use Rattle.model.specs.Transaction.{transaction_id_of, size_of};
ghost use Rattle.model.specs.Mempool.{IsInMempool, picked};
ghost use Rattle.model.specs.Rules as model;
ghost use Rattle.model.specs.Rules.{reason_against};
ghost use Rattle.utxo_rules.specs.View.{params_of, reason_of};
ghost use Rattle.model.specs.Explaining.{IsDetail, Explains};
ghost use Rattle.utxo_rules.specs.Check.{IsCheckFault, PassesEarly};
ghost use Rattle.utxo_rules.specs.DetailView.{detail_of};
ghost use Rattle.mempool.specs.Calls.{with_tx, kept_with, resynced_on};

use crate::picking::Picked;
use ident::TxId;
use indexmap::IndexMap;
use indexmap::map::Values;
use std::alloc::{AllocError, Global};
use std::marker::Model;
use std::sync::Arc;
use tx::Tx;
use utxo_rules::{
    CheckFault, Detail, Params, Reason, Utxo, apply, check, check_early, check_late, explain_early,
    explain_late,
};
use witness_pool::{CheckedTx, SigScheme};

/// Transactions that wait, each at its identifier, in the order in which they came, and the outputs on which the next
/// one is judged.
#[derive(Drop)]
pub struct Waiting<S: SigScheme> {
    alloc: Global,
    txs: IndexMap<TxId, Arc<CheckedTx<S>>>,
    /// How many bytes their texts have together.
    bytes: u64,
    unspent: Utxo,
}

impl<S: SigScheme> Model for Waiting<S> {
    ghost use Rattle.mempool.specs.Contents as contents;
    ghost use Rattle.mempool.specs.Contents.{coded_waiting};

    ghost Value = { contents.Waiting };

    ghost coded = { coded_waiting };

    ghost use Rattle.mempool.specs.HeldWaiting.{waiting_of, IsHeldWaiting};

    ghost view = { waiting_of };

    ghost invariant = { IsHeldWaiting };
}

impl<S: SigScheme> Waiting<S> {
    /// No transaction waits, and these outputs are unspent. Takes no memory.
    pub fn new(alloc: Global, unspent: Utxo) -> Waiting<S>
        ensures { result ≡ record { txs = []; unspent = unspent } }
    {
        Waiting {
            alloc,
            txs: IndexMap::new(alloc),
            bytes: 0,
            unspent,
        }
    }

    /// The same, with room for `capacity` transactions. Err where memory runs out.
    fn with_capacity(
        alloc: Global,
        unspent: Utxo,
        capacity: usize,
    ) -> Result<Waiting<S>, AllocError>
        ensures { IfOk result (λ w. w ≡ record { txs = []; unspent = unspent }) }
    {
        Ok(Waiting {
            alloc,
            txs: IndexMap::with_capacity(alloc, capacity)?,
            bytes: 0,
            unspent,
        })
    }

    /// How many transactions wait, in constant time.
    pub fn len(&self) -> usize
        ensures { result ≡ length self.now.txs }
    {
        self.txs.len()
    }

    /// How many bytes the texts of the transactions have together, in constant time.
    pub fn bytes(&self) -> u64
        ensures { result ≡ sum (map size_of self.now.txs) }
    {
        self.bytes
    }

    /// The transactions, in their order.
    pub fn iter(&self) -> Values<'_, TxId, Arc<CheckedTx<S>>>
        ensures { map arc_value result ≡ self.now.txs }
    {
        self.txs.values()
    }

    /// Whether a transaction of this identifier waits, in constant time.
    pub fn has(&self, id: TxId) -> bool
        ensures { IsTrue result ↔ Contains (map transaction_id_of self.now.txs) id.bytes }
    {
        self.txs.contains_key(&id)
    }

    /// Judges a transaction at a slot, on what those that wait leave unspent.
    fn judge(&self, params: &Params, slot: u64, tx: &CheckedTx<S>) -> Result<(), CheckFault>
        ensures accepted { OnOk result (
            reason_against S.verifies (params_of params.now) self.now.unspent slot tx.now ≡ None) }
        ensures refused { IfErr result (IsCheckFault S.verifies (params_of params.now) self.now.unspent slot tx.now) }
    {
        check(self.alloc, params, &self.unspent, slot, tx)
    }

    /// The first of the reasons 1 to 7 against a transaction, on what those that wait leave unspent, if there is one.
    /// Takes no memory.
    pub fn judge_early(&self, params: &Params, slot: u64, tx: &Tx) -> Result<(), Reason>
        ensures refused { IfErr result (λ reason.
            reason_against S.verifies (params_of params.now) self.now.unspent slot tx.now ≡ Some (reason_of reason)) }
        ensures passed { OnOk result (
            PassesEarly S.verifies (params_of params.now) self.now.unspent slot tx.now) }
    {
        check_early(params, &self.unspent, slot, tx)
    }

    /// The first of the reasons 8 to 14 against a transaction that passed the others, if there is one.
    pub fn judge_late(&self, tx: &CheckedTx<S>) -> Result<(), CheckFault>
        ensures accepted { OnOk result ((params : model.Params) (slot : ℕ) →
            PassesEarly S.verifies params self.now.unspent slot tx.now →
            reason_against S.verifies params self.now.unspent slot tx.now ≡ None) }
        ensures refused { IfErr result (λ fault. (params : model.Params) (slot : ℕ) →
            PassesEarly S.verifies params self.now.unspent slot tx.now →
            IsCheckFault S.verifies params self.now.unspent slot tx.now fault) }
    {
        check_late(self.alloc, &self.unspent, tx)
    }

    /// The first of the reasons 1 to 7 against a transaction, on what those that wait leave unspent, with what it is
    /// about. Takes no memory.
    pub fn explain_early(&self, params: &Params, slot: u64, tx: &Tx) -> Option<Detail>
        ensures { MatchOption result
            (PassesEarly S.verifies (params_of params.now) self.now.unspent slot tx.now)
            (λ detail. IsDetail S.verifies (params_of params.now) self.now.unspent slot tx.now (detail_of detail)) }
    {
        explain_early(params, slot, &self.unspent, tx)
    }

    /// The first of the reasons 8 to 14 against a transaction that passed the others, with what it is about.
    pub fn explain_late(&self, tx: &CheckedTx<S>) -> Result<Option<Detail>, AllocError>
        ensures { IfOk result (λ told. (params : model.Params) (slot : ℕ) →
            PassesEarly S.verifies params self.now.unspent slot tx.now →
            Explains S.verifies params self.now.unspent slot tx.now (option_map detail_of told)) }
    {
        explain_late(self.alloc, &self.unspent, tx)
    }

    /// Has a transaction wait after the others. Err where memory runs out: nothing changes.
    pub fn push(&mut self, tx: Arc<CheckedTx<S>>) -> Result<(), AllocError>
        requires { IsInMempool self.old.txs (arc_value tx) → ⊥ }
        ensures ok { OnOk result (self.new ≡ with_tx self.old (arc_value tx)) }
        ensures err { OnErr result (self.new ≡ self.old) }
    {
        // No memory holds transactions whose texts have 2^64 bytes together.
        let Some(bytes) = self.bytes.checked_add(tx.tx().size()) else {
            return Err(AllocError);
        };
        let mut after = self.unspent.try_clone()?;
        apply(&mut after, tx.tx())?;
        let id = tx.tx().id();
        self.txs.insert(id, tx)?;
        self.bytes = bytes;
        self.unspent = after;
        Ok(())
    }

    /// Has a transaction wait after the others, where there is no reason against it.
    fn keep(&mut self, params: &Params, slot: u64, tx: &Arc<CheckedTx<S>>) -> Result<(), AllocError>
        requires { IsInMempool self.old.txs (arc_value tx.now) → ⊥ }
        ensures { OnOk result (
            self.new ≡ kept_with S.verifies (params_of params.now) slot self.old (arc_value tx.now)) }
    {
        match self.judge(params, slot, tx) {
            Ok(()) => self.push(Arc::try_clone(tx)?),
            Err(CheckFault::Refused(_)) => Ok(()),
            Err(CheckFault::OutOfMemory) => Err(AllocError),
        }
    }

    /// What stays of the transactions where they are passed through in their order, at a slot and on other unspent
    /// outputs. Err where memory runs out. Judges each once; nothing is verified or hashed again.
    pub fn resync(
        &self,
        params: &Params,
        unspent: &Utxo,
        slot: u64,
    ) -> Result<Waiting<S>, AllocError>
        ensures { IfOk result (λ kept.
            kept ≡ resynced_on S.verifies (params_of params.now) slot unspent.now self.now.txs) }
    {
        let unspent = unspent.try_clone()?;
        let mut kept = Waiting::with_capacity(self.alloc, unspent, self.txs.len())?;
        for tx in self.txs.values() {
            kept.keep(params, slot, tx)?;
        }
        Ok(kept)
    }

    /// What a block forged at this slot takes of the transactions, on other unspent outputs. Err where memory runs out.
    /// Judges each once; nothing is verified or hashed again, and no transaction is copied.
    pub fn pick(&self, params: &Params, unspent: &Utxo, slot: u64) -> Result<Picked<S>, AllocError>
        ensures { IfOk result (λ taken.
            taken.txs ≡ picked S.verifies (params_of params.now) slot unspent.now [] self.now.txs) }
    {
        let mut taken = Picked::new(self.alloc, unspent.try_clone()?);
        for tx in self.txs.values() {
            taken.offer(params, slot, tx)?;
        }
        Ok(taken)
    }
}
