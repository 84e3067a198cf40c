//! The mempool.

ghost use Rattle.std.specs.Prelude.{◌≡◌, ◌↔◌, ℕ, List, [], length, map, sum, IsTrue, IfOk, OnOk, OnErr};
ghost use Rattle.std.specs.Prelude.{MatchOption};
ghost use Rattle.std.specs.List.{AllByRecursion};
ghost use Rattle.std.specs.Option.{option_map};
ghost use Rattle.std.specs.Arc.{arc_value};
ghost use Rattle.model.specs.Cbor.{text_of};
ghost use Rattle.model.specs.Transaction.{Transaction, SpellsTransaction, item_of_transaction, size_of};
ghost use Rattle.model.specs.Block.{item_of_transactions};
ghost use Rattle.model.specs.Mempool.{IsInMempool, picked};
ghost use Rattle.model.specs.Evaluating.{Evaluates};
ghost use Rattle.model.specs.Rules as model;
ghost use Rattle.mempool.specs.Calls.{IsWantAtSubmission};
ghost use Rattle.utxo_rules.specs.View.{params_of};
ghost use Rattle.utxo_rules.specs.DetailView.{detail_of};
ghost use Rattle.mempool.specs.Calls.{resynced_on, IsSubmission, IsSubmissionOf, IsNew, IsWantFor, ExplainsBytes};
ghost use Rattle.mempool.specs.Picking.{IsSpelled};
ghost use Rattle.mempool.specs.View.{reply_of, evaluation_of};

use crate::evaluation::Evaluation;
use crate::reply::SubmitReply;
use crate::waiting::Waiting;
use cbor::CborFault;
use ident::TxId;
use indexmap::map::Values;
use std::alloc::{AllocError, Global};
use std::marker::Model;
use std::sync::Arc;
use tx::Tx;
use utxo_rules::{CheckFault, Detail, Params, Utxo};
use witness_pool::{CheckedTx, SigScheme, plain};

/// Transactions that wait to come into a block, in the order in which they came. In contracts it is their list, the
/// outputs on which the next one is judged, and how many may wait. No two of them have one identifier. The type knows
/// no chain: that there is no reason against each of them on what those before it leave of the chain's outputs, and
/// that the outputs here are what all of them leave, is kept by the crate `chain_core`, which submits at the slot after
/// the tip's, and puts in what stays on each chain that is selected.
#[derive(Drop)]
pub struct Mempool<S: SigScheme> {
    alloc: Global,
    capacity: u64,
    waiting: Waiting<S>,
}

impl<S: SigScheme> Model for Mempool<S> {
    ghost use Rattle.mempool.specs.Contents as contents;
    ghost use Rattle.mempool.specs.Contents.{coded_mempool};

    ghost Value = { contents.Mempool };

    ghost coded = { coded_mempool };

    ghost view = { λ m. record { capacity = m.capacity; waiting = m.waiting } };
}

/// What stays of a mempool on another chain, made ready by [`Mempool::resync`] and taken by [`Mempool::put`]. All
/// memory that the change needs is in it.
#[derive(Drop)]
pub struct Resynced<S: SigScheme> {
    waiting: Waiting<S>,
}

impl<S: SigScheme> Model for Resynced<S> {
    ghost use Rattle.mempool.specs.Contents as contents;
    ghost use Rattle.mempool.specs.Contents.{coded_waiting};

    ghost Value = { contents.Waiting };

    ghost coded = { coded_waiting };

    ghost view = { λ r. r.waiting };
}

impl<S: SigScheme> Mempool<S> {
    /// A mempool for at most `capacity` transactions, without one, on these unspent outputs. Err where memory runs out.
    pub fn new(alloc: Global, capacity: u64, unspent: &Utxo) -> Result<Mempool<S>, AllocError>
        ensures { IfOk result (λ m.
            m ≡ record { capacity = capacity; waiting = record { txs = []; unspent = unspent.now } }) }
    {
        Ok(Mempool {
            alloc,
            capacity,
            waiting: Waiting::new(alloc, unspent.try_clone()?),
        })
    }

    /// How many transactions wait, in constant time.
    pub fn len(&self) -> usize
        ensures { result ≡ length self.now.waiting.txs }
    {
        self.waiting.len()
    }

    /// How many bytes the texts of the transactions that wait have together, in constant time.
    pub fn bytes(&self) -> u64
        ensures { result ≡ sum (map size_of self.now.waiting.txs) }
    {
        self.waiting.bytes()
    }

    /// Whether no transaction waits, in constant time.
    pub fn is_empty(&self) -> bool
        ensures { IsTrue result ↔ (self.now.waiting.txs ≡ []) }
    {
        self.waiting.len() == 0
    }

    /// The transactions that wait, in their order. Copies nothing.
    pub fn iter(&self) -> Values<'_, TxId, Arc<CheckedTx<S>>>
        ensures { map arc_value result ≡ self.now.waiting.txs }
    {
        self.waiting.iter()
    }

    /// What stays of the transactions on other unspent outputs, judged in their order at this slot: that after the
    /// tip's of the chain whose outputs these are. Err where memory runs out. Judges each transaction once; no
    /// signature is verified again. Nothing changes before [`Mempool::put`].
    pub fn resync(
        &self,
        params: &Params,
        unspent: &Utxo,
        slot: u64,
    ) -> Result<Resynced<S>, AllocError>
        ensures { IfOk result (λ resynced.
            resynced ≡ resynced_on S.verifies (params_of params.now) slot unspent.now self.now.waiting.txs) }
    {
        Ok(Resynced {
            waiting: self.waiting.resync(params, unspent, slot)?,
        })
    }

    /// The text of the body that a block forged at this slot has on these unspent outputs (RFC 8949, section 4.2.1): in
    /// their order, each transaction against which there is no reason on what those taken before it leave, and for
    /// which the body has room; the others are skipped. Err where memory runs out. Judges each transaction once, and
    /// verifies, hashes and copies none; writes each text once.
    pub fn forged_body(
        &self,
        params: &Params,
        unspent: &Utxo,
        slot: u64,
    ) -> Result<Vec<u8>, AllocError>
        ensures text { IfOk result (λ text. text.items ≡ text_of (item_of_transactions
            (picked S.verifies (params_of params.now) slot unspent.now [] self.now.waiting.txs))) }
        // Each transaction of the body has a text.
        ensures spelled { OnOk result (AllByRecursion IsSpelled
            (picked S.verifies (params_of params.now) slot unspent.now [] self.now.waiting.txs)) }
    {
        self.waiting.pick(params, unspent, slot)?.body_text()
    }

    /// Takes what stays in place of what waits. Takes no memory.
    pub fn put(&mut self, resynced: Resynced<S>)
        ensures { self.new ≡ record self.old { waiting = resynced } }
    {
        self.waiting = resynced.waiting;
    }

    /// What is answered to a transaction before memory is asked for: that it is known, or the first of the reasons 1 to
    /// 7. None where it is neither. Takes no memory.
    fn early_answer(&self, params: &Params, slot: u64, tx: &Tx) -> Option<SubmitReply>
        ensures { MatchOption result
            (IsNew S.verifies (params_of params.now) slot self.now tx.now)
            (λ reply. IsSubmissionOf S.verifies (params_of params.now) slot self.now tx.now (reply_of reply) self.now) }
    {
        if self.waiting.has(tx.id()) {
            return Some(SubmitReply::Known);
        }
        match self.waiting.judge_early(params, slot, tx) {
            Ok(()) => None,
            Err(reason) => Some(SubmitReply::Refused(reason)),
        }
    }

    /// What is answered to a transaction that is new, and against which there is none of the reasons 1 to 7.
    fn late_answer(&mut self, tx: CheckedTx<S>) -> Result<SubmitReply, AllocError>
        requires { IsInMempool self.old.waiting.txs tx → ⊥ }
        ensures ok { IfOk result (λ reply. (params : model.Params) (slot : ℕ) →
            IsNew S.verifies params slot self.old tx →
            IsSubmissionOf S.verifies params slot self.old tx (reply_of reply) self.new) }
        ensures err { OnErr result (self.new ≡ self.old) }
    {
        match self.waiting.judge_late(&tx) {
            Ok(()) => {}
            Err(CheckFault::Refused(reason)) => return Ok(SubmitReply::Refused(reason)),
            Err(CheckFault::OutOfMemory) => return Err(AllocError),
        }
        if self.waiting.len() as u64 >= self.capacity {
            return Ok(SubmitReply::Full);
        }
        self.waiting.push(Arc::new(self.alloc, tx)?)?;
        Ok(SubmitReply::Added)
    }

    /// A transaction with its verdicts is submitted, and judged at this slot: that after the tip's. Err where memory
    /// runs out, which it does not where the transaction is known or one of the reasons 1 to 7 is there: nothing
    /// changes.
    pub fn submit_checked(
        &mut self,
        params: &Params,
        slot: u64,
        tx: CheckedTx<S>,
    ) -> Result<SubmitReply, AllocError>
        ensures ok { IfOk result (λ reply.
            IsSubmissionOf S.verifies (params_of params.now) slot self.old tx (reply_of reply) self.new) }
        ensures err { OnErr result (self.new ≡ self.old) }
        // Memory is asked for only where the answer isn't known without it.
        ensures memory { OnErr result ((bytes : List ℕ) → SpellsTransaction tx bytes →
            IsWantFor S.verifies (params_of params.now) slot self.old bytes) }
        // A transaction that was checked has a text.
        ensures spelled { SpellsTransaction tx (text_of (item_of_transaction tx)) }
    {
        if let Some(reply) = self.early_answer(params, slot, tx.tx()) {
            return Ok(reply);
        }
        self.late_answer(tx)
    }

    /// Bytes of a transaction are submitted, and judged at this slot: that after the tip's. Err where memory runs out:
    /// nothing changes. Linear in the bytes, with a look-up of the identifier; only a transaction that is new, and
    /// against which there is none of the reasons 1 to 7, has its signatures verified.
    pub fn submit(
        &mut self,
        params: &Params,
        slot: u64,
        bytes: &[u8],
    ) -> Result<SubmitReply, AllocError>
        ensures ok { IfOk result (λ reply.
            IsSubmission S.verifies (params_of params.now) slot self.old bytes.now (reply_of reply) self.new) }
        ensures err { OnErr result (self.new ≡ self.old) }
        // Memory is asked for only where the bytes begin as a transaction does, and not at one without parts.
        ensures memory { OnErr result (IsWantAtSubmission bytes.now) }
    {
        let tx = match Tx::decode(self.alloc, bytes) {
            Ok(tx) => tx,
            Err(CborFault::Malformed) => return Ok(SubmitReply::Malformed),
            Err(CborFault::OutOfMemory) => return Err(AllocError),
        };
        if let Some(reply) = self.early_answer(params, slot, &tx) {
            return Ok(reply);
        }
        self.late_answer(plain(self.alloc, tx)?)
    }

    /// What these bytes would be answered at this slot if they were submitted, and where they would be refused, what the
    /// reason is about. At the slot after the tip's it is what [`Mempool::submit`] answers. Changes nothing. Linear in
    /// the bytes, with a look-up of the identifier; only a transaction that is new, and against which there is none of
    /// the reasons 1 to 7, has its signatures verified, and what [`utxo_rules::explain_late`] takes comes to it. Err
    /// where memory runs out.
    pub fn evaluate(
        &self,
        params: &Params,
        slot: u64,
        bytes: &[u8],
    ) -> Result<Evaluation, AllocError>
        ensures told { IfOk result (λ told. Evaluates S.verifies (params_of params.now) slot self.now.waiting.unspent
            self.now.capacity self.now.waiting.txs bytes.now (evaluation_of told)) }
        // Memory is asked for only where the bytes begin as a transaction does, and not at one without parts.
        ensures memory { OnErr result (IsWantAtSubmission bytes.now) }
    {
        let tx = match Tx::decode(self.alloc, bytes) {
            Ok(tx) => tx,
            Err(CborFault::Malformed) => return Ok(Evaluation::Malformed),
            Err(CborFault::OutOfMemory) => return Err(AllocError),
        };
        if self.waiting.has(tx.id()) {
            return Ok(Evaluation::Known);
        }
        if let Some(detail) = self.waiting.explain_early(params, slot, &tx) {
            return Ok(Evaluation::Refused(detail));
        }
        self.evaluate_late(&plain(self.alloc, tx)?)
    }

    /// What a transaction would be answered that is new, and against which there is none of the reasons 1 to 7.
    fn evaluate_late(&self, tx: &CheckedTx<S>) -> Result<Evaluation, AllocError>
        ensures { IfOk result (λ told. (params : model.Params) (slot : ℕ) (bytes : List ℕ) →
            IsNew S.verifies params slot self.now tx.now → SpellsTransaction tx.now bytes →
            Evaluates S.verifies params slot self.now.waiting.unspent self.now.capacity self.now.waiting.txs bytes
            (evaluation_of told)) }
    {
        if let Some(detail) = self.waiting.explain_late(tx)? {
            return Ok(Evaluation::Refused(detail));
        }
        if self.waiting.len() as u64 >= self.capacity {
            return Ok(Evaluation::Full);
        }
        Ok(Evaluation::Acceptable)
    }

    /// Why these bytes would be refused at this slot, that after the tip's, if they were submitted: the reason against
    /// the transaction with what it is about. None where they would be refused for no reason: they are no transaction,
    /// it waits already, or there is nothing against it. It is what [`Mempool::evaluate`] tells of a refusal, and costs
    /// the same. Changes nothing. Err where memory runs out.
    pub fn explain(
        &self,
        params: &Params,
        slot: u64,
        bytes: &[u8],
    ) -> Result<Option<Detail>, AllocError>
        ensures told { IfOk result (λ told.
            ExplainsBytes S.verifies (params_of params.now) slot self.now bytes.now (option_map detail_of told)) }
        // Memory is asked for only where the bytes begin as a transaction does, and not at one without parts.
        ensures memory { OnErr result (IsWantAtSubmission bytes.now) }
    {
        match self.evaluate(params, slot, bytes)? {
            Evaluation::Refused(detail) => Ok(Some(detail)),
            Evaluation::Malformed | Evaluation::Known | Evaluation::Full | Evaluation::Acceptable =>
                Ok(None),
        }
    }
}
