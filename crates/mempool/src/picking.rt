//! What a forged block takes of the transactions that wait.

ghost use Rattle.std.specs.Prelude.{◌≡◌, [], ◌∷◌, ◌++◌, IsTrue, IfOk, OnOk};
ghost use Rattle.std.specs.List.{AllByRecursion};
ghost use Rattle.std.specs.Arc.{arc_value};
ghost use Rattle.model.specs.Cbor.{text_of};
ghost use Rattle.model.specs.Block.{item_of_transactions};
ghost use Rattle.model.specs.Mempool.{fits_in_a_block};
ghost use Rattle.utxo_rules.specs.View.{params_of};
ghost use Rattle.mempool.specs.Calls.{with_tx};
ghost use Rattle.mempool.specs.Picking.{IsRoomFor, IsSpelled, offered};

use cbor::Encode;
use std::alloc::{AllocError, Global};
use std::marker::Model;
use std::sync::Arc;
use tx::{MAX_TX_NESTING, Tx};
use utxo_rules::{CheckFault, Params, Utxo, apply, check};
use witness_pool::{CheckedTx, SigScheme};

/// A transaction that was taken. It is shared with the mempool.
#[derive(Drop)]
pub struct Taken<S: SigScheme> {
    tx: Arc<CheckedTx<S>>,
}

impl<S: SigScheme> Encode for Taken<S> {
    ghost use Rattle.model.specs.Transaction.{item_of_transaction};
    ghost use Rattle.mempool.specs.Taking.{taken_tx};

    ghost item_of = { λ taken. item_of_transaction (taken_tx taken) };

    fn write(&self, out: &mut Vec<u8>) -> Result<(), AllocError> {
        Encode::write(self.tx.tx(), out)
    }
}

/// The transactions of a block in the making, in their order, and what they leave unspent.
#[derive(Drop)]
pub struct Picked<S: SigScheme> {
    alloc: Global,
    txs: Vec<Taken<S>>,
    size: u64,
    unspent: Utxo,
}

impl<S: SigScheme> Model for Picked<S> {
    ghost use Rattle.mempool.specs.Contents as contents;
    ghost use Rattle.mempool.specs.Contents.{coded_waiting};

    ghost Value = { contents.Waiting };

    ghost coded = { coded_waiting };

    ghost use Rattle.mempool.specs.HeldPicked.{picked_of, IsHeldPicked};

    ghost view = { picked_of };

    ghost invariant = { IsHeldPicked };
}

impl<S: SigScheme> Picked<S> {
    /// Nothing was taken, and these outputs are unspent. Takes no memory.
    pub fn new(alloc: Global, unspent: Utxo) -> Picked<S>
        ensures { result ≡ record { txs = []; unspent = unspent } }
    {
        Picked {
            alloc,
            txs: Vec::new(alloc),
            size: 0,
            unspent,
        }
    }

    /// Whether a block with the transaction too has a text, and a body that isn't too big. Linear in the outputs and
    /// the scripts; no text is measured again.
    fn has_room(&self, params: &Params, tx: &Tx) -> bool
        ensures exact { result ≡ fits_in_a_block (params_of params.now) (self.now.txs ++ tx.now ∷ []) }
        ensures room { IsTrue result → IsRoomFor self.now.txs tx.now }
    {
        let head = cbor::head_size(self.txs.len() as u64 + 1);
        let size = self.size.saturating_add(tx.size()).saturating_add(head);
        let most = params.max_body_size;
        size <= most.into() && tx.nesting() <= MAX_TX_NESTING
    }

    /// Takes a transaction after the others.
    fn take(&mut self, tx: Arc<CheckedTx<S>>) -> Result<(), AllocError>
        requires { IsRoomFor self.old.txs (arc_value tx) }
        ensures { OnOk result (self.new ≡ with_tx self.old (arc_value tx)) }
    {
        let size = self.size + tx.tx().size();
        apply(&mut self.unspent, tx.tx())?;
        self.txs.push(Taken { tx })?;
        self.size = size;
        Ok(())
    }

    /// Takes a transaction where the body has room for it and there is no reason against it at the slot, on what those
    /// that were taken leave unspent. Err where memory runs out.
    pub fn offer(
        &mut self,
        params: &Params,
        slot: u64,
        tx: &Arc<CheckedTx<S>>,
    ) -> Result<(), AllocError>
        ensures { OnOk result (
            self.new ≡ offered S.verifies (params_of params.now) slot self.old (arc_value tx.now)) }
    {
        if !self.has_room(params, tx.tx()) {
            return Ok(());
        }
        match check(self.alloc, params, &self.unspent, slot, tx) {
            Ok(()) => self.take(Arc::try_clone(tx)?),
            Err(CheckFault::Refused(_)) => Ok(()),
            Err(CheckFault::OutOfMemory) => Err(AllocError),
        }
    }

    /// The text of the body that has these transactions (RFC 8949, section 4.2.1). Each text is written once.
    pub fn body_text(&self) -> Result<Vec<u8>, AllocError>
        ensures text { IfOk result (λ text. text.items ≡ text_of (item_of_transactions self.now.txs)) }
        // Each transaction has a text.
        ensures spelled { AllByRecursion IsSpelled self.now.txs }
    {
        let head = cbor::head_size(self.txs.len() as u64);
        let size = usize::try_from(self.size.saturating_add(head)).unwrap_or(0);
        let mut text = Vec::with_capacity(self.alloc, size)?;
        cbor::write_list_array(&mut text, &self.txs)?;
        Ok(text)
    }
}
