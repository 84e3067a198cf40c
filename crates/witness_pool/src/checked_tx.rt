//! Transactions with their verdicts.

ghost use Rattle.std.specs.Prelude.{◌≡◌, map, IfOk};
ghost use Rattle.model.specs.Rules.{has_good_signatures, keys_of, scripts_hold};
ghost use Rattle.timelock.specs.View.{key_bytes};

use crate::scheme::SigScheme;
use crate::verdicts::{all_good, all_hold, key_hashes};
use ident::KeyHash;
use std::alloc::{AllocError, Global};
use std::marker::{Model, PhantomData};
use tx::Tx;

/// A transaction with what the rules ask of it whatever it spends: whether its signatures are good under the scheme,
/// the hashes of its keys, and whether its scripts hold. The type keeps them to be those of its own bytes.
#[derive(Drop)]
pub struct CheckedTx<S: SigScheme> {
    alloc: Global,
    tx: Tx,
    signed: bool,
    keys: Vec<KeyHash>,
    holding: bool,
    scheme: PhantomData<S>,
}

impl<S: SigScheme> Model for CheckedTx<S> {
    ghost use Rattle.model.specs.Transaction.{Transaction};
    ghost use Rattle.model.specs.Codes.{coded_transaction};

    ghost Value = { Transaction };

    ghost coded = { coded_transaction };

    ghost use Rattle.witness_pool.specs.Verdicts.{transaction_of, AreVerdicts};

    ghost view = { transaction_of };

    ghost invariant = { AreVerdicts S.verifies };
}

impl<S: SigScheme> CheckedTx<S> {
    /// The transaction. Copies nothing.
    pub fn tx(&self) -> &Tx
        ensures { result.now ≡ self.now }
    {
        &self.tx
    }

    /// Whether each signature is good for its key over the transaction's identifier.
    pub fn is_signed(&self) -> bool
        ensures { result ≡ has_good_signatures S.verifies self.now }
    {
        self.signed
    }

    /// The hashes of the keys that signed, in the order of the signatures. Copies nothing.
    pub fn keys(&self) -> &[KeyHash]
        ensures { map key_bytes result.now ≡ keys_of self.now }
    {
        &self.keys
    }

    /// Whether each script that is supplied holds for those keys and the transaction's interval.
    pub fn scripts_hold(&self) -> bool
        ensures { result ≡ scripts_hold self.now }
    {
        self.holding
    }

    /// An equal transaction with its verdicts. Err where memory runs out. Linear in the transaction; nothing is hashed
    /// or verified again.
    pub fn try_clone(&self) -> Result<CheckedTx<S>, AllocError>
        ensures { IfOk result (λ copy. copy ≡ self.now) }
    {
        Ok(CheckedTx {
            alloc: self.alloc,
            tx: self.tx.try_clone()?,
            signed: self.signed,
            keys: Vec::from_slice(self.alloc, &self.keys)?,
            holding: self.holding,
            scheme: PhantomData,
        })
    }
}

/// The transaction with its verdicts, computed one after the other on this thread. Err where memory runs out for the
/// hashes of the keys: then the transaction is gone, so who wants it still copies it before. Linear in the transaction,
/// with one call of the scheme and one digest for each signature.
pub fn plain<S: SigScheme>(alloc: Global, tx: Tx) -> Result<CheckedTx<S>, AllocError>
    ensures { IfOk result (λ checked. checked ≡ tx) }
{
    let keys = key_hashes(alloc, tx.signatures())?;
    let signed = all_good::<S>(tx.id().as_bytes(), tx.signatures());
    let holding = all_hold(&keys, tx.interval(), tx.scripts());
    Ok(CheckedTx {
        alloc,
        tx,
        signed,
        keys,
        holding,
        scheme: PhantomData,
    })
}
