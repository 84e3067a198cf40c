//! What a transaction has beside its witnesses.

ghost use Rattle.std.specs.Prelude.{◌≡◌, ℕ, List, [], map, IfOk, OnOk};
ghost use Rattle.model.specs.Script as model;
ghost use Rattle.model.specs.Cbor.{text_of};
ghost use Rattle.model.specs.Transaction.{KeyWitness as Witness, Transaction, SpellsTransaction, item_of_transaction};
ghost use Rattle.model.specs.Transaction.{transaction_id_of, item_of_body};
ghost use Rattle.value.specs.Parts.{IsMintOf};
ghost use Rattle.value.specs.View.{asset_of};
ghost use Rattle.tx.specs.Making.{parts_of};
ghost use Rattle.tx.specs.Parts.{IsTxOf};
ghost use Rattle.tx.specs.View.{witness_of};
ghost use Rattle.draft.specs.Draft.{witness_by};
ghost use Rattle.draft.specs.UnsignedView.{parts_of_unsigned, HasNoWitnesses};

use crate::signer::{Signer, witness};
use ident::TxId;
use std::alloc::{AllocError, Global};
use timelock::{Interval, Script};
use tx::{Input, KeyWitness, Output, Tx, TxParts, clone_outputs};
use value::{AssetQuantity, Mint};

/// The parts that the identifier of a transaction is made of.
#[derive(Drop)]
pub struct Unsigned {
    pub inputs: Vec<Input>,
    pub outputs: Vec<Output>,
    pub fee: u64,
    pub interval: Interval,
    pub mint: Mint,
}

/// What the signers make of an identifier.
fn witnesses_by<K: Signer>(
    alloc: Global,
    signers: &[K],
    id: &[u8; 32],
) -> Result<Vec<KeyWitness>, AllocError>
    ensures { IfOk result (λ made. map witness_of made.items ≡ map (witness_by id.now) (map K.signer signers.now)) }
{
    let mut made = Vec::with_capacity(alloc, signers.len())?;
    for signer in signers {
        made.push(witness(signer, id))?;
    }
    Ok(made)
}

/// The transaction of these parts. Err where they are at fault, or memory ran out. Those of a draft have no fault, with
/// or without witnesses (`Draft::finish`), so for them Err tells only that memory ran out.
fn tx_of(alloc: Global, parts: TxParts) -> Result<Tx, AllocError>
    ensures { IfOk result (λ tx. IsTxOf tx (parts_of parts)) }
{
    Tx::new(alloc, parts).map_err(|_| AllocError)
}

/// The mint of these assets. Err where they are at fault, or memory ran out. Those of a draft have no fault, as above.
pub fn mint_of(alloc: Global, assets: Vec<AssetQuantity<i64>>) -> Result<Mint, AllocError>
    ensures { IfOk result (λ mint. IsMintOf mint (map asset_of assets.items)) }
{
    Mint::new(alloc, assets).map_err(|_| AllocError)
}

/// The same assets once more. Takes memory for all of them, and for each name.
pub fn clone_assets<Q: Copy>(
    alloc: Global,
    assets: &[AssetQuantity<Q>],
) -> Result<Vec<AssetQuantity<Q>>, AllocError>
    ensures { IfOk result (λ copies. map asset_of copies.items ≡ map asset_of assets.now) }
{
    let mut copies = Vec::with_capacity(alloc, assets.len())?;
    for asset in assets {
        let name = Vec::from_slice(alloc, &asset.name)?;
        copies.push(AssetQuantity {
            policy: asset.policy,
            name,
            quantity: asset.quantity,
        })?;
    }
    Ok(copies)
}

/// The text of the body of a transaction without witnesses. Its own text is that of an array of three: one byte stands
/// before the body's, and two after it, the empty map of the witnesses and null.
pub fn body_text(tx: &Tx) -> Result<Vec<u8>, AllocError>
    requires { HasNoWitnesses tx.now }
    ensures text { IfOk result (λ text. text.items ≡ text_of (item_of_body tx.now)) }
    ensures spelled { OnOk result (SpellsTransaction tx.now (text_of (item_of_transaction tx.now))) }
{
    let mut text = tx.encode()?;
    text.truncate(text.len() - 2);
    text.remove(0);
    Ok(text)
}

impl Unsigned {
    /// The same parts once more.
    fn try_clone(&self, alloc: Global) -> Result<Unsigned, AllocError>
        ensures { IfOk result (λ copy. parts_of_unsigned copy [] [] ≡ parts_of_unsigned self.now [] []) }
    {
        Ok(Unsigned {
            inputs: Vec::from_slice(alloc, &self.inputs)?,
            outputs: clone_outputs(alloc, &self.outputs)?,
            fee: self.fee,
            interval: self.interval,
            mint: self.mint.try_clone()?,
        })
    }

    /// The transaction of these parts without witnesses. Writes its text once.
    pub fn bare(self, alloc: Global) -> Result<Tx, AllocError>
        ensures tx { IfOk result (λ tx. IsTxOf tx (parts_of_unsigned self [] [])) }
        ensures bare { IfOk result HasNoWitnesses }
    {
        let parts = TxParts {
            inputs: self.inputs,
            outputs: self.outputs,
            fee: self.fee,
            interval: self.interval,
            mint: self.mint,
            signatures: Vec::new(alloc),
            scripts: Vec::new(alloc),
        };
        tx_of(alloc, parts)
    }

    /// The identifier of each transaction with these parts, whatever its witnesses are. Copies the parts, and writes
    /// their text once.
    fn id(&self, alloc: Global) -> Result<TxId, AllocError>
        ensures { IfOk result (λ id. (tx : Transaction) (text : List ℕ) (signatures : List Witness)
            (scripts : List model.Script) → SpellsTransaction tx text
            → IsTxOf tx (parts_of_unsigned self.now signatures scripts) → transaction_id_of tx ≡ id.bytes) }
    {
        let tx = self.try_clone(alloc)?.bare(alloc)?;
        Ok(tx.id())
    }

    /// The transaction of these parts with scripts, whose own identifier the signers signed.
    pub fn signed<K: Signer>(
        self,
        alloc: Global,
        signers: &[K],
        scripts: Vec<Script>,
    ) -> Result<Tx, AllocError>
        ensures tx { IfOk result (λ tx. IsTxOf tx (parts_of_unsigned self
            (map (witness_by (transaction_id_of tx)) (map K.signer signers.now)) scripts.items)) }
        ensures spelled { IfOk result (λ tx. SpellsTransaction tx (text_of (item_of_transaction tx))) }
    {
        let id = self.id(alloc)?;
        let parts = TxParts {
            inputs: self.inputs,
            outputs: self.outputs,
            fee: self.fee,
            interval: self.interval,
            mint: self.mint,
            signatures: witnesses_by(alloc, signers, &id.bytes)?,
            scripts,
        };
        let tx = tx_of(alloc, parts)?;
        // The identifier does not depend on the signatures.
        let _id = tx.id();
        Ok(tx)
    }
}
