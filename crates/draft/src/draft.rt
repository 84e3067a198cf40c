//! Transactions in the making.

ghost use Rattle.std.specs.Prelude.{◌≡◌, [], ◌∷◌, ◌++◌, map, IfOk, IfErr, OnOk, OnErr};
ghost use Rattle.model.specs.Cbor.{text_of};
ghost use Rattle.model.specs.Transaction.{SpellsTransaction, item_of_transaction};
ghost use Rattle.value.specs.View.{asset_of};
ghost use Rattle.tx.specs.View.{input_of, address_of};
ghost use Rattle.draft.specs.Draft as model;
ghost use Rattle.draft.specs.Draft.{empty_draft, HasNoFault, IsTxOfDraft};
ghost use Rattle.draft.specs.Draft.{with_input, with_output, with_fee, with_start, with_end, with_minted};
ghost use Rattle.draft.specs.Draft.{with_signer, with_signature, with_script, without_witnesses, IsBodyOf, IsIdOf};
ghost use Rattle.draft.specs.SignerView.{signer_of_witness};
ghost use Rattle.draft.specs.UnsignedView.{AreBesideWitnesses, HasNoWitnesses};
ghost use Rattle.draft.specs.View.{IsDraftOf, Adds};
ghost use Rattle.draft.specs.declared.draft_fault.DraftFault.TheVariants.{NotBuilt};

use crate::draft_fault::DraftFault;
use crate::keyed::Keyed;
use crate::laws::one_body_of_draft;
use crate::signer::Signer;
use crate::unsigned::{Unsigned, body_text, clone_assets, mint_of};
use crate::values::value_with;
use ident::{ScriptHash, TxId};
use std::alloc::{AllocError, Global};
use timelock::{Interval, Script};
use tx::{Address, Input, KeyWitness, MAX_OUTPUTS, MAX_SCRIPT_NESTING, Output, Tx, clone_outputs};
use value::{AssetQuantity, MAX_NAME};

/// Adds an output after the others. Err where memory runs out: they are as they were.
fn append(outputs: &mut Vec<Output>, output: Output) -> Result<(), AllocError>
    ensures ok { OnOk result (outputs.new.items ≡ outputs.old.items ++ output ∷ []) }
    ensures err { OnErr result (outputs.new.items ≡ outputs.old.items) }
{
    outputs.push(output)?;
    Ok(())
}

/// A transaction in the making, with signers of one kind: parts are added one by one, each refused where no
/// transaction has it beside those that are there. A part that is refused leaves the draft as it was, and what is
/// refused for itself is told before memory is asked for.
#[derive(Drop)]
pub struct Draft<K> {
    alloc: Global,
    inputs: Keyed<Input, Input>,
    outputs: Vec<Output>,
    fee: Option<u64>,
    start: Option<u64>,
    end: Option<u64>,
    mint: Keyed<(ScriptHash, Vec<u8>), AssetQuantity<i64>>,
    signers: Keyed<[u8; 32], K>,
    scripts: Keyed<ScriptHash, Script>,
}

impl<K: Signer + Drop> Draft<K> {
    /// A draft without parts. Takes no memory.
    pub fn new(alloc: Global) -> Draft<K>
        ensures { IsDraftOf K.signer result empty_draft }
    {
        Draft {
            alloc,
            inputs: Keyed::new(alloc),
            outputs: Vec::new(alloc),
            fee: None,
            start: None,
            end: None,
            mint: Keyed::new(alloc),
            signers: Keyed::new(alloc),
            scripts: Keyed::new(alloc),
        }
    }

    /// Adds an input. NotBuilt where it is there. Logarithmic in the inputs.
    pub fn spend(&mut self, input: Input) -> Result<(), DraftFault>
        ensures { Adds K.signer (with_input (input_of input)) self.old self.new result }
    {
        if self.inputs.has(&input) {
            return Err(DraftFault::NotBuilt);
        }
        self.inputs.add(input, input)?;
        Ok(())
    }

    /// Adds an output after the others, with coin in lovelace and assets in any order. NotBuilt where 65,536 outputs
    /// are there, where an asset name has more than 32 bytes, where a quantity is 0, and where an asset is told twice.
    /// Sorts n assets where they are, in n log n comparisons.
    pub fn pay(
        &mut self,
        address: Address,
        coin: u64,
        assets: Vec<AssetQuantity<u64>>,
    ) -> Result<(), DraftFault>
        ensures { Adds K.signer (with_output (address_of address) coin (map asset_of assets.items)) self.old self.new
            result }
    {
        if self.outputs.len() >= MAX_OUTPUTS {
            return Err(DraftFault::NotBuilt);
        }
        let value = value_with(self.alloc, coin, assets)?;
        append(&mut self.outputs, Output { address, value })?;
        Ok(())
    }

    /// Sets the fee, in lovelace. NotBuilt where it is set. Takes no memory. Constant time.
    pub fn set_fee(&mut self, fee: u64) -> Result<(), DraftFault>
        ensures adds { Adds K.signer (with_fee fee) self.old self.new result }
        ensures refused { IfErr result (λ fault. fault ≡ NotBuilt) }
    {
        if self.fee.is_some() {
            return Err(DraftFault::NotBuilt);
        }
        self.fee = Some(fee);
        Ok(())
    }

    /// Sets the slot from which on the transaction holds. NotBuilt where it is set. Takes no memory. Constant time.
    pub fn set_start(&mut self, slot: u64) -> Result<(), DraftFault>
        ensures adds { Adds K.signer (with_start slot) self.old self.new result }
        ensures refused { IfErr result (λ fault. fault ≡ NotBuilt) }
    {
        if self.start.is_some() {
            return Err(DraftFault::NotBuilt);
        }
        self.start = Some(slot);
        Ok(())
    }

    /// Sets the slot before which the transaction holds. NotBuilt where it is set. Takes no memory. Constant time.
    pub fn set_end(&mut self, slot: u64) -> Result<(), DraftFault>
        ensures adds { Adds K.signer (with_end slot) self.old self.new result }
        ensures refused { IfErr result (λ fault. fault ≡ NotBuilt) }
    {
        if self.end.is_some() {
            return Err(DraftFault::NotBuilt);
        }
        self.end = Some(slot);
        Ok(())
    }

    /// Adds what is minted of an asset, or with a quantity below 0 burned. NotBuilt where the name has more than 32
    /// bytes, where the quantity is 0, and where the asset is there. Logarithmic in the assets that are minted.
    pub fn mint(
        &mut self,
        policy: ScriptHash,
        name: Vec<u8>,
        quantity: i64,
    ) -> Result<(), DraftFault>
        ensures { Adds K.signer (with_minted (record { policy = policy.bytes; name = name.items; quantity = quantity }))
            self.old self.new result }
    {
        if name.len() > MAX_NAME || quantity == 0 {
            return Err(DraftFault::NotBuilt);
        }
        let key = (policy, name);
        if self.mint.has(&key) {
            return Err(DraftFault::NotBuilt);
        }
        let name = Vec::from_slice(self.alloc, &key.1)?;
        let minted = AssetQuantity {
            policy,
            name,
            quantity,
        };
        self.mint.add(key, minted)?;
        Ok(())
    }

    /// Adds who is to sign the transaction's identifier. NotBuilt where the public key is there, whoever signs with it.
    /// Logarithmic in the keys.
    pub fn sign(&mut self, signer: K) -> Result<(), DraftFault>
        ensures { Adds K.signer (with_signer (K.signer signer)) self.old self.new result }
    {
        let key = signer.public_key();
        if self.signers.has(&key) {
            return Err(DraftFault::NotBuilt);
        }
        self.signers.add(key, signer)?;
        Ok(())
    }

    /// Adds a script, which is copied once, after the tests. NotBuilt where a script with its hash is there, and where
    /// its item nests deeper than 61. Linear in the script and logarithmic in the scripts that are there.
    pub fn supply(&mut self, script: &Script) -> Result<(), DraftFault>
        ensures { Adds K.signer (with_script script.now) self.old self.new result }
    {
        let hash = script.hash();
        if script.nesting() > MAX_SCRIPT_NESTING || self.scripts.has(&hash) {
            return Err(DraftFault::NotBuilt);
        }
        let copy = script.try_clone()?;
        self.scripts.add(hash, copy)?;
        Ok(())
    }

    /// What the transaction has beside its witnesses, copied.
    fn unsigned(&self) -> Result<Unsigned, AllocError>
        ensures { IfOk result (AreBesideWitnesses self.now) }
    {
        let assets = clone_assets(self.alloc, &self.mint.items)?;
        Ok(Unsigned {
            inputs: Vec::from_slice(self.alloc, &self.inputs.items)?,
            outputs: clone_outputs(self.alloc, &self.outputs)?,
            fee: self.fee.unwrap_or(0),
            interval: Interval {
                start: self.start,
                end: self.end,
            },
            mint: mint_of(self.alloc, assets)?,
        })
    }

    /// The transaction of the parts without witnesses.
    fn bare(&self) -> Result<Tx, AllocError>
        ensures tx { IfOk result (λ tx. (draft : model.Draft) → IsDraftOf K.signer self.now draft →
            IsTxOfDraft (without_witnesses draft) tx) }
        ensures bare { IfOk result HasNoWitnesses }
    {
        self.unsigned()?.bare(self.alloc)
    }

    /// The text of the transaction's body as the parts stand: whoever signs and whatever scripts are supplied, it stays
    /// this text. Keys don't sign it, but its SHA-256 digest, which is the identifier ([`Draft::id`]). Err where memory
    /// runs out, and for nothing else. Copies the parts, and writes their text twice.
    pub fn body(&self) -> Result<Vec<u8>, AllocError>
        ensures body { IfOk result (λ body. (draft : model.Draft) → IsDraftOf K.signer self.now draft →
            IsBodyOf draft body.items) }
        ensures err { OnErr result ((draft : model.Draft) → IsDraftOf K.signer self.now draft → HasNoFault draft) }
    {
        one_body_of_draft();
        let tx = self.bare()?;
        body_text(&tx)
    }

    /// The identifier that the transaction has as the parts stand, whoever signs and whatever scripts are supplied. It
    /// is what keys sign: its 32 bytes are the message. Err where memory runs out, and for nothing else. Copies the
    /// parts, and writes their text once.
    pub fn id(&self) -> Result<TxId, AllocError>
        ensures id { IfOk result (λ id. (draft : model.Draft) → IsDraftOf K.signer self.now draft →
            IsIdOf draft id.bytes) }
        ensures err { OnErr result ((draft : model.Draft) → IsDraftOf K.signer self.now draft → HasNoFault draft) }
    {
        one_body_of_draft();
        let tx = self.bare()?;
        Ok(tx.id())
    }

    /// The transaction of the parts, signed. Whether the rules let it through is not asked, so it may have no parts.
    /// The fee is 0 where none was set. Err where memory runs out, and for nothing else, since what was added has no
    /// fault. Sorts n parts in n log n comparisons. Inputs, outputs and mint are copied once, and their text is written
    /// twice: first to know the identifier that is signed.
    pub fn finish(self) -> Result<Tx, AllocError>
        ensures tx { (draft : model.Draft) → IsDraftOf K.signer self draft → IfOk result (λ tx. IsTxOfDraft draft tx) }
        ensures spelled { IfOk result (λ tx. SpellsTransaction tx (text_of (item_of_transaction tx))) }
        // Neither mint nor transaction is refused for a fault of the parts, so only a lack of memory ends it.
        ensures err { OnErr result ((draft : model.Draft) → IsDraftOf K.signer self draft → HasNoFault draft) }
    {
        let mint = mint_of(self.alloc, self.mint.into_items())?;
        let unsigned = Unsigned {
            inputs: self.inputs.into_items(),
            outputs: self.outputs,
            fee: self.fee.unwrap_or(0),
            interval: Interval {
                start: self.start,
                end: self.end,
            },
            mint,
        };
        let signers = self.signers.into_items();
        unsigned.signed(self.alloc, &signers, self.scripts.into_items())
    }
}

/// A draft that is signed elsewhere: what signs it is a signature that was made of its identifier.
impl Draft<KeyWitness> {
    /// Adds a signature that was made elsewhere of [`Draft::id`], and the public key that made it. NotBuilt where a
    /// signature by this key is there. Whether it is good isn't asked, since parts may still be added, and then the
    /// identifier is another: the scheme's `verify` tells it of an identifier, and the rules judge it. Logarithmic in
    /// the signatures.
    pub fn add_signature(&mut self, key: [u8; 32], signature: [u8; 64]) -> Result<(), DraftFault>
        ensures { Adds signer_of_witness (with_signature key signature) self.old self.new result }
    {
        self.sign(KeyWitness::new(key, signature))
    }
}
