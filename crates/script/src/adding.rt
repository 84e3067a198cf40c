//! Parts put into a transaction in the making.

ghost use Rattle.std.specs.Prelude.{false, true};
ghost use Rattle.draft.specs.Draft as model;
ghost use Rattle.draft.specs.View.{IsDraftOf};
ghost use Rattle.script.specs.Adding.{IsPartAdded};
ghost use Rattle.script.specs.KnownView.{AreKnown};
ghost use Rattle.script.specs.Line.{AddPart, MintAsset, Pay, SignBy, Spend, Supply, said_assets};
ghost use Rattle.script.specs.Meaning.{is_late, part_meaning, spends};
ghost use Rattle.script.specs.Names.{AllNames};
ghost use Rattle.script.specs.SignerView.{key_signer_of};
ghost use Rattle.script.specs.PartView.{asset_name_of, is_good, owner_of, part_of, quantity_of};
ghost use Rattle.script.specs.WordsView.{words_left};

use crate::asset_words::AssetWords;
use crate::fault::LineFault;
use crate::key_signer::KeySigner;
use crate::known::Known;
use crate::name::Name;
use crate::part::{AssetName, Owner, Part, Quantity};
use crate::stop::Stop;
use draft::{Draft, Signing};
use ident::TxId;
use tx::Input;

/// The transaction whose outputs are those of the genesis.
const GENESIS: [u8; 32] = [0; 32];

/// An output is spent, whose index has 16 bits.
fn spend(draft: &mut Draft<KeySigner>, transaction: TxId, index: u64) -> Result<(), Stop>
    ensures { (d : model.Draft) → IsDraftOf key_signer_of draft.old d
        → IsPartAdded (spends transaction.bytes index d) false d draft.new result }
{
    let Ok(index) = u16::try_from(index) else {
        return Err(Stop::Fault(LineFault::NotBuilt));
    };
    draft.spend(Input { transaction, index })?;
    Ok(())
}

impl Known {
    /// An output of an earlier transaction is spent.
    fn spend(&self, draft: &mut Draft<KeySigner>, tx: Name<'_>, index: u64) -> Result<(), Stop>
        ensures { (names : AllNames) → AreKnown self.now names → (d : model.Draft) → IsDraftOf key_signer_of draft.old d
            → IsPartAdded (part_meaning names (Spend tx.entry.text.now index) d) false d draft.new result }
    {
        match self.txs.get(tx.text) {
            Some(tx) => spend(draft, tx.id(), index),
            None => Err(Stop::Fault(LineFault::UnknownName)),
        }
    }

    /// An output, whose owner and assets are known.
    fn pay(
        &self,
        draft: &mut Draft<KeySigner>,
        owner: Owner<'_>,
        coin: u64,
        assets: AssetWords<'_>,
    ) -> Result<(), Stop>
        ensures { (names : AllNames) → AreKnown self.now names → (d : model.Draft) → IsDraftOf key_signer_of draft.old d
            → IsPartAdded (part_meaning names (Pay (owner_of owner.entry) coin
            (said_assets (words_left assets.entry.words))) d) true d draft.new result }
    {
        let Some(address) = self.address_on(owner) else {
            return Err(Stop::Fault(LineFault::UnknownName));
        };
        let assets = self.assets_of(assets)?;
        draft.pay(address, coin, assets)?;
        Ok(())
    }

    /// This quantity of an asset is minted, whose script is known.
    fn mint(
        &self,
        draft: &mut Draft<KeySigner>,
        script: Name<'_>,
        name: AssetName<'_>,
        quantity: Quantity,
    ) -> Result<(), Stop>
        ensures { (names : AllNames) → AreKnown self.now names → (d : model.Draft) → IsDraftOf key_signer_of draft.old d
            → IsPartAdded (part_meaning names (MintAsset (record {
              script = script.entry.text.now;
              name = asset_name_of name.entry;
              quantity = quantity_of quantity;
            })) d) true d draft.new result }
    {
        let Some(script) = self.scripts.get(script.text) else {
            return Err(Stop::Fault(LineFault::UnknownName));
        };
        let Some(quantity) = quantity.to_i64() else {
            return Err(Stop::Fault(LineFault::NotBuilt));
        };
        let name = name.bytes(self.alloc)?;
        draft.mint(script.hash(), name, quantity)?;
        Ok(())
    }

    /// A key that is known signs, where it can.
    fn sign(
        &self,
        draft: &mut Draft<KeySigner>,
        key: Name<'_>,
        signing: Signing,
    ) -> Result<(), Stop>
        ensures { (names : AllNames) → AreKnown self.now names → (d : model.Draft) → IsDraftOf key_signer_of draft.old d
            → IsPartAdded (part_meaning names (SignBy key.entry.text.now (is_good signing)) d) false d draft.new
            result }
    {
        let Some(key) = self.keys.get(key.text) else {
            return Err(Stop::Fault(LineFault::UnknownName));
        };
        let Some(signer) = key.signer(self.scheme, signing) else {
            return Err(Stop::Fault(LineFault::NotBuilt));
        };
        draft.sign(signer)?;
        Ok(())
    }

    /// A script that is known is supplied.
    fn supply(&self, draft: &mut Draft<KeySigner>, script: Name<'_>) -> Result<(), Stop>
        ensures { (names : AllNames) → AreKnown self.now names → (d : model.Draft) → IsDraftOf key_signer_of draft.old d
            → IsPartAdded (part_meaning names (Supply script.entry.text.now) d) false d draft.new result }
    {
        let Some(script) = self.scripts.get(script.text) else {
            return Err(Stop::Fault(LineFault::UnknownName));
        };
        draft.supply(script)?;
        Ok(())
    }

    /// Adds a part. A name in it that isn't known is told before that it is not built, and both leave the draft as it
    /// was. Takes time in proportion to the part, and to the logarithm of what is known and of the draft.
    pub fn add(&self, draft: &mut Draft<KeySigner>, part: Part<'_>) -> Result<(), Stop>
        ensures { (names : AllNames) → AreKnown self.now names → (d : model.Draft) → IsDraftOf key_signer_of draft.old d
            → IsPartAdded (part_meaning names (part_of part.entry) d) (is_late (AddPart (part_of part.entry))) d
            draft.new result }
    {
        match part {
            Part::SpendGrant { index } => spend(draft, TxId::from_bytes(GENESIS), index),
            Part::Spend { tx, index } => self.spend(draft, tx, index),
            Part::Pay {
                owner,
                coin,
                assets,
            } => self.pay(draft, owner, coin, assets),
            Part::Fee(fee) => Ok(draft.set_fee(fee)?),
            Part::From(slot) => Ok(draft.set_start(slot)?),
            Part::Until(slot) => Ok(draft.set_end(slot)?),
            Part::Mint {
                script,
                name,
                quantity,
            } => self.mint(draft, script, name, quantity),
            Part::Sign { key, signing } => self.sign(draft, key, signing),
            Part::With { script } => self.supply(draft, script),
        }
    }
}
