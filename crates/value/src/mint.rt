//! What a transaction mints.

ghost use Rattle.std.specs.Prelude.{◌≡◌, ◌≢◌, ◌++◌, ℕ, List, [], length, map, ◌<◌, ◌≤◌, ◌+◌, ◌^◌, ◌+ℤ◌, IfOk, IfErr};
ghost use Rattle.std.specs.Prelude.{OnOk, OnErr, vec_len, vec_capacity};
ghost use Rattle.model.specs.Cbor.{text_of, HasText, nesting};
ghost use Rattle.model.specs.Value as model;
ghost use Rattle.model.specs.Value.{item_of_number, item_of_assets, IsMint, SpellsMint, Asset, minted_amount};
ghost use Rattle.cbor.specs.Gives.{IfMalformed, IfWant};
ghost use Rattle.cbor.specs.Texts.{BeginsWithText};
ghost use Rattle.cbor.specs.Bare.{BeginsWithSome};
ghost use Rattle.value.specs.Totals.{total_of, policies_met};
ghost use Rattle.value.specs.Listed.{listed};
ghost use Rattle.value.specs.Parts.{IsMintOf, IsAssetFault, IfAtFault};
ghost use Rattle.value.specs.View.{policy_of, asset_of};
ghost use Rattle.cbor.specs.Texts.{Writes};

use crate::asset_fault::AssetFault;
use crate::asset_quantity::AssetQuantity;
use crate::assets::Policy;
use crate::copying::clone_policies;
use crate::grouping::policies_with;
use crate::side::Side;
use crate::totals::Totals;
use crate::writer::write_assets;
use cbor::CborFault;
use std::alloc::{AllocError, Global};
use std::marker::Model;

/// How deep the empty map nests.
const NOTHING_NESTING: usize = 1;

/// How deep assets nest: the map of the policies, and in it the maps of names to quantities.
const ASSETS_NESTING: usize = 3;

/// What a transaction mints, and with quantities below 0 burns: each -2^63 to 2^63 - 1 without 0. Empty
/// where it does neither.
#[derive(Debug, Drop)]
pub struct Mint {
    alloc: Global,
    policies: Vec<Policy<i64>>,
}

impl Model for Mint {
    ghost use Rattle.model.specs.Value as model;
    ghost use Rattle.model.specs.Codes.{coded_mint};

    ghost Value = { model.Mint };

    ghost coded = { coded_mint };

    ghost use Rattle.value.specs.Held.{mint_of, IsHeldMint};

    ghost view = { mint_of };

    ghost invariant = { IsHeldMint };
}

impl PartialEq for Mint {
    ghost use Rattle.std.specs.Prelude.{◌↔◌, IsTrue};
    ghost use Rattle.value.specs.Same.{mint_eq, same_mint_laws};

    ghost eq = { mint_eq };

    ghost laws = { same_mint_laws };

    /// Whether the two mint the same, which is so just where their texts are the same. Linear in the assets.
    fn eq(&self, other: &Mint) -> bool
        ensures exact { result ≡ mint_eq self.now other.now }
        ensures same { IsTrue result ↔ (self.now ≡ other.now) }
    {
        self.policies == other.policies
    }
}

impl Mint {
    /// Nothing is minted. Takes no memory.
    pub fn nothing(alloc: Global) -> Mint
        ensures { result ≡ [] }
    {
        Mint {
            alloc,
            policies: Vec::new(alloc),
        }
    }

    /// What mints these assets, which may come in any order; nothing is minted where there are none. Err where no
    /// mint is of these assets, for the first of the reasons that there is: `NameTooLong` for a name of more than 32
    /// bytes, `ZeroQuantity`, and `Repeated` for two quantities of one policy and name. OutOfMemory only where there is
    /// no such reason. Sorts the assets where they are and moves their names: n log n comparisons of n assets.
    ///
    /// ```text
    /// let burned = AssetQuantity { policy, name: Vec::new(alloc), quantity: -5 };
    /// let mint = Mint::new(alloc, vec![in alloc; burned]?)?;
    /// ```
    pub fn new(alloc: Global, assets: Vec<AssetQuantity<i64>>) -> Result<Mint, AssetFault>
        ensures made { IfOk result (λ mint. IsMintOf mint (map asset_of assets.items)) }
        ensures fault { IfErr result (IsAssetFault (λ quantity. quantity) (map asset_of assets.items)) }
        ensures refused { IfErr result (λ fault. IfAtFault fault ((mint : model.Mint) → IsMint mint →
            HasText (item_of_assets item_of_number mint) → IsMintOf mint (map asset_of assets.items) → ⊥)) }
    {
        Ok(Mint {
            alloc,
            policies: policies_with(alloc, assets)?,
        })
    }

    /// What is minted by the text that stands first, and the bytes after it (RFC 8949, section 4.2.1; the mint field of
    /// Shelley-MA's bodies, which is never empty). Malformed where no such text stands there, OutOfMemory where memory
    /// ran out before that was known: only bytes that begin with the head of a map with entries ask for memory. Linear
    /// in the bytes of the text.
    pub fn read(alloc: Global, bytes: &[u8]) -> Result<(Mint, &[u8]), CborFault>
        ensures found { IfOk result (λ x. BeginsWithText (SpellsMint x.0) bytes.now x.1.now) }
        ensures malformed { IfErr result (λ fault. IfMalformed fault ((mint : model.Mint) (rest : List ℕ) →
            BeginsWithText (SpellsMint mint) bytes.now rest → ⊥)) }
        ensures begins { IfErr result (λ fault. IfWant fault (BeginsWithSome 5 bytes.now)) }
    {
        let (policies, rest) = cbor::nonempty_map(alloc, bytes)?;
        let mint = Mint { alloc, policies };
        Ok((mint, rest))
    }

    /// The policies with what is minted of them, in the order of the text: by their bytes. Copies nothing.
    pub fn policies(&self) -> &[Policy<i64>]
        ensures { map policy_of result.now ≡ self.now }
    {
        &self.policies
    }

    /// How deep the map of the assets nests (RFC 8949, items in one another): 3, and 1 where nothing is minted.
    /// Constant time.
    pub fn nesting(&self) -> usize
        ensures deep { result ≡ nesting (item_of_assets item_of_number self.now) }
        ensures within { result ≤ 3 }
        ensures mint { IsMint self.now }
        ensures text { HasText (item_of_assets item_of_number self.now) }
    {
        if self.policies.is_empty() {
            return NOTHING_NESTING;
        }
        ASSETS_NESTING
    }

    /// Writes the text after the bytes (RFC 8949, section 4.2.1), in time linear in it. Err where memory runs out,
    /// which it does not where the vector has room for the text: the bytes stay as they were. Of nothing the empty map
    /// is written, so that there is one item for each mint; it is no text of the mint field, which a body leaves out
    /// where nothing is minted, and is not read again.
    pub fn write(&self, out: &mut Vec<u8>) -> Result<(), AllocError>
        ensures ok { OnOk result (out.new.items ≡ out.old.items ++ text_of (item_of_assets item_of_number self.now)) }
        ensures spelled { self.now ≢ [] → SpellsMint self.now (text_of (item_of_assets item_of_number self.now)) }
        ensures err { OnErr result (out.new.items ≡ out.old.items) }
        ensures full { OnErr result (vec_capacity out.old < vec_len out.old +
            length (text_of (item_of_assets item_of_number self.now))) }
        ensures capacity { vec_capacity out.old ≤ vec_capacity out.new }
    {
        let start = out.len();
        let written = write_assets(out, &self.policies);
        if written.is_err() {
            out.truncate(start);
        }
        written
    }

    /// An equal mint. Linear in the assets.
    pub fn try_clone(&self) -> Result<Mint, AllocError>
        ensures { IfOk result (λ copy. copy ≡ self.now) }
    {
        Ok(Mint {
            alloc: self.alloc,
            policies: clone_policies(self.alloc, &self.policies)?,
        })
    }

    /// Adds what is minted to the sums, so that what is burned is taken from them. Err where memory runs out:
    /// the sums and what they list are as they were. Takes a few look-ups for each policy and name among those that
    /// are listed.
    pub fn add_to(&self, totals: &mut Totals) -> Result<(), AllocError>
        requires { totals.old.values < 2 ^ 62 }
        ensures sums { OnOk result ((asset : Asset) →
            total_of totals.new asset ≡ total_of totals.old asset +ℤ minted_amount asset self.now) }
        ensures counted { OnOk result (totals.new.values ≡ totals.old.values + 1) }
        ensures same { OnErr result ((asset : Asset) → total_of totals.new asset ≡ total_of totals.old asset) }
        ensures listing { OnErr result (listed (policies_met totals.new) ≡ listed (policies_met totals.old)) }
        ensures uncounted { OnErr result (totals.new.values ≡ totals.old.values) }
    {
        totals.change(0, &self.policies, Side::Added)
    }
}
