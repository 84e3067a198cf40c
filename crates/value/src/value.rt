//! Values: what an output holds.

ghost use Rattle.std.specs.Prelude.{◌≡◌, ◌++◌, ℕ, List, [], length, map, ◌<◌, ◌≤◌, ◌+◌, ◌^◌, ◌+ℤ◌, ◌-ℤ◌, IfOk, IfErr};
ghost use Rattle.std.specs.Prelude.{OnOk, OnErr, vec_len, vec_capacity, pos};
ghost use Rattle.model.specs.Cbor.{text_of, HasText, nesting};
ghost use Rattle.model.specs.Value as model;
ghost use Rattle.model.specs.Value.{item_of_value, IsValue, SpellsValue, Asset, amount_of};
ghost use Rattle.cbor.specs.Gives.{IfMalformed, IfWant};
ghost use Rattle.cbor.specs.Texts.{BeginsWithText};
ghost use Rattle.cbor.specs.Bare.{BeginsWithHead};
ghost use Rattle.value.specs.Totals.{total_of, policies_met};
ghost use Rattle.value.specs.Listed.{listed};
ghost use Rattle.value.specs.Parts.{IsValueOf, IsAssetFault, IfAtFault};
ghost use Rattle.value.specs.View.{policy_of, asset_of};
ghost use Rattle.cbor.specs.Texts.{Keeps, Writes};

use crate::asset_fault::AssetFault;
use crate::asset_quantity::AssetQuantity;
use crate::assets::Policy;
use crate::copying::clone_policies;
use crate::grouping::policies_with;
use crate::reader;
use crate::side::Side;
use crate::totals::Totals;
use crate::writer::write_assets;
use cbor::CborFault;
use std::alloc::{AllocError, Global};
use std::marker::Model;

/// How deep coin alone nests: it is a number.
const COIN_NESTING: usize = 1;

/// How deep coin with assets nests: an array, the map of the policies, and in it the maps of names to quantities.
const ASSETS_NESTING: usize = 4;

/// What an output holds: coin in lovelace, and quantities of other assets, each 1 to 2^64 - 1.
///
/// ```text
/// let policy = ScriptHash::from_bytes([1; 32]);
/// let five = AssetQuantity { policy, name: Vec::new(alloc), quantity: 5 };
/// let value = Value::new(alloc, 800, vec![in alloc; five]?)?; // 800 lovelace, and 5 of the policy's empty name
/// let mut text = Vec::new(alloc);
/// value.write(&mut text)?; // 42 bytes: 82 19 03 20, a1 58 20 with the 32 bytes of the policy, a1 40 05
/// let (read, rest) = Value::read(alloc, &text)?; // an equal value, and no bytes after it
/// let mut totals = Totals::new(alloc);
/// value.add_to(&mut totals)?; // totals.coin() is 800, and totals.amount(&policy, b"") is 5
/// read.take_from(&mut totals)?; // totals.is_balanced() is true
/// ```
#[derive(Debug, Drop)]
pub struct Value {
    alloc: Global,
    coin: u64,
    assets: Vec<Policy<u64>>,
}

impl Model for Value {
    ghost use Rattle.model.specs.Value as model;
    ghost use Rattle.model.specs.Codes.{coded_value};

    ghost Value = { model.Value };

    ghost coded = { coded_value };

    ghost use Rattle.value.specs.Held.{value_of, IsHeldValue};

    ghost view = { value_of };

    ghost invariant = { IsHeldValue };
}

impl PartialEq for Value {
    ghost use Rattle.std.specs.Prelude.{◌↔◌, IsTrue};
    ghost use Rattle.value.specs.Same.{value_eq, same_value_laws};

    ghost eq = { value_eq };

    ghost laws = { same_value_laws };

    /// Whether the two are the same value, which is so just where their texts are the same. Linear in the assets.
    fn eq(&self, other: &Value) -> bool
        ensures exact { result ≡ value_eq self.now other.now }
        ensures same { IsTrue result ↔ (self.now ≡ other.now) }
    {
        self.coin == other.coin && self.assets == other.assets
    }
}

impl Value {
    /// Coin alone, in lovelace. Takes no memory.
    pub fn of_coin(alloc: Global, coin: u64) -> Value
        ensures { result ≡ record { coin = coin; assets = [] } }
    {
        Value {
            alloc,
            coin,
            assets: Vec::new(alloc),
        }
    }

    /// The value of this coin, in lovelace, and these assets, which may come in any order. Err where no value with a
    /// text is of these parts, for the first of the reasons that there is: `NameTooLong` for a name of more than 32
    /// bytes, `ZeroQuantity`, and `Repeated` for two quantities of one policy and name. OutOfMemory only where there is
    /// no such reason. Sorts the assets where they are and moves their names: n log n comparisons of n assets.
    pub fn new(
        alloc: Global,
        coin: u64,
        assets: Vec<AssetQuantity<u64>>,
    ) -> Result<Value, AssetFault>
        ensures made { IfOk result (λ value. IsValueOf value coin (map asset_of assets.items)) }
        ensures fault { IfErr result (IsAssetFault pos (map asset_of assets.items)) }
        ensures refused { IfErr result (λ fault. IfAtFault fault ((value : model.Value) → IsValue value →
            HasText (item_of_value value) → IsValueOf value coin (map asset_of assets.items) → ⊥)) }
    {
        Ok(Value {
            alloc,
            coin,
            assets: policies_with(alloc, assets)?,
        })
    }

    /// The value whose text stands first, and the bytes after it (RFC 8949, section 4.2.1; the value of Shelley-MA's
    /// outputs). Malformed where no value's text stands there, OutOfMemory where memory ran out before that was known:
    /// the assets are kept as they are read. Coin alone asks for no memory, nor do bytes that don't begin with the head
    /// of an array of two. Linear in the bytes of the text.
    ///
    /// ```text
    /// let (value, rest) = Value::read(alloc, b"\x19\x03\x20\xf6")?; // 800 lovelace, and null after it
    /// assert_eq!((value.coin(), rest), (800, b"\xf6".as_slice()));
    /// ```
    pub fn read(alloc: Global, bytes: &[u8]) -> Result<(Value, &[u8]), CborFault>
        ensures found { IfOk result (λ x. BeginsWithText (SpellsValue x.0) bytes.now x.1.now) }
        ensures malformed { IfErr result (λ fault. IfMalformed fault ((value : model.Value) (rest : List ℕ) →
            BeginsWithText (SpellsValue value) bytes.now rest → ⊥)) }
        ensures want { IfErr result (λ fault. IfWant fault ((value : model.Value) (rest : List ℕ) →
            BeginsWithText (SpellsValue value) bytes.now rest → value.assets ≡ [] → ⊥)) }
        ensures begins { IfErr result (λ fault. IfWant fault (BeginsWithHead 4 2 bytes.now)) }
    {
        let (coin, assets, rest) = reader::coin_with(alloc, bytes)?;
        let value = Value {
            alloc,
            coin,
            assets,
        };
        Ok((value, rest))
    }

    /// The coin, in lovelace: 0 to 2^64 - 1.
    pub fn coin(&self) -> u64
        ensures { result ≡ self.now.coin }
    {
        self.coin
    }

    /// The policies with their assets, in the order of the text: by their bytes. Copies nothing.
    pub fn assets(&self) -> &[Policy<u64>]
        ensures { map policy_of result.now ≡ self.now.assets }
    {
        &self.assets
    }

    /// How deep the text of the value nests (RFC 8949, items in one another): 1 for coin alone, and 4 with assets.
    /// Constant time.
    pub fn nesting(&self) -> usize
        ensures deep { result ≡ nesting (item_of_value self.now) }
        ensures within { result ≤ 4 }
        ensures spelled { SpellsValue self.now (text_of (item_of_value self.now)) }
    {
        if self.assets.is_empty() {
            return COIN_NESTING;
        }
        ASSETS_NESTING
    }

    /// Writes coin and assets after the bytes.
    fn write_parts(&self, out: &mut Vec<u8>) -> Result<(), AllocError>
        ensures ok { OnOk result (out.new.items ≡ out.old.items ++ text_of (item_of_value self.now)) }
        ensures keeps { Keeps out.old.items out.new.items }
        ensures full { OnErr result (vec_capacity out.old < vec_len out.old +
            length (text_of (item_of_value self.now))) }
        ensures capacity { vec_capacity out.old ≤ vec_capacity out.new }
        ensures spelled { SpellsValue self.now (text_of (item_of_value self.now)) }
    {
        if self.assets.is_empty() {
            return cbor::write_unsigned(out, self.coin);
        }
        cbor::write_array(out, 2)?;
        cbor::write_unsigned(out, self.coin)?;
        write_assets(out, &self.assets)
    }

    /// Writes the text of the value after the bytes (RFC 8949, section 4.2.1), in time linear in it. Err where memory
    /// runs out, which it does not where the vector has room for the text: the bytes stay as they were.
    pub fn write(&self, out: &mut Vec<u8>) -> Result<(), AllocError>
        ensures ok { OnOk result (Writes (SpellsValue self.now) out.old.items out.new.items) }
        ensures err { OnErr result (out.new.items ≡ out.old.items) }
        ensures full { OnErr result (vec_capacity out.old < vec_len out.old +
            length (text_of (item_of_value self.now))) }
        ensures capacity { vec_capacity out.old ≤ vec_capacity out.new }
    {
        let start = out.len();
        let written = self.write_parts(out);
        if written.is_err() {
            out.truncate(start);
        }
        written
    }

    /// An equal value. Err where memory runs out. Linear in the assets.
    pub fn try_clone(&self) -> Result<Value, AllocError>
        ensures { IfOk result (λ copy. copy ≡ self.now) }
    {
        Ok(Value {
            alloc: self.alloc,
            coin: self.coin,
            assets: clone_policies(self.alloc, &self.assets)?,
        })
    }

    /// Adds the value to the sums. The caller sees to it that fewer than 2^62 values were added or taken before
    /// ([`Totals::values`]). Err where memory runs out: the sums and what they list are as they were. Takes a few
    /// look-ups for each policy and name among those that are listed.
    pub fn add_to(&self, totals: &mut Totals) -> Result<(), AllocError>
        requires { totals.old.values < 2 ^ 62 }
        ensures sums { OnOk result ((asset : Asset) →
            total_of totals.new asset ≡ total_of totals.old asset +ℤ amount_of asset self.now) }
        ensures counted { OnOk result (totals.new.values ≡ totals.old.values + 1) }
        ensures same { OnErr result ((asset : Asset) → total_of totals.new asset ≡ total_of totals.old asset) }
        ensures listing { OnErr result (listed (policies_met totals.new) ≡ listed (policies_met totals.old)) }
        ensures uncounted { OnErr result (totals.new.values ≡ totals.old.values) }
    {
        totals.change(self.coin, &self.assets, Side::Added)
    }

    /// Takes the value from the sums, so that what goes out is set against what comes in. The caller sees to what
    /// [`Value::add_to`] asks. Err where memory runs out: the sums and what they list are as they were. Takes a few
    /// look-ups for each policy and name among those that are listed.
    pub fn take_from(&self, totals: &mut Totals) -> Result<(), AllocError>
        requires { totals.old.values < 2 ^ 62 }
        ensures sums { OnOk result ((asset : Asset) →
            total_of totals.new asset ≡ total_of totals.old asset -ℤ amount_of asset self.now) }
        ensures counted { OnOk result (totals.new.values ≡ totals.old.values + 1) }
        ensures same { OnErr result ((asset : Asset) → total_of totals.new asset ≡ total_of totals.old asset) }
        ensures listing { OnErr result (listed (policies_met totals.new) ≡ listed (policies_met totals.old)) }
        ensures uncounted { OnErr result (totals.new.values ≡ totals.old.values) }
    {
        totals.change(self.coin, &self.assets, Side::Taken)
    }
}
