//! Sums of values, for ada and each asset.

ghost use Rattle.std.specs.Prelude.{ℕ, ◌≤◌, ◌^◌, ◌*◌};
ghost use Rattle.model.specs.Value.{Asset, Ada, Named};
ghost use Rattle.std.specs.Map.Iter.{ShowsInOrder, ShowsInReverse, deref_pair};
ghost use Rattle.value.specs.Quantities.{IsWithin};
ghost use Rattle.value.specs.Sums.{total_in};
ghost use Rattle.value.specs.Listed.{IsTidy};

use crate::amounts::{AllAmounts, Amounts};
use crate::assets::Policy;
use crate::quantity::Quantity;
use crate::side::Side;
use ident::ScriptHash;
use std::alloc::{AllocError, Global};
use std::collections::btree_map;

/// Sums of values, for ada and each asset, in signed numbers of 128 bits. They are exact: at most 2^62 values
/// are added or taken, each with at most 2^64 of an asset. Just the assets of which the sum is not 0 are kept, and
/// listed.
#[derive(Drop)]
pub struct Totals {
    alloc: Global,
    values: u64,
    /// Lovelace.
    coin: i128,
    assets: AllAmounts,
    ghost few: { values ≤ 2 ^ 62 },
    ghost within: { (asset : Asset) → IsWithin (values * 2 ^ 64) (total_in coin assets asset) },
    ghost tidy: { IsTidy assets },
}

impl Totals {
    ghost use Rattle.std.specs.Prelude.{◌≡◌, ◌≢◌, ◌<◌, ◌+◌, ◌+ℤ◌, ◌↔◌, ℤ, List, pos, map, IsTrue, OnOk, OnErr};
    ghost use Rattle.ident.specs.Kinds.{ScriptHash};
    ghost use Rattle.value.specs.Differing.{PoliciesDiffer};
    ghost use Rattle.value.specs.Sides.{sided};
    ghost use Rattle.value.specs.Listed.{IsListed, IsInOrder, listed};
    ghost use Rattle.value.specs.Totals.{total_of, change_of, policies_met};
    ghost use Rattle.value.specs.View.{policy_of};

    /// The sums of no values, all 0. Takes no memory.
    pub fn new(alloc: Global) -> Totals
        ensures values { result.values ≡ 0 }
        ensures zero { (asset : Asset) → total_of result asset ≡ pos 0 }
    {
        Totals {
            alloc,
            values: 0,
            coin: 0,
            assets: AllAmounts::new(alloc),
        }
    }

    /// How many values were added or taken so far.
    pub fn values(&self) -> u64
        ensures { result ≡ self.now.values }
    {
        self.values
    }

    /// The sum of lovelace.
    pub fn coin(&self) -> i128
        ensures { result ≡ total_of self.now Ada }
    {
        self.coin
    }

    /// The sum under this name of this policy, 0 where it was never met. Takes no memory.
    pub fn amount(&self, policy: &ScriptHash, name: &[u8]) -> i128
        ensures { result ≡ total_of self.now (Named policy.now.bytes name.now) }
    {
        self.assets.amount(policy, name)
    }

    /// What is listed: the policies with an asset of which the sum is not 0, in the order of their bytes, each with the
    /// names of these assets and their sums. An asset of which as much was taken as was added is not among them. Takes
    /// no memory.
    pub fn policies(&self) -> btree_map::Iter<'_, ScriptHash, Amounts>
        ensures rest { result ≡ policies_met self.now }
        ensures runs { ShowsInOrder (deref_pair {K = ScriptHash} {X = Amounts}) }
        ensures runs_back { ShowsInReverse (deref_pair {K = ScriptHash} {X = Amounts}) }
        ensures listed { (policy name : List ℕ) (sum : ℤ) → IsListed policy name sum (listed (policies_met self.now)) ↔
            ((total_of self.now (Named policy name) ≡ sum) × (sum ≢ pos 0)) }
        ensures ordered { IsInOrder (listed (policies_met self.now)) }
    {
        self.assets.iter()
    }

    /// Whether as much was taken as was added, of ada and of each asset. Takes constant time and no memory.
    pub fn is_balanced(&self) -> bool
        ensures { IsTrue result ↔ ((asset : Asset) → total_of self.now asset ≡ pos 0) }
    {
        self.coin == 0 && self.assets.is_empty()
    }

    /// Adds a value of `coin` lovelace and these assets, or takes it. Takes a few look-ups for each policy and each of
    /// its names among those that are listed, and memory for those that are new. Err where memory runs out: the sums
    /// and what is listed are as they were.
    pub(crate) fn change<Q: Quantity>(
        &mut self,
        coin: u64,
        assets: &[Policy<Q>],
        side: Side,
    ) -> Result<(), AllocError>
        requires room { self.old.values < 2 ^ 62 }
        requires differ { PoliciesDiffer (map policy_of assets.now) }
        ensures sums { OnOk result ((asset : Asset) →
            total_of self.new asset ≡ total_of self.old asset +ℤ
            sided side (change_of Q.whole coin (map policy_of assets.now) asset)) }
        ensures counted { OnOk result (self.new.values ≡ self.old.values + 1) }
        ensures same { OnErr result ((asset : Asset) → total_of self.new asset ≡ total_of self.old asset) }
        ensures listing { OnErr result (listed (policies_met self.new) ≡ listed (policies_met self.old)) }
        ensures uncounted { OnErr result (self.new.values ≡ self.old.values) }
    {
        // What can fail comes first, and changes no sum.
        self.assets.prepare(self.alloc, assets)?;
        self.coin += side.change_by(i128::from(coin));
        self.assets.change(assets, side);
        self.assets.tidy(assets);
        self.values += 1;
        Ok(())
    }
}
