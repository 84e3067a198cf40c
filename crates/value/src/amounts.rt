//! Sums under the names of one policy, and under all policies.
//!
//! A value is added in three walks over its assets: `prepare` makes the entries that are missing, each of 0, `change`
//! adds, and `tidy` takes out the entries that are 0. Only the first takes memory. Where memory runs out, what it made
//! is taken out at once.

ghost use Rattle.std.specs.Prelude.{◌≡◌, ◌≢◌, false, true, ◌^◌, ◌+ℤ◌, ℕ, ℤ, pos, List, [], Option, Some, None, map};
ghost use Rattle.std.specs.Prelude.{◌↔◌, IsTrue, IsSome, OnOk, OnErr, bytes_eq, if◌then◌else◌};
ghost use Rattle.std.specs.Map.Iter.{ShowsInOrder, ShowsInReverse, deref_pair};
ghost use Rattle.std.specs.List.{AllByRecursion};
ghost use Rattle.std.specs.List.Sorted.{IsStrictlySortedBy};
ghost use Rattle.std.specs.Ordering.{nat_cmp};
ghost use Rattle.std.specs.Cmp.Lexicographic.{slice_cmp};
ghost use Rattle.std.specs.Map.{keys_of};
ghost use Rattle.std.specs.Global.{Vec};
ghost use Rattle.std.proofs.Props.{props};
ghost use Rattle.ident.specs.Kinds.{ScriptHash};
ghost use Rattle.model.specs.Value.{named_amount, policy_amount};
ghost use Rattle.value.specs.Quantities.{IsWithin, quantity_limit};

use crate::assets::{Policy, Token};
use crate::quantity::Quantity;
use crate::side::Side;
use ident::ScriptHash;
use std::alloc::{AllocError, Global};
use std::collections::{BTreeMap, btree_map};

/// What there is under each name of one policy. A name without an entry has 0.
#[derive(Drop)]
pub struct Amounts {
    by_name: BTreeMap<Vec<u8>, i128>,
    ghost ordered: { IsStrictlySortedBy (λ (a : Vec ℕ) (b : Vec ℕ). slice_cmp nat_cmp a.items b.items)
        (keys_of by_name.entries) } by { Prim.hlevel props },
}

impl Amounts {
    ghost use Rattle.value.specs.View.{token_of};
    ghost use Rattle.value.specs.Differing.{NamesDiffer};
    ghost use Rattle.value.specs.Sides.{sided};
    ghost use Rattle.value.specs.Sums.{sum_under, amount_under, HasAll, AreBounded};
    ghost use Rattle.value.specs.Touched.{IsNoName, KeepsOtherNames};

    /// Nothing under any name.
    fn new(alloc: Global) -> Amounts
        ensures { (name : List ℕ) → sum_under result name ≡ None }
    {
        Amounts {
            by_name: BTreeMap::new(alloc),
        }
    }

    /// Makes an entry for each token's name, so that `change` takes no memory. No amount changes.
    fn prepare<Q>(&mut self, alloc: Global, tokens: &[Token<Q>]) -> Result<(), AllocError>
        ensures same { (name : List ℕ) → amount_under self.new name ≡ amount_under self.old name }
        ensures kept { (name : List ℕ) → IsSome (sum_under self.old name) → IsSome (sum_under self.new name) }
        ensures present { OnOk result (HasAll self.new (map token_of tokens.now)) }
        ensures others { KeepsOtherNames self.old self.new (map token_of tokens.now) }
    {
        for token in tokens {
            self.prepare_name(alloc, &token.name)?;
        }
        Ok(())
    }

    /// Makes an entry for a name that has none.
    fn prepare_name(&mut self, alloc: Global, name: &[u8]) -> Result<(), AllocError>
        ensures same { (q : List ℕ) → amount_under self.new q ≡ amount_under self.old q }
        ensures kept { (q : List ℕ) → IsSome (sum_under self.old q) → IsSome (sum_under self.new q) }
        ensures present { OnOk result (IsSome (sum_under self.new name.now)) }
        ensures others { (q : List ℕ) → bytes_eq q name.now ≡ false → sum_under self.new q ≡ sum_under self.old q }
    {
        if !self.by_name.contains_key(name) {
            let name = Vec::from_slice(alloc, name)?;
            self.by_name.insert(name, 0)?;
        }
        Ok(())
    }

    /// Adds what the tokens have to the sums under their names, or takes it from them: one look-up each.
    fn change<Q: Quantity>(&mut self, tokens: &[Token<Q>], side: Side)
        requires present { HasAll self.old (map token_of tokens.now) }
        requires differ { NamesDiffer (map token_of tokens.now) }
        requires room { (name : List ℕ) → IsWithin (2 ^ 126) (amount_under self.old name) }
        ensures sums { (name : List ℕ) → amount_under self.new name ≡
            amount_under self.old name +ℤ sided side (named_amount Q.whole name (map token_of tokens.now)) }
        ensures bounded { AreBounded Q.whole (map token_of tokens.now) }
        ensures others { KeepsOtherNames self.old self.new (map token_of tokens.now) }
    {
        for token in tokens {
            let by = side.change_by(token.quantity.to_whole());
            self.put(&token.name, by);
        }
    }

    /// Adds to the sum under a name that has an entry.
    fn put(&mut self, name: &[u8], by: i128)
        requires present { IsSome (sum_under self.old name.now) }
        requires room { IsWithin (2 ^ 126) (amount_under self.old name.now) }
        requires within { IsWithin quantity_limit by }
        ensures sums { (q : List ℕ) → amount_under self.new q ≡
            amount_under self.old q +ℤ (if bytes_eq q name.now then by else pos 0) }
        ensures kept { (q : List ℕ) → IsSome (sum_under self.old q) → IsSome (sum_under self.new q) }
        ensures others { (q : List ℕ) → bytes_eq q name.now ≡ false → sum_under self.new q ≡ sum_under self.old q }
    {
        // It is there, so nothing is left out.
        if let Some(amount) = self.by_name.get_mut(name) {
            *amount += by;
        }
    }

    /// Takes out the entries of the tokens' names that are 0: a few look-ups each. No amount changes.
    fn tidy<Q>(&mut self, tokens: &[Token<Q>])
        ensures same { (name : List ℕ) → amount_under self.new name ≡ amount_under self.old name }
        ensures others { KeepsOtherNames self.old self.new (map token_of tokens.now) }
        ensures left { (name : List ℕ) → sum_under self.new name ≡ Some (pos 0) →
            IsNoName name (map token_of tokens.now) }
    {
        for token in tokens {
            self.tidy_name(&token.name);
        }
    }

    /// Takes out the entry of a name where it is 0.
    fn tidy_name(&mut self, name: &[u8])
        ensures same { (q : List ℕ) → amount_under self.new q ≡ amount_under self.old q }
        ensures others { (q : List ℕ) → bytes_eq q name.now ≡ false → sum_under self.new q ≡ sum_under self.old q }
        ensures left { sum_under self.new name.now ≢ Some (pos 0) }
    {
        if self.amount(name) == 0 {
            self.by_name.remove(name);
        }
    }

    /// How much there is under a name: one look-up.
    pub fn amount(&self, name: &[u8]) -> i128
        ensures { result ≡ amount_under self.now name.now }
    {
        match self.by_name.get(name) {
            Some(amount) => *amount,
            None => 0,
        }
    }

    /// The names that have an entry, in the order of their bytes, each with its sum. Under a policy that `Totals` list
    /// they are just the names of which the sum is not 0. Takes no memory.
    pub fn iter(&self) -> btree_map::Iter<'_, Vec<u8>, i128>
        ensures rest { result ≡ self.now.by_name.entries }
        ensures runs { ShowsInOrder (deref_pair {K = Vec ℕ} {X = ℤ}) }
        ensures runs_back { ShowsInReverse (deref_pair {K = Vec ℕ} {X = ℤ}) }
    {
        self.by_name.iter()
    }
}

/// What there is under each name of each policy. A policy without an entry has 0 under each name.
#[derive(Drop)]
pub struct AllAmounts {
    by_policy: BTreeMap<ScriptHash, Amounts>,
    ghost ordered: { IsStrictlySortedBy (λ (a : ScriptHash) (b : ScriptHash). slice_cmp nat_cmp a.bytes b.bytes)
        (keys_of by_policy.entries) } by { Prim.hlevel props },
}

impl AllAmounts {
    ghost use Rattle.value.specs.View.{token_of, policy_of};
    ghost use Rattle.value.specs.Differing.{NamesDiffer, PoliciesDiffer};
    ghost use Rattle.value.specs.Sides.{sided};
    ghost use Rattle.value.specs.Sums.{sum_of, amount_in, amounts_of, HasPolicy, AreBounded};
    ghost use Rattle.value.specs.Touched.{IsNoName, KeepsOthersOf, KeepsOtherAssets, IsTidyAt};
    ghost use Rattle.value.specs.declared.amounts.Amounts.{Amounts};

    /// Nothing of any policy.
    pub fn new(alloc: Global) -> AllAmounts
        ensures { (policy : List ℕ) → amounts_of result policy ≡ None }
    {
        AllAmounts {
            by_policy: BTreeMap::new(alloc),
        }
    }

    /// Makes an entry for each name of each policy, so that `change` takes no memory. No amount changes. Err where
    /// memory runs out: the entries that were made are taken out again.
    pub fn prepare<Q>(&mut self, alloc: Global, policies: &[Policy<Q>]) -> Result<(), AllocError>
        ensures same { (policy name : List ℕ) → amount_in self.new policy name ≡ amount_in self.old policy name }
        ensures present { OnOk result (AllByRecursion (HasPolicy self.new) (map policy_of policies.now)) }
        ensures others { KeepsOtherAssets self.old self.new (map policy_of policies.now) }
        ensures tidy { OnErr result (IsTidyAt self.new (map policy_of policies.now)) }
    {
        if let Err(fault) = self.make_entries(alloc, policies) {
            self.tidy(policies);
            return Err(fault);
        }
        Ok(())
    }

    /// Makes an entry for each name of each policy.
    fn make_entries<Q>(&mut self, alloc: Global, policies: &[Policy<Q>]) -> Result<(), AllocError>
        ensures same { (policy name : List ℕ) → amount_in self.new policy name ≡ amount_in self.old policy name }
        ensures present { OnOk result (AllByRecursion (HasPolicy self.new) (map policy_of policies.now)) }
        ensures others { KeepsOtherAssets self.old self.new (map policy_of policies.now) }
    {
        for policy in policies {
            self.prepare_policy(alloc, policy)?;
        }
        Ok(())
    }

    /// Makes an entry for each name of a policy.
    fn prepare_policy<Q>(&mut self, alloc: Global, policy: &Policy<Q>) -> Result<(), AllocError>
        ensures same { (q name : List ℕ) → amount_in self.new q name ≡ amount_in self.old q name }
        ensures kept { (q name : List ℕ) → IsSome (sum_of self.old q name) → IsSome (sum_of self.new q name) }
        ensures present { OnOk result (HasPolicy self.new (policy_of policy.now)) }
        ensures others { KeepsOthersOf self.old self.new (policy_of policy.now) }
    {
        self.prepare_id(alloc, policy.id)?;
        if let Some(amounts) = self.by_policy.get_mut(&policy.id) {
            amounts.prepare(alloc, &policy.tokens)?;
        }
        Ok(())
    }

    /// Makes an entry for a policy that has none.
    fn prepare_id(&mut self, alloc: Global, id: ScriptHash) -> Result<(), AllocError>
        ensures same { (q name : List ℕ) → sum_of self.new q name ≡ sum_of self.old q name }
        ensures present { OnOk result (IsSome (amounts_of self.new id.bytes)) }
        ensures others { (q : List ℕ) → bytes_eq q id.bytes ≡ false → amounts_of self.new q ≡ amounts_of self.old q }
    {
        if !self.by_policy.contains_key(&id) {
            self.by_policy.insert(id, Amounts::new(alloc))?;
        }
        Ok(())
    }

    /// Adds what there is of each policy to the sums, or takes it from them: one look-up for each policy, and
    /// one for each name among those of its policy.
    pub fn change<Q: Quantity>(&mut self, policies: &[Policy<Q>], side: Side)
        requires present { AllByRecursion (HasPolicy self.old) (map policy_of policies.now) }
        requires differ { PoliciesDiffer (map policy_of policies.now) }
        requires room { (policy name : List ℕ) → IsWithin (2 ^ 126) (amount_in self.old policy name) }
        ensures sums { (policy name : List ℕ) →
            amount_in self.new policy name ≡ amount_in self.old policy name +ℤ
            sided side (policy_amount Q.whole policy name (map policy_of policies.now)) }
        ensures bounded { AllByRecursion (λ p. AreBounded Q.whole p.tokens) (map policy_of policies.now) }
        ensures others { KeepsOtherAssets self.old self.new (map policy_of policies.now) }
    {
        for policy in policies {
            self.change_policy(policy, side);
        }
    }

    /// Adds what there is of one policy, or takes it.
    fn change_policy<Q: Quantity>(&mut self, policy: &Policy<Q>, side: Side)
        requires present { HasPolicy self.old (policy_of policy.now) }
        requires differ { NamesDiffer (policy_of policy.now).tokens }
        requires room { (name : List ℕ) → IsWithin (2 ^ 126) (amount_in self.old policy.now.id.bytes name) }
        ensures sums { (q name : List ℕ) → amount_in self.new q name ≡
            amount_in self.old q name +ℤ (if bytes_eq q policy.now.id.bytes then
            sided side (named_amount Q.whole name (policy_of policy.now).tokens) else pos 0) }
        ensures others { KeepsOthersOf self.old self.new (policy_of policy.now) }
        ensures bounded { AreBounded Q.whole (policy_of policy.now).tokens }
    {
        // It is there, unless it has no tokens.
        if let Some(amounts) = self.by_policy.get_mut(&policy.id) {
            amounts.change(&policy.tokens, side);
        }
    }

    /// Takes out the entries of the policies' names that are 0, and then the policies without a name: a few look-ups
    /// for each policy and name. No amount changes.
    pub fn tidy<Q>(&mut self, policies: &[Policy<Q>])
        ensures same { (policy name : List ℕ) → amount_in self.new policy name ≡ amount_in self.old policy name }
        ensures others { KeepsOtherAssets self.old self.new (map policy_of policies.now) }
        ensures tidy { IsTidyAt self.new (map policy_of policies.now) }
    {
        for policy in policies {
            self.tidy_policy(policy);
        }
    }

    /// Takes out the entries of a policy's names that are 0, and then the policy if it has no name.
    fn tidy_policy<Q>(&mut self, policy: &Policy<Q>)
        ensures same { (q name : List ℕ) → amount_in self.new q name ≡ amount_in self.old q name }
        ensures others { KeepsOthersOf self.old self.new (policy_of policy.now) }
        ensures left { (name : List ℕ) → sum_of self.new policy.now.id.bytes name ≡ Some (pos 0) →
            IsNoName name (policy_of policy.now).tokens }
        ensures bare { (amounts : Amounts) → amounts_of self.new policy.now.id.bytes ≡ Some amounts →
            amounts.by_name.entries ≢ [] }
    {
        if let Some(amounts) = self.by_policy.get_mut(&policy.id) {
            amounts.tidy(&policy.tokens);
            if amounts.by_name.is_empty() {
                self.by_policy.remove(&policy.id);
            }
        }
    }

    /// How much there is under a name of a policy.
    pub fn amount(&self, policy: &ScriptHash, name: &[u8]) -> i128
        ensures { result ≡ amount_in self.now policy.now.bytes name.now }
    {
        match self.by_policy.get(policy) {
            Some(amounts) => amounts.amount(name),
            None => 0,
        }
    }

    /// The policies that have an entry, in the order of their bytes, each with the sums under its names.
    pub fn iter(&self) -> btree_map::Iter<'_, ScriptHash, Amounts>
        ensures rest { result ≡ self.now.by_policy.entries }
        ensures runs { ShowsInOrder (deref_pair {K = ScriptHash} {X = Amounts}) }
        ensures runs_back { ShowsInReverse (deref_pair {K = ScriptHash} {X = Amounts}) }
    {
        self.by_policy.iter()
    }

    /// Whether no policy has an entry.
    pub fn is_empty(&self) -> bool
        ensures { IsTrue result ↔ (self.now.by_policy.entries ≡ []) }
    {
        self.by_policy.is_empty()
    }
}
