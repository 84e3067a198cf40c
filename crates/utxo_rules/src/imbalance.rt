//! The first asset of which not as much is consumed as is produced: reason 8.

ghost use Rattle.std.specs.Prelude.{◌≡◌, ◌≢◌, ◌≤◌, ◌<◌, ◌+◌, ◌-ℤ◌, ◌+ℤ◌, ◌^◌, ℕ, ℤ, pos, [], map, length, IfOk};
ghost use Rattle.std.specs.Prelude.{OnOk, MatchOption};
ghost use Rattle.std.specs.Option.{option_map};
ghost use Rattle.model.specs.Signature.{Verifies};
ghost use Rattle.model.specs.Value.{Asset};
ghost use Rattle.model.specs.Utxo as model;
ghost use Rattle.model.specs.Utxo.{sum_of};
ghost use Rattle.model.specs.Balance.{consumed, produced};
ghost use Rattle.model.specs.Rules as rules;
ghost use Rattle.model.specs.Rules.{NotBalanced};
ghost use Rattle.tx.specs.View.{output_of};
ghost use Rattle.value.specs.Totals.{total_of};
ghost use Rattle.value.specs.Listed.{named_sums};
ghost use Rattle.utxo_rules.specs.DetailView.{detail_of, asset_of, FindsDetail};
ghost use Rattle.model.specs.Explaining.{name_cmp};
ghost use Rattle.utxo_rules.specs.Unbalanced.{IsFirstOff, IsFirstName};

use crate::balance::take_outputs;
use crate::detail::{AssetId, Detail};
use crate::spent::Spent;
use crate::utxo::Utxo;
use std::alloc::{AllocError, Global};
use std::cmp::Ordering;
use tx::{Output, Tx};
use value::{Amounts, Totals, Value};

/// What is consumed: what the inputs bring, and what is minted.
fn consumed(alloc: Global, utxo: &Utxo, tx: &Tx) -> Result<Totals, AllocError>
    ensures sums { IfOk result (λ totals. (asset : Asset) → total_of totals asset ≡ consumed utxo.now tx.now asset) }
    ensures few { IfOk result (λ totals. totals.values ≤ 2 ^ 61) }
{
    let spent = Spent::by(alloc, utxo, tx.inputs())?;
    let mut totals = spent.totals;
    tx.mint().add_to(&mut totals)?;
    Ok(totals)
}

/// Adds the values of the outputs to the sums.
fn add_outputs(totals: &mut Totals, outputs: &[Output]) -> Result<(), AllocError>
    requires { totals.old.values + length outputs.now ≤ 2 ^ 62 }
    ensures sums { OnOk result ((asset : Asset) →
        total_of totals.new asset ≡ total_of totals.old asset +ℤ sum_of asset (map output_of outputs.now)) }
    ensures counted { OnOk result (totals.new.values ≡ totals.old.values + length outputs.now) }
{
    for output in outputs {
        output.value.add_to(totals)?;
    }
    Ok(())
}

/// What is produced: what the outputs hold, and the fee.
fn produced(alloc: Global, tx: &Tx) -> Result<Totals, AllocError>
    ensures { IfOk result (λ totals. (asset : Asset) → total_of totals asset ≡ produced tx.now asset) }
{
    let mut totals = Totals::new(alloc);
    add_outputs(&mut totals, tx.outputs())?;
    Value::of_coin(alloc, tx.fee()).add_to(&mut totals)?;
    Ok(totals)
}

/// How much more is consumed than is produced.
fn surplus(alloc: Global, utxo: &Utxo, tx: &Tx) -> Result<Totals, AllocError>
    ensures { IfOk result (λ totals. (asset : Asset) →
        total_of totals asset ≡ consumed utxo.now tx.now asset -ℤ produced tx.now asset) }
{
    let mut totals = consumed(alloc, utxo, tx)?;
    take_outputs(&mut totals, tx.outputs())?;
    Value::of_coin(alloc, tx.fee()).take_from(&mut totals)?;
    Ok(totals)
}

/// Which of two names comes first: the shorter one, and of one length by their bytes.
fn name_order(name: &[u8], other: &[u8]) -> Ordering
    ensures { result ≡ name_cmp name.now other.now }
{
    name.len().cmp(&other.len()).then_with(|| name.cmp(other))
}

/// The first of a policy's names, where it has some.
fn first_name(amounts: &Amounts) -> Option<&[u8]>
    ensures { MatchOption result (named_sums amounts.now ≡ []) (λ name. IsFirstName (named_sums amounts.now) name.now) }
{
    let mut names = amounts.iter();
    let (first, _) = names.next()?;
    let mut first = first.as_slice();
    while let Some((name, _)) = names.next() {
        if name_order(name, first).is_lt() {
            first = name.as_slice();
        }
    }
    Some(first)
}

/// The first asset of which the sum is not 0, where there is one: None for ada.
fn first_asset(alloc: Global, totals: &Totals) -> Result<Option<AssetId>, AllocError>
    requires { ((asset : Asset) → total_of totals.now asset ≡ pos 0) → ⊥ }
    ensures { IfOk result (λ asset. IsFirstOff (total_of totals.now) (asset_of asset)) }
{
    if totals.coin() != 0 {
        return Ok(None);
    }
    let Some((policy, amounts)) = totals.policies().next() else {
        return Ok(None);
    };
    let Some(name) = first_name(amounts) else {
        return Ok(None);
    };
    Ok(Some(AssetId {
        policy: *policy,
        name: Vec::from_slice(alloc, name)?,
    }))
}

/// The sum of an asset: None for ada.
fn amount(totals: &Totals, asset: &Option<AssetId>) -> i128
    ensures { result ≡ total_of totals.now (asset_of asset.now) }
{
    match asset {
        None => totals.coin(),
        Some(asset) => totals.amount(&asset.policy, &asset.name),
    }
}

/// The first asset of which not as much is consumed as is produced, with both sums.
pub fn imbalance(alloc: Global, utxo: &Utxo, tx: &Tx) -> Result<Option<Detail>, AllocError>
    ensures { IfOk result (λ found. (verifies : Verifies) (params : rules.Params) (slot : ℕ) →
        FindsDetail verifies params utxo.now slot tx.now NotBalanced (option_map detail_of found)) }
{
    let surplus = surplus(alloc, utxo, tx)?;
    if surplus.is_balanced() {
        return Ok(None);
    }
    let asset = first_asset(alloc, &surplus)?;
    let sum_in = amount(&consumed(alloc, utxo, tx)?, &asset);
    let sum_out = amount(&produced(alloc, tx)?, &asset);
    Ok(Some(Detail::NotBalanced {
        asset,
        consumed: sum_in,
        produced: sum_out,
    }))
}
