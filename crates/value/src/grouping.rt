//! Assets in any order, put into the order of a text and under their policies.

ghost use Rattle.std.specs.Prelude.{◌≡◌, ◌↔◌, ◌<◌, ◌++◌, ◌∷◌, [], length, map, IsTrue, IfErr, OnOk, IfOk};
ghost use Rattle.std.specs.Bool.{OnTrue, OnFalse};
ghost use Rattle.std.specs.List.{AllByRecursion};
ghost use Rattle.std.specs.List.Sorted.{IsPermutation};
ghost use Rattle.model.specs.Limits.{name_size_limit};
ghost use Rattle.value.specs.View.{asset_of, policy_of, token_of};
ghost use Rattle.value.specs.Parts.{flat_assets, HasLongName, HasZero, HasRepeats, IsAssetFault};
ghost use Rattle.value.specs.Said.{AreSaid};
ghost use Rattle.value.specs.Checked.{IsNamed, IsCounted};
ghost use Rattle.value.specs.Grouped.{AllNeighboursDiffer, IsGrouped, asset_under};

use crate::asset_fault::AssetFault;
use crate::asset_quantity::AssetQuantity;
use crate::assets::{MAX_NAME, Policy, Token};
use crate::quantity::Quantity;
use ident::ScriptHash;
use std::alloc::{AllocError, Global};

/// Whether the name is longer than a text allows.
fn is_too_long(name: &[u8]) -> bool
    ensures long { IsTrue result ↔ (name_size_limit < length name.now) }
    ensures bytes { AllByRecursion (λ b. b < 256) name.now }
{
    name.len() > MAX_NAME
}

/// Whether one of the names is.
fn has_long_name<Q>(assets: &[AssetQuantity<Q>]) -> bool
    ensures long { OnTrue result (HasLongName (map asset_of assets.now)) }
    ensures named { OnFalse result (AllByRecursion IsNamed (map asset_of assets.now)) }
{
    for asset in assets {
        if is_too_long(&asset.name) {
            return true;
        }
    }
    false
}

/// Whether a quantity is 0.
fn has_zero<Q: Quantity>(assets: &[AssetQuantity<Q>]) -> bool
    ensures zero { OnTrue result (HasZero Q.whole (map asset_of assets.now)) }
    ensures counted { OnFalse result (AllByRecursion (IsCounted Q.whole Q.is_quantity Q.item_of)
        (map asset_of assets.now)) }
{
    for asset in assets {
        if asset.quantity.is_zero() {
            return true;
        }
    }
    false
}

/// Whether two neighbours are one asset.
fn has_equal_neighbours<Q>(assets: &[AssetQuantity<Q>]) -> bool
    ensures repeats { OnTrue result (HasRepeats (map asset_of assets.now)) }
    ensures differ { OnFalse result (AllNeighboursDiffer (map asset_of assets.now)) }
{
    let Some((first, others)) = assets.split_first() else {
        return false;
    };
    let mut last = first;
    for asset in others {
        if last.order(asset).is_eq() {
            return true;
        }
        last = asset;
    }
    false
}

/// Puts a token under the last policy, or under one of its own where it is of another.
fn push_token<Q: Quantity>(
    alloc: Global,
    policies: &mut Vec<Policy<Q>>,
    id: ScriptHash,
    token: Token<Q>,
) -> Result<(), AllocError>
    ensures flat { OnOk result (flat_assets (map policy_of policies.new.items) ≡
        flat_assets (map policy_of policies.old.items) ++ asset_under id.bytes (token_of token) ∷ []) }
    ensures grouped { OnOk result (IsGrouped (map policy_of policies.old.items) →
        IsGrouped (map policy_of policies.new.items)) }
{
    if let Some(last) = policies.last_mut() {
        if last.id == id {
            last.tokens.push(token)?;
            return Ok(());
        }
    }
    let mut tokens = Vec::new(alloc);
    tokens.push(token)?;
    policies.push(Policy { id, tokens })?;
    Ok(())
}

/// The policies of assets that stand in order, each with its run of them. Names are moved.
fn group<Q: Quantity>(
    alloc: Global,
    assets: Vec<AssetQuantity<Q>>,
) -> Result<Vec<Policy<Q>>, AllocError>
    ensures flat { IfOk result (λ policies. flat_assets (map policy_of policies.items) ≡ map asset_of assets.items) }
    ensures grouped { IfOk result (λ policies. IsGrouped (map policy_of policies.items)) }
{
    let mut policies = Vec::new(alloc);
    for asset in assets {
        let AssetQuantity {
            policy,
            name,
            quantity,
        } = asset;
        push_token(alloc, &mut policies, policy, Token { name, quantity })?;
    }
    Ok(policies)
}

/// The policies of these assets, in the order of a text. Err where the assets are at fault: their first fault, which is
/// told before any memory is taken.
pub fn policies_with<Q: Quantity>(
    alloc: Global,
    mut assets: Vec<AssetQuantity<Q>>,
) -> Result<Vec<Policy<Q>>, AssetFault>
    ensures same { IfOk result (λ policies.
        IsPermutation (map asset_of assets.items) (flat_assets (map policy_of policies.items))) }
    ensures said { IfOk result (λ policies. AreSaid Q.is_quantity Q.item_of (map policy_of policies.items)) }
    ensures fault { IfErr result (IsAssetFault Q.whole (map asset_of assets.items)) }
{
    if has_long_name(&assets) {
        return Err(AssetFault::NameTooLong);
    }
    if has_zero(&assets) {
        return Err(AssetFault::ZeroQuantity);
    }
    assets.sort_unstable_by(|a, b| a.order(b));
    if has_equal_neighbours(&assets) {
        return Err(AssetFault::Repeated);
    }
    Ok(group(alloc, assets)?)
}
