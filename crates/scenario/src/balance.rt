//! What an owner has, and what is printed of it.

ghost use Rattle.std.specs.Prelude.{◌≡◌, ◌++◌, ◌+◌, ◌+ℤ◌, [], OnOk, IfOk, length, map, flat_map};
ghost use Rattle.model.specs.Value.{Asset, Ada, amount_of};
ghost use Rattle.model.specs.Utxo.{sum_of};
ghost use Rattle.tx.specs.View.{address_of, output_of};
ghost use Rattle.value.specs.Listed.{named_sums};
ghost use Rattle.value.specs.Order.{asset_cmp};
ghost use Rattle.value.specs.Totals.{total_of};
ghost use Rattle.value.specs.View.{asset_of};
ghost use Rattle.script.specs.PartView.{owner_of};
ghost use Rattle.scenario.specs.Balances.{AreAssetsOf, IsBalanceText, asset_text, balance_text, outputs_of_address};
ghost use Rattle.scenario.specs.Balances.{owner_text};
ghost use Rattle.scenario.specs.Gathered.{AreListed, assets_under};

use ident::{Hex, ScriptHash};
use script::Owner;
use std::alloc::{AllocError, Global};
use std::cmp::Ordering;
use std::io::Write;
use tx::{Address, Output};
use utxo_rules::Utxo;
use value::{Amounts, AssetQuantity, Totals};

/// The most values of which sums are exact.
const MOST_VALUES: u64 = 1 << 62;

/// Adds what an output holds. No unspent outputs are so many that their sums aren't exact.
fn add(totals: &mut Totals, output: &Output) -> Result<(), AllocError>
    ensures sums { OnOk result ((asset : Asset) →
        total_of totals.new asset ≡ total_of totals.old asset +ℤ amount_of asset (output_of output.now).value) }
    ensures counted { OnOk result (totals.new.values ≡ totals.old.values + 1) }
{
    if totals.values() >= MOST_VALUES {
        return Err(AllocError);
    }
    output.value.add_to(totals)
}

/// What the unspent outputs of an address hold together. Walks through all unspent outputs.
fn totals_at(alloc: Global, utxo: &Utxo, address: &Address) -> Result<Totals, AllocError>
    ensures sums { IfOk result (λ totals. (asset : Asset) →
        total_of totals asset ≡ sum_of asset (outputs_of_address (address_of address.now) utxo.now)) }
    ensures counted { IfOk result (λ totals.
        totals.values ≡ length (outputs_of_address (address_of address.now) utxo.now)) }
{
    let mut totals = Totals::new(alloc);
    for (_, output) in utxo.of(address) {
        add(&mut totals, output)?;
    }
    Ok(totals)
}

/// Which of two assets stands first in the text of a value: by policy, then shorter names first, then by their bytes.
fn order(asset: &AssetQuantity<i128>, other: &AssetQuantity<i128>) -> Ordering
    ensures { result ≡ asset_cmp (asset_of asset.now) (asset_of other.now) }
{
    asset
        .policy
        .cmp(&other.policy)
        .then_with(|| asset.name.len().cmp(&other.name.len()))
        .then_with(|| asset.name.cmp(&other.name))
}

/// Puts the assets of a policy behind those that were gathered.
fn gather_names(
    alloc: Global,
    gathered: &mut Vec<AssetQuantity<i128>>,
    policy: &ScriptHash,
    amounts: &Amounts,
) -> Result<(), AllocError>
    ensures { OnOk result (map asset_of gathered.new.items ≡
        map asset_of gathered.old.items ++ assets_under policy.now.bytes (named_sums amounts.now)) }
{
    for (name, amount) in amounts.iter() {
        let name = Vec::from_slice(alloc, name)?;
        gathered.push(AssetQuantity {
            policy: *policy,
            name,
            quantity: *amount,
        })?;
    }
    Ok(())
}

/// The assets but ada of which the sum isn't 0, as they are listed.
fn gather(alloc: Global, totals: &Totals) -> Result<Vec<AssetQuantity<i128>>, AllocError>
    ensures { IfOk result (λ assets. AreListed (total_of totals.now) (map asset_of assets.items)) }
{
    let mut gathered = Vec::new(alloc);
    for (policy, amounts) in totals.policies() {
        gather_names(alloc, &mut gathered, policy, amounts)?;
    }
    Ok(gathered)
}

/// The assets but ada of which the sum isn't 0, in the order of a value's text. Sorts them where they are.
fn assets_of(alloc: Global, totals: &Totals) -> Result<Vec<AssetQuantity<i128>>, AllocError>
    ensures { IfOk result (λ assets. AreAssetsOf (total_of totals.now) (map asset_of assets.items)) }
{
    let mut assets = gather(alloc, totals)?;
    assets.sort_unstable_by(|a, b| order(a, b));
    Ok(assets)
}

/// Appends the line of an asset.
fn print_asset(line: &mut Vec<u8>, asset: &AssetQuantity<i128>) -> Result<(), AllocError>
    ensures { OnOk result (line.new.items ≡ line.old.items ++ asset_text (asset_of asset.now)) }
{
    let policy = asset.policy;
    let quantity = asset.quantity;
    let written = if asset.name.is_empty() {
        write!(line, "asset {policy} - {quantity}\n")
    } else {
        let name = Hex(&asset.name);
        write!(line, "asset {policy} {name} {quantity}\n")
    };
    match written {
        Ok(()) => Ok(()),
        Err(_) => Err(AllocError),
    }
}

/// Appends the name of an owner.
fn print_owner(line: &mut Vec<u8>, owner: Owner<'_>) -> Result<(), AllocError>
    ensures { OnOk result (line.new.items ≡ line.old.items ++ owner_text (owner_of owner.entry)) }
{
    match owner {
        Owner::Key(name) => line.extend_from_slice(name.text),
        Owner::Script(name) => {
            line.extend_from_slice(b"script ")?;
            line.extend_from_slice(name.text)
        }
    }
}

/// Appends how many outputs an owner has, and how much lovelace they hold together.
fn print_coin(line: &mut Vec<u8>, owner: Owner<'_>, totals: &Totals) -> Result<(), AllocError>
    ensures { OnOk result (line.new.items ≡ line.old.items
        ++ balance_text (owner_of owner.entry) totals.now.values (total_of totals.now Ada) []) }
{
    line.extend_from_slice(b"balance ")?;
    print_owner(line, owner)?;
    let pairs = totals.values();
    let coin = totals.coin();
    match write!(line, ": pairs {pairs} coin {coin}\n") {
        Ok(()) => Ok(()),
        Err(_) => Err(AllocError),
    }
}

/// Appends the lines of these assets.
fn print_assets(line: &mut Vec<u8>, assets: &[AssetQuantity<i128>]) -> Result<(), AllocError>
    ensures { OnOk result (line.new.items ≡ line.old.items ++ flat_map asset_text (map asset_of assets.now)) }
{
    for asset in assets {
        print_asset(line, asset)?;
    }
    Ok(())
}

/// What the question `balance` prints, where these outputs are unspent and the owner has this address. Walks through
/// all unspent outputs; takes memory for the sums of the owner's assets.
pub fn balance_lines(
    alloc: Global,
    utxo: &Utxo,
    owner: Owner<'_>,
    address: &Address,
) -> Result<Vec<u8>, AllocError>
    ensures { IfOk result (λ lines. IsBalanceText (outputs_of_address (address_of address.now) utxo.now)
        (owner_of owner.entry) lines.items) }
{
    let totals = totals_at(alloc, utxo, address)?;
    let assets = assets_of(alloc, &totals)?;
    let mut lines = Vec::new(alloc);
    print_coin(&mut lines, owner, &totals)?;
    print_assets(&mut lines, &assets)?;
    Ok(lines)
}
