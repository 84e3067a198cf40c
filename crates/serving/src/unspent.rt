//! Unspent outputs as they are told.

ghost use Rattle.std.specs.Prelude.{◌≡◌, ◌++◌, map, option_map, option_and_then, IfOk, OnOk};
ghost use Rattle.tx.specs.View.{input_of, output_of};
ghost use Rattle.value.specs.Parts.{assets_under, flat_assets};
ghost use Rattle.value.specs.View.{policy_of, token_of};
ghost use Rattle.utxo_rules.specs.Entries.{pair_of};
ghost use Rattle.conversing.specs.RequestView.{place_view};
ghost use Rattle.serving.specs.UtxoTelling.{asset_told, input_named, is_of_one, output_told, pair_at, pairs_at};
ghost use Rattle.serving.specs.UtxoTelling.{pairs_of, unspent_of};
ghost use Rattle.serving.specs.UnspentView.{unspent_view};

use conversing::{OutputPlace, ToldAsset, ToldOutput};
use ident::{ScriptHash, TxId};
use std::alloc::{AllocError, Global};
use tx::{ADDRESS_SIZE, Input, Output};
use utxo_rules::Utxo;
use value::{Policy, Token};

/// An unspent output, with what is told of it that doesn't stand in it as it is told.
#[derive(Drop)]
pub struct Unspent<'a> {
    input: Input,
    address: [u8; ADDRESS_SIZE],
    coin: u64,
    assets: Vec<ToldAsset<'a>>,
}

/// Appends each asset of a policy.
fn put_tokens<'a>(
    assets: &mut Vec<ToldAsset<'a>>,
    policy: &ScriptHash,
    tokens: &'a [Token<u64>],
) -> Result<(), AllocError>
    ensures { OnOk result (map asset_told assets.new.items ≡ map asset_told assets.old.items
        ++ assets_under policy.now.bytes (map token_of tokens.now)) }
{
    for token in tokens {
        assets.push(ToldAsset {
            policy: policy.bytes,
            name: &token.name,
            quantity: token.quantity,
        })?;
    }
    Ok(())
}

/// How much there is of each asset of these policies, in their order.
fn told_assets<'a>(
    alloc: Global,
    policies: &'a [Policy<u64>],
) -> Result<Vec<ToldAsset<'a>>, AllocError>
    ensures { IfOk result (λ assets. map asset_told assets.items ≡ flat_assets (map policy_of policies.now)) }
{
    let mut assets = Vec::new(alloc);
    for policy in policies {
        put_tokens(&mut assets, &policy.id, &policy.tokens)?;
    }
    Ok(assets)
}

impl<'a> Unspent<'a> {
    /// An output with the input that would spend it.
    fn of(alloc: Global, input: Input, output: &'a Output) -> Result<Unspent<'a>, AllocError>
        ensures { IfOk result (λ unspent. unspent_view unspent ≡ unspent_of (input_of input, output_of output.now)) }
    {
        Ok(Unspent {
            input,
            address: output.address.to_bytes(),
            coin: output.value.coin(),
            assets: told_assets(alloc, output.value.assets())?,
        })
    }

    /// The output as it is told.
    fn told(&self) -> ToldOutput<'_>
        ensures { output_told result ≡ unspent_view self.now }
    {
        let transaction = self.input.transaction.bytes;
        ToldOutput {
            transaction,
            index: u64::from(self.input.index),
            address: self.address.as_slice(),
            coin: self.coin,
            assets: &self.assets,
        }
    }
}

/// The input that a place names; None where no output can stand there.
fn named_input(place: &OutputPlace) -> Option<Input>
    ensures { option_map input_of result ≡ input_named (place_view place.now) }
{
    let index = u16::try_from(place.index).ok()?;
    Some(Input {
        transaction: TxId::from_bytes(place.transaction),
        index,
    })
}

/// The output at a place, with the input that would spend it, if it is unspent.
fn found_at<'a>(utxo: &'a Utxo, place: &OutputPlace) -> Option<(Input, &'a Output)>
    ensures { option_map pair_of result
        ≡ option_and_then (pair_at utxo.now) (input_named (place_view place.now)) }
{
    let input = named_input(place)?;
    let output = utxo.get(&input)?;
    Some((input, output))
}

/// The unspent ones of the outputs at these places, in the order of the places. A look-up for each, whose time grows
/// with the logarithm of the number of all.
pub fn unspent_at<'a>(
    alloc: Global,
    utxo: &'a Utxo,
    places: &[OutputPlace],
) -> Result<Vec<Unspent<'a>>, AllocError>
    ensures { IfOk result (λ found.
        map unspent_view found.items ≡ map unspent_of (pairs_at utxo.now (map place_view places.now))) }
{
    let mut found = Vec::new(alloc);
    for place in places {
        if let Some((input, output)) = found_at(utxo, place) {
            let unspent = Unspent::of(alloc, input, output)?;
            found.push(unspent)?;
        }
    }
    Ok(found)
}

/// Whether an output is of one of these addresses.
fn is_of_one(addresses: &[Vec<u8>], output: &Output) -> bool
    ensures { result ≡ is_of_one (map (λ address. address.items) addresses.now) (output_of output.now) }
{
    let bytes = output.address.to_bytes();
    for address in addresses {
        if bytes.as_slice() == address.as_slice() {
            return true;
        }
    }
    false
}

/// The unspent outputs of these addresses, in the order of their inputs. Walks through all unspent outputs, and
/// compares the address of each with these.
pub fn unspent_of<'a>(
    alloc: Global,
    utxo: &'a Utxo,
    addresses: &[Vec<u8>],
) -> Result<Vec<Unspent<'a>>, AllocError>
    ensures { IfOk result (λ found. map unspent_view found.items
        ≡ map unspent_of (pairs_of utxo.now (map (λ address. address.items) addresses.now))) }
{
    let mut found = Vec::new(alloc);
    for (input, output) in utxo.iter() {
        if is_of_one(addresses, output) {
            let unspent = Unspent::of(alloc, input, output)?;
            found.push(unspent)?;
        }
    }
    Ok(found)
}

/// These outputs as they are told.
pub fn told_outputs<'a>(
    alloc: Global,
    outputs: &'a [Unspent<'_>],
) -> Result<Vec<ToldOutput<'a>>, AllocError>
    ensures { IfOk result (λ told. map output_told told.items ≡ map unspent_view outputs.now) }
{
    let mut told = Vec::with_capacity(alloc, outputs.len())?;
    for unspent in outputs {
        told.push(unspent.told())?;
    }
    Ok(told)
}
