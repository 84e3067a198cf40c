//! The first thing that breaks a condition on what a transaction spends and makes: reasons 1 to 7, and 9.

ghost use Rattle.std.specs.Prelude.{◌≡◌, ◌<◌, ◌^◌, ℕ};
ghost use Rattle.std.specs.Option.{option_map};
ghost use Rattle.model.specs.Signature.{Verifies};
ghost use Rattle.model.specs.Utxo as model;
ghost use Rattle.model.specs.Rules as rules;
ghost use Rattle.model.specs.Rules.{asset_count, least_coin, OutsideInterval, TooBig, FeeTooSmall, MissingInput};
ghost use Rattle.model.specs.Rules.{OutputTooSmall, WrongNetwork, OutputExists};
ghost use Rattle.tx.specs.View.{output_of};
ghost use Rattle.utxo_rules.specs.View.{params_of, era_of};
ghost use Rattle.utxo_rules.specs.DetailView.{detail_of, FindsDetail};

use crate::conditions::{is_free, is_in_interval};
use crate::detail::Detail;
use crate::era::Era;
use crate::params::Params;
use crate::utxo::Utxo;
use tx::{Output, Tx};

/// The slot with the transaction's interval, where it lies outside.
pub fn outside_interval(slot: u64, tx: &Tx) -> Option<Detail>
    ensures { (verifies : Verifies) (params : rules.Params) (utxo : model.Utxo) →
        FindsDetail verifies params utxo slot tx.now OutsideInterval (option_map detail_of result) }
{
    let interval = tx.interval();
    if is_in_interval(slot, interval) {
        return None;
    }
    Some(Detail::OutsideInterval {
        slot,
        start: interval.start,
        end: interval.end,
    })
}

/// The size with the greatest one, where it is more.
pub fn too_big(params: &Params, tx: &Tx) -> Option<Detail>
    ensures { (verifies : Verifies) (utxo : model.Utxo) (slot : ℕ) →
        FindsDetail verifies (params_of params.now) utxo slot tx.now TooBig (option_map detail_of result) }
{
    let size = tx.size();
    if size <= u64::from(params.max_tx_size) {
        return None;
    }
    Some(Detail::TooBig {
        size,
        most: params.max_tx_size,
    })
}

/// The fee with the least one, where it is less.
pub fn small_fee(params: &Params, tx: &Tx) -> Option<Detail>
    ensures { (verifies : Verifies) (utxo : model.Utxo) (slot : ℕ) →
        FindsDetail verifies (params_of params.now) utxo slot tx.now FeeTooSmall (option_map detail_of result) }
{
    let for_size = u128::from(params.min_fee_a) * u128::from(tx.size());
    let least = for_size + u128::from(params.min_fee_b);
    let fee = tx.fee();
    if least <= u128::from(fee) {
        return None;
    }
    Some(Detail::FeeTooSmall { fee, least })
}

/// The first input that isn't in the UTXO.
pub fn missing_input(utxo: &Utxo, tx: &Tx) -> Option<Detail>
    ensures { (verifies : Verifies) (params : rules.Params) (slot : ℕ) →
        FindsDetail verifies params utxo.now slot tx.now MissingInput (option_map detail_of result) }
{
    let inputs = tx.inputs();
    for input in inputs {
        if utxo.get(input).is_none() {
            return Some(Detail::MissingInput(*input));
        }
    }
    None
}

/// The least coin of an output. It has a place in 128 bits, since a transaction has more bytes than assets.
fn least_coin(era: Era, output: &Output) -> u128
    requires { asset_count (output_of output.now) < 2 ^ 64 }
    ensures { result ≡ least_coin (era_of era) (output_of output.now) }
{
    let mut count = 0u128;
    let policies = output.value.assets();
    for policy in policies {
        count += policy.tokens.len() as u128;
    }
    u128::from(era.min_utxo) + u128::from(era.per_asset) * count
}

/// The first output that holds less than the era asks of it.
pub fn small_output(params: &Params, slot: u64, tx: &Tx) -> Option<Detail>
    ensures { (verifies : Verifies) (utxo : model.Utxo) →
        FindsDetail verifies (params_of params.now) utxo slot tx.now OutputTooSmall (option_map detail_of result) }
{
    // It has a place in 64 bits, and so has the number of assets of each output.
    let _ = tx.size();
    let era = params.era_at(slot);
    let outputs = tx.outputs();
    for (index, output) in outputs.iter().enumerate() {
        let coin = output.value.coin();
        let least = least_coin(era, output);
        if u128::from(coin) < least {
            return Some(Detail::OutputTooSmall { index, coin, least });
        }
    }
    None
}

/// The first output whose address is of another network.
pub fn foreign_output(params: &Params, tx: &Tx) -> Option<Detail>
    ensures { (verifies : Verifies) (utxo : model.Utxo) (slot : ℕ) →
        FindsDetail verifies (params_of params.now) utxo slot tx.now WrongNetwork (option_map detail_of result) }
{
    let outputs = tx.outputs();
    for (index, output) in outputs.iter().enumerate() {
        if output.address.network() != params.network {
            return Some(Detail::WrongNetwork { index });
        }
    }
    None
}

/// The first output in whose place another one stands.
pub fn taken_place(utxo: &Utxo, tx: &Tx) -> Option<Detail>
    ensures { (verifies : Verifies) (params : rules.Params) (slot : ℕ) →
        FindsDetail verifies params utxo.now slot tx.now OutputExists (option_map detail_of result) }
{
    let id = tx.id();
    let outputs = tx.outputs();
    for (index, _) in outputs.iter().enumerate() {
        if !is_free(utxo, id, index as u16) {
            return Some(Detail::OutputExists { index });
        }
    }
    None
}
