//! What the rules ask of a transaction before its signatures, one condition after the other.

ghost use Rattle.std.specs.Prelude.{◌≡◌, ◌≤◌, ◌+◌, ◌*◌, length, map, is_some, not, nat_le, ◌==◌};
ghost use Rattle.std.specs.List.{list_all};
ghost use Rattle.model.specs.Utxo.{output_at, place};
ghost use Rattle.model.specs.Balance.{assets_under};
ghost use Rattle.model.specs.Rules.{is_in_interval, pays_fee, least_coin, has_free_places};
ghost use Rattle.timelock.specs.View.{interval_of};
ghost use Rattle.tx.specs.View.{input_of, output_of};
ghost use Rattle.value.specs.View.{policy_of};
ghost use Rattle.utxo_rules.specs.View.{params_of, era_of};

use crate::era::Era;
use crate::params::Params;
use crate::utxo::Utxo;
use ident::TxId;
use timelock::Interval;
use tx::{Input, Output, Tx};
use value::Policy;

/// Whether the slot lies in the interval: at its start or later, and before its end.
pub fn is_in_interval(slot: u64, interval: Interval) -> bool
    ensures { result ≡ is_in_interval slot (interval_of interval) }
{
    let started = match interval.start {
        None => true,
        Some(start) => start <= slot,
    };
    let lasts = match interval.end {
        None => true,
        Some(end) => slot < end,
    };
    started && lasts
}

/// Whether the fee is at least that for the transaction's size.
pub fn pays_fee(params: &Params, tx: &Tx) -> bool
    ensures { result ≡ pays_fee (params_of params.now) tx.now }
{
    let for_size = u128::from(params.min_fee_a) * u128::from(tx.size());
    for_size + u128::from(params.min_fee_b) <= u128::from(tx.fee())
}

/// Whether each of the inputs stands in the UTXO.
pub fn are_unspent(utxo: &Utxo, inputs: &[Input]) -> bool
    ensures { result ≡ list_all (λ input. is_some (output_at utxo.now input)) (map input_of inputs.now) }
{
    for input in inputs {
        if utxo.get(input).is_none() {
            return false;
        }
    }
    true
}

/// Whether `coin` lovelace is at least `min_utxo`, and `per_asset` more for each of the policies' assets. The sum
/// stays within 128 bits, since no more is added to it once it is too much.
fn is_enough(coin: u64, min_utxo: u64, per_asset: u64, policies: &[Policy<u64>]) -> bool
    ensures { result ≡ nat_le (min_utxo + per_asset * length (assets_under (map policy_of policies.now))) coin }
{
    let mut least = u128::from(min_utxo);
    for policy in policies {
        if least > u128::from(coin) {
            return false;
        }
        let count = policy.tokens.len() as u128;
        least += u128::from(per_asset) * count;
    }
    least <= u128::from(coin)
}

/// Whether each of the outputs holds at least what the era asks of it.
pub fn hold_at_least(era: Era, outputs: &[Output]) -> bool
    ensures { result ≡ list_all (λ o. nat_le (least_coin (era_of era) o) o.value.coin) (map output_of outputs.now) }
{
    for output in outputs {
        let value = &output.value;
        if !is_enough(value.coin(), era.min_utxo, era.per_asset, value.assets()) {
            return false;
        }
    }
    true
}

/// Whether the address of each of the outputs is of this network.
pub fn are_on_network(network: u8, outputs: &[Output]) -> bool
    ensures { result ≡ list_all (λ o. o.address.network == network) (map output_of outputs.now) }
{
    for output in outputs {
        if output.address.network() != network {
            return false;
        }
    }
    true
}

/// Whether no output stands at this index of the transaction.
pub fn is_free(utxo: &Utxo, id: TxId, index: u16) -> bool
    ensures { result ≡ not (is_some (output_at utxo.now (place id.bytes index))) }
{
    let input = Input {
        transaction: id,
        index,
    };
    utxo.get(&input).is_none()
}

/// Whether no output stands where one of the transaction's own will stand.
pub fn has_free_places(utxo: &Utxo, tx: &Tx) -> bool
    ensures { result ≡ has_free_places utxo.now tx.now }
{
    let id = tx.id();
    let outputs = tx.outputs();
    for (index, _) in outputs.iter().enumerate() {
        if !is_free(utxo, id, index as u16) {
            return false;
        }
    }
    true
}
