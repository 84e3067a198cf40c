//! What a genesis opens the ledger with.

ghost use Rattle.std.specs.Prelude.{◌≡◌, ◌≤◌, ◌<◌, length, map, IfOk};
ghost use Rattle.std.specs.FinMap as finite;
ghost use Rattle.model.specs.Limits.{output_limit, greatest_index, number_limit};
ghost use Rattle.model.specs.Utxo.{place, with_pairs, pairs_from, outputs_of, coin_of};
ghost use Rattle.model.specs.Genesis.{opening_id, opening_utxo};
ghost use Rattle.tx.specs.View.{input_of};
ghost use Rattle.ledger.specs.View.{granted_output};

use genesis::{Genesis, Grant};
use ident::TxId;
use std::alloc::{AllocError, Global};
use tx::{Input, Output};
use utxo_rules::Utxo;
use value::Value;

/// The input that would spend the grant of this place in the genesis.
#[tactic(auto, unfolding(model::specs::Genesis::opening_id))]
fn place_of(index: usize) -> Input
    requires { index ≤ greatest_index }
    ensures { input_of result ≡ place opening_id index }
{
    Input {
        transaction: TxId::from_bytes([0; 32]),
        index: index as u16,
    }
}

/// What these grants leave to be spent, counted from 0.
fn grant_all(alloc: Global, grants: &[Grant]) -> Result<Utxo, AllocError>
    requires { length grants.now ≤ output_limit }
    ensures { IfOk result (λ utxo.
        utxo ≡ with_pairs (pairs_from opening_id 0 (map granted_output grants.now)) finite.empty) }
{
    let mut utxo = Utxo::new(alloc);
    for (index, grant) in grants.iter().enumerate() {
        let output = Output {
            address: grant.address,
            value: Value::of_coin(alloc, grant.coin),
        };
        utxo.insert(&place_of(index), output)?;
    }
    Ok(utxo)
}

/// The unspent outputs before the first block.
pub fn open_utxo(alloc: Global, genesis: &Genesis) -> Result<Utxo, AllocError>
    ensures utxo { IfOk result (λ utxo. utxo ≡ opening_utxo genesis.now) }
    ensures small { IfOk result (λ utxo. coin_of (outputs_of utxo) < number_limit) }
{
    grant_all(alloc, genesis.outputs())
}
