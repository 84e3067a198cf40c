//! Payments that are judged where an output stands in the place of their own, and one that spends a thousand outputs.

use super::fixture::{MEMORY, same};
use super::payments::{names_of, obey, payment_of};
use super::unspent_tests::{coin_at, no_outputs, put_unspent};
use ident::TxId;
use script::Names;
use std::alloc::Global;
use std::process::Abort;
use tx::Input;
use utxo_rules::{CheckFault, Params, Utxo, apply, check};
use witness_pool::{CheckedTx, TestScheme};

/// What the network of the worked examples asks.
const PARAMS: Params = Params {
    network: 0,
    min_fee_a: 1,
    min_fee_b: 100,
    min_utxo: 10,
    max_tx_size: 4096,
    max_body_size: 65_536,
    second_era: None,
};

/// The number of the first reason against a transaction at slot 7, 0 for none, and 15 where memory runs out.
fn told(alloc: Global, params: &Params, utxo: &Utxo, tx: &CheckedTx<TestScheme>) -> u64 {
    match check(alloc, params, utxo, 7, tx) {
        Ok(()) => 0,
        Err(CheckFault::Refused(reason)) => u64::from(reason.number()),
        Err(CheckFault::OutOfMemory) => 15,
    }
}

/// The output of this index of the genesis.
fn genesis(index: u16) -> Input {
    Input {
        transaction: TxId::from_bytes([0; 32]),
        index,
    }
}

/// The UTXO of `count` outputs of the genesis, each of this lovelace.
fn opening(rt: &(impl Abort + AllocGlobal), count: u16, coin: u64) -> Box<Utxo> {
    let mut utxo = no_outputs(rt);
    for index in 0..count {
        put_unspent(rt, &mut utxo, &genesis(index), coin);
    }
    utxo
}

/// The place of a transaction's first output.
fn first_of(tx: &CheckedTx<TestScheme>) -> Input {
    Input {
        transaction: tx.tx().id(),
        index: 0,
    }
}

/// This is told of a payment where an output of 10 lovelace stands where its own would.
fn is_told_where_taken(rt: &(impl Abort + AllocGlobal), names: &Names, payment: &str, want: u64) {
    let tx = payment_of(rt, names, payment);
    let mut utxo = opening(rt, 1, 1200);
    put_unspent(rt, &mut utxo, &first_of(&tx), 10);
    same(rt, payment, told(rt.alloc(), &PARAMS, &utxo, &tx), want);
}

// Alone, behind the reason before it, and before the one behind it.
#[test]
fn places_that_are_taken(rt: HostRuntime) {
    let names = names_of(&rt, "");
    for (payment, want) in [("Good", 9), ("Unbalanced", 8), ("BadlySigned", 9)] {
        is_told_where_taken(&rt, &names, payment, want);
    }
}

/// Nothing is paid for a byte here, so that the fee is no matter.
const FREE: Params = Params {
    min_fee_a: 0,
    max_tx_size: 65_536,
    ..PARAMS
};

/// Names the payment by which a thousand outputs are spent, and which nobody signs.
fn name_gathering(rt: &(impl Abort + AllocGlobal), names: &mut Names) {
    obey(rt, names, "tx Gathering");
    for index in 0..1000u16 {
        let line = format!(in rt.alloc(); "in genesis {index}").expect(rt, MEMORY);
        obey(rt, names, line.as_str());
    }
    for line in ["out key K 9000", "fee 1000", "end"] {
        obey(rt, names, line);
    }
}

// The transaction is judged, put into effect whatever is told, and judged once more.
#[test]
fn a_thousand_inputs(rt: HostRuntime) {
    let mut names = names_of(&rt, "");
    name_gathering(&rt, &mut names);
    let tx = payment_of(&rt, &names, "Gathering");
    let mut utxo = opening(&rt, 1000, 10);
    same(&rt, "told", told(rt.alloc(), &FREE, &utxo, &tx), 11);
    apply(&mut utxo, tx.tx()).expect(&rt, MEMORY);
    same(&rt, "told again", told(rt.alloc(), &FREE, &utxo, &tx), 5);
    same(&rt, "outputs", utxo.len() as u64, 1);
    same(&rt, "its own", coin_at(&utxo, &first_of(&tx)), 9000);
    assert!(rt; utxo.coin() == 9000);
}
