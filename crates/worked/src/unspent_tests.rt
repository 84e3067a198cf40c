//! Outputs that are put in and spent, while an older version keeps them, and that are told in their order.

use super::fixture::{MEMORY, boxed, same};
use ident::{KeyHash, ScriptHash, TxId};
use std::process::Abort;
use tx::{Address, Credential, Input, Output};
use utxo_rules::{Entries, Utxo};
use value::Value;

/// The output of `coin` lovelace to the key of 32 bytes 01.
fn output(rt: &(impl Abort + AllocGlobal), coin: u64) -> Output {
    let key = Credential::Key(KeyHash::of_key(&[1; 32]));
    Output {
        address: Address::new(0, key).expect(rt, "a network"),
        value: Value::of_coin(rt.alloc(), coin),
    }
}

/// Puts an output of `coin` lovelace into a UTXO.
pub fn put_unspent(rt: &(impl Abort + AllocGlobal), utxo: &mut Utxo, place: &Input, coin: u64) {
    let output = output(rt, coin);
    utxo.insert(place, output).expect(rt, MEMORY);
}

/// A UTXO of nothing.
pub fn no_outputs(rt: &(impl Abort + AllocGlobal)) -> Box<Utxo> {
    boxed(rt, Utxo::new(rt.alloc()))
}

/// How much lovelace stands there, 0 where nothing does.
pub fn coin_at(utxo: &Utxo, place: &Input) -> u64 {
    match utxo.get(place) {
        Some(output) => output.value.coin(),
        None => 0,
    }
}

/// The place of this index of the transaction whose identifier has 32 bytes 07.
fn input(index: u16) -> Input {
    Input {
        transaction: TxId::from_bytes([7; 32]),
        index,
    }
}

/// There are `count` outputs, and the lovelace of those of the indexes 0, 1 and 256 is this, 0 where there is none.
fn holds(rt: &impl Abort, utxo: &Utxo, count: u64, at_0: u64, at_1: u64, at_256: u64) {
    same(rt, "outputs", utxo.len() as u64, count);
    assert!(rt; utxo.is_empty() == (count == 0));
    same(rt, "at 0", coin_at(utxo, &input(0)), at_0);
    same(rt, "at 1", coin_at(utxo, &input(1)), at_1);
    same(rt, "at 256", coin_at(utxo, &input(256)), at_256);
}

/// A copy of the UTXO.
fn copy_of(rt: &(impl Abort + AllocGlobal), utxo: &Utxo) -> Box<Utxo> {
    boxed(rt, utxo.try_clone().expect(rt, MEMORY))
}

// Of two outputs one is taken out, another stands in the place of the other, and what isn't there is taken out.
#[test]
fn put_in_and_spent(rt: HostRuntime) {
    let mut utxo = no_outputs(&rt);
    holds(&rt, &utxo, 0, 0, 0, 0);
    put_unspent(&rt, &mut utxo, &input(1), 910);
    put_unspent(&rt, &mut utxo, &input(256), 90);
    let before = copy_of(&rt, &utxo);
    utxo.remove(&input(1)).expect(&rt, MEMORY);
    put_unspent(&rt, &mut utxo, &input(256), 80);
    utxo.remove(&input(2)).expect(&rt, MEMORY);
    holds(&rt, &utxo, 1, 0, 0, 80);
    holds(&rt, &before, 2, 0, 910, 90);
}

/// The next output that is met stands at this index, of as much lovelace.
fn meets(rt: &impl Abort, entries: &mut Entries<'_>, index: u16) {
    let (place, output) = entries.next().expect(rt, "an output");
    assert!(rt; place == input(index));
    same(rt, "coin", output.value.coin(), u64::from(index));
}

#[test]
fn outputs_in_order(rt: HostRuntime) {
    let mut utxo = no_outputs(&rt);
    for index in [256, 1, 2u16] {
        put_unspent(&rt, &mut utxo, &input(index), u64::from(index));
    }
    assert!(rt; utxo.coin() == 259);
    let mut entries = utxo.iter();
    for index in [1, 2, 256u16] {
        meets(&rt, &mut entries, index);
    }
    assert!(rt; entries.next().is_none());
    assert!(rt; entries.next().is_none());
}

/// The address of the script of 32 bytes 02, on network 0.
fn script_address(rt: &impl Abort) -> Address {
    let script = Credential::Script(ScriptHash::from_bytes([2; 32]));
    Address::new(0, script).expect(rt, "a network")
}

/// The output of `coin` lovelace to that script.
fn to_script(rt: &(impl Abort + AllocGlobal), coin: u64) -> Output {
    Output {
        address: script_address(rt),
        value: Value::of_coin(rt.alloc(), coin),
    }
}

/// The outputs of this address stand at these indexes, each of as much lovelace.
fn are_of(rt: &impl Abort, utxo: &Utxo, address: &Address, indexes: &[u16]) {
    let mut entries = utxo.of(address);
    for index in indexes {
        let (place, output) = entries.next().expect(rt, "an output");
        assert!(rt; place == input(*index));
        same(rt, "coin", output.value.coin(), u64::from(*index));
    }
    assert!(rt; entries.next().is_none());
}

// Outputs of a key and of a script in turns, and none of the script on another network.
#[test]
fn outputs_of_an_address(rt: HostRuntime) {
    let mut utxo = no_outputs(&rt);
    for index in [4, 1, 3u16] {
        put_unspent(&rt, &mut utxo, &input(index), u64::from(index));
    }
    for index in [5, 2u16] {
        let output = to_script(&rt, u64::from(index));
        utxo.insert(&input(index), output).expect(&rt, MEMORY);
    }
    let script = script_address(&rt);
    let elsewhere = Address::new(1, script.payment()).expect(&rt, "a network");
    are_of(&rt, &utxo, &script, &[2, 5]);
    are_of(&rt, &utxo, &elsewhere, &[]);
    are_of(&rt, &utxo, &output(&rt, 0).address, &[1, 3, 4]);
}
