//! Documents that are a genesis, and what it is then.

use super::fixture::{MEMORY, same};
use super::networks::{OUTPUT, genesis_of};
use genesis::Genesis;
use ident::KeyHash;
use std::process::Abort;
use tx::{Address, Credential};

/// The SHA-256 digest of 32 bytes 01.
const KEY_HASH: &str = "72cd6e8422c407fb6d098690f1130b7ded7ec2f7f5e1d30bd9d521f015363793";

#[test]
fn numbers_of_a_genesis(rt: HostRuntime) {
    let genesis = genesis_of(&rt, OUTPUT);
    same(&rt, "network", u64::from(genesis.network()), 0);
    same(&rt, "k", genesis.k(), 2);
    same(&rt, "min_fee_a", genesis.min_fee_a(), 1);
    same(&rt, "min_fee_b", genesis.min_fee_b(), 100);
    same(&rt, "min_utxo", genesis.min_utxo(), 10);
    same(&rt, "max_tx_size", genesis.max_tx_size(), 4096);
    same(&rt, "max_body_size", genesis.max_body_size(), 65_536);
    same(&rt, "max_volatile", genesis.max_volatile(), 100);
    same(&rt, "max_mempool", genesis.max_mempool(), 100);
}

/// The outputs of the genesis have these coins, in this order.
fn has_coins(rt: &impl Abort, genesis: &Genesis, coins: &[u64]) {
    same(
        rt,
        "outputs",
        genesis.outputs().len() as u64,
        coins.len() as u64,
    );
    for (grant, coin) in genesis.outputs().iter().zip(coins) {
        same(rt, "coin", grant.coin, *coin);
    }
}

/// The address that the key of 32 bytes 01 unlocks.
fn address(rt: &impl Abort) -> Address {
    let hash = KEY_HASH.parse::<KeyHash>().expect(rt, "a hash");
    Address::new(0, Credential::Key(hash)).expect(rt, "a network")
}

#[test]
fn outputs_of_a_genesis(rt: HostRuntime) {
    let genesis = genesis_of(&rt, OUTPUT);
    let copy = genesis.try_clone().expect(&rt, MEMORY);
    same(&rt, "supply", copy.supply(), 1200);
    has_coins(&rt, &copy, &[1200]);
    for grant in copy.outputs() {
        assert!(rt; grant.address == address(&rt));
    }
}

/// Two outputs, to a script and to a key.
const TWO: &str =
    "output = [{ coin = 7, address = \"70aaaaaaaaaaaaaaaaaaaaaaaaaaaaaaaaaaaaaaaaaaaaaaaaaaaaaaaaaaaaaaaa\" },\n\
    { address = \"60BBbbbbbbbbbbbbbbbbbbbbbbbbbbbbbbbbbbbbbbbbbbbbbbbbbbbbbbbbbbbbbb\", coin = 5 }]\n";

#[test]
fn outputs_in_their_order(rt: HostRuntime) {
    let genesis = genesis_of(&rt, TWO);
    same(&rt, "supply", genesis.supply(), 12);
    has_coins(&rt, &genesis, &[7, 5]);
}
