//! How long a core takes to say where blocks and transactions are, and how long it takes to find the outputs of an
//! address among many.

use crate::networks::{FAR_BACK, genesis};
use crate::reopening::{empty_blocks, paying_blocks};
use crate::texts::TEST_SIGNER;
use crate::timing::{Telling, nanos_if, now, print};
use chain_core::{Core, Place, TxPlace};
use ident::{BlockHash, KeyHash, TxId};
use std::alloc::Global;
use std::io;
use tx::{Address, Credential, Input, Output};
use utxo_rules::Utxo;
use value::Value;
use witness_pool::TestScheme;

/// How many blocks the chain has, and at how many of them it is asked.
const BLOCKS: u64 = 100_000;

const ASKED: u64 = 1_000;

/// How often an unknown transaction is asked for, among the payments of 1,100 blocks.
const ASKED_PAYMENTS: u64 = 100;

/// How many transactions have made outputs, and how many each.
const TRANSACTIONS: u8 = 20;

const OUTPUTS: u16 = 50_000;

/// A core on these blocks.
fn core_on(alloc: Global, texts: &[Vec<u8>]) -> Option<Box<Core<TestScheme>>> {
    let genesis = genesis(alloc, FAR_BACK)?;
    let core = Core::reopen(alloc, genesis, texts).ok()?;
    Box::new(alloc, core).ok()
}

/// The hashes of blocks all along the chain.
fn hashes_along(alloc: Global, core: &Core<TestScheme>) -> Vec<BlockHash> {
    let mut hashes = Vec::new(alloc);
    for step in 0..ASKED {
        let number = step.saturating_mul(BLOCKS / ASKED).saturating_add(1);
        if let Some(block) = core.block(number) {
            let _ = hashes.push(block.hash());
        }
    }
    hashes
}

/// How many of these are on the chain.
fn on_chain(core: &Core<TestScheme>, hashes: &[BlockHash]) -> u64 {
    let mut found = 0u64;
    for hash in hashes {
        if let Place::Chain(_) = core.place(*hash) {
            found = found.saturating_add(1);
        }
    }
    found
}

/// How long it takes to find blocks on a long chain.
fn time_blocks(rt: &HostRuntime) -> Option<u128> {
    let core = core_on(rt.alloc(), &empty_blocks(rt.alloc(), BLOCKS))?;
    let hashes = hashes_along(rt.alloc(), &core);
    let start = now(rt);
    let found = on_chain(&core, &hashes);
    nanos_if(rt, start, found == ASKED)
}

/// How often it is said of a transaction that it is unknown.
fn unknown(core: &Core<TestScheme>) -> u64 {
    let mut unknown = 0u64;
    for _ in 0..ASKED_PAYMENTS {
        if let TxPlace::Unknown = core.transaction(TxId::from_bytes([1; 32])) {
            unknown = unknown.saturating_add(1);
        }
    }
    unknown
}

/// How long it takes to say that none of many payments is that one.
fn time_payments(rt: &HostRuntime) -> Option<u128> {
    let core = core_on(rt.alloc(), &paying_blocks(rt.alloc(), &TEST_SIGNER, 100))?;
    let start = now(rt);
    let unknown = unknown(&core);
    nanos_if(rt, start, unknown == ASKED_PAYMENTS)
}

/// Puts the outputs of a transaction, each to this address.
fn put_outputs(alloc: Global, utxo: &mut Utxo, transaction: u8, address: &Address) {
    for index in 0..OUTPUTS {
        let place = Input {
            transaction: TxId::from_bytes([transaction; 32]),
            index,
        };
        let output = Output {
            address: *address,
            value: Value::of_coin(alloc, 1),
        };
        let _ = utxo.insert(&place, output);
    }
}

/// The address of the key of 32 such bytes.
fn address_of(byte: u8) -> Option<Address> {
    Address::new(0, Credential::Key(KeyHash::of_key(&[byte; 32])))
}

/// How long it takes to find the outputs of an address, of which there are none, among all.
fn time_outputs(rt: &HostRuntime) -> Option<u128> {
    let (address, other) = (address_of(1)?, address_of(2)?);
    let mut utxo = Utxo::new(rt.alloc());
    for transaction in 0..TRANSACTIONS {
        put_outputs(rt.alloc(), &mut utxo, transaction, &address);
    }
    let start = now(rt);
    let found = utxo.of(&other).next().is_some();
    nanos_if(rt, start, !found)
}

/// Runs each measurement, and prints what it took.
pub fn measure(rt: &HostRuntime) -> io::Result<()> {
    let nanos = time_blocks(rt);
    print(rt, Telling::Times, "Core::place of", BLOCKS, ASKED, nanos)?;
    let nanos = time_payments(rt);
    print(
        rt,
        Telling::Times,
        "Core::transaction among",
        100_000,
        ASKED_PAYMENTS,
        nanos,
    )?;
    let nanos = time_outputs(rt);
    print(rt, Telling::Times, "Utxo::of among", 1_000_000, 1, nanos)
}
