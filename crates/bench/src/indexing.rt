//! An index of the unspent outputs of many addresses, which is told blocks of payments and rollbacks.

use crate::ledger_states::block_of;
use crate::memory::{held, print_bytes};
use crate::texts::{End, put_payments};
use crate::timing::{Telling, nanos_if, now, print};
use block::{CheckedBlock, Tip};
use ident::{KeyHash, Point, TxId};
use std::alloc::Global;
use std::io;
use tx::{Address, Credential, Input, Output};
use utxo_rules::Utxo;
use value::Value;
use watching::{Watch, Which};
use witness_pool::TestScheme;

/// How many outputs each of two transactions made, each of an address of its own.
const MADE_EACH: u16 = 50_000;

/// How many blocks can be rolled back.
const FURTHEST: u64 = 2_160;

/// How many payments a block has that is measured by itself, and one of the longest rollback.
const PAYMENTS: usize = 100;

const FEW_PAYMENTS: usize = 40;

/// How many blocks are measured by themselves.
const MEASURED: usize = 100;

/// The transaction whose outputs these are.
fn source(number: u8) -> TxId {
    TxId::from_bytes([number; 32])
}

/// Puts in an output of 1 lovelace of an address that has no other.
fn put_output(alloc: Global, utxo: &mut Utxo, number: u8, index: u16) -> Option<()> {
    let [high, low] = index.to_be_bytes();
    let mut hash = [number; 32];
    hash[0] = high;
    hash[1] = low;
    let address = Address::new(0, Credential::Key(KeyHash::from_bytes(hash)))?;
    let output = Output {
        address,
        value: Value::of_coin(alloc, 1),
    };
    let input = Input {
        transaction: source(number),
        index,
    };
    utxo.insert(&input, output).ok()
}

/// The outputs of two transactions.
fn outputs(alloc: Global) -> Option<Box<Utxo>> {
    let mut utxo = Utxo::new(alloc);
    for number in [1, 2] {
        for index in 0..MADE_EACH {
            put_output(alloc, &mut utxo, number, index)?;
        }
    }
    Box::new(alloc, utxo).ok()
}

/// The texts of the first blocks of a chain, each of `payments` payments that spend these outputs, one each.
fn texts(alloc: Global, payments: usize) -> Vec<Vec<u8>> {
    let mut texts = Vec::new(alloc);
    let mut end = End::genesis();
    for number in [1, 2] {
        let mut txs: Vec<Vec<u8>> = Vec::new(alloc);
        put_payments(
            alloc,
            &mut txs,
            source(number),
            1,
            MADE_EACH.saturating_sub(1),
        );
        for body in txs.chunks(payments.max(1)) {
            let _ = texts.push(end.next_of(alloc, body));
        }
    }
    texts
}

/// Reads these texts.
fn read_all(alloc: Global, texts: &[Vec<u8>]) -> Option<Vec<Box<CheckedBlock<TestScheme>>>> {
    let mut blocks = Vec::new(alloc);
    for text in texts {
        blocks.push(block_of(alloc, text)?).ok()?;
    }
    Some(blocks)
}

/// An index of these outputs.
fn new_watch(alloc: Global, outputs: &Utxo) -> Option<Box<Watch>> {
    let watch = Watch::new(alloc, Tip::genesis(), outputs, FURTHEST, Which::all()).ok()?;
    Box::new(alloc, watch).ok()
}

/// Puts these blocks on, and answers whether all were.
fn add_all(watch: &mut Watch, blocks: &[Box<CheckedBlock<TestScheme>>]) -> bool {
    let mut all = true;
    for block in blocks {
        all &= watch.add_block(block).is_ok();
    }
    all
}

/// Puts these blocks on and rolls them back, and prints how long each took.
fn measure_blocks(
    rt: &HostRuntime,
    watch: &mut Watch,
    blocks: &[Box<CheckedBlock<TestScheme>>],
    name: &str,
    back_name: &str,
) -> io::Result<()> {
    let many = blocks.len() as u64;
    let start = now(rt);
    let added = add_all(watch, blocks);
    print(
        rt,
        Telling::Times,
        name,
        many,
        many,
        nanos_if(rt, start, added),
    )?;
    let start = now(rt);
    let back = watch.roll_back(&Point::genesis()).is_ok();
    print(
        rt,
        Telling::Times,
        back_name,
        many,
        1,
        nanos_if(rt, start, back),
    )
}

/// Measures the index on these blocks.
fn measure_on(
    rt: &HostRuntime,
    watch: &mut Watch,
    payments: usize,
    lengths: &[usize],
    name: &str,
) -> io::Result<()> {
    let texts = texts(rt.alloc(), payments);
    let Some(blocks) = read_all(rt.alloc(), &texts) else {
        return Err(io::ErrorKind::Other.into());
    };
    for length in lengths {
        if let Some(some) = blocks.get(..*length) {
            measure_blocks(rt, watch, some, name, "Watch::roll_back, blocks")?;
        }
    }
    Ok(())
}

/// Runs each measurement, and prints what it took.
pub fn measure(rt: &HostRuntime) -> io::Result<()> {
    let Some(outputs) = outputs(rt.alloc()) else {
        return Err(io::ErrorKind::Other.into());
    };
    let before = held(rt);
    let Some(mut watch) = new_watch(rt.alloc(), &outputs) else {
        return Err(io::ErrorKind::Other.into());
    };
    let many = u64::from(MADE_EACH).saturating_mul(2);
    print_bytes(rt, "Watch::new, outputs of as many addresses", many, before)?;
    let few = [1, 10, MEASURED];
    measure_on(
        rt,
        &mut watch,
        PAYMENTS,
        &few,
        "Watch::add_block of 100 payments, blocks",
    )?;
    let far = [FURTHEST as usize];
    measure_on(
        rt,
        &mut watch,
        FEW_PAYMENTS,
        &far,
        "Watch::add_block of 40 payments, blocks",
    )
}
