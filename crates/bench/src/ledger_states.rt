//! Blocks that are applied to states of more and more unspent outputs.

use crate::networks::{NEAR, SPENT_COUNT, genesis};
use crate::texts::{Growing, genesis_id, put_payments};
use crate::timing::{Telling, nanos_if, now, print};
use block::CheckedBlock;
use ledger::{LedgerState, apply_block};
use std::alloc::Global;
use std::io;
use witness_pool::TestScheme;

/// How many times a block is applied while it is measured.
const MEASURED: u64 = 100;

/// How many transactions the blocks have, and under which name they are measured.
const BLOCKS: [(&str, u16); 3] = [
    ("apply_block of no transaction on", 0),
    ("apply_block of 1 transaction on", 1),
    ("apply_block of 100 transactions on", SPENT_COUNT),
];

/// The state of the genesis. In a box it is dropped by a call, which keeps the proofs of what owns it short.
pub fn opening(alloc: Global) -> Option<Box<LedgerState>> {
    let genesis = genesis(alloc, NEAR)?;
    let state = LedgerState::new(alloc, &genesis).ok();
    Box::new(alloc, state?).ok()
}

/// The block of a text.
pub fn block_of(alloc: Global, text: &[u8]) -> Option<Box<CheckedBlock<TestScheme>>> {
    let block = CheckedBlock::read(alloc, text).ok()?;
    Box::new(alloc, block).ok()
}

/// The state after a block.
pub fn after(
    alloc: Global,
    state: &LedgerState,
    block: &CheckedBlock<TestScheme>,
) -> Option<Box<LedgerState>> {
    let after = apply_block(state, block).ok()?;
    Box::new(alloc, after).ok()
}

/// Applies a block, and answers whether it can be applied. The state stays.
fn is_applied(state: &LedgerState, block: &CheckedBlock<TestScheme>) -> bool {
    apply_block(state, block).is_ok()
}

/// Applies a block of one transaction that makes outputs.
pub fn grow(alloc: Global, growing: &mut Growing, state: &LedgerState) -> Option<Box<LedgerState>> {
    let text = growing.next_text(alloc);
    let block = block_of(alloc, &text)?;
    after(alloc, state, &block)
}

/// Grows until `pairs` outputs are unspent.
fn grow_to(
    alloc: Global,
    growing: &mut Growing,
    state: &mut Box<LedgerState>,
    pairs: usize,
) -> Option<()> {
    for _ in 0..pairs {
        if state.utxo().len() >= pairs {
            return Some(());
        }
        *state = grow(alloc, growing, state)?;
    }
    Some(())
}

/// The block of `count` transactions after a state, each of which spends an output of the genesis.
fn block_after(
    alloc: Global,
    growing: Growing,
    count: u16,
) -> Option<Box<CheckedBlock<TestScheme>>> {
    let mut txs = Vec::new(alloc);
    put_payments(alloc, &mut txs, genesis_id(), 1_000, count);
    let mut end = growing.end;
    block_of(alloc, &end.next_of(alloc, &txs))
}

/// How long it takes to apply the block many times to the same state.
fn time_applying(
    rt: &HostRuntime,
    state: &LedgerState,
    block: &CheckedBlock<TestScheme>,
) -> Option<u128> {
    let start = now(rt);
    let mut all = true;
    for _ in 0..MEASURED {
        all &= is_applied(state, block);
    }
    nanos_if(rt, start, all)
}

/// The same for the block of `count` transactions.
fn time_block(rt: &HostRuntime, state: &LedgerState, growing: Growing, count: u16) -> Option<u128> {
    let block = block_after(rt.alloc(), growing, count)?;
    time_applying(rt, state, &block)
}

/// Measures blocks of no, one and a hundred transactions.
fn measure_state(rt: &HostRuntime, state: &LedgerState, growing: Growing) -> io::Result<()> {
    let pairs = state.utxo().len() as u64;
    for &(name, count) in &BLOCKS {
        let nanos = time_block(rt, state, growing, count);
        print(rt, Telling::Times, name, pairs, MEASURED, nanos)?;
    }
    Ok(())
}

/// Runs each measurement on states of about 10^2, 10^4, 10^5 and 10^6 unspent outputs, of which this is the first.
fn measure_from(rt: &HostRuntime, state: &mut Box<LedgerState>) -> io::Result<()> {
    let mut growing = Growing::genesis();
    for pairs in [100, 10_000, 100_000, 1_000_000] {
        if grow_to(rt.alloc(), &mut growing, state, pairs).is_none() {
            return print(
                rt,
                Telling::Times,
                "apply_block on",
                pairs as u64,
                MEASURED,
                None,
            );
        }
        measure_state(rt, state, growing)?;
    }
    Ok(())
}

/// Runs each measurement, and prints what it took.
pub fn measure(rt: &HostRuntime) -> io::Result<()> {
    match opening(rt.alloc()) {
        Some(mut state) => measure_from(rt, &mut state),
        None => print(rt, Telling::Times, "apply_block on", 0, MEASURED, None),
    }
}
