//! What is seen of a core.

use chain_core::{Core, FollowerId, NextFault};
use mempool::Mempool;
use std::alloc::AllocError;
use utxo_rules::Utxo;
use witness_pool::TestScheme;

/// How many followers are looked for.
const MOST_FOLLOWERS: u64 = 8;

/// Puts the unspent outputs: where each stands, and how much lovelace it holds.
fn put_outputs(note: &mut String, utxo: &Utxo) -> Result<(), AllocError> {
    for (input, output) in utxo.iter() {
        let id = input.transaction;
        let index = input.index;
        let coin = output.value.coin();
        write!(note, "unspent {id} {index}, of {coin}\n")?;
    }
    Ok(())
}

/// Puts the transactions that wait.
fn put_waiting(note: &mut String, mempool: &Mempool<TestScheme>) -> Result<(), AllocError> {
    for waiting in mempool.iter() {
        let id = waiting.tx().id();
        write!(note, "waiting {id}\n")?;
    }
    let bytes = mempool.bytes();
    write!(note, "waiting bytes {bytes}\n")
}

/// Puts what the follower of this number is told next, if one is open.
fn put_follower(note: &mut String, core: &Core<TestScheme>, number: u64) -> Result<(), AllocError> {
    match core.peek(FollowerId { number }) {
        Ok(Some(next)) => write!(note, "follower {number}: {next}\n"),
        Ok(None) => write!(note, "follower {number}: none\n"),
        Err(NextFault::UnknownFollower) => Ok(()),
        Err(NextFault::OutOfMemory) => Err(AllocError),
    }
}

/// Puts what is seen of a core behind a text.
fn put_all(note: &mut String, core: &Core<TestScheme>) -> Result<(), AllocError> {
    let tip = core.tip();
    let immutable = core.immutable();
    let fees = core.fees();
    write!(note, "tip {tip}, immutable {immutable}, fees {fees}\n")?;
    put_outputs(note, core.utxo())?;
    put_waiting(note, core.mempool())?;
    for number in 0..MOST_FOLLOWERS {
        put_follower(note, core, number)?;
    }
    Ok(())
}

/// Notes what is seen of a core, once more where memory ran out.
pub fn note(into: &mut String, core: &Core<TestScheme>) {
    into.clear();
    if put_all(into, core).is_err() {
        into.clear();
        let _ = put_all(into, core);
    }
}

/// Tells the numbers of a core: its height, its unspent outputs and what they hold, its fees, and what waits.
pub fn put_numbers(out: &mut String, core: &Core<TestScheme>) {
    let height = core.height();
    let outputs = core.utxo().len();
    let coin = core.utxo().coin();
    let fees = core.fees();
    let waiting = core.mempool().len();
    let _ = write!(
        out,
        "height {height}, {outputs} unspent of {coin}, fees {fees}, {waiting} waiting\n"
    );
}
