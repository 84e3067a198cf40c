//! Verdicts on many payments under both schemes, one after the other and by the workers of a pool.

use crate::texts::{genesis_id, put_payments, put_payments_by};
use crate::timing::{Telling, nanos_if, now, print};
use ed25519::SecretKey;
use std::alloc::{AllocError, Global};
use std::io;
use std::rt::Clock;
use std::thread::Threads;
use tx::Tx;
use witness_pool::{CheckedTx, Ed25519, OpenGate, Pool, SigScheme, TestScheme, plain};

/// How many payments there are.
const COUNT: u16 = 1_000;

/// Who gives the verdicts.
#[derive(Clone, Copy)]
enum Judge {
    /// This thread, one after the other.
    Plain,
    /// A pool of this many workers.
    Pool(usize),
}

/// Who is measured, under which name.
const JUDGES: [(&str, Judge); 4] = [
    ("plain", Judge::Plain),
    ("Pool::check by 1 worker", Judge::Pool(1)),
    ("Pool::check by 2 workers", Judge::Pool(2)),
    ("Pool::check by 4 workers", Judge::Pool(4)),
];

/// The same under Ed25519.
const ED25519_JUDGES: [(&str, Judge); 4] = [
    ("plain, Ed25519", Judge::Plain),
    ("Pool::check by 1 worker, Ed25519", Judge::Pool(1)),
    ("Pool::check by 2 workers, Ed25519", Judge::Pool(2)),
    ("Pool::check by 4 workers, Ed25519", Judge::Pool(4)),
];

/// How many payments a block of the usual size has.
const FEW: u16 = 100;

/// Puts the transaction of a text behind the others.
fn put_tx(alloc: Global, txs: &mut Vec<Tx>, text: &[u8]) -> Option<()> {
    let tx = Tx::decode(alloc, text).ok()?;
    txs.push(tx).ok()
}

/// The transactions of these texts, as far as memory lasts.
fn txs_of(alloc: Global, texts: &[Vec<u8>]) -> Vec<Tx> {
    let mut txs = Vec::new(alloc);
    for text in texts {
        let _ = put_tx(alloc, &mut txs, text);
    }
    txs
}

/// Puts a transaction with its verdict behind the others.
fn put_checked<S: SigScheme>(
    alloc: Global,
    checked: &mut Vec<CheckedTx<S>>,
    tx: Tx,
) -> Result<(), AllocError> {
    let tx = plain(alloc, tx)?;
    Ok(checked.push(tx)?)
}

/// The transactions with their verdicts, one after the other, as far as memory lasts.
fn checked_plainly<S: SigScheme>(alloc: Global, txs: Vec<Tx>) -> Vec<CheckedTx<S>> {
    let mut checked = Vec::new(alloc);
    let _ = checked.reserve(txs.len());
    for tx in txs {
        let _ = put_checked(alloc, &mut checked, tx);
    }
    checked
}

/// The transactions with their verdicts, or fewer where memory runs out.
fn checked<S: SigScheme + Send, R: Threads + Sync>(
    rt: &R,
    alloc: Global,
    judge: Judge,
    txs: Vec<Tx>,
) -> Vec<CheckedTx<S>> {
    match judge {
        Judge::Plain => checked_plainly(alloc, txs),
        Judge::Pool(workers) => match Pool::new(OpenGate).check(rt, alloc, workers, txs) {
            Ok(checked) => checked,
            Err(_) => Vec::new(alloc),
        },
    }
}

/// How many are signed.
fn signed<S: SigScheme>(txs: &[CheckedTx<S>]) -> usize {
    txs.iter().filter(|tx| tx.is_signed()).count()
}

/// How long it takes to give the verdicts. The making of the transactions isn't counted, nor is their end.
fn time_once<S: SigScheme + Send, R: Threads + Clock + Sync>(
    rt: &R,
    alloc: Global,
    judge: Judge,
    texts: &[Vec<u8>],
) -> Option<u128> {
    let txs = txs_of(alloc, texts);
    let start = now(rt);
    let checked = checked::<S, R>(rt, alloc, judge, txs);
    let nanos = nanos_if(rt, start, true);
    if signed(&checked) == texts.len() {
        nanos
    } else {
        None
    }
}

/// How long it takes to give them `calls` times.
fn time_judge<S: SigScheme + Send, R: Threads + Clock + Sync>(
    rt: &R,
    alloc: Global,
    calls: u64,
    judge: Judge,
    texts: &[Vec<u8>],
) -> Option<u128> {
    let mut all: u128 = 0;
    for _ in 0..calls {
        all = all.saturating_add(time_once::<S, R>(rt, alloc, judge, texts)?);
    }
    Some(all)
}

/// Measures who gives verdicts on payments with one signature each, which spend outputs of the genesis.
fn measure_judge<S: SigScheme + Send, R: Threads + Clock + Print + Sync>(
    rt: &R,
    alloc: Global,
    telling: Telling,
    name: &str,
    judge: Judge,
    texts: &[Vec<u8>],
) -> io::Result<()> {
    let calls = telling.repetitions();
    let nanos = time_judge::<S, R>(rt, alloc, calls, judge, texts);
    print(rt, telling, name, texts.len() as u64, calls, nanos)
}

/// Measures all of them under the scheme for tests.
fn measure_tests<R: Threads + Clock + Print + Sync>(
    rt: &R,
    alloc: Global,
    telling: Telling,
) -> io::Result<()> {
    let mut texts = Vec::new(alloc);
    put_payments(alloc, &mut texts, genesis_id(), 1_000, COUNT);
    for &(name, judge) in &JUDGES {
        measure_judge::<TestScheme, R>(rt, alloc, telling, name, judge, &texts)?;
    }
    Ok(())
}

/// Measures all of them on `count` payments under Ed25519.
fn measure_ed25519<R: Threads + Clock + Print + Sync>(
    rt: &R,
    alloc: Global,
    telling: Telling,
    count: u16,
) -> io::Result<()> {
    let signer = SecretKey::from_seed([1; 32]);
    let mut texts = Vec::new(alloc);
    put_payments_by(alloc, &signer, &mut texts, genesis_id(), 1_000, count);
    for &(name, judge) in &ED25519_JUDGES {
        measure_judge::<Ed25519, R>(rt, alloc, telling, name, judge, &texts)?;
    }
    Ok(())
}

/// Runs each measurement, and prints its name, or what it took.
pub fn measure<R: Threads + Clock + Print + Sync>(
    rt: &R,
    alloc: Global,
    telling: Telling,
) -> io::Result<()> {
    measure_tests(rt, alloc, telling)?;
    measure_ed25519(rt, alloc, telling, FEW)?;
    if telling == Telling::Names {
        return Ok(());
    }
    measure_ed25519(rt, alloc, telling, COUNT)
}
