//! Transactions that two workers of a pool judge.

use crate::network::{names, shown};
use crate::told::Told;
use script::Names;
use std::alloc::Global;
use std::thread::Threads;
use tx::Tx;
use witness_pool::{CheckedTx, OpenGate, Pool, PoolFault, TestScheme};

/// The three jobs.
const JOBS: [&str; 3] = ["Good", "BadlySigned", "Minting"];

/// What is handed in, twice: at a fault the transactions are gone.
#[derive(Drop)]
struct HandedIn {
    names: Box<Names>,
    txs: Vec<Tx>,
    again: Vec<Tx>,
}

/// Puts a copy of the transaction of this name behind others.
fn put_tx(txs: &mut Vec<Tx>, names: &Names, name: &str) -> Option<()> {
    let tx = names.tx_of(name.as_bytes())?.try_clone().ok()?;
    txs.push(tx).ok()
}

/// The jobs, where memory lasts.
fn jobs(alloc: Global, names: &Names) -> Option<Vec<Tx>> {
    let mut txs = Vec::new(alloc);
    for name in &JOBS {
        put_tx(&mut txs, names, *name)?;
    }
    Some(txs)
}

/// What is handed in, where memory lasts.
fn given(alloc: Global) -> Option<HandedIn> {
    let names = names(alloc)?;
    let txs = jobs(alloc, &names)?;
    let again = jobs(alloc, &names)?;
    Some(HandedIn { names, txs, again })
}

/// Tells the verdicts on a transaction.
fn tell_verdicts(told: &mut Told, names: &Names, checked: &CheckedTx<TestScheme>) {
    let name = shown(names.printed_tx(&checked.tx().id()));
    let signed = checked.is_signed();
    let hold = checked.scripts_hold();
    let _ = write!(told.text(), "{name}: signed {signed}, scripts {hold}\n");
}

/// Has two workers judge the transactions, and tells the verdicts. Answers whether there was memory.
fn tells<R: Threads + Sync>(
    rt: &R,
    alloc: Global,
    names: &Names,
    txs: Vec<Tx>,
    told: &mut Told,
) -> bool {
    let judged = Pool::new(OpenGate).check::<R, TestScheme>(rt, alloc, 2, txs);
    let answers = !matches!(&judged, Err(PoolFault::OutOfMemory));
    if let Ok(judged) = &judged {
        for checked in judged {
            tell_verdicts(told, names, checked);
        }
    }
    answers
}

/// Has two workers judge three transactions.
pub fn tell<R: Threads + Sync>(rt: &R, alloc: Global, told: &mut Told) {
    let ready = match given(alloc) {
        Some(given) => Some(given),
        None => given(alloc),
    };
    let Some(HandedIn { names, txs, again }) = ready else {
        return told.put("nothing to hand in\n");
    };
    if !tells(rt, alloc, &names, txs, told) {
        told.refused();
        if !tells(rt, alloc, &names, again, told) {
            told.put("out of memory\n");
        }
    }
}
