//! Verdicts on many transactions, by several threads.

ghost use Rattle.std.specs.Prelude.{◌≡◌, length, map, IfErr, IfOk, OnOk};
ghost use Rattle.std.specs.List.{range_with_len};
ghost use Rattle.witness_pool.specs.Jobs.{txs_of, numbers_of, shares_of};
ghost use Rattle.witness_pool.specs.Workers.{AreWorkers, IsPoolFault};

use crate::checked_tx::{CheckedTx, plain};
use crate::dealing::{deal, gather};
use crate::gate::Gate;
use crate::pool_fault::PoolFault;
use crate::scheme::SigScheme;
use std::alloc::{AllocError, Global};
use std::collections::VecDeque;
use std::thread::{Threads, join};
use tx::Tx;

/// A transaction with its number among the jobs, from 1 on.
#[derive(Drop)]
pub struct Job {
    pub number: usize,
    pub tx: Tx,
}

/// The verdicts on the jobs of one worker, in their order.
fn check_share<G: Gate, S: SigScheme>(
    alloc: Global,
    gate: &G,
    share: Vec<Job>,
) -> Result<Vec<CheckedTx<S>>, AllocError>
    ensures { IfOk result (λ checked. checked.items ≡ txs_of share.items) }
{
    let mut checked = Vec::with_capacity(alloc, share.len())?;
    for job in share {
        gate.start(job.number);
        let verdicts = plain(alloc, job.tx);
        gate.done(job.number);
        checked.push(verdicts?)?;
    }
    Ok(checked)
}

/// The verdicts of all workers: those of the last share in a thread of its own, beside those of the shares before it.
/// A share alone is done by this thread.
fn check_shares<R: Threads + Sync, G: Gate, S: SigScheme + Send>(
    rt: &R,
    alloc: Global,
    gate: &G,
    mut shares: VecDeque<Vec<Job>>,
) -> Result<VecDeque<Vec<CheckedTx<S>>>, AllocError>
    ensures { IfOk result (λ all. map (λ c. c.items) all.items ≡ shares_of shares.items) }
{
    let Some(share) = shares.pop_back() else {
        return Ok(VecDeque::new(alloc));
    };
    if shares.is_empty() {
        let mut all = VecDeque::with_capacity(alloc, 1)?;
        all.push_back(check_share(alloc, gate, share)?)?;
        return Ok(all);
    }
    let (last, before) = join(
        rt,
        move || -> Result<Vec<CheckedTx<S>>, AllocError>
            ensures { IfOk result (λ checked. checked.items ≡ txs_of share.items) }
        { check_share(alloc, gate, share) },
        move || -> Result<VecDeque<Vec<CheckedTx<S>>>, AllocError>
            ensures { IfOk result (λ all. map (λ c. c.items) all.items ≡ shares_of shares.items) }
        { check_shares(rt, alloc, gate, shares) },
    );
    let mut all = before?;
    all.push_back(last?)?;
    Ok(all)
}

/// The jobs with their numbers, which are 1, 2 and so on.
fn numbered(alloc: Global, txs: Vec<Tx>) -> Result<Vec<Job>, AllocError>
    ensures txs { IfOk result (λ jobs. txs_of jobs.items ≡ txs.items) }
    ensures numbers { IfOk result (λ jobs. numbers_of jobs.items ≡ range_with_len 1 (length txs.items)) }
{
    let mut jobs = Vec::with_capacity(alloc, txs.len())?;
    for tx in txs {
        let number = jobs.len() + 1;
        jobs.push(Job { number, tx })?;
    }
    Ok(jobs)
}

/// The most workers that a pool has.
pub const MAX_WORKERS: usize = 16;

/// A pool of workers that tell a gate of each job.
#[derive(Drop)]
pub struct Pool<G> {
    gate: G,
}

impl<G: Gate> Pool<G> {
    /// A pool that tells this gate. Takes no memory, and starts no thread.
    pub fn new(gate: G) -> Pool<G> {
        Pool { gate }
    }

    /// The transactions with their verdicts, in their order: those of [`plain`], whatever the number of workers, 1 to
    /// 16. Job j, from 1 on, is done by worker 1 + (j - 1) mod workers, each worker's in rising order, and the gate is
    /// told before and after it. Starts a thread for each worker that has a job, but one; the work of a thread that
    /// can't be started is done by this one. At a fault the transactions are gone. Linear in the transactions.
    pub fn check<R: Threads + Sync, S: SigScheme + Send>(
        &self,
        rt: &R,
        alloc: Global,
        workers: usize,
        txs: Vec<Tx>,
    ) -> Result<Vec<CheckedTx<S>>, PoolFault>
        ensures verdicts { IfOk result (λ checked. checked.items ≡ txs.items) }
        ensures workers { OnOk result (AreWorkers workers) }
        ensures fault { IfErr result (IsPoolFault workers) }
    {
        if workers == 0 || workers > MAX_WORKERS {
            return Err(PoolFault::BadWorkers);
        }
        let count = txs.len();
        let jobs = numbered(alloc, txs)?;
        // A worker without a job would be a thread without work.
        let busy = workers.min(count).max(1);
        let shares = deal(alloc, busy, jobs)?;
        let checked = check_shares(rt, alloc, &self.gate, shares)?;
        Ok(gather(alloc, checked, count)?)
    }
}
