//! Verdicts by several threads: the same as by one, in the same order, and what a gate is told.

use super::fixture::{check, is_spelled};
use super::transaction_making::{MINTING_ID, PAYING_ID};
use super::transactions::read_all;
use super::verdicts::{
    BAD_PAYMENT, BADLY_IN_VAIN, PAYMENT, SIGNED, SIGNED_IN_VAIN, SIGNED_MINTING, has_key,
};
use std::process::Abort;
use std::sync::atomic::{AtomicBool, AtomicU64, Ordering};
use std::thread::{self, Threads};
use witness_pool::{CheckedTx, Gate, OpenGate, Pool, PoolFault, TestScheme};

/// Five jobs: the payment of 910 lovelace, the same badly signed, both of these with a script that never holds, and the
/// minting.
const JOBS: &[&[&str]] = &[
    PAYMENT,
    BAD_PAYMENT,
    SIGNED_IN_VAIN,
    BADLY_IN_VAIN,
    SIGNED_MINTING,
];

/// The transactions with their verdicts, by `workers` workers.
fn checked_by<R: Threads + Sync + Abort + AllocGlobal, G: Gate + Drop>(
    rt: &R,
    gate: G,
    workers: usize,
    jobs: &[&[&str]],
) -> Result<Vec<CheckedTx<TestScheme>>, PoolFault> {
    let txs = read_all(rt, jobs);
    Pool::new(gate).check::<R, TestScheme>(rt, rt.alloc(), workers, txs)
}

/// The identifiers of the five jobs, whether each is signed, and whether its scripts hold.
const VERDICTS: &[(&str, bool, bool)] = &[
    (PAYING_ID, true, true),
    (PAYING_ID, false, true),
    (PAYING_ID, true, false),
    (PAYING_ID, false, false),
    (MINTING_ID, true, true),
];

/// These are the five jobs in their order, each with the key of all of them.
fn are_judged(rt: &(impl Abort + AllocGlobal), checked: &[CheckedTx<TestScheme>]) {
    check(rt, "five", checked.len() == 5);
    for (checked, (id, signed, holding)) in checked.iter().zip(VERDICTS) {
        is_spelled(rt, &[*id], checked.tx().id().as_bytes());
        has_key(rt, checked);
        check(rt, "signed", checked.is_signed() == *signed);
        check(rt, "holding", checked.scripts_hold() == *holding);
    }
}

#[test]
fn verdicts_of_a_pool(rt: HostRuntime) {
    for workers in 1..17 {
        let checked = checked_by(&rt, OpenGate, workers, JOBS).expect(&rt, "verdicts");
        are_judged(&rt, &checked);
    }
}

/// How many of the first `jobs` jobs have their verdicts, or why none has.
fn count_by<R: Threads + Sync + Abort + AllocGlobal>(
    rt: &R,
    workers: usize,
    jobs: usize,
) -> Result<usize, PoolFault> {
    match checked_by(rt, OpenGate, workers, &JOBS[..jobs.min(3)]) {
        Ok(checked) => Ok(checked.len()),
        Err(fault) => Err(fault),
    }
}

#[test]
fn numbers_of_workers(rt: HostRuntime) {
    for workers in 1..17 {
        check(&rt, "no jobs", count_by(&rt, workers, 0) == Ok(0));
    }
    for (workers, jobs) in [(0, 0), (0, 3), (17, 0), (17, 3)] {
        let count = count_by(&rt, workers, jobs);
        check(&rt, "bad workers", count == Err(PoolFault::BadWorkers));
    }
}

/// A gate at which each of the first two jobs waits for the other to begin.
#[derive(Drop)]
struct Meeting {
    begun: [AtomicBool; 2],
    met: AtomicU64,
}

impl Gate for Meeting {
    fn start(&self, job: usize) {
        let [first, second] = &self.begun;
        let (mine, other) = match job {
            1 => (first, second),
            2 => (second, first),
            _ => return,
        };
        mine.store(true, Ordering::SeqCst);
        for _ in 0..1_000_000u32 {
            if other.load(Ordering::SeqCst) {
                self.met.fetch_add(1, Ordering::SeqCst);
                return;
            }
            thread::yield_now();
        }
    }

    fn done(&self, _job: usize) {}
}

#[test]
fn two_workers_run_at_once(rt: HostRuntime) {
    let gate = Meeting {
        begun: [AtomicBool::new(false), AtomicBool::new(false)],
        met: AtomicU64::new(0),
    };
    let checked = checked_by(&rt, &gate, 2, JOBS).expect(&rt, "verdicts");
    check(&rt, "five", checked.len() == 5);
    check(&rt, "both met", gate.met.load(Ordering::SeqCst) == 2);
}

/// A gate that keeps when each of five jobs began and ended: how many times it was told anything up to then.
#[derive(Drop)]
struct Log {
    told: AtomicU64,
    starts: [AtomicU64; 5],
    ends: [AtomicU64; 5],
}

/// Five times 0.
fn five_zeros() -> [AtomicU64; 5] {
    [
        AtomicU64::new(0),
        AtomicU64::new(0),
        AtomicU64::new(0),
        AtomicU64::new(0),
        AtomicU64::new(0),
    ]
}

impl Log {
    /// The log before anything is told.
    fn new() -> Log {
        Log {
            told: AtomicU64::new(0),
            starts: five_zeros(),
            ends: five_zeros(),
        }
    }

    /// Keeps in the place of a job that it is told now.
    fn keep(&self, places: &[AtomicU64], job: usize) {
        let before = self.told.fetch_add(1, Ordering::SeqCst);
        if let Some(place) = places.get(job.wrapping_sub(1)) {
            place.store(before.saturating_add(1), Ordering::SeqCst);
        }
    }

    /// When the job began, and when it ended: 0 where it didn't.
    fn times(&self, job: usize) -> (u64, u64) {
        let index = job.wrapping_sub(1);
        match (self.starts.get(index), self.ends.get(index)) {
            (Some(start), Some(end)) => {
                (start.load(Ordering::SeqCst), end.load(Ordering::SeqCst))
            }
            _ => (0, 0),
        }
    }
}

impl Gate for Log {
    fn start(&self, job: usize) {
        self.keep(&self.starts, job);
    }

    fn done(&self, job: usize) {
        self.keep(&self.ends, job);
    }
}

/// What a gate is told of five payments, by `workers` workers.
fn log_of<R: Threads + Sync + Abort + AllocGlobal>(rt: &R, workers: usize) -> Log {
    let log = Log::new();
    checked_by(rt, &log, workers, &[SIGNED; 5]).expect(rt, "verdicts");
    log
}

// One job after the other.
#[test]
fn what_one_worker_tells(rt: HostRuntime) {
    let log = log_of(&rt, 1);
    for job in 1..6 {
        let begun = 2 * job as u64 - 1;
        let (start, end) = log.times(job);
        check(&rt, "begun", start == begun);
        check(&rt, "ended", end == begun + 1);
    }
}

/// The job began, then ended, and began after the job before it of its worker had ended: at 0, where there is none.
fn is_in_order(rt: &impl Abort, log: &Log, workers: usize, job: usize) {
    let (start, end) = log.times(job);
    let (_, before) = log.times(job.saturating_sub(workers));
    check(rt, "before", before < start);
    check(rt, "in order", start < end);
}

#[test]
fn what_workers_tell(rt: HostRuntime) {
    for workers in 1..17 {
        let log = log_of(&rt, workers);
        for job in 1..6 {
            is_in_order(&rt, &log, workers, job);
        }
        check(&rt, "ten times", log.told.load(Ordering::SeqCst) == 10);
    }
}
