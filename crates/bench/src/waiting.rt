//! How long a core takes for a submission beside more and more payments that wait, to forge a block of many, and for an
//! arrival that takes many out.

use crate::cores::{self, Act, Plan};
use crate::texts::{Growing, MADE, put_payments};
use std::alloc::Global;
use std::io;

/// How many submissions and how many forgings are measured.
const MEASURED: u16 = 100;

/// How many transactions the block has that arrives, and at how many cores it does.
const TAKEN: usize = 1_000;

const ROUNDS: u64 = 10;

/// Has `waiting` payments wait, each of which spends an output of a block of its own thousand, and answers where the
/// chain of these blocks ends.
fn put_waiting(alloc: Global, plan: &mut Plan, waiting: u64) -> Growing {
    let mut growing = Growing::genesis();
    for _ in 0..waiting.div_ceil(MADE) {
        let _ = plan.blocks.push(growing.next_text(alloc));
        put_payments(alloc, &mut plan.waiting, growing.source, 1, MADE as u16);
    }
    plan.waiting.truncate(waiting as usize);
    plan.height = growing.end.height;
    plan.left = waiting;
    growing
}

/// Submissions beside `waiting` payments.
fn submitting(alloc: Global, waiting: u64) -> Plan {
    let mut plan = Plan::new(alloc, Act::Submit, u64::from(MEASURED));
    let mut growing = put_waiting(alloc, &mut plan, waiting);
    let _ = plan.blocks.push(growing.next_text(alloc));
    put_payments(alloc, &mut plan.measured, growing.source, 1, MEASURED);
    plan.height = growing.end.height;
    plan.left = waiting.saturating_add(u64::from(MEASURED));
    plan
}

/// The forging of a block of `waiting` payments.
fn forging(alloc: Global, waiting: u64) -> Plan {
    let mut plan = Plan::new(alloc, Act::Forge, u64::from(MEASURED));
    put_waiting(alloc, &mut plan, waiting);
    plan
}

/// The arrival of a block that takes many of `waiting` payments out.
fn taking(alloc: Global, waiting: u64) -> Plan {
    let mut plan = Plan::new(alloc, Act::Arrive, 1);
    let mut end = put_waiting(alloc, &mut plan, waiting).end;
    let (taken, left) = plan.waiting.split_at(TAKEN.min(plan.waiting.len()));
    plan.left = left.len() as u64;
    let _ = plan.measured.push(end.next_of(alloc, taken));
    plan.height = end.height;
    plan.rounds = ROUNDS;
    plan
}

/// Runs each measurement, and prints what it took. 100,000 is as many as may wait.
pub fn measure(rt: &HostRuntime) -> io::Result<()> {
    for waiting in [100, 10_000, 99_900] {
        cores::measure(
            rt,
            "submit beside",
            waiting,
            submitting(rt.alloc(), waiting),
        )?;
    }
    cores::measure(rt, "forge of", 1_000, forging(rt.alloc(), 1_000))?;
    cores::measure(
        rt,
        "arrive, 1000 out of",
        10_000,
        taking(rt.alloc(), 10_000),
    )
}
