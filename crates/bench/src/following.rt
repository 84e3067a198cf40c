//! How long a core takes to tell a follower what comes next, at the beginning of a chain and far along it, and to
//! switch to another chain beside many followers.

use crate::cores::{self, Act, Plan};
use crate::texts::End;
use std::alloc::Global;
use std::io;

/// How many blocks are told, and how many switches are made, while it is measured.
const MEASURED: u64 = 100;

/// What is told to a follower that was told `along` blocks before.
fn next(alloc: Global, along: u64) -> Plan {
    let mut plan = Plan::new(alloc, Act::Tell, MEASURED);
    let mut end = End::genesis();
    end.put_chain(alloc, &mut plan.blocks, along.saturating_add(MEASURED));
    plan.followers = 1;
    plan.told = along;
    plan.height = end.height;
    plan
}

/// An arrival that switches the chain, beside `followers` followers: after a block and another at its place comes one
/// on that.
fn switch(alloc: Global, followers: u64) -> Plan {
    let mut plan = Plan::new(alloc, Act::Arrive, 1);
    let mut other = End::genesis();
    End::genesis().put_next(alloc, &mut plan.blocks, 0);
    other.put_next(alloc, &mut plan.blocks, 1);
    other.put_next(alloc, &mut plan.measured, 1);
    plan.rounds = MEASURED;
    plan.followers = followers;
    plan.height = 2;
    plan
}

/// Runs each measurement, and prints what it took.
pub fn measure(rt: &HostRuntime) -> io::Result<()> {
    for along in [0, 10, 1_000, 10_000, 100_000] {
        cores::measure(rt, "next", along, next(rt.alloc(), along))?;
    }
    for followers in [0, 32, 1_024] {
        cores::measure(rt, "switch", followers, switch(rt.alloc(), followers))?;
    }
    Ok(())
}
