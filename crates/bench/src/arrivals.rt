//! How long a core takes for an arrival: where it extends longer and longer chains, beside live blocks that connect to
//! nothing, where one block connects many, and where many follow one.

use crate::cores::{self, Act, Plan};
use crate::reopening::PAYMENTS;
use crate::texts::{End, Growing, MADE, put_payments};
use ident::BlockHash;
use std::alloc::Global;
use std::io;

/// How many arrivals that extend a chain are measured.
const EXTENDING: u64 = 100;

/// Those that extend a chain of `blocks` blocks.
fn extending(alloc: Global, blocks: u64) -> Plan {
    let mut plan = Plan::new(alloc, Act::Arrive, EXTENDING);
    let mut end = End::genesis();
    end.put_chain(alloc, &mut plan.blocks, blocks);
    end.put_chain(alloc, &mut plan.measured, EXTENDING);
    plan.height = end.height;
    plan
}

/// Those that extend the chain beside `blocks` live blocks, each of which names a block before it that there isn't.
fn beside(alloc: Global, blocks: u64) -> Plan {
    let mut plan = extending(alloc, 0);
    for late in 0..blocks {
        let mut unknown = End {
            height: 1,
            hash: Some(BlockHash::of_header(&late.to_be_bytes())),
        };
        unknown.put_next(alloc, &mut plan.blocks, late);
    }
    plan
}

/// That of the first of `blocks` blocks, all others of which came before and wait for it.
fn late_predecessor(alloc: Global, blocks: u64) -> Plan {
    let mut plan = Plan::new(alloc, Act::Arrive, 1);
    let mut end = End::genesis();
    end.put_next(alloc, &mut plan.measured, 0);
    end.put_chain(alloc, &mut plan.blocks, blocks.saturating_sub(1));
    plan.height = blocks;
    plan
}

/// Those of `forks` blocks that all follow one, of which the first to come becomes the tip.
fn forks(alloc: Global, forks: u64) -> Plan {
    let mut plan = Plan::new(alloc, Act::Arrive, forks);
    let mut first = End::genesis();
    first.put_next(alloc, &mut plan.blocks, 0);
    for late in 0..forks {
        let mut fork = first;
        fork.put_next(alloc, &mut plan.measured, late);
    }
    plan.height = 2;
    plan
}

/// Those of `blocks` blocks, one after the other.
fn in_a_row(alloc: Global, blocks: u64) -> Plan {
    let mut plan = Plan::new(alloc, Act::Arrive, blocks);
    End::genesis().put_chain(alloc, &mut plan.measured, blocks);
    plan.height = blocks;
    plan
}

/// That of the last block of a fork, which rolls `blocks` blocks of a hundred payments back and puts one more without
/// transactions in their place.
fn rolling_back(alloc: Global, blocks: u64) -> Plan {
    let mut plan = Plan::new(alloc, Act::Arrive, 1);
    let mut growing = Growing::genesis();
    let mut payments: Vec<Vec<u8>> = Vec::new(alloc);
    for _ in 0..blocks.div_ceil(MADE / PAYMENTS as u64) {
        let _ = plan.blocks.push(growing.next_text(alloc));
        put_payments(alloc, &mut payments, growing.source, 1, MADE as u16);
    }
    let mut fork = growing.end;
    let mut end = growing.end;
    for body in payments.chunks(PAYMENTS).take(blocks as usize) {
        let _ = plan.blocks.push(end.next_of(alloc, body));
    }
    fork.put_chain(alloc, &mut plan.blocks, blocks);
    fork.put_next(alloc, &mut plan.measured, 0);
    plan.height = fork.height;
    plan
}

/// Runs each measurement, and prints what it took.
pub fn measure(rt: &HostRuntime) -> io::Result<()> {
    for blocks in [100, 1_000, 10_000, 100_000] {
        cores::measure(rt, "extend", blocks, extending(rt.alloc(), blocks))?;
    }
    for blocks in [100, 1_000, 10_000] {
        cores::measure(rt, "beside", blocks, beside(rt.alloc(), blocks))?;
    }
    let plan = late_predecessor(rt.alloc(), 2_000);
    cores::measure(rt, "late predecessor", 2_000, plan)?;
    cores::measure(rt, "forks", 1_000, forks(rt.alloc(), 1_000))?;
    for blocks in [1_000, 10_000, 100_000] {
        cores::measure(rt, "in a row", blocks, in_a_row(rt.alloc(), blocks))?;
    }
    for blocks in [10, 2_160] {
        cores::measure(rt, "rolling back", blocks, rolling_back(rt.alloc(), blocks))?;
    }
    Ok(())
}
