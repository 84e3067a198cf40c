//! How long a core takes for blocks that a peer sends to keep it busy: none of them ever comes into a selected chain,
//! or all come in the order that asks most.

use crate::cores::{self, Act, Depth, Plan};
use crate::texts::{End, put_hash};
use std::alloc::Global;
use std::io;

/// How long the selected chain is beside which forks come, and each of them at most.
const LENGTH: u64 = 8_000;

/// `blocks` arrivals at one core, of whose chain as many blocks as may be can be rolled back.
fn arrivals(alloc: Global, blocks: u64) -> Plan {
    let mut plan = Plan::new(alloc, Act::Arrive, blocks);
    plan.depth = Depth::Greatest;
    plan
}

/// Those of `blocks` bad blocks that all follow one, which comes last.
fn siblings(alloc: Global, blocks: u64) -> Plan {
    let mut plan = arrivals(alloc, blocks);
    let mut first = Vec::new(alloc);
    let mut end = End::genesis();
    end.put_next(alloc, &mut first, 0);
    for late in 0..blocks {
        let mut sibling = end;
        sibling.put_bad(alloc, &mut plan.measured, late);
    }
    let _ = plan.measured.append(&mut first);
    plan.height = 1;
    plan
}

/// Those of a chain of `blocks` blocks whose first block comes last, with as many bad blocks that all follow its last
/// one.
fn leaves(alloc: Global, blocks: u64) -> Plan {
    let mut plan = arrivals(alloc, blocks);
    let mut first = Vec::new(alloc);
    let mut end = End::genesis();
    end.put_next(alloc, &mut first, 0);
    end.put_chain(alloc, &mut plan.measured, blocks.saturating_sub(1));
    for late in 0..blocks {
        let mut leaf = end;
        leaf.put_bad(alloc, &mut plan.measured, late);
    }
    let _ = plan.measured.append(&mut first);
    plan.height = blocks;
    plan
}

/// Those of a chain of `blocks` blocks whose first block never comes.
fn without_first(alloc: Global, blocks: u64) -> Plan {
    let mut plan = arrivals(alloc, blocks);
    let mut none = Vec::new(alloc);
    let mut end = End::genesis();
    end.put_next(alloc, &mut none, 0);
    end.put_chain(alloc, &mut plan.measured, blocks);
    plan
}

/// The discards of those of a chain of `blocks` blocks whose first block never came.
fn discards(alloc: Global, blocks: u64) -> Plan {
    let mut plan = arrivals(alloc, blocks);
    plan.act = Act::Discard;
    let mut none = Vec::new(alloc);
    let mut end = End::genesis();
    end.put_next(alloc, &mut none, 0);
    end.put_chain(alloc, &mut plan.blocks, blocks);
    for text in &plan.blocks {
        put_hash(alloc, &mut plan.measured, text);
    }
    plan
}

/// Those that go on from a bad block.
fn behind_bad(alloc: Global, blocks: u64) -> Plan {
    let mut plan = arrivals(alloc, blocks);
    let mut end = End::genesis();
    end.put_bad(alloc, &mut plan.blocks, 0);
    end.put_chain(alloc, &mut plan.measured, blocks);
    plan
}

/// Those of forks that never become longer than the chain, one after the other, each from its first block on.
fn forks(alloc: Global, blocks: u64) -> Plan {
    let mut plan = arrivals(alloc, blocks);
    End::genesis().put_chain(alloc, &mut plan.blocks, LENGTH);
    for fork in 0..blocks.div_ceil(LENGTH) {
        let mut end = End::genesis();
        end.put_next(alloc, &mut plan.measured, fork.saturating_add(1));
        let rest = blocks
            .saturating_sub(fork.saturating_mul(LENGTH))
            .min(LENGTH);
        for _ in 1..rest {
            end.put_next(alloc, &mut plan.measured, fork.saturating_add(1));
        }
    }
    plan.height = LENGTH;
    plan
}

/// Those of bad blocks that follow the last ones of `forks` forks, in turns. Each fork is as long as the chain, which
/// has `length` blocks.
fn tips(alloc: Global, forks: u64, length: u64, blocks: u64) -> Plan {
    let mut plan = arrivals(alloc, blocks);
    End::genesis().put_chain(alloc, &mut plan.blocks, length);
    let mut ends = Vec::new(alloc);
    for fork in 1..=forks {
        let mut end = End::genesis();
        for _ in 0..length {
            end.put_next(alloc, &mut plan.blocks, fork);
        }
        let _ = ends.push(end);
    }
    let mut late = forks;
    for _ in 0..blocks / forks.max(1) {
        for end in &ends {
            late = late.saturating_add(1);
            let mut tip = *end;
            tip.put_bad(alloc, &mut plan.measured, late);
        }
    }
    plan.height = length;
    plan
}

/// Those of `pairs` pairs of a good block and a bad one behind it, each at the end of one fork, which is as long as the
/// chain with the good one.
fn pairs(alloc: Global, length: u64, pairs: u64) -> Plan {
    let mut plan = arrivals(alloc, pairs.saturating_mul(2));
    End::genesis().put_chain(alloc, &mut plan.blocks, length);
    let mut end = End::genesis();
    for _ in 1..length {
        end.put_next(alloc, &mut plan.blocks, 1);
    }
    for late in 1..=pairs {
        let mut tip = end;
        tip.put_next(alloc, &mut plan.measured, late);
        tip.put_bad(alloc, &mut plan.measured, late);
    }
    plan.height = length;
    plan
}

/// Runs each measurement, and prints what it took.
pub fn measure(rt: &HostRuntime) -> io::Result<()> {
    for blocks in [1_000, 4_000, 16_000, 64_000] {
        cores::measure(rt, "bad siblings", blocks, siblings(rt.alloc(), blocks))?;
    }
    for blocks in [1_000, 4_000, 16_000, 48_000] {
        cores::measure(rt, "bad leaves", blocks, leaves(rt.alloc(), blocks))?;
    }
    for blocks in [1_000, 4_000, 16_000, 64_000] {
        let plan = without_first(rt.alloc(), blocks);
        cores::measure(rt, "without its first block", blocks, plan)?;
    }
    for blocks in [1_000, 4_000, 16_000, 64_000] {
        let plan = discards(rt.alloc(), blocks);
        cores::measure(rt, "discards of such blocks", blocks, plan)?;
    }
    for blocks in [1_000, 4_000, 16_000, 64_000] {
        cores::measure(
            rt,
            "behind a bad block",
            blocks,
            behind_bad(rt.alloc(), blocks),
        )?;
    }
    for blocks in [1_000, 4_000, 16_000, 64_000] {
        cores::measure(
            rt,
            "forks that aren't longer",
            blocks,
            forks(rt.alloc(), blocks),
        )?;
    }
    for blocks in [1_000, 4_000, 16_000, 64_000] {
        let plan = tips(rt.alloc(), 1, 1_000, blocks);
        cores::measure(rt, "bad tips of a fork", blocks, plan)?;
    }
    for length in [100, LENGTH] {
        let plan = tips(rt.alloc(), 1, length, 1_000);
        cores::measure(rt, "bad tips of a fork of", length, plan)?;
    }
    for forks in [8, 9] {
        let plan = tips(rt.alloc(), forks, 1_000, forks.saturating_mul(200));
        cores::measure(rt, "bad tips in turns of forks", forks, plan)?;
    }
    let plan = pairs(rt.alloc(), 1_000, 200);
    cores::measure(rt, "good and bad tips of a fork of", 1_000, plan)?;
    Ok(())
}
