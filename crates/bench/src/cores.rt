//! What is measured at a core: what comes to it before, what is measured, and what is to be so in the end.

use crate::networks::{FAR_BACK, FURTHEST_BACK, genesis};
use crate::timing::{Telling, nanos_if, now, print};
use chain_core::{ArriveReply, Core, FollowerId};
use ident::BlockHash;
use std::alloc::Global;
use std::io;
use witness_pool::TestScheme;

/// What is measured.
#[derive(Clone, Copy)]
pub enum Act {
    /// The arrivals of blocks.
    Arrive,
    /// The submissions of transactions.
    Submit,
    /// The forging of a block of all that waits.
    Forge,
    /// What the first follower is told.
    Tell,
    /// The discards of blocks.
    Discard,
}

/// How many blocks may be rolled back.
#[derive(Clone, Copy)]
pub enum Depth {
    Usual,
    /// As many as may be.
    Greatest,
}

impl Depth {
    /// The line of the genesis that says so.
    fn line(self) -> &'static str {
        match self {
            Depth::Usual => FAR_BACK,
            Depth::Greatest => FURTHEST_BACK,
        }
    }
}

/// A measurement.
#[derive(Drop)]
pub struct Plan {
    pub depth: Depth,
    pub act: Act,
    /// At how many new cores it is done.
    pub rounds: u64,
    /// How many calls are made at each while it is measured.
    pub calls: u64,
    /// How many followers are open before.
    pub followers: u64,
    /// The texts of the blocks that arrive before.
    pub blocks: Vec<Vec<u8>>,
    /// The texts of the transactions that are submitted before.
    pub waiting: Vec<Vec<u8>>,
    /// How many blocks the first follower is told before.
    pub told: u64,
    /// The texts of what comes while it is measured, or the hashes of the blocks that are discarded then.
    pub measured: Vec<Vec<u8>>,
    /// How high the chain is to be in the end.
    pub height: u64,
    /// How many transactions are to wait in the end.
    pub left: u64,
}

impl Plan {
    /// `calls` calls at one core, to which nothing comes before.
    pub fn new(alloc: Global, act: Act, calls: u64) -> Plan {
        Plan {
            depth: Depth::Usual,
            act,
            rounds: 1,
            calls,
            followers: 0,
            blocks: Vec::new(alloc),
            waiting: Vec::new(alloc),
            told: 0,
            measured: Vec::new(alloc),
            height: 0,
            left: 0,
        }
    }
}

/// A core that nothing has come to. In a box it is dropped by a call, which keeps the proofs of what owns it short.
pub fn open(alloc: Global, depth: Depth) -> Option<Box<Core<TestScheme>>> {
    let core = Core::new(alloc, genesis(alloc, depth.line())?).ok()?;
    Box::new(alloc, core).ok()
}

/// Opens `followers` followers, and answers whether all are open.
fn are_open(core: &mut Core<TestScheme>, followers: u64) -> bool {
    let mut all = true;
    for _ in 0..followers {
        all &= core.open().is_ok();
    }
    all
}

/// Has a block arrive, and answers whether it is kept.
pub fn is_kept(core: &mut Core<TestScheme>, text: &[u8]) -> bool {
    match core.arrive(text) {
        Ok(ArriveReply::Kept { .. }) => true,
        _ => false,
    }
}

/// Has blocks arrive, and answers whether all are kept.
fn are_kept(core: &mut Core<TestScheme>, texts: &[Vec<u8>]) -> bool {
    let mut all = true;
    for text in texts {
        all &= is_kept(core, text);
    }
    all
}

/// Submits transactions, and answers whether memory lasted.
fn are_submitted(core: &mut Core<TestScheme>, texts: &[Vec<u8>]) -> bool {
    let mut all = true;
    for text in texts {
        all &= core.submit(text).is_ok();
    }
    all
}

/// Forges the next block `blocks` times, and answers whether it could be.
fn are_forged(core: &Core<TestScheme>, blocks: u64) -> bool {
    let slot = core.height().saturating_add(1);
    let mut all = true;
    for _ in 0..blocks {
        all &= core.forge(slot).is_ok();
    }
    all
}

/// Tells the first follower what comes next, and answers whether there is something.
fn is_told(core: &mut Core<TestScheme>) -> bool {
    match core.next(FollowerId { number: 0 }) {
        Ok(next) => next.is_some(),
        Err(_) => false,
    }
}

/// Tells the first follower `blocks` blocks, and answers whether there were as many.
fn are_told(core: &mut Core<TestScheme>, blocks: u64) -> bool {
    let mut all = true;
    for _ in 0..blocks {
        all &= is_told(core);
    }
    all
}

/// Discards the blocks of these hashes, and answers whether all were beside the chain.
fn are_discarded(core: &mut Core<TestScheme>, hashes: &[Vec<u8>]) -> bool {
    let mut all = true;
    for hash in hashes {
        all &= match BlockHash::try_from(hash.as_slice()) {
            Ok(hash) => core.discard(hash).is_ok(),
            Err(_) => false,
        };
    }
    all
}

/// Does what is measured, and answers whether it could be done.
fn is_done(core: &mut Core<TestScheme>, plan: &Plan) -> bool {
    match plan.act {
        Act::Arrive => are_kept(core, &plan.measured),
        Act::Submit => are_submitted(core, &plan.measured),
        Act::Forge => are_forged(core, plan.calls),
        Act::Tell => are_told(core, plan.calls),
        Act::Discard => are_discarded(core, &plan.measured),
    }
}

/// How long it takes, if all could be done and the end is as it is to be.
fn time_at(rt: &HostRuntime, core: &mut Core<TestScheme>, plan: &Plan) -> Option<u128> {
    let open = are_open(core, plan.followers);
    let kept = are_kept(core, &plan.blocks);
    let submitted = are_submitted(core, &plan.waiting);
    let told = are_told(core, plan.told);
    let start = now(rt);
    let done = is_done(core, plan);
    let nanos = nanos_if(rt, start, open & kept & submitted & told & done);
    let ends = core.height() == plan.height && core.mempool().len() as u64 == plan.left;
    if ends { nanos } else { None }
}

/// How long it takes at a new core.
fn time_once(rt: &HostRuntime, plan: &Plan) -> Option<u128> {
    let mut core = open(rt.alloc(), plan.depth)?;
    time_at(rt, &mut core, plan)
}

/// How long it takes at all of them.
fn time_all(rt: &HostRuntime, plan: &Plan) -> Option<u128> {
    let mut all: u128 = 0;
    for _ in 0..plan.rounds {
        all = all.saturating_add(time_once(rt, plan)?);
    }
    Some(all)
}

/// Measures it, and prints what a call took under this name.
pub fn measure(rt: &HostRuntime, name: &str, size: u64, plan: Plan) -> io::Result<()> {
    let nanos = time_all(rt, &plan);
    let calls = plan.calls.saturating_mul(plan.rounds);
    print(rt, Telling::Times, name, size, calls, nanos)
}
