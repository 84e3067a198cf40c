//! How long it takes to open a core on blocks, beside their arrivals.

use crate::cores::{self, Act, Plan};
use crate::networks::{FAR_BACK, genesis};
use crate::texts::{End, Growing, MADE, TEST_SIGNER, put_payments_by};
use crate::timing::{Telling, nanos_if, now, print};
use chain_core::Core;
use draft::Signer;
use std::alloc::Global;
use std::io;
use witness_pool::TestScheme;

/// How many payments a block has.
pub const PAYMENTS: usize = 100;

/// The texts of `blocks` blocks without transactions.
pub fn empty_blocks(alloc: Global, blocks: u64) -> Vec<Vec<u8>> {
    let mut texts = Vec::new(alloc);
    End::genesis().put_chain(alloc, &mut texts, blocks);
    texts
}

/// The texts of blocks that make outputs, a thousand each, and then of ten times as many that spend a hundred each,
/// signed by this signer.
pub fn paying_blocks<K: Signer>(alloc: Global, signer: &K, making: u64) -> Vec<Vec<u8>> {
    let mut texts = Vec::new(alloc);
    let mut payments: Vec<Vec<u8>> = Vec::new(alloc);
    let mut growing = Growing::genesis();
    for _ in 0..making {
        let _ = texts.push(growing.next_text_by(alloc, signer));
        let source = growing.source;
        put_payments_by(alloc, signer, &mut payments, source, 1, MADE as u16);
    }
    let mut end = growing.end;
    for body in payments.chunks(PAYMENTS) {
        let _ = texts.push(end.next_of(alloc, body));
    }
    texts
}

/// How long it takes to open a core on these blocks.
fn time_reopening(rt: &HostRuntime, texts: &[Vec<u8>]) -> Option<u128> {
    let genesis = genesis(rt.alloc(), FAR_BACK)?;
    let start = now(rt);
    let core = Core::<TestScheme>::reopen(rt.alloc(), genesis, texts).ok()?;
    let height = core.height();
    nanos_if(rt, start, height == texts.len() as u64)
}

/// Opens a core on the blocks, has them arrive at another, and prints what each took a block.
fn measure_both(rt: &HostRuntime, name: &str, texts: Vec<Vec<u8>>) -> io::Result<()> {
    let blocks = texts.len() as u64;
    let nanos = time_reopening(rt, &texts);
    print(rt, Telling::Times, name, blocks, blocks, nanos)?;
    let mut plan = Plan::new(rt.alloc(), Act::Arrive, blocks);
    plan.measured = texts;
    plan.height = blocks;
    cores::measure(rt, "arrivals of these", blocks, plan)
}

/// Runs each measurement, and prints what it took.
pub fn measure(rt: &HostRuntime) -> io::Result<()> {
    measure_both(
        rt,
        "reopen on empty blocks",
        empty_blocks(rt.alloc(), 10_000),
    )?;
    let paying = paying_blocks(rt.alloc(), &TEST_SIGNER, 100);
    measure_both(rt, "reopen on payments", paying)
}
