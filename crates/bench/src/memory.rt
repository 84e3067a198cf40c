//! How much memory a block of a chain takes, one that waits for another, and an unspent output; and what is kept of
//! the last 2,160 blocks so that they can be rolled back: what each changed, beside their states, which share what they
//! have in common.

use crate::blocks::small_body;
use crate::cores::{Depth, is_kept, open};
use crate::ledger_states::{after, block_of, grow, opening};
use crate::reopening::PAYMENTS;
use crate::texts::{End, Growing, MADE, put_payments};
use crate::timing::{Telling, nanos_if, now, print};
use chain_core::Core;
use ident::TxId;
use ledger::{BlockDiff, LedgerState, apply_block_diff, undo_block};
use std::alloc::Global;
use std::fs::File;
use std::io::{self, Read};
use std::rt::Files;
use witness_pool::TestScheme;

/// How many blocks without transactions a chain has.
const BLOCKS: u64 = 100_000;

/// How many blocks wait with 80,000 of the smallest transactions each, in 0.8 MB.
const WAITING: u64 = 200;

const SMALL: u64 = 80_000;

/// How many blocks make a thousand outputs each, and how many blocks of a hundred payments come after them.
const MAKING: usize = 216;

const PAYING: usize = 2_160;

/// How many bytes of memory the program holds, in whole pages, as the system counts them.
pub fn held<R: Files<File = File> + AllocGlobal>(rt: &R) -> Option<u64> {
    let mut text = String::new(rt.alloc());
    let mut file = File::open(rt, "/proc/self/statm").ok()?;
    file.read_to_string(&mut text).ok()?;
    let pages: u64 = text.split(' ').nth(1)?.parse().ok()?;
    pages.checked_mul(4_096)
}

/// Prints how many bytes were taken for each one of `many`.
pub fn print_bytes(rt: &HostRuntime, name: &str, many: u64, before: Option<u64>) -> io::Result<()> {
    let (Some(before), Some(after)) = (before, held(rt)) else {
        return Err(io::ErrorKind::Other.into());
    };
    let each = after.saturating_sub(before).checked_div(many).unwrap_or(0);
    println!(rt; "{name} {many}: {each} bytes each")
}

/// Has a chain of blocks without transactions arrive, and answers whether all are kept.
fn are_kept(alloc: Global, core: &mut Core<TestScheme>) -> bool {
    let mut end = End::genesis();
    let mut all = true;
    for _ in 0..BLOCKS {
        all &= is_kept(core, &end.next_text(alloc, 0, b"\x80"));
    }
    all
}

/// Has blocks with this body arrive that go on from one which never comes, and answers whether all are kept.
fn wait(alloc: Global, core: &mut Core<TestScheme>, blocks: u64, body: &[u8]) -> bool {
    let mut end = End::genesis();
    let _ = end.next_text(alloc, 1, b"\x80");
    let mut all = true;
    for _ in 0..blocks {
        all &= is_kept(core, &end.next_text(alloc, 1, body));
    }
    all
}

/// Measures blocks with this body that wait.
fn measure_waiting(
    rt: &HostRuntime,
    core: &mut Core<TestScheme>,
    blocks: u64,
    body: &[u8],
) -> io::Result<()> {
    let before = held(rt);
    if wait(rt.alloc(), core, blocks, body) {
        print_bytes(rt, "blocks that wait", blocks, before)
    } else {
        Err(io::ErrorKind::Other.into())
    }
}

/// Measures a core on this chain.
fn measure_chain(rt: &HostRuntime, core: &mut Core<TestScheme>) -> io::Result<()> {
    let before = held(rt);
    if are_kept(rt.alloc(), core) {
        print_bytes(rt, "blocks of a chain", BLOCKS, before)
    } else {
        Err(io::ErrorKind::Other.into())
    }
}

/// The state after blocks that make outputs, and where their chain ends; the payments that made them are put behind the
/// others.
fn grown(
    alloc: Global,
    growing: &mut Growing,
    sources: &mut Vec<TxId>,
) -> Option<Box<LedgerState>> {
    let mut state = opening(alloc)?;
    for _ in 0..MAKING {
        state = grow(alloc, growing, &state)?;
        sources.push(growing.source).ok()?;
    }
    Some(state)
}

/// The texts of the blocks after these, each of a hundred payments that spend what those made.
fn paying_texts(alloc: Global, growing: Growing, sources: &[TxId]) -> Vec<Vec<u8>> {
    let mut texts = Vec::new(alloc);
    let mut end = growing.end;
    for source in sources {
        let mut payments: Vec<Vec<u8>> = Vec::new(alloc);
        put_payments(alloc, &mut payments, *source, 1, MADE as u16);
        for body in payments.chunks(PAYMENTS) {
            let _ = texts.push(end.next_of(alloc, body));
        }
    }
    texts
}

/// Puts the states after these blocks behind those before.
fn put_states(alloc: Global, states: &mut Vec<Box<LedgerState>>, texts: &[Vec<u8>]) -> Option<()> {
    for text in texts {
        let block = block_of(alloc, text)?;
        let state = after(alloc, states.last()?, &block)?;
        states.push(state).ok()?;
    }
    Some(())
}

/// The newest state, and what each block changed.
#[derive(Drop)]
struct Kept {
    state: Box<LedgerState>,
    diffs: Vec<BlockDiff>,
}

/// Applies these blocks, and keeps what they change.
fn put_diffs(alloc: Global, kept: &mut Kept, texts: &[Vec<u8>]) -> Option<()> {
    for text in texts {
        let block = block_of(alloc, text)?;
        let (state, diff) = apply_block_diff(kept.state.try_clone().ok()?, &block).ok()?;
        kept.diffs.push(diff).ok()?;
        kept.state = Box::new(alloc, state).ok()?;
    }
    Some(())
}

/// The state `back` blocks ago, by undoing.
fn undone(kept: &Kept, back: usize) -> Option<LedgerState> {
    let mut state = kept.state.try_clone().ok()?;
    for diff in kept.diffs.iter().rev().take(back) {
        state = undo_block(state, diff).ok()?;
    }
    Some(state)
}

/// Prints how long it takes to have the state `back` blocks ago.
fn measure_undoing(rt: &HostRuntime, kept: &Kept, back: usize) -> io::Result<()> {
    let start = now(rt);
    let done = undone(kept, back).is_some();
    let nanos = nanos_if(rt, start, done);
    print(rt, Telling::Times, "undo, blocks", back as u64, 1, nanos)
}

/// Prints how long it takes to have it of the list, whose newer states are dropped.
fn measure_dropping(
    rt: &HostRuntime,
    states: &mut Vec<Box<LedgerState>>,
    back: usize,
) -> io::Result<()> {
    let left = states.len().saturating_sub(back);
    let start = now(rt);
    states.truncate(left);
    let nanos = nanos_if(rt, start, true);
    print(
        rt,
        Telling::Times,
        "drop states, blocks",
        back as u64,
        1,
        nanos,
    )
}

/// Measures what is kept of these blocks on this state.
fn measure_kept(
    rt: &HostRuntime,
    state: Box<LedgerState>,
    other: Box<LedgerState>,
    texts: &[Vec<u8>],
) -> io::Result<()> {
    let blocks = texts.len() as u64;
    let before = held(rt);
    let mut kept = Kept {
        state,
        diffs: Vec::new(rt.alloc()),
    };
    let done = put_diffs(rt.alloc(), &mut kept, texts).is_some();
    print_bytes(rt, "what a block changed, blocks", blocks, before)?;
    let before = held(rt);
    let mut states = Vec::new(rt.alloc());
    let pushed = states.push(other).is_ok();
    let done = done & pushed & put_states(rt.alloc(), &mut states, texts).is_some();
    print_bytes(rt, "states that share, blocks", blocks, before)?;
    for back in [10, PAYING.saturating_sub(10)] {
        measure_undoing(rt, &kept, back)?;
        measure_dropping(rt, &mut states, back)?;
    }
    if done {
        Ok(())
    } else {
        Err(io::ErrorKind::Other.into())
    }
}

/// Measures a state, and what is kept of the blocks after it.
fn measure_states(rt: &HostRuntime) -> io::Result<()> {
    let before = held(rt);
    let mut growing = Growing::genesis();
    let mut sources = Vec::new(rt.alloc());
    let Some(state) = grown(rt.alloc(), &mut growing, &mut sources) else {
        return Err(io::ErrorKind::Other.into());
    };
    let outputs = MAKING as u64 * MADE;
    print_bytes(rt, "unspent outputs", outputs, before)?;
    let Ok(other) = state.try_clone() else {
        return Err(io::ErrorKind::Other.into());
    };
    let Ok(other) = Box::new(rt.alloc(), other) else {
        return Err(io::ErrorKind::Other.into());
    };
    let texts = paying_texts(rt.alloc(), growing, &sources);
    measure_kept(rt, state, other, &texts)
}

/// Runs each measurement, and prints what it took.
pub fn measure(rt: &HostRuntime) -> io::Result<()> {
    // They stay to the end: what is dropped before is counted wrong, as memory that is given again.
    let (Some(mut core), Some(mut many), Some(mut few)) = (
        open(rt.alloc(), Depth::Usual),
        open(rt.alloc(), Depth::Greatest),
        open(rt.alloc(), Depth::Greatest),
    ) else {
        return Err(io::ErrorKind::Other.into());
    };
    let body = small_body(rt.alloc(), SMALL);
    measure_chain(rt, &mut core)?;
    measure_waiting(rt, &mut many, BLOCKS, b"\x80")?;
    measure_waiting(rt, &mut few, WAITING, &body)?;
    measure_states(rt)
}
