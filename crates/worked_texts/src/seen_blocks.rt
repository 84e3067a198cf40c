//! Bytes that are seen on one thread, and by a pool: the same block, or the same reason why there is none.

use super::blocks::FIRST;
use super::fixture::{MEMORY, boxed, check};
use super::transactions::read_all;
use super::verdicts::{BADLY, SIGNED};
use block::{BadBytes, CheckedBlock, MAX_BLOCK_SIZE, NotRead, Seen, write};
use std::process::Abort;
use std::thread::Threads;
use witness_pool::{OpenGate, Pool, PoolFault, TestScheme};

/// The block that bytes spell, or why they spell none.
type Answer = Result<CheckedBlock<TestScheme>, BadBytes>;

/// What is told of bytes: which transactions of their block are signed, or why they spell none.
type Told = Result<&'static [bool], BadBytes>;

/// The bytes as `workers` workers see them.
fn seen_by<R: Threads + Sync + Abort + AllocGlobal>(
    rt: &R,
    workers: usize,
    bytes: &[u8],
) -> Result<Seen<TestScheme>, NotRead> {
    let pool = Pool::new(OpenGate);
    let bytes = Vec::from_slice(rt.alloc(), bytes).expect(rt, MEMORY);
    Seen::read_with(rt, rt.alloc(), &pool, workers, bytes)
}

/// This many workers are refused, and the bytes come back.
fn is_refused<R: Threads + Sync + Abort + AllocGlobal>(rt: &R, workers: usize, bytes: &[u8]) {
    let refused = seen_by(rt, workers, bytes).err().expect(rt, "a fault");
    check(rt, "workers", refused.fault == PoolFault::BadWorkers);
    check(rt, "back", refused.bytes.as_slice() == bytes);
}

/// The block of these bytes has transactions that are signed so.
fn is_block(rt: &impl Abort, block: &CheckedBlock<TestScheme>, bytes: &[u8], signed: &[bool]) {
    check(rt, "bytes", block.bytes() == bytes);
    check(
        rt,
        "transactions",
        block.transactions().len() == signed.len(),
    );
    for (tx, want) in block.transactions().iter().zip(signed) {
        check(rt, "signed", tx.is_signed() == *want);
    }
}

/// The answer is what is told of these bytes.
fn is_told(rt: &impl Abort, answer: &Answer, bytes: &[u8], told: Told) {
    match (answer, told) {
        (Ok(block), Ok(signed)) => is_block(rt, block, bytes, signed),
        (Err(fault), Err(want)) => check(rt, "a fault", *fault == want),
        _ => check(rt, "an answer", false),
    }
}

/// The first block's text with another body hash.
fn mismatched() -> [u8; 40] {
    let mut text = FIRST;
    text[7..39].copy_from_slice(&[7; 32]);
    text
}

/// The text of a block of five payments, of which the second and the last are badly signed.
fn five_payments(rt: &(impl Abort + AllocGlobal)) -> Vec<u8> {
    let txs = read_all(rt, &[SIGNED, BADLY, SIGNED, SIGNED, BADLY]);
    write(rt.alloc(), 1, 1, None, &txs).expect(rt, "a block")
}

/// This is told of bytes by one thread, which keeps them, and by pools of several sizes; those of none and of 17 don't
/// answer.
fn check_told<R: Threads + Sync + Abort + AllocGlobal>(rt: &R, bytes: &[u8], told: Told) {
    let copy = Vec::from_slice(rt.alloc(), bytes).expect(rt, MEMORY);
    let seen = Seen::<TestScheme>::read(rt.alloc(), copy).expect(rt, MEMORY);
    check(rt, "kept", seen.bytes() == bytes);
    is_told(rt, &boxed(rt, seen.into_result()), bytes, told);
    for workers in [1, 2, 3, 16] {
        let seen = seen_by(rt, workers, bytes).expect(rt, "an answer");
        is_told(rt, &boxed(rt, seen.into_result()), bytes, told);
    }
    is_refused(rt, 0, bytes);
    is_refused(rt, 17, bytes);
}

#[test]
fn bytes_that_are_seen(rt: HostRuntime) {
    let large = vec![in rt.alloc(); 0u8; MAX_BLOCK_SIZE + 1].expect(&rt, MEMORY);
    let full = five_payments(&rt);
    check_told(&rt, &FIRST[..39], Err(BadBytes::Malformed));
    check_told(&rt, &mismatched(), Err(BadBytes::BodyHashMismatch));
    check_told(&rt, &large, Err(BadBytes::TooLarge));
    check_told(&rt, &FIRST, Ok(&[]));
    check_told(&rt, &full, Ok(&[true, false, true, true, false]));
}
