//! Reading and writing blocks: many empty ones, and one of about 1,000,000 bytes.

use crate::texts::{End, put, put_array, put_output};
use crate::timing::{Telling, nanos_if, now, print};
use ident::KeyHash;
use std::alloc::Global;
use std::io;
use tx::Tx;

/// How many times an empty block is read.
const EMPTY_COUNT: u64 = 10_000;

/// The smallest transaction: no input, no output, no fee, no witness.
const SMALLEST: &[u8] = b"\x83\xa3\x00\x80\x01\x80\x02\x00\xa0\xf6";

/// How many of the smallest are read.
const SMALL_COUNT: u64 = 100_000;

/// How many large ones are read, each with `LARGE_OUTPUTS` outputs of coin alone: 16,392 bytes.
const LARGE_COUNT: u64 = 61;

const LARGE_OUTPUTS: u64 = 420;

/// What is done with a block.
#[derive(Clone, Copy)]
enum Work {
    Read,
    /// Its transactions are written as a block again.
    Write,
}

/// What the block has that is measured.
#[derive(Clone, Copy)]
enum Content {
    Nothing,
    SmallTransactions,
    LargeTransactions,
}

/// Puts a transaction of many outputs behind a text, each to the key of another hash.
fn put_large(out: &mut Vec<u8>) {
    put(out, b"\x83\xa3\x00\x80\x01");
    put_array(out, LARGE_OUTPUTS);
    for output in 0..LARGE_OUTPUTS {
        let hash = KeyHash::from_bytes([(output % 256) as u8; 32]);
        put_output(out, &hash, 1_000);
    }
    put(out, b"\x02\x00\xa0\xf6");
}

/// The text of a body that has the same transaction `count` times.
fn body_of(alloc: Global, count: u64, transaction: &[u8]) -> Vec<u8> {
    let mut body = Vec::new(alloc);
    put_array(&mut body, count);
    for _ in 0..count {
        put(&mut body, transaction);
    }
    body
}

/// The text of a body that has the smallest transaction `count` times.
pub fn small_body(alloc: Global, count: u64) -> Vec<u8> {
    body_of(alloc, count, SMALLEST)
}

/// The text of the first block, which has the same transaction `count` times.
fn text_of(alloc: Global, count: u64, transaction: &[u8]) -> Vec<u8> {
    End::genesis().next_text(alloc, 0, &body_of(alloc, count, transaction))
}

/// The text of the first block with this content.
fn text_with(alloc: Global, content: Content) -> Vec<u8> {
    match content {
        Content::Nothing => text_of(alloc, 0, b""),
        Content::SmallTransactions => text_of(alloc, SMALL_COUNT, SMALLEST),
        Content::LargeTransactions => {
            let mut large = Vec::new(alloc);
            put_large(&mut large);
            text_of(alloc, LARGE_COUNT, &large)
        }
    }
}

/// Whether the text is that of a block.
fn is_read(alloc: Global, text: &[u8]) -> bool {
    block::read(alloc, text).is_ok()
}

/// How long it takes to read the block `calls` times.
fn time_reading(rt: &HostRuntime, text: &[u8], calls: u64) -> Option<u128> {
    let start = now(rt);
    let mut all = true;
    for _ in 0..calls {
        all &= is_read(rt.alloc(), text);
    }
    nanos_if(rt, start, all)
}

/// How long it takes to write a block of these transactions `calls` times.
fn time_writing(rt: &HostRuntime, txs: &[Tx], calls: u64) -> Option<u128> {
    let start = now(rt);
    let mut all = true;
    for _ in 0..calls {
        all &= block::write(rt.alloc(), 1, 1, None, txs).is_ok();
    }
    nanos_if(rt, start, all)
}

/// The same of the transactions of the block of a text.
fn time_writing_again(rt: &HostRuntime, text: &[u8], calls: u64) -> Option<u128> {
    let block = block::look(rt.alloc(), text).ok()?.ok()?;
    time_writing(rt, block.transactions(), calls)
}

/// How long it takes to read the block of a text, or to write it.
fn time_work(rt: &HostRuntime, work: Work, text: &[u8], calls: u64) -> Option<u128> {
    match work {
        Work::Read => time_reading(rt, text, calls),
        Work::Write => time_writing_again(rt, text, calls),
    }
}

/// Measures how long it takes to read or to write a block of this content, `count` times in each repetition.
fn measure_work(
    rt: &HostRuntime,
    telling: Telling,
    name: &str,
    work: Work,
    content: Content,
    count: u64,
) -> io::Result<()> {
    let calls = telling.repetitions().saturating_mul(count);
    let text = text_with(rt.alloc(), content);
    let nanos = time_work(rt, work, &text, calls);
    print(rt, telling, name, text.len() as u64, calls, nanos)
}

/// Runs each measurement, and prints its name, or what it took.
pub fn measure(rt: &HostRuntime, telling: Telling) -> io::Result<()> {
    let (read, write) = (Work::Read, Work::Write);
    let large = Content::LargeTransactions;
    measure_work(
        rt,
        telling,
        "read_empty_blocks",
        read,
        Content::Nothing,
        EMPTY_COUNT,
    )?;
    measure_work(
        rt,
        telling,
        "read_small_transactions",
        read,
        Content::SmallTransactions,
        1,
    )?;
    measure_work(rt, telling, "read_large_transactions", read, large, 1)?;
    measure_work(rt, telling, "write_transactions", write, large, 1)
}
