//! Blocks with transactions: what is read of one, what is written, each bit of a body flipped, and each beginning.

use super::blocks::{block_of, fault_of, first_hash, has_no_beginning};
use super::fixture::{NINES, ONES, boxed, check, hex, is_spelled};
use super::transaction_making::TWENTY_NINE;
use super::transactions::{MINTING, MINTING_BODY, PAYING, PAYING_BODY, read_all};
use block::{CheckedBlock, NoText, ReadFault, write};
use std::process::Abort;
use witness_pool::{CheckedTx, TestScheme};

/// Block 2 in slot 5 after the first block, up to the hash of its body.
const FRONT: &str =
    "82 8402 05 5820 3b232b00fdf18aa5f2e408bd66e32ceb313459697b54313151494910541c08aa 5820";

/// The text of that block with the payment and the minting, of 536 bytes: the body begins with byte 72.
pub const BOTH: &[&str] = &[
    FRONT,
    "bbfbd26cb295c5678715ef2cda0d469ef1f746970c2fbb7c5a78984bd5f803f7 82 83",
    PAYING_BODY,
    "a1 0081825820",
    ONES,
    "5840",
    NINES,
    NINES,
    "f6 83",
    MINTING_BODY,
    "a2 0081825820",
    ONES,
    "5840",
    NINES,
    NINES,
    "0181820180 f6",
];

/// The same without transactions.
const NONE: &[&str] = &[
    FRONT,
    "76be8b528d0075f7aae98d6fa57a6d3c83ae480a8469e668d7b0af968995ac71 80",
];

/// A payment with a script that nests one too deep for a block.
const DEEP_PAYMENT: &[&str] = &["83", PAYING_BODY, "a1 01 81", TWENTY_NINE, "820400 f6"];

/// A number and a slot, texts of transactions, and the text of the block or why it has none.
type Written = (
    u64,
    u64,
    &'static [&'static [&'static str]],
    Result<&'static [&'static str], NoText>,
);

const WRITTEN: &[Written] = &[
    (2, 5, &[PAYING, MINTING], Ok(BOTH)),
    (2, 5, &[], Ok(NONE)),
    (1 << 63, 5, &[PAYING, MINTING], Err(NoText::OutOfRange)),
    (2, 1 << 63, &[PAYING, MINTING], Err(NoText::OutOfRange)),
    (1, 1, &[PAYING, DEEP_PAYMENT], Err(NoText::TooDeep(1))),
];

/// A block is written so, after the first block.
fn is_block(rt: &(impl Abort + AllocGlobal), (number, slot, texts, want): &Written) {
    let txs = read_all(rt, *texts);
    let found = write(rt.alloc(), *number, *slot, Some(first_hash()), &txs);
    match (&found, want) {
        (Ok(text), Ok(parts)) => is_spelled(rt, *parts, text),
        (Err(fault), Err(want)) => check(rt, "a fault", fault == want),
        _ => check(rt, "a block", false),
    }
}

#[test]
fn written_blocks(rt: HostRuntime) {
    for row in WRITTEN {
        is_block(&rt, row);
    }
}

/// The sizes and the fees of the payment and the minting.
const SIZES: &[(u64, u64)] = &[(190, 290), (273, 400)];

/// These are the payment and the minting.
fn are_both(rt: &impl Abort, transactions: &[CheckedTx<TestScheme>]) {
    check(rt, "two", transactions.len() == 2);
    for (tx, (size, fee)) in transactions.iter().zip(SIZES) {
        check(rt, "size", tx.tx().size() == *size);
        check(rt, "fee", tx.tx().fee() == *fee);
    }
}

#[test]
fn transactions_of_a_block(rt: HostRuntime) {
    let block = block_of(&rt, &hex(&rt, BOTH));
    check(&rt, "some", !block.is_empty());
    let checked = CheckedBlock::from_block(rt.alloc(), &block).expect(&rt, "memory");
    let checked = boxed(&rt, checked);
    are_both(&rt, checked.transactions());
}

/// The text with this bit flipped is malformed, or has another body hash. It is as it was then.
fn is_refused(rt: &(impl Abort + AllocGlobal), text: &mut [u8], index: usize, bit: u8) {
    assert!(rt; index < text.len());
    text[index] ^= bit;
    let fault = fault_of(rt.alloc(), text);
    text[index] ^= bit;
    let is_wanted = matches!(
        fault,
        Some(ReadFault::Malformed | ReadFault::BodyHashMismatch)
    );
    check(rt, "flipped", is_wanted);
}

#[test]
fn every_bit_of_a_body_flipped(rt: HostRuntime) {
    let mut text = hex(&rt, BOTH);
    for index in 72..text.len() {
        for bit in [1u8, 2, 4, 8, 16, 32, 64, 128] {
            is_refused(&rt, &mut text, index, bit);
        }
    }
    check(&rt, "as it was", fault_of(rt.alloc(), &text).is_none());
    has_no_beginning(&rt, &text);
}
