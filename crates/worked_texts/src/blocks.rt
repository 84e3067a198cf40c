//! Blocks without transactions: what is read of one, what is written, each bit flipped, and each beginning.

use super::fixture::{boxed, check, is_spelled};
use block::{Block, Header, ReadFault, WriteFault, empty_body_hash, read, write_empty};
use ident::BlockHash;
use std::alloc::Global;
use std::process::Abort;

/// The text of block 1 in slot 1, with no block before it and an empty body.
pub const FIRST: [u8; 40] =
    *b"\x82\x84\x01\x01\xf6\x58\x20\x76\xbe\x8b\x52\x8d\x00\x75\xf7\xaa\xe9\x8d\x6f\xa5\x7a\x6d\
    \x3c\x83\xae\x48\x0a\x84\x69\xe6\x68\xd7\xb0\xaf\x96\x89\x95\xac\x71\x80";

/// The SHA-256 digest of its header's text, the 38 bytes after the first.
const FIRST_HASH: &str = "3b232b00fdf18aa5f2e408bd66e32ceb313459697b54313151494910541c08aa";

/// The SHA-256 digest of the byte 80.
const EMPTY_HASH: &str = "76be8b528d0075f7aae98d6fa57a6d3c83ae480a8469e668d7b0af968995ac71";

/// Why bytes are no block, if they are none.
pub fn fault_of(alloc: Global, bytes: &[u8]) -> Option<ReadFault> {
    read(alloc, bytes).err()
}

/// The block that bytes are.
pub fn block_of(rt: &(impl Abort + AllocGlobal), bytes: &[u8]) -> Box<Block> {
    boxed(rt, read(rt.alloc(), bytes).expect(rt, "a block"))
}

#[test]
fn first_block(rt: HostRuntime) {
    let block = block_of(&rt, &FIRST);
    let header = block.header();
    check(&rt, "number", header.number == 1);
    check(&rt, "slot", header.slot == 1);
    check(&rt, "header", header.previous.is_none());
    is_spelled(&rt, &[EMPTY_HASH], header.body_hash.as_bytes());
    let point = block.point();
    check(&rt, "place", point.number == 1);
    is_spelled(&rt, &[FIRST_HASH], point.hash.as_bytes());
    check(&rt, "nothing before it", block.previous().is_none());
    check(&rt, "no transactions", block.is_empty());
}

/// The hash of the first block.
pub fn first_hash() -> BlockHash {
    BlockHash::of_header(&FIRST[1..39])
}

/// The header of block 24 in this slot, after the first block.
fn late_header(slot: u64) -> Header {
    Header {
        number: 24,
        slot,
        previous: Some(first_hash()),
        body_hash: empty_body_hash(),
    }
}

/// The latest slot.
const LAST_SLOT: u64 = (1 << 63) - 1;

/// The text of that block in the latest slot.
const LATE: &str = "82 841818 1b7fffffffffffffff \
    5820 3b232b00fdf18aa5f2e408bd66e32ceb313459697b54313151494910541c08aa \
    5820 76be8b528d0075f7aae98d6fa57a6d3c83ae480a8469e668d7b0af968995ac71 80";

// In the latest slot a block is written and read, and in the next one it isn't written. A copy of the first block,
// which outlives it, is that block, and another isn't.
#[test]
fn written_and_compared(rt: HostRuntime) {
    let text = write_empty(rt.alloc(), &late_header(LAST_SLOT)).expect(&rt, "a block");
    let block = block_of(&rt, &text);
    is_spelled(&rt, &[LATE], block.bytes());
    check(&rt, "header", *block.header() == late_header(LAST_SLOT));
    let late = write_empty(rt.alloc(), &late_header(LAST_SLOT + 1)).err();
    check(&rt, "too late", late == Some(WriteFault::OutOfRange));
    let copy = boxed(&rt, block_of(&rt, &FIRST).try_clone().expect(&rt, "a copy"));
    let first = block_of(&rt, &FIRST);
    check(&rt, "another block", *block != *first);
    check(&rt, "a copy", *copy == *first);
    check(&rt, "its text", copy.bytes() == FIRST.as_slice());
}

/// How many texts were malformed, had another body hash, were a block's, and had another fault.
#[derive(Clone, Copy)]
struct Counts {
    malformed: u64,
    mismatched: u64,
    accepted: u64,
    others: u64,
}

/// Counts what a text's fault is.
fn count(counts: &mut Counts, fault: Option<ReadFault>) {
    let place = match fault {
        None => &mut counts.accepted,
        Some(ReadFault::Malformed) => &mut counts.malformed,
        Some(ReadFault::BodyHashMismatch) => &mut counts.mismatched,
        Some(_) => &mut counts.others,
    };
    *place = place.saturating_add(1);
}

#[test]
fn every_bit_flipped(rt: HostRuntime) {
    let mut counts = Counts {
        malformed: 0,
        mismatched: 0,
        accepted: 0,
        others: 0,
    };
    for index in 0..FIRST.len() {
        for bit in [1u8, 2, 4, 8, 16, 32, 64, 128] {
            let mut text = FIRST;
            text[index] ^= bit;
            count(&mut counts, fault_of(rt.alloc(), &text));
        }
    }
    check(&rt, "malformed", counts.malformed == 54);
    check(&rt, "mismatched", counts.mismatched == 256);
    check(&rt, "accepted", counts.accepted == 10);
    check(&rt, "others", counts.others == 0);
}

/// Each proper beginning of a text is malformed.
pub fn has_no_beginning(rt: &(impl Abort + AllocGlobal), text: &[u8]) {
    for end in 0..text.len() {
        let fault = fault_of(rt.alloc(), &text[..end]);
        check(rt, "a beginning", fault == Some(ReadFault::Malformed));
    }
}

#[test]
fn cut_bytes(rt: HostRuntime) {
    has_no_beginning(&rt, &FIRST);
}
