//! Blocks that arrive in bytes at one core, and seen at another: the same replies and the same chain.

use super::fixture::{MEMORY, SMALL_NETWORK, arrive_at, core_on, same};
use super::payments::{bytes_of, names_of};
use block::Seen;
use chain_core::{ArriveReply, Core, Refusal};
use script::Names;
use std::alloc::{AllocError, Global};
use std::process::Abort;
use witness_pool::TestScheme;

/// The answer to the bytes once they are seen.
fn arrive_seen(
    alloc: Global,
    core: &mut Core<TestScheme>,
    bytes: &[u8],
) -> Result<ArriveReply, AllocError> {
    let bytes = Vec::from_slice(alloc, bytes)?;
    core.arrive_seen(Seen::read(alloc, bytes)?)
}

/// The core's tip has this number, and one output is unspent, of this lovelace, beside these fees.
fn is_seen(rt: &impl Abort, core: &Core<TestScheme>, tip: u64, coin: u64, fees: u64) {
    let utxo = core.utxo();
    assert!(rt; utxo.coin() == u128::from(coin));
    same(rt, "tip", core.tip().number, tip);
    same(rt, "outputs", utxo.len() as u64, 1);
    same(rt, "fees", core.fees(), fees);
}

/// Bytes that arrive, by the name of their block and what comes behind them, and what is answered.
type Row = (&'static str, &'static [u8], ArriveReply);

/// Both cores answer the bytes so, of which one gets them and the other gets them seen.
fn both_tell(
    rt: &(impl Abort + AllocGlobal),
    by_bytes: &mut Core<TestScheme>,
    by_seen: &mut Core<TestScheme>,
    bytes: &[u8],
    want: ArriveReply,
) {
    let first = arrive_at(rt, by_bytes, bytes);
    assert!(rt; first == want);
    let second = arrive_seen(rt.alloc(), by_seen, bytes).expect(rt, MEMORY);
    assert!(rt; second == want);
}

/// Two new cores answer so, and have the same chain then, whose tip has this number, beside this lovelace and fees.
fn are_told(
    rt: &(impl Abort + AllocGlobal),
    names: &Names,
    rows: &[Row],
    number: u64,
    coin: u64,
    fees: u64,
) {
    let mut by_bytes = core_on(rt, SMALL_NETWORK);
    let mut by_seen = core_on(rt, SMALL_NETWORK);
    for (name, tail, want) in rows {
        let mut bytes = Vec::from_slice(rt.alloc(), bytes_of(rt, names, *name)).expect(rt, MEMORY);
        bytes.extend_from_slice(*tail).expect(rt, MEMORY);
        both_tell(rt, &mut by_bytes, &mut by_seen, &bytes, *want);
    }
    assert!(rt; by_bytes.tip() == by_seen.tip());
    is_seen(rt, &by_bytes, number, coin, fees);
    is_seen(rt, &by_seen, number, coin, fees);
}

/// What arrives of the chain of three, and of the one block before it.
const LATE: &[Row] = &[
    ("A1", b"", ArriveReply::Kept { back: 0, added: 1 }),
    ("B3", b"", ArriveReply::Kept { back: 0, added: 0 }),
    ("B1", b"", ArriveReply::Kept { back: 0, added: 0 }),
    ("B2", b"", ArriveReply::Kept { back: 1, added: 3 }),
    ("B1", b"", ArriveReply::Refused(Refusal::TooOld)),
    ("B2", b"", ArriveReply::Refused(Refusal::Known)),
];

// The chain of three grows over the one block before it when its second block comes; its first is then immutable.
#[test]
fn late_predecessor_and_a_switch(rt: HostRuntime) {
    let names = names_of(
        &rt,
        "block A1 genesis 1 Good\nblock B1 genesis 2 Other\nblock B2 B1 3\nblock B3 B2 4",
    );
    are_told(&rt, &names, LATE, 3, 900, 300);
}

/// A block, and before and after it its text with one more byte behind it.
const LONGER: &[Row] = &[
    ("A1", b"\0", ArriveReply::Refused(Refusal::Malformed)),
    ("A1", b"", ArriveReply::Kept { back: 0, added: 1 }),
    ("A1", b"\0", ArriveReply::Refused(Refusal::Malformed)),
];

#[test]
fn bytes_that_are_no_block(rt: HostRuntime) {
    let names = names_of(&rt, "block A1 genesis 1 Good");
    are_told(&rt, &names, LONGER, 1, 910, 290);
}
