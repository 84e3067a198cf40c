//! Questions to a core that threads share, and a block that is forged of what it has.

ghost use Rattle.std.specs.Prelude.{◌≡◌};

use super::fixture::{
    MEMORY, Parts, adds, bytes_of, names_of, next_of, open, parts_of, same, sends,
};
use chain_core::{ForgeFault, Place, TxPlace, Why};
use ident::{BlockHash, Point};
use inbox::Mailroom;
use mempool::SubmitReply;
use script::Names;
use shared::{Caller, Opened, Room, Shared};
use std::marker::Brand;
use std::process::Abort;
use std::sync::Wait;
use std::thread::Threads;
use witness_pool::{OpenGate, TestScheme};

/// The core begins with no block.
fn begins<B: Room, R: Wait + Abort>(
    rt: &R,
    shared: &Shared<TestScheme, B>,
    caller: &mut Caller<B>,
) {
    assert!(rt; shared.tip(rt, caller) == Point::genesis());
    same(rt, "slot", shared.slot(rt, caller), 0);
    assert!(rt;
        shared
            .block(rt, caller, 1)
            .is_ok_and(|found| found.is_none())
    );
}

/// It has this block then, and nothing else.
fn has_block<B: Room, R: Wait + Abort>(
    rt: &R,
    shared: &Shared<TestScheme, B>,
    caller: &mut Caller<B>,
    bytes: &[u8],
) {
    let found = shared.block(rt, caller, 1).expect(rt, MEMORY);
    let block = found.expect(rt, "a block");
    assert!(rt; block.bytes() == bytes);
    assert!(rt; shared.tip(rt, caller) == block.point());
    same(rt, "slot", shared.slot(rt, caller), 1);
    same(rt, "immutable blocks", shared.immutable(rt, caller), 0);
    same(rt, "fees", shared.fees(rt, caller), 0);
    let utxo = shared.utxo(rt, caller).expect(rt, MEMORY);
    same(rt, "outputs", utxo.len() as u64, 1);
}

/// It is found by its hash, and no other block is.
fn finds_block<B: Room, R: Wait + Abort>(
    rt: &R,
    shared: &Shared<TestScheme, B>,
    caller: &mut Caller<B>,
    bytes: &[u8],
) {
    let end = shared.chain_tip(rt, caller);
    assert!(rt; end.point == shared.tip(rt, caller));
    same(rt, "slot of the tip", end.slot, 1);
    let hash = end.point.hash;
    assert!(rt; shared.place(rt, caller, hash) == Place::Chain(1));
    assert!(rt; shared.why(rt, caller, hash) == Ok(Why::Selected));
    let found = shared.block_by_hash(rt, caller, hash).expect(rt, MEMORY);
    assert!(rt; found.is_some_and(|block| block.bytes() == bytes));
    let other = BlockHash::from_bytes([7; 32]);
    assert!(rt; shared.place(rt, caller, other) == Place::Unknown);
    assert!(rt; shared.why(rt, caller, other) == Ok(Why::Unknown));
    let none = shared.block_by_hash(rt, caller, other).expect(rt, MEMORY);
    assert!(rt; none.is_none());
}

/// The one block of the chain is live, and no other; there is a place for more, and none is unconnected.
fn has_places<B: Room, R: Wait + Abort + AllocGlobal>(
    rt: &R,
    shared: &Shared<TestScheme, B>,
    caller: &mut Caller<B>,
) {
    same(rt, "live blocks", shared.live_blocks(rt, caller), 1);
    assert!(rt; !shared.is_full_for(rt, caller, 1_048_576));
    let hashes = shared.unconnected(rt, caller, rt.alloc(), 10);
    assert!(rt; hashes.is_ok_and(|hashes| hashes.is_empty()));
}

/// A follower is open until it is closed.
fn is_open_until_closed<B: Room, R: Wait + Abort>(
    rt: &R,
    shared: &Shared<TestScheme, B>,
    caller: &mut Caller<B>,
) {
    let id = shared.open(rt, caller).expect(rt, "a follower");
    assert!(rt; shared.is_open(rt, caller, id));
    assert!(rt; shared.close(rt, caller, id).is_ok());
    assert!(rt; !shared.is_open(rt, caller, id));
}

/// A payment waits, and comes into the block that is forged in slot 2. The text of that block.
fn forges<B: Room, R: Wait + Abort + AllocGlobal>(
    rt: &R,
    shared: &Shared<TestScheme, B>,
    caller: &mut Caller<B>,
    names: &Names,
) -> Vec<u8> {
    let payment = names.tx_of(b"First").expect(rt, "a payment");
    let id = payment.id();
    let bytes = payment.encode().expect(rt, MEMORY);
    assert!(rt; shared.transaction(rt, caller, id) == TxPlace::Unknown);
    let told = shared
        .explain_submission(rt, caller, &bytes)
        .expect(rt, MEMORY);
    assert!(rt; told.is_none());
    let reply = shared.submit(rt, caller, &bytes);
    assert!(rt; reply.is_ok_and(|reply| reply == SubmitReply::Added));
    assert!(rt; shared.transaction(rt, caller, id) == TxPlace::Waits(0));
    let waiting = shared.mempool(rt, caller, rt.alloc()).expect(rt, MEMORY);
    same(rt, "payments that wait", waiting.len() as u64, 1);
    let early = shared.forge(rt, caller, 1).err();
    assert!(rt; early == Some(ForgeFault::SlotNotAfterTip));
    let forged = shared.forge(rt, caller, 2).expect(rt, "a block");
    same(rt, "the forged block", forged.point.number, 2);
    forged.bytes
}

/// The adder brings a block and the one that was forged on it, and the core is asked before, between and after.
fn asks_beside_an_adder<B: Room, M: Mailroom, R: Threads + Wait + Abort + AllocGlobal + Sync>(
    rt: &R,
    parts: &mut Parts<OpenGate, B, M>,
    names: &Names,
) {
    let Parts {
        shared,
        adder,
        peers,
        callers,
    } = parts;
    let mut caller = next_of(rt, callers);
    begins(rt, shared, &mut caller);
    sends(rt, &mut peers[0], bytes_of(rt, names, "A1"));
    adds(rt, adder, shared, 1, 1);
    has_block(rt, shared, &mut caller, bytes_of(rt, names, "A1"));
    finds_block(rt, shared, &mut caller, bytes_of(rt, names, "A1"));
    has_places(rt, shared, &mut caller);
    is_open_until_closed(rt, shared, &mut caller);
    let forged = forges(rt, shared, &mut caller, names);
    sends(rt, &mut peers[1], &forged);
    adds(rt, adder, shared, 1, 1);
    same(rt, "number", shared.tip(rt, &mut caller).number, 2);
    same(rt, "fees", shared.fees(rt, &mut caller), 290);
    let waiting = shared.mempool(rt, &mut caller, rt.alloc());
    assert!(rt; waiting.is_ok_and(|waiting| waiting.is_empty()));
}

/// Does so, at a core and an inbox that were opened for it.
fn asked_beside_an_adder<B: Room, M: Mailroom, R: Threads + Wait + Abort + AllocGlobal + Sync>(
    rt: &R,
    opened: Opened<TestScheme>,
    inbox: inbox::Opened,
)
    requires table { opened.table ≡ B.table }
    requires start { opened.start ≡ B.start }
    requires queue { inbox.table ≡ M.table }
    requires capacity { inbox.capacity ≡ M.capacity }
{
    let names = names_of(rt, "block A1 genesis 1");
    let mut parts = parts_of::<OpenGate, B, M>(rt, OpenGate, opened, inbox);
    asks_beside_an_adder(rt, &mut parts, &names);
}

#[test]
fn a_shared_core_answers(rt: HostRuntime) {
    let opened = open(&rt, 2).expect(&rt, "a shared core");
    let inbox = inbox::Opened::new(rt.alloc(), 8).expect(&rt, "an inbox");
    asked_beside_an_adder::<Brand, Brand, _>(&rt, opened, inbox);
}
