//! A core that several callers share beside an adder.

ghost use Rattle.std.specs.Prelude.{◌≡◌};

use super::fixture::{
    MEMORY, Parts, adds, bytes_of, names_of, next_of, open, parts_of, same, sends,
};
use chain_core::{Forged, Instruction, NextFault, NotBeside};
use ident::{BlockHash, Point};
use inbox::Mailroom;
use mempool::SubmitReply;
use script::Names;
use shared::{Adder, Caller, MAX_CALLERS, OpenFault, Opened, Room, Shared};
use std::marker::Brand;
use std::process::Abort;
use std::sync::Wait;
use std::thread::Threads;
use witness_pool::{OpenGate, TestScheme};

/// The caller's bytes are answered so.
fn submits<B: Room, R: Wait + Abort + AllocGlobal>(
    rt: &R,
    shared: &Shared<TestScheme, B>,
    caller: &mut Caller<B>,
    bytes: &[u8],
    want: SubmitReply,
) {
    let reply = shared.submit(rt, caller, bytes);
    assert!(rt; reply.is_ok_and(|reply| reply == want));
}

/// A caller opens a follower, is told this block and nothing more, sets the follower to genesis, closes it, and asks
/// again.
fn follows<B: Room, R: Wait + Abort + AllocGlobal>(
    rt: &R,
    shared: &Shared<TestScheme, B>,
    caller: &mut Caller<B>,
    bytes: &[u8],
) {
    let id = shared.open(rt, caller).expect(rt, "a follower");
    assert!(rt; id.number == 0);
    let told = match shared.next(rt, caller, id) {
        Ok(Some(Instruction::AddBlock(block))) => block.bytes() == bytes,
        _ => false,
    };
    assert!(rt; told);
    assert!(rt; matches!(shared.next(rt, caller, id), Ok(None)));
    let found = shared
        .forward(rt, caller, id, &[Point::genesis()])
        .expect(rt, "a follower");
    assert!(rt; found == Some(Point::genesis()));
    assert!(rt; shared.close(rt, caller, id).is_ok());
    assert!(rt; matches!(shared.next(rt, caller, id), Err(NextFault::UnknownFollower)));
}

/// A caller makes a call of each kind.
fn makes_all_calls<B: Room, R: Wait + Abort + AllocGlobal>(
    rt: &R,
    shared: &Shared<TestScheme, B>,
    caller: &mut Caller<B>,
    names: &Names,
) {
    same(rt, "height", shared.height(caller), 1);
    let payment = names.tx_of(b"First").expect(rt, "a payment");
    let payment = payment.encode().expect(rt, MEMORY);
    submits(rt, shared, caller, &payment, SubmitReply::Added);
    submits(rt, shared, caller, &payment, SubmitReply::Known);
    submits(rt, shared, caller, b"\x80", SubmitReply::Malformed);
    follows(rt, shared, caller, bytes_of(rt, names, "A1"));
}

/// Those who have a part are shown by what waits for nobody.
fn are_shown<B: Room, M: Mailroom>(
    rt: &(impl Abort + AllocGlobal),
    shared: &Shared<TestScheme, B>,
    adder: &Adder<TestScheme, OpenGate, B, M>,
    caller: &Caller<B>,
) {
    let shown = format!(in rt.alloc(); "{shared:?} {adder:?} {caller:?}").expect(rt, MEMORY);
    assert!(rt;
        shown.as_str() == "Shared { .. } Adder { .. } Caller { number: 2, .. }",
        "{shown}"
    );
}

/// The adder brings a block; a caller who made no call so far sees it, and makes its calls. Then the adder and another
/// caller meet, and that one sees the same height.
fn calls_beside_an_adder<B: Room, M: Mailroom, R: Threads + Wait + Abort + AllocGlobal + Sync>(
    rt: &R,
    parts: &mut Parts<OpenGate, B, M>,
    names: &Names,
) {
    let Parts {
        shared,
        adder,
        peers,
        callers,
    } = parts;
    let mut other = next_of(rt, callers);
    let mut caller = next_of(rt, callers);
    same(rt, "before", shared.height(&mut other), 0);
    sends(rt, &mut peers[2], bytes_of(rt, names, "A1"));
    adds(rt, adder, shared, 1, 1);
    makes_all_calls(rt, shared, &mut caller, names);
    assert!(rt; adder.counts() == [0, 0, 1, 0, 0, 0, 0, 0]);
    adder.meet(rt, shared, &mut other);
    shared.meet(rt, &mut caller, &mut other);
    same(rt, "after", shared.height(&mut other), 1);
    are_shown(rt, shared, adder, &other);
}

/// The block that the caller forges in this slot.
fn forges<B: Room, R: Wait + Abort>(
    rt: &R,
    shared: &Shared<TestScheme, B>,
    caller: &mut Caller<B>,
    slot: u64,
) -> Forged {
    shared.forge(rt, caller, slot).expect(rt, "a block")
}

/// The caller's call to discard the block of this hash answers that there is none beside the chain.
fn discards_none<B: Room, R: Wait + Abort>(
    rt: &R,
    shared: &Shared<TestScheme, B>,
    caller: &mut Caller<B>,
    hash: BlockHash,
) {
    let answer = shared.discard(rt, caller, hash);
    assert!(rt; matches!(answer, Err(NotBeside {})));
}

/// A peer sends a block, and the adder brings it.
fn arrives<B, M, R>(rt: &R, parts: &mut Parts<OpenGate, B, M>, bytes: &[u8])
where
    B: Room,
    M: Mailroom,
    R: Threads + Wait + Abort + AllocGlobal + Sync,
{
    let Parts {
        shared,
        adder,
        peers,
        callers: _,
    } = parts;
    sends(rt, &mut peers[0], bytes);
    adds(rt, adder, shared, 1, 1);
}

/// The caller discards the block of this hash, which then isn't there.
fn discards<B: Room, R: Wait + Abort>(
    rt: &R,
    shared: &Shared<TestScheme, B>,
    caller: &mut Caller<B>,
    hash: BlockHash,
) {
    assert!(rt; shared.discard(rt, caller, hash).is_ok());
    discards_none(rt, shared, caller, hash);
}

/// Two blocks are forged on the tip. The first one to arrive is put on, and isn't discarded; the other one is, and then
/// isn't there, until it arrives again.
fn discards_beside_the_chain<B, M, R>(rt: &R, parts: &mut Parts<OpenGate, B, M>)
where
    B: Room,
    M: Mailroom,
    R: Threads + Wait + Abort + AllocGlobal + Sync,
{
    let mut caller = next_of(rt, &mut parts.callers);
    let next = forges(rt, &parts.shared, &mut caller, 2);
    let beside = forges(rt, &parts.shared, &mut caller, 3);
    let hash = beside.point.hash;
    arrives(rt, parts, &next.bytes);
    discards_none(rt, &parts.shared, &mut caller, next.point.hash);
    discards_none(rt, &parts.shared, &mut caller, hash);
    for _ in 0..2 {
        arrives(rt, parts, &beside.bytes);
        discards(rt, &parts.shared, &mut caller, hash);
    }
    assert!(rt; parts.shared.tip(rt, &mut caller) == next.point);
}

/// Does so, and then discards blocks, at a core and an inbox that were opened for it.
fn called_beside_an_adder<B: Room, M: Mailroom, R: Threads + Wait + Abort + AllocGlobal + Sync>(
    rt: &R,
    opened: Opened<TestScheme>,
    inbox: inbox::Opened,
)
    requires table { opened.table ≡ B.table }
    requires start { opened.start ≡ B.start }
    requires queue { inbox.table ≡ M.table }
    requires capacity { inbox.capacity ≡ M.capacity }
{
    let names = names_of(rt, "block A1 genesis 1");
    let mut parts = parts_of::<OpenGate, B, M>(rt, OpenGate, opened, inbox);
    calls_beside_an_adder(rt, &mut parts, &names);
    discards_beside_the_chain(rt, &mut parts);
}

#[test]
fn adder_and_callers(rt: HostRuntime) {
    let opened = open(&rt, 4).expect(&rt, "a shared core");
    let inbox = inbox::Opened::new(rt.alloc(), 8).expect(&rt, "an inbox");
    called_beside_an_adder::<Brand, Brand, _>(&rt, opened, inbox);
}

/// Why there is no core for `callers` callers, where there is none.
fn refused(rt: &(impl Abort + AllocGlobal), callers: usize) -> Option<OpenFault> {
    open(rt, callers).err()
}

#[test]
fn callers_are_1_to_64(rt: HostRuntime) {
    for (callers, want) in [
        (0, Some(OpenFault::BadCallers)),
        (1, None),
        (MAX_CALLERS, None),
        (MAX_CALLERS + 1, Some(OpenFault::BadCallers)),
    ] {
        assert!(rt; refused(&rt, callers) == want);
    }
}
