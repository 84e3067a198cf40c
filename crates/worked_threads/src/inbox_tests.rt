//! An inbox on one thread.

ghost use Rattle.std.specs.Prelude.{◌≡◌};

use inbox::{
    AdderEnd, Finished, InboxFault, MAX_CAPACITY, Mailroom, Opened, PEERS, PeerEnd, finish,
};
use std::marker::Brand;
use std::process::Abort;
use std::sync::Wait;

// Each way out of a function drops all that it owns, which makes its proof longer. So want of memory ends a test on the
// spot.

/// What is said where memory runs out.
pub const MEMORY: &str = "memory";

/// Whether these bytes enter; where they don't they have to come back.
fn enters<B: Mailroom, R: Wait + Abort + AllocGlobal>(
    rt: &R,
    peer: &mut PeerEnd<B>,
    bytes: &[u8],
) -> bool {
    let copy = bytes.to_vec(rt.alloc()).expect(rt, MEMORY);
    match peer.send(rt, copy) {
        Ok(()) => true,
        Err(full) => {
            assert!(rt; full.bytes.as_slice() == bytes);
            false
        }
    }
}

/// These bytes of this peer are taken next.
fn takes<B: Mailroom, R: Wait + Abort>(rt: &R, adder: &mut AdderEnd<B>, peer: u64, bytes: &[u8]) {
    let arrival = adder.take(rt).expect(rt, "an arrival");
    assert!(rt; arrival.peer == peer);
    assert!(rt; arrival.bytes.as_slice() == bytes);
}

/// The peer of this place sent so many, and as many were taken.
fn is_finished(rt: &impl Abort, finished: &Finished, place: usize, count: u64) {
    assert!(rt; place < PEERS);
    assert!(rt; finished.sent[place] == count);
    assert!(rt; finished.taken[place] == count);
}

/// Peer 1 sends x, then y; peer 2 sends z, which finds the inbox full, and again once x was taken.
fn in_order<B: Mailroom, R: Wait + Abort + AllocGlobal>(rt: &R, opened: Opened)
    requires table { opened.table ≡ B.table }
    requires capacity { opened.capacity ≡ B.capacity }
{
    let (mut peers, mut adder) = opened.named::<B>().expect(rt, MEMORY);
    assert!(rt; enters(rt, &mut peers[0], b"x"));
    assert!(rt; enters(rt, &mut peers[0], b"y"));
    assert!(rt; !enters(rt, &mut peers[1], b"z"));
    takes(rt, &mut adder, 1, b"x");
    assert!(rt; enters(rt, &mut peers[1], b"z"));
    takes(rt, &mut adder, 1, b"y");
    takes(rt, &mut adder, 2, b"z");
    assert!(rt; adder.take(rt).is_none());
    let finished = finish(peers, adder);
    is_finished(rt, &finished, 0, 2);
    is_finished(rt, &finished, 1, 1);
}

#[test]
fn inbox_in_order(rt: HostRuntime) {
    let opened = Opened::new(rt.alloc(), 2).expect(&rt, "an inbox");
    in_order::<Brand, _>(&rt, opened);
}

#[test]
fn capacities(rt: HostRuntime) {
    for capacity in [0, MAX_CAPACITY + 1] {
        let fault = Opened::new(rt.alloc(), capacity).err();
        assert!(rt; fault == Some(InboxFault::BadCapacity));
    }
    for capacity in [1, MAX_CAPACITY] {
        assert!(rt; Opened::new(rt.alloc(), capacity).is_ok());
    }
}

/// What is left is taken with the peers lent, of whom six sent nothing.
fn taken_at_last<B: Mailroom, R: Wait + Abort + AllocGlobal>(rt: &R, opened: Opened)
    requires table { opened.table ≡ B.table }
    requires capacity { opened.capacity ≡ B.capacity }
{
    let (mut peers, mut adder) = opened.named::<B>().expect(rt, MEMORY);
    assert!(rt; enters(rt, &mut peers[2], b"one"));
    assert!(rt; enters(rt, &mut peers[7], b"two"));
    let first = adder.take_last(rt, &mut peers).expect(rt, "the first");
    assert!(rt; first.peer == 3);
    let second = adder.take_last(rt, &mut peers).expect(rt, "the second");
    assert!(rt; second.peer == 8);
    assert!(rt; second.bytes.as_slice() == b"two".as_slice());
    assert!(rt; adder.take_last(rt, &mut peers).is_none());
    let finished = finish(peers, adder);
    is_finished(rt, &finished, 2, 1);
    is_finished(rt, &finished, 7, 1);
    is_finished(rt, &finished, 3, 0);
}

#[test]
fn inbox_is_emptied(rt: HostRuntime) {
    let opened = Opened::new(rt.alloc(), 8).expect(&rt, "an inbox");
    taken_at_last::<Brand, _>(&rt, opened);
}
