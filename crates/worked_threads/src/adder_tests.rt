//! An adder on one thread: what it takes, in which order, and where it ends.

ghost use Rattle.std.specs.Prelude.{◌≡◌};

use super::fixture::{
    Parts, adds, bytes_of, drains, names_of, next_of, open, parts_of, same, sends,
};
use inbox::Mailroom;
use shared::{Opened, Room};
use std::marker::Brand;
use std::process::Abort;
use std::sync::Wait;
use std::thread::Threads;
use witness_pool::{OpenGate, TestScheme};

/// Peers 2 and 8 send blocks through an inbox of one place, and six others nothing. What is left at the end is drained.
fn takes_in_turns<B: Room, M: Mailroom, R: Threads + Wait + Abort + AllocGlobal + Sync>(
    rt: &R,
    parts: &mut Parts<OpenGate, B, M>,
) {
    let names = names_of(rt, "block A1 genesis 1\nblock A2 A1 2\nblock A3 A2 3");
    let Parts {
        shared,
        adder,
        peers,
        callers: _,
    } = parts;
    adds(rt, adder, shared, 0, 0);
    sends(rt, &mut peers[7], bytes_of(rt, &names, "A2"));
    adds(rt, adder, shared, 5, 1);
    sends(rt, &mut peers[1], bytes_of(rt, &names, "A1"));
    adds(rt, adder, shared, 1, 1);
    sends(rt, &mut peers[7], bytes_of(rt, &names, "A3"));
    drains(rt, adder, shared, peers);
    assert!(rt; adder.counts() == [0, 1, 0, 0, 0, 0, 0, 2]);
    drains(rt, adder, shared, peers);
    assert!(rt; adder.counts() == [0, 1, 0, 0, 0, 0, 0, 2]);
}

/// Does so, at a core and an inbox that were opened for it; the height is then that of the three blocks.
fn taken_in_turns<B: Room, M: Mailroom, R: Threads + Wait + Abort + AllocGlobal + Sync>(
    rt: &R,
    opened: Opened<TestScheme>,
    inbox: inbox::Opened,
)
    requires table { opened.table ≡ B.table }
    requires start { opened.start ≡ B.start }
    requires queue { inbox.table ≡ M.table }
    requires capacity { inbox.capacity ≡ M.capacity }
{
    let mut parts = parts_of::<OpenGate, B, M>(rt, OpenGate, opened, inbox);
    takes_in_turns(rt, &mut parts);
    let mut caller = next_of(rt, &mut parts.callers);
    same(rt, "height", parts.shared.height(&mut caller), 3);
}

#[test]
fn adder_takes_what_was_sent(rt: HostRuntime) {
    let opened = open(&rt, 2).expect(&rt, "a shared core");
    let inbox = inbox::Opened::new(rt.alloc(), 1).expect(&rt, "an inbox");
    taken_in_turns::<Brand, Brand, _>(&rt, opened, inbox);
}
