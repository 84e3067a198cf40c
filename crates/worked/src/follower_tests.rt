//! What followers are told.

use super::fixture::{MEMORY, Made, SMALL_NETWORK, after, boxed, core_on, make, run_all};
use chain_core::{
    Core, FollowerId, NextFault, OpenFollowerFault, RawEvent, Reply, UnknownFollower,
};
use ident::{BlockHash, Point};
use std::process::Abort;
use witness_pool::TestScheme;

/// No follower has this number.
fn is_unknown(rt: &impl Abort, core: &mut Core<TestScheme>, number: u64) {
    let fault = core.next(FollowerId { number }).err();
    assert!(rt; fault == Some(NextFault::UnknownFollower));
}

/// A follower is opened under this number.
fn opens(rt: &impl Abort, core: &mut Core<TestScheme>, number: u64) {
    let opened = core.open();
    assert!(rt; opened == Ok(FollowerId { number }));
}

/// No follower more is opened.
fn is_full(rt: &impl Abort, core: &mut Core<TestScheme>) {
    let opened = core.open();
    assert!(rt; opened == Err(OpenFollowerFault::TooManyFollowers));
}

// 1,024 followers are opened, each under the next number, and no more. Then one is closed, and its number given again.
#[test]
fn follower_ids(rt: HostRuntime) {
    let mut core = core_on(&rt, SMALL_NETWORK);
    for number in 0..1024 {
        is_unknown(&rt, &mut core, number);
        opens(&rt, &mut core, number);
    }
    is_full(&rt, &mut core);
    is_unknown(&rt, &mut core, 1024);
    let id = FollowerId { number: 5 };
    assert!(rt; core.close(id) == Ok(()));
    assert!(rt; core.close(id) == Err(UnknownFollower {}));
    is_unknown(&rt, &mut core, 5);
    opens(&rt, &mut core, 5);
    is_full(&rt, &mut core);
}

/// The one follower.
const FOLLOWER: FollowerId = FollowerId { number: 0 };

/// Two forks.
#[derive(Drop)]
struct Forks {
    a1: Made,
    a2: Made,
    a3: Made,
    a4: Made,
    b1: Made,
    b2: Made,
    b3: Made,
}

/// Four blocks in the slots 1, 2, 3 and 8, and three in the slots 4, 5 and 6.
fn two_forks(rt: &(impl Abort + AllocGlobal)) -> Box<Forks> {
    let a1 = make(rt, None, 1);
    let a2 = after(rt, &a1, 2);
    let a3 = after(rt, &a2, 3);
    let a4 = after(rt, &a3, 8);
    let b1 = make(rt, None, 4);
    let b2 = after(rt, &b1, 5);
    let b3 = after(rt, &b2, 6);
    let forks = Forks {
        a1,
        a2,
        a3,
        a4,
        b1,
        b2,
        b3,
    };
    boxed(rt, forks)
}

/// These blocks arrive.
fn arrive_all(rt: &(impl Abort + AllocGlobal), events: &mut Vec<RawEvent>, blocks: &[&Made]) {
    for made in blocks {
        let text = made.text.to_vec(rt.alloc()).expect(rt, MEMORY);
        events.push(RawEvent::Arrive(text)).expect(rt, MEMORY);
    }
}

/// The follower asks `times` times what is next.
fn ask(rt: &impl Abort, events: &mut Vec<RawEvent>, times: u64) {
    for _ in 0..times {
        events.push(RawEvent::Next(FOLLOWER)).expect(rt, MEMORY);
    }
}

/// The follower is to be set to the first of these blocks that is on the chain.
fn forward(rt: &(impl Abort + AllocGlobal), events: &mut Vec<RawEvent>, blocks: &[&Made]) {
    let mut points = Vec::new(rt.alloc());
    for made in blocks {
        let point = Point {
            number: made.number,
            hash: made.hash,
        };
        points.push(point).expect(rt, MEMORY);
    }
    let event = RawEvent::Forward(FOLLOWER, points);
    events.push(event).expect(rt, MEMORY);
}

/// The chain is switched from the one fork to the other and back, beside a follower who asks, is set to blocks, and is
/// closed.
fn events_of(rt: &(impl Abort + AllocGlobal), forks: &Forks) -> Box<Vec<RawEvent>> {
    let mut events = boxed(rt, Vec::new(rt.alloc()));
    events.push(RawEvent::Open).expect(rt, MEMORY);
    arrive_all(rt, &mut events, &[&forks.a1, &forks.a2]);
    ask(rt, &mut events, 2);
    arrive_all(rt, &mut events, &[&forks.b1, &forks.b2, &forks.b3]);
    arrive_all(rt, &mut events, &[&forks.a3, &forks.a4]);
    ask(rt, &mut events, 6);
    forward(rt, &mut events, &[&forks.b3, &forks.a2]);
    ask(rt, &mut events, 1);
    forward(rt, &mut events, &[&forks.b3]);
    events.push(RawEvent::Close(FOLLOWER)).expect(rt, MEMORY);
    ask(rt, &mut events, 1);
    events
}

/// What is answered to these, with names in place of hashes.
const ANSWERS: &str = "opened 0
kept back 0 added 1
kept back 0 added 1
add A1
add A2
kept back 0 added 0
kept back 0 added 0
kept back 2 added 3
kept back 0 added 0
kept back 3 added 4
rollback 0 genesis
add A1
add A2
add A3
add A4
none
2 A2
add A3
none
closed
refused UnknownFollower
";

/// What is answered, one answer a line.
fn text_of(rt: &(impl Abort + AllocGlobal), replies: &[Reply<TestScheme>]) -> String {
    let mut text = String::new(rt.alloc());
    for reply in replies {
        write!(text, "{reply}\n").expect(rt, MEMORY);
    }
    text
}

/// The text with this name in place of the hash.
fn named(rt: &(impl Abort + AllocGlobal), text: &str, hash: BlockHash, name: &str) -> String {
    let digits = format!(in rt.alloc(); "{hash}").expect(rt, MEMORY);
    text.replace(rt.alloc(), digits.as_str(), name)
        .expect(rt, MEMORY)
}

/// These are the answers.
fn are_answered(rt: &(impl Abort + AllocGlobal), replies: &[Reply<TestScheme>], forks: &Forks) {
    let mut text = text_of(rt, replies);
    text = named(rt, &text, Point::genesis().hash, "genesis");
    text = named(rt, &text, forks.a1.hash, "A1");
    text = named(rt, &text, forks.a2.hash, "A2");
    text = named(rt, &text, forks.a3.hash, "A3");
    text = named(rt, &text, forks.a4.hash, "A4");
    assert!(rt; text.as_str() == ANSWERS);
}

// Events in a list are answered as one by one, as a case of scripts has it line by line.
#[test]
fn calls_with_ample_memory(rt: HostRuntime) {
    let forks = two_forks(&rt);
    let events = events_of(&rt, &forks);
    let network = SMALL_NETWORK
        .replace(rt.alloc(), "k = 2\n", "k = 3\n")
        .expect(&rt, MEMORY);
    let mut core = core_on(&rt, network.as_str());
    let replies = run_all(&rt, &mut core, &events);
    are_answered(&rt, &replies, &forks);
}
