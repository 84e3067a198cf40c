//! The mempool of a core: bytes of no transaction, a transaction with its verdicts, and the words of replies. What else
//! is submitted stands in files of cases.

use super::fixture::{MEMORY, SMALL_NETWORK, boxed, core_on};
use super::payments::{bytes_of, hash_of, names_of, payment_of};
use chain_core::{Core, FollowerId, RawEvent, Reply};
use mempool::SubmitReply;
use script::Names;
use std::alloc::Global;
use std::process::Abort;
use witness_pool::TestScheme;

/// The text of the good payment.
fn good_text(rt: &impl Abort, names: &Names) -> Vec<u8> {
    let tx = names.tx_of(b"Good").expect(rt, "a payment");
    tx.encode().expect(rt, MEMORY)
}

/// The answer to bytes that are submitted.
fn answer(rt: &impl Abort, core: &mut Core<TestScheme>, bytes: &[u8]) -> SubmitReply {
    core.submit(bytes).expect(rt, MEMORY)
}

// The text of a payment with a byte after it, without its last byte, and no bytes; nothing waits then.
#[test]
fn bytes_of_no_transaction(rt: HostRuntime) {
    let names = names_of(&rt, "");
    let mut text = good_text(&rt, &names);
    let mut core = core_on(&rt, SMALL_NETWORK);
    text.push(0).expect(&rt, MEMORY);
    for size in [191, 189, 0] {
        text.truncate(size);
        assert!(rt; text.len() == size);
        assert!(rt; answer(&rt, &mut core, &text) == SubmitReply::Malformed);
    }
    assert!(rt; core.mempool().is_empty());
}

// A payment that was judged before.
#[test]
fn submitted_with_verdicts(rt: HostRuntime) {
    let names = names_of(&rt, "");
    let tx = Box::into_inner(payment_of(&rt, &names, "Good"));
    let mut core = core_on(&rt, SMALL_NETWORK);
    let reply = core.submit_checked(tx).expect(&rt, MEMORY);
    assert!(rt; reply == SubmitReply::Added);
}

/// A payment twice, a block with it, and a follower that is told of it.
fn events_of(rt: &(impl Abort + AllocGlobal), names: &Names) -> Box<Vec<RawEvent>> {
    let block = Vec::from_slice(rt.alloc(), bytes_of(rt, names, "A1")).expect(rt, MEMORY);
    let mut events = boxed(rt, Vec::new(rt.alloc()));
    for _ in 0..2 {
        let text = good_text(rt, names);
        events.push(RawEvent::Submit(text)).expect(rt, MEMORY);
    }
    events.push(RawEvent::Arrive(block)).expect(rt, MEMORY);
    events.push(RawEvent::Open).expect(rt, MEMORY);
    for number in [0, 0, 7] {
        let id = FollowerId { number };
        events.push(RawEvent::Next(id)).expect(rt, MEMORY);
    }
    events
}

/// The replies of a core to events.
fn replies_to(
    rt: &impl Abort,
    core: &mut Core<TestScheme>,
    events: &[RawEvent],
) -> Vec<Reply<TestScheme>> {
    core.run(events).expect(rt, MEMORY)
}

/// The replies, each in its words, with a semicolon after it.
fn words_of(rt: &impl Abort, alloc: Global, replies: &[Reply<TestScheme>]) -> String {
    let mut text = String::new(alloc);
    for reply in replies {
        write!(text, "{reply};").expect(rt, MEMORY);
    }
    text
}

#[test]
fn replies_in_words(rt: HostRuntime) {
    let names = names_of(&rt, "block A1 genesis 1 Good");
    let events = events_of(&rt, &names);
    let mut core = core_on(&rt, SMALL_NETWORK);
    let replies = boxed(&rt, replies_to(&rt, &mut core, &events));
    let words = words_of(&rt, rt.alloc(), &replies);
    let want = format!(in rt.alloc();
        "added;known;kept back 0 added 1;opened 0;add {};none;refused UnknownFollower;",
        hash_of(&rt, &names, "A1")
    )
    .expect(&rt, MEMORY);
    assert!(rt; words.as_str() == want.as_str());
}
