//! Arrivals in one order and another, and the chain that is selected.

use super::fixture::{
    MANY_LIVE_BLOCKS, MEMORY, SMALL_NETWORK, answers, arrive_at, boxed, chain_of, core_on, kept,
    make, run_all, same,
};
use chain_core::{ArriveReply, RawEvent, Refusal, Reply};
use ident::Point;
use std::process::Abort;
use witness_pool::TestScheme;

// The largest number of bytes that are read, which are refused for their shape, and one more, which are refused unread.
#[test]
fn cut_and_extended_bytes(rt: HostRuntime) {
    let mut core = core_on(&rt, SMALL_NETWORK);
    for (size, refusal) in [
        (1_048_576, Refusal::Malformed),
        (1_048_577, Refusal::TooLarge),
    ] {
        let zeros = vec![in rt.alloc(); 0u8; size].expect(&rt, MEMORY);
        answers(&rt, &mut core, &zeros, ArriveReply::Refused(refusal));
    }
    assert!(rt; core.tip() == Point::genesis());
}

/// What a new core answers to the text with one bit flipped. The text is as it was then.
fn answer_to_flipped(
    rt: &(impl Abort + AllocGlobal),
    text: &mut [u8],
    index: usize,
    bit: u8,
) -> ArriveReply {
    assert!(rt; index < text.len());
    text[index] ^= bit;
    let mut core = core_on(rt, SMALL_NETWORK);
    let reply = arrive_at(rt, &mut core, text);
    text[index] ^= bit;
    reply
}

/// What new cores answer to the text with each of its bits flipped.
fn answers_to_flipped(rt: &(impl Abort + AllocGlobal), text: &mut [u8]) -> Vec<ArriveReply> {
    let mut replies = Vec::new(rt.alloc());
    for index in 0..text.len() {
        for bit in [1u8, 2, 4, 8, 16, 32, 64, 128] {
            let reply = answer_to_flipped(rt, text, index, bit);
            replies.push(reply).expect(rt, MEMORY);
        }
    }
    replies
}

/// How many of the answers are this one.
fn count_of(replies: &[ArriveReply], want: ArriveReply) -> u64 {
    let mut count: u64 = 0;
    for reply in replies {
        if *reply == want {
            count = count.saturating_add(1);
        }
    }
    count
}

/// The answers to a first block's text with a bit flipped, and how many there are of each.
const FLIPPED: &[(&str, u64, ArriveReply)] = &[
    ("malformed", 54, ArriveReply::Refused(Refusal::Malformed)),
    (
        "another body",
        256,
        ArriveReply::Refused(Refusal::BodyHashMismatch),
    ),
    ("too old", 1, ArriveReply::Refused(Refusal::TooOld)),
    ("kept aside", 5, ArriveReply::Kept { back: 0, added: 0 }),
    ("put on", 4, ArriveReply::Kept { back: 0, added: 1 }),
];

// Each of the 320 bits of a first block's text is flipped in turn, and what comes out arrives at a new core.
#[test]
fn every_bit_flipped(rt: HostRuntime) {
    let mut text = make(&rt, None, 1).text;
    assert!(rt; text.len() == 40);
    let replies = answers_to_flipped(&rt, &mut text);
    for (about, count, want) in FLIPPED {
        same(&rt, *about, count_of(&replies, *want), *count);
    }
}

/// Whether the reply is this answer to an arrival.
fn is_answer(reply: &Reply<TestScheme>, want: ArriveReply) -> bool {
    match reply {
        Reply::Arrive(Ok(reply)) => *reply == want,
        _ => false,
    }
}

// Events in a list are answered as one by one: the arrivals of a first block, of the second of another chain, and of
// the first of that one.
#[test]
fn run_of_arrivals(rt: HostRuntime) {
    let a1 = make(&rt, None, 1);
    let b1 = make(&rt, None, 2);
    let b2 = make(&rt, Some(&b1), 3);
    let hash = b2.hash;
    let mut events = boxed(&rt, Vec::new(rt.alloc()));
    events.push(RawEvent::Arrive(a1.text)).expect(&rt, MEMORY);
    events.push(RawEvent::Arrive(b2.text)).expect(&rt, MEMORY);
    events.push(RawEvent::Arrive(b1.text)).expect(&rt, MEMORY);
    let mut core = core_on(&rt, SMALL_NETWORK);
    let replies = run_all(&rt, &mut core, &events);
    let want = [kept(0, 1), kept(0, 0), kept(1, 2)];
    assert!(rt; replies.len() == 3);
    for (reply, want) in replies.iter().zip(&want) {
        assert!(rt; is_answer(reply, *want));
    }
    assert!(rt; core.tip() == (Point { number: 2, hash }));
}

// The blocks arrive with the last one first, and all are put on with the first one of the chain.
#[test]
fn long_chain_backwards(rt: HostRuntime) {
    let blocks = boxed(&rt, chain_of(&rt, 2_000));
    let mut core = core_on(&rt, MANY_LIVE_BLOCKS);
    for made in blocks.iter().rev() {
        let added = if made.number == 1 { 2_000 } else { 0 };
        answers(&rt, &mut core, &made.text, kept(0, added));
    }
    same(&rt, "height", core.height(), 2_000);
}
