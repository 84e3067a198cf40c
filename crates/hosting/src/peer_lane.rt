//! The thread of a peer's lane.

use crate::floor::Floor;
use crate::news::News;
use crate::plan::PeerLane;
use crate::streams::is_reopened;
use chain_core::Refusal;
use inbox::{Mailroom, PeerEnd};
use peering::{Framing, PeerFault, Sent, next_sent};
use shared::Room;
use std::alloc::Global;
use std::fs::File;
use std::io::{BufRead, BufReader};
use std::sync::Wait;
use witness_pool::SigScheme;

/// Sends these bytes, and waits where the inbox is full. Answers whether they were sent: not where the node ends.
fn send<M: Mailroom, R: Wait>(rt: &R, news: &News, end: &mut PeerEnd<M>, bytes: Vec<u8>) -> bool {
    let mut unsent = bytes;
    for _ in rt.forever() {
        let brought = news.brought(rt);
        match end.send(rt, unsent) {
            Ok(()) => {
                news.tell_sent(rt);
                return true;
            }
            Err(full) => unsent = full.bytes,
        }
        if !news.wait_for_room(rt, brought) {
            return false;
        }
    }
    unreachable!()
}

/// Sends each block of the lane, until the peer ends it or the node ends. What is none is counted as refused, and
/// passed over.
fn send_all<M: Mailroom, R: Wait, I: BufRead>(
    rt: &R,
    alloc: Global,
    news: &News,
    end: &mut PeerEnd<M>,
    framing: Framing,
    reader: &mut I,
) -> Result<(), PeerFault> {
    for _ in rt.forever() {
        if news.is_ending(rt) {
            return Ok(());
        }
        match next_sent(alloc, reader, framing)? {
            None => return Ok(()),
            Some(Sent::Block(bytes)) => {
                if !send(rt, news, end, bytes) {
                    return Ok(());
                }
            }
            Some(Sent::Malformed) => news.tell_refused(rt, Refusal::Malformed),
            Some(Sent::TooLarge) => news.tell_refused(rt, Refusal::TooLarge),
        }
    }
    unreachable!()
}

/// Opens the stream and sends what is on it, until it ends or breaks. Answers whether it could be opened.
fn take_all<M: Mailroom, R: Wait>(
    rt: &R,
    alloc: Global,
    news: &News,
    system: &HostRuntime,
    end: &mut PeerEnd<M>,
    lane: &PeerLane,
) -> bool {
    let Ok(input) = File::open(system, &*lane.input) else {
        return false;
    };
    let Ok(mut reader) = BufReader::new(alloc, input) else {
        news.tell_memory_refused(rt);
        return false;
    };
    match send_all(rt, alloc, news, end, lane.framing, &mut reader) {
        Ok(()) | Err(PeerFault::ReadFailed) => {}
        Err(PeerFault::OutOfMemory) => news.tell_memory_refused(rt),
    }
    true
}

/// What the thread of a peer's stream does. A stream that can't be opened ends alone.
pub fn run_peer<S: SigScheme, B: Room, M: Mailroom, R: Wait>(
    rt: &R,
    floor: &Floor<S, B>,
    mut end: PeerEnd<M>,
    lane: &PeerLane,
) {
    let news = &*floor.news;
    'peers: for _ in rt.forever() {
        let is_open = take_all(rt, floor.alloc, news, &floor.system, &mut end, lane);
        let ends = !is_open || floor.until_closed || news.is_ending(rt);
        if ends || !is_reopened(&floor.system, &lane.input) {
            break 'peers;
        }
    }
    news.close_peer(rt);
}
