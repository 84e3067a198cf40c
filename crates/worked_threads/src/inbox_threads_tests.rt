//! An inbox whose ends are in two threads.

ghost use Rattle.std.specs.Prelude.{◌≡◌};

use super::inbox_tests::MEMORY;
use inbox::{AdderEnd, Mailroom, Opened, PEERS, PeerEnd, finish};
use std::marker::Brand;
use std::process::Abort;
use std::sync::Wait;
use std::thread;
use std::thread::{Threads, join};

/// Sends these bytes, and tries again where the inbox is full.
fn send_at_last<B: Mailroom, R: Wait>(rt: &R, peer: &mut PeerEnd<B>, bytes: Vec<u8>) {
    let mut left = bytes;
    for _ in rt.forever() {
        match peer.send(rt, left) {
            Ok(()) => return,
            Err(full) => left = full.bytes,
        }
        thread::yield_now();
    }
}

/// The number of each round, once for each peer, made before any thread starts.
fn texts_of(rt: &(impl Abort + AllocGlobal), rounds: u8) -> Vec<Vec<u8>> {
    let mut texts = Vec::new(rt.alloc());
    for round in 0..rounds {
        for _ in 0..PEERS {
            let text = vec![in rt.alloc(); round].expect(rt, MEMORY);
            texts.push(text).expect(rt, MEMORY);
        }
    }
    texts
}

/// The peers send these texts in turn.
fn send_in_turn<B: Mailroom, R: Wait>(
    rt: &R,
    mut peers: [PeerEnd<B>; PEERS],
    texts: Vec<Vec<u8>>,
) -> [PeerEnd<B>; PEERS] {
    for (n, bytes) in texts.into_iter().enumerate() {
        send_at_last(rt, &mut peers[n % PEERS], bytes);
    }
    peers
}

/// Takes so many arrivals. Those of a peer have to be the numbers of the rounds, in order.
fn take_many<B: Mailroom, R: Wait + Abort>(
    rt: &R,
    mut adder: AdderEnd<B>,
    many: usize,
) -> AdderEnd<B> {
    let mut next = [0u8; PEERS];
    let mut left = many;
    for _ in rt.forever() {
        if left == 0 {
            break;
        }
        match adder.take(rt) {
            Some(arrival) => {
                let place = (arrival.peer - 1) as usize;
                assert!(rt; arrival.bytes.as_slice() == [next[place]].as_slice());
                next[place] = next[place].wrapping_add(1);
                left -= 1;
            }
            None => thread::yield_now(),
        }
    }
    adder
}

/// One thread sends for all peers and the other takes.
fn crossed<B: Mailroom + Send + Sync, R: Threads + Wait + Abort + AllocGlobal + Sync>(
    rt: &R,
    opened: Opened,
)
    requires table { opened.table ≡ B.table }
    requires capacity { opened.capacity ≡ B.capacity }
{
    let texts = texts_of(rt, 200);
    let (peers, adder) = opened.named::<B>().expect(rt, MEMORY);
    let (mut peers, mut adder) = join(
        rt,
        || -> [PeerEnd<B>; PEERS] { send_in_turn(rt, peers, texts) },
        || -> AdderEnd<B> { take_many(rt, adder, 200 * PEERS) },
    );
    assert!(rt; adder.take_last(rt, &mut peers).is_none());
    let finished = finish(peers, adder);
    assert!(rt; finished.sent == [200; PEERS]);
    assert!(rt; finished.taken == [200; PEERS]);
}

#[test]
fn sent_from_another_thread(rt: HostRuntime) {
    let opened = Opened::new(rt.alloc(), 8).expect(&rt, "an inbox");
    crossed::<Brand, _>(&rt, opened);
}
