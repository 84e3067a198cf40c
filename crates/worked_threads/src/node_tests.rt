//! A node with threads, as docs/NODE.md shows it: a log, an adder, two clients and a forger.

ghost use Rattle.std.specs.Prelude.{◌≡◌};
ghost use Rattle.chain_core.specs.Immutable.{texts_of};

use super::fake_file::FakeFile;
use super::fixture::{MEMORY, again, log_on, next_of, restart_of, same};
use chain_core::{FollowerId, Instruction};
use file_disk::FileDisk;
use flushing::{Restart, flush_shared};
use ident::Point;
use immlog::Log;
use inbox::{Mailroom, PeerEnd};
use shared::{Adder, Caller, Opened, Room, Shared};
use std::marker::Brand;
use std::process::Abort;
use std::sync::Wait;
use std::thread::{self, Threads};
use witness_pool::{OpenGate, Pool, TestScheme};

/// How many blocks are forged in a run.
const BLOCKS: u64 = 40;

/// Forges a block on the chain in each slot from this one on, and sends it as a peer does; and when it was put on, the
/// next one.
fn forge_blocks<B: Room, M: Mailroom, R: Wait + Abort>(
    rt: &R,
    shared: &Shared<TestScheme, B>,
    mut caller: Caller<B>,
    mut peer: PeerEnd<M>,
    now: u64,
) {
    for slot in now..now.saturating_add(BLOCKS) {
        let forged = shared.forge(rt, &mut caller, slot).expect(rt, "a block");
        let sent = peer.send(rt, forged.bytes);
        assert!(rt; sent.is_ok());
        'waits: for _ in rt.forever() {
            if shared.height(&mut caller) >= forged.point.number {
                break 'waits;
            }
            thread::yield_now();
        }
    }
}

/// Brings what peers send, until all was brought.
fn add_blocks<B: Room, M: Mailroom, R: Threads + Wait + Abort + Sync>(
    rt: &R,
    shared: &Shared<TestScheme, B>,
    adder: &mut Adder<TestScheme, OpenGate, B, M>,
) {
    let mut brought = 0;
    for _ in rt.forever() {
        if brought >= BLOCKS {
            return;
        }
        let many = adder.run(rt, shared, 1).expect(rt, MEMORY);
        brought = brought.saturating_add(many);
        if many == 0 {
            thread::yield_now();
        }
    }
}

/// What a client has of the chain, and the numbers of the blocks that it was told in this run.
#[derive(Drop)]
struct Client {
    chain: Vec<Point>,
    told: Vec<u64>,
}

/// A client says what it has of the chain, its newest block first, and goes back to what the node has of that.
fn go_back<B: Room, R: Wait + Abort + AllocGlobal>(
    rt: &R,
    shared: &Shared<TestScheme, B>,
    caller: &mut Caller<B>,
    id: FollowerId,
    chain: &mut Vec<Point>,
) {
    let mut known = Vec::new(rt.alloc());
    for point in chain.iter().rev() {
        known.push(*point).expect(rt, MEMORY);
    }
    let found = shared
        .forward(rt, caller, id, &known)
        .expect(rt, "a follower");
    let height = found.map_or(0, |point| point.number);
    chain.truncate(height as usize);
}

/// A client, who has this much of the chain, is told the rest, up to the block of this number.
fn follow<B: Room, R: Wait + Abort + AllocGlobal>(
    rt: &R,
    shared: &Shared<TestScheme, B>,
    mut caller: Caller<B>,
    mut chain: Vec<Point>,
    last: u64,
) -> Client {
    let id = shared.open(rt, &mut caller).expect(rt, "a follower");
    go_back(rt, shared, &mut caller, id, &mut chain);
    let mut told = Vec::new(rt.alloc());
    for _ in rt.forever() {
        match shared.next(rt, &mut caller, id) {
            Ok(Some(Instruction::AddBlock(block))) => {
                told.push(block.number()).expect(rt, MEMORY);
                chain.push(block.point()).expect(rt, MEMORY);
            }
            Ok(Some(Instruction::RollBack(point))) => chain.truncate(point.number as usize),
            Ok(None) if (chain.len() as u64) < last => thread::yield_now(),
            Ok(None) => return Client { chain, told },
            Err(_) => rt.abort(),
        }
    }
    unreachable!()
}

/// Runs a forger and two clients, each in a thread of its own, beside the adder on this one. The forger begins in this
/// slot. One client has this much of the chain, and the other one nothing.
fn run_threads<
    B: Room + Send + Sync,
    M: Mailroom + Send + Sync,
    R: Threads + Wait + Abort + AllocGlobal + Sync,
>(
    rt: &R,
    shared: &Shared<TestScheme, B>,
    adder: &mut Adder<TestScheme, OpenGate, B, M>,
    peer: PeerEnd<M>,
    callers: &mut Vec<Caller<B>>,
    now: u64,
    chain: Vec<Point>,
) -> (Client, Client) {
    let (one, other) = (next_of(rt, callers), next_of(rt, callers));
    let mut forging = next_of(rt, callers);
    let last = shared.height(&mut forging).saturating_add(BLOCKS);
    let nothing = Vec::new(rt.alloc());
    thread::scope(thread::scope_env(), rt, move |scope| -> (Client, Client) {
        let forger = scope.spawn(move || forge_blocks(rt, shared, forging, peer, now));
        let first = scope.spawn(move || follow(rt, shared, one, chain, last));
        let second = scope.spawn(move || follow(rt, shared, other, nothing, last));
        assert!(rt; forger.is_ok());
        add_blocks(rt, shared, adder);
        let first = first.expect(rt, "a thread").join(rt);
        let second = second.expect(rt, "a thread").join(rt);
        (first, second)
    })
}

/// Runs a node on a core that was opened on the log, and then puts what is never rolled back onto the log.
fn run_node<
    B: Room + Send + Sync,
    M: Mailroom + Send + Sync,
    R: Threads + Wait + Abort + AllocGlobal + Sync,
>(
    rt: &R,
    opened: Opened<TestScheme>,
    inbox: inbox::Opened,
    log: &mut Log<FileDisk<FakeFile>>,
    now: u64,
    chain: Vec<Point>,
) -> (Client, Client)
    requires table { opened.table ≡ B.table }
    requires start { opened.start ≡ B.start }
    requires blocks { texts_of B.start.opened ≡ log.old.blocks }
    requires queue { inbox.table ≡ M.table }
    requires capacity { inbox.capacity ≡ M.capacity }
{
    let (shared, mut callers) = opened.named::<B>().expect(rt, MEMORY);
    let (peers, end) = inbox.named::<M>().expect(rt, MEMORY);
    let mut peers = Vec::from_array(rt.alloc(), peers).expect(rt, MEMORY);
    let peer = peers.pop().expect(rt, "a peer");
    let caller = next_of(rt, &mut callers);
    let mut adder = Adder::new(rt.alloc(), end, caller, Pool::new(OpenGate), 2);
    let clients = run_threads(rt, &shared, &mut adder, peer, &mut callers, now, chain);
    let mut caller = next_of(rt, &mut callers);
    shared.height(&mut caller);
    let flushed = flush_shared(rt, log, &shared, &mut caller);
    assert!(rt; flushed == Ok(()));
    clients
}

/// Begins a node on the log, and runs it.
fn begin_node<R: Threads + Wait + Abort + AllocGlobal + Sync>(
    rt: &R,
    log: &mut Log<FileDisk<FakeFile>>,
    restart: Restart<TestScheme>,
    now: u64,
    chain: Vec<Point>,
) -> (Client, Client)
    requires { restart.blocks ≡ log.old.blocks }
{
    let Ok(opened) = restart.shared(5) else {
        rt.abort();
    };
    let inbox = inbox::Opened::new(rt.alloc(), 8).expect(rt, "an inbox");
    run_node::<Brand, Brand, _>(rt, opened, inbox, log, now, chain)
}

/// The client was told the blocks of these numbers, each once and one after the other, and has the chain to the last.
fn was_told(rt: &impl Abort, client: &Client, first: u64, last: u64) {
    same(rt, "blocks", client.chain.len() as u64, last);
    let mut number = first;
    for told in client.told.iter() {
        same(rt, "a block", *told, number);
        number = number.saturating_add(1);
    }
    same(rt, "the next block", number, last.saturating_add(1));
}

// 2 blocks may be rolled back, so the log lacks the last two. After those that it has the node forges others, in later
// slots; so the client goes back to where the log ended, and is told the rest.
#[test]
fn a_node_goes_on(rt: HostRuntime) {
    let mut log = log_on(&rt, FakeFile::new(rt.alloc(), u64::MAX));
    let (one, other) = begin_node(&rt, &mut log, restart_of(&rt), 1, Vec::new(rt.alloc()));
    was_told(&rt, &one, 1, 40);
    was_told(&rt, &other, 1, 40);
    same(&rt, "blocks of the log", log.durable() as u64, 38);
    let (mut log, restart) = again(&rt, log);
    let (one, other) = begin_node(&rt, &mut log, restart, 101, one.chain);
    was_told(&rt, &one, 39, 78);
    was_told(&rt, &other, 1, 78);
    same(&rt, "blocks of the log", log.durable() as u64, 76);
}
