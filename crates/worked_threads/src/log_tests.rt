//! A log beside an adder: the blocks that are never rolled back go onto it from a thread of its own.

ghost use Rattle.std.specs.Prelude.{◌≡◌};
ghost use Rattle.shared.specs.Starts.{network_from};
ghost use Rattle.model.specs.Signature.{test_verifies};
ghost use Rattle.flushing.specs.Sharing.{BeginAfter};

use super::fake_file::FakeFile;
use super::fixture::{
    MEMORY, Parts, chain_lines, drains, log_on, names_of, next_of, open, parts_of, send_blocks,
};
use super::gated_file::{Crossing, GatedFile};
use flushing::flush_shared;
use immlog::{Disk, Log};
use inbox::Mailroom;
use mempool::SubmitReply;
use shared::{Caller, Opened, Room, Shared};
use std::alloc::Global;
use std::marker::Brand;
use std::process::Abort;
use std::sync::atomic::{AtomicBool, Ordering};
use std::sync::{Arc, Wait};
use std::thread::{self, Threads, join};
use witness_pool::{OpenGate, TestScheme};

/// How many blocks are brought. As 2 may be rolled back, all but 2 of them go onto the log.
const BLOCKS: usize = 40;

/// Puts what is never rolled back onto the log, again and again until all was brought, and then once more.
fn flush_until<D: Disk, B: Room, R: Wait + Abort>(
    rt: &R,
    shared: &Shared<TestScheme, B>,
    caller: &mut Caller<B>,
    log: &mut Log<D>,
    ended: &AtomicBool,
)
    requires { BeginAfter (network_from B.start test_verifies) caller.old.seen log.old.blocks }
{
    for _ in rt.forever() {
        let last = ended.load(Ordering::SeqCst);
        let flushed = flush_shared(rt, log, shared, caller);
        assert!(rt; flushed == Ok(()));
        if last {
            return;
        }
        thread::yield_now();
    }
}

/// A caller puts what is never rolled back onto a new log, until all was brought. How many blocks the log then has.
fn logged<B: Room, R: Wait + Abort + AllocGlobal>(
    rt: &R,
    shared: &Shared<TestScheme, B>,
    mut caller: Caller<B>,
    ended: &AtomicBool,
) -> usize {
    let mut log = log_on(rt, FakeFile::new(rt.alloc(), u64::MAX));
    // What it has seen is then a legal journal.
    shared.height(&mut caller);
    flush_until(rt, shared, &mut caller, &mut log, ended);
    log.durable()
}

/// The peers send all blocks.
fn sends_all<B: Room, M: Mailroom, R: Wait + Abort + AllocGlobal>(
    rt: &R,
    parts: &mut Parts<OpenGate, B, M>,
) {
    let names = names_of(rt, &chain_lines(rt, BLOCKS));
    send_blocks(rt, &mut parts.peers, &names, 1, BLOCKS);
}

/// The adder brings all blocks, while those that are never rolled back go onto a log.
fn logs_beside<B: Room + Send + Sync, M: Mailroom, R: Threads + Wait + Abort + AllocGlobal + Sync>(
    rt: &R,
    opened: Opened<TestScheme>,
    inbox: inbox::Opened,
)
    requires table { opened.table ≡ B.table }
    requires start { opened.start ≡ B.start }
    requires queue { inbox.table ≡ M.table }
    requires capacity { inbox.capacity ≡ M.capacity }
{
    let mut parts = parts_of::<OpenGate, B, M>(rt, OpenGate, opened, inbox);
    sends_all(rt, &mut parts);
    let Parts {
        shared,
        adder,
        peers,
        callers,
    } = &mut *parts;
    let shared = &*shared;
    let caller = next_of(rt, callers);
    let ended = AtomicBool::new(false);
    let ended = &ended;
    let (durable, ()) = join(
        rt,
        move || -> usize { logged(rt, shared, caller, ended) },
        move || {
            drains(rt, adder, shared, peers);
            ended.store(true, Ordering::SeqCst);
        },
    );
    assert!(rt; durable == BLOCKS - 2);
}

#[test]
fn log_beside_the_adder(rt: HostRuntime) {
    let opened = open(&rt, 2).expect(&rt, "a shared core");
    let inbox = inbox::Opened::new(rt.alloc(), 64).expect(&rt, "an inbox");
    logs_beside::<Brand, Brand, _>(&rt, opened, inbox);
}

/// A caller puts what is never rolled back onto a new log, whose first write of it waits. How many blocks it then has.
fn written<B: Room, R: Wait + Abort + AllocGlobal>(
    rt: &R,
    shared: &Shared<TestScheme, B>,
    mut caller: Caller<B>,
    crossing: Arc<Crossing, Global>,
) -> usize {
    let gate = Arc::try_clone(&crossing).expect(rt, MEMORY);
    let file = GatedFile {
        file: FakeFile::new(rt.alloc(), u64::MAX),
        crossing,
    };
    let mut log = log_on(rt, file);
    gate.arm();
    shared.height(&mut caller);
    let flushed = flush_shared(rt, &mut log, shared, &mut caller);
    assert!(rt; flushed == Ok(()));
    log.durable()
}

/// Once a write has begun, another caller's submission is answered.
fn submits<B: Room, R: Wait + Abort>(
    rt: &R,
    shared: &Shared<TestScheme, B>,
    caller: &mut Caller<B>,
    crossing: &Crossing,
    payment: Vec<u8>,
) {
    assert!(rt; crossing.has_begun());
    let reply = shared.submit(rt, caller, &payment);
    assert!(rt; reply.is_ok_and(|reply| reply == SubmitReply::Added));
    crossing.answer();
}

/// The text of a payment.
fn payment<R: Abort + AllocGlobal>(rt: &R) -> Vec<u8> {
    let names = names_of(rt, "");
    let tx = names.tx_of(b"First").expect(rt, "a payment");
    tx.encode().expect(rt, MEMORY)
}

/// What is never rolled back goes onto a log, and while the disk is written, another caller is answered.
fn writes_beside<B: Room + Send + Sync, R: Threads + Wait + Abort + AllocGlobal + Sync>(
    rt: &R,
    shared: &Shared<TestScheme, B>,
    caller: Caller<B>,
    other: &mut Caller<B>,
) {
    let payment = payment(rt);
    let crossing = Arc::new(rt.alloc(), Crossing::new()).expect(rt, MEMORY);
    let writing = Arc::try_clone(&crossing).expect(rt, MEMORY);
    let seen = &*crossing;
    let (durable, ()) = join(
        rt,
        move || -> usize { written(rt, shared, caller, writing) },
        move || { submits(rt, shared, other, seen, payment) },
    );
    assert!(rt; durable == BLOCKS - 2);
    assert!(rt; crossing.has_met());
}

/// All blocks are journaled. Then those that are never rolled back go onto a log, and while the disk is written,
/// another caller is answered.
fn writes_outside<
    B: Room + Send + Sync,
    M: Mailroom,
    R: Threads + Wait + Abort + AllocGlobal + Sync,
>(rt: &R, opened: Opened<TestScheme>, inbox: inbox::Opened)
    requires table { opened.table ≡ B.table }
    requires start { opened.start ≡ B.start }
    requires queue { inbox.table ≡ M.table }
    requires capacity { inbox.capacity ≡ M.capacity }
{
    let mut parts = parts_of::<OpenGate, B, M>(rt, OpenGate, opened, inbox);
    sends_all(rt, &mut parts);
    let Parts {
        shared,
        adder,
        peers,
        callers,
    } = &mut *parts;
    drains(rt, adder, shared, peers);
    let caller = next_of(rt, callers);
    let mut other = next_of(rt, callers);
    writes_beside(rt, shared, caller, &mut other);
}

#[test]
fn log_written_outside_the_lock(rt: HostRuntime) {
    let opened = open(&rt, 3).expect(&rt, "a shared core");
    let inbox = inbox::Opened::new(rt.alloc(), 64).expect(&rt, "an inbox");
    writes_outside::<Brand, Brand, _>(&rt, opened, inbox);
}
