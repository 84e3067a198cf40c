//! A node that stops, and begins again on its log: forty blocks through peers, and then twenty more.

ghost use Rattle.std.specs.Prelude.{◌≡◌};
ghost use Rattle.chain_core.specs.Immutable.{texts_of};

use super::fake_file::FakeFile;
use super::fixture::{
    MEMORY, Parts, again, chain_lines, drains, log_on, names_of, next_of, parts_of, restart_of,
    send_blocks,
};
use chain_core::{FollowerId, Instruction};
use file_disk::FileDisk;
use flushing::{Restart, flush_shared};
use ident::Point;
use immlog::Log;
use inbox::Mailroom;
use script::Names;
use shared::{Caller, Opened, Room, Shared};
use std::marker::Brand;
use std::process::Abort;
use std::sync::Wait;
use std::thread::{self, Threads, join};
use witness_pool::{OpenGate, TestScheme};

/// How many blocks the chain has where the node stops first, and how many in the end.
const FIRST: usize = 40;

const ALL: usize = 60;

/// How many of them may be rolled back, so that the log lacks them.
const BACK: usize = 2;

/// The log of the node, in a file of no system.
type NodeLog = Log<FileDisk<FakeFile>>;

/// The blocks of a chain that peers send, from this number to that.
#[derive(Clone, Copy)]
struct Part<'a> {
    names: &'a Names,
    first: usize,
    last: usize,
}

/// A client says which blocks it was told, the newest one first, and goes back to what the node's chain has of them.
fn goes_on<B: Room, R: Wait + Abort + AllocGlobal>(
    rt: &R,
    shared: &Shared<TestScheme, B>,
    caller: &mut Caller<B>,
    id: FollowerId,
    told: &mut Vec<Point>,
) {
    let mut known = Vec::new(rt.alloc());
    for point in told.iter().rev() {
        known.push(*point).expect(rt, MEMORY);
    }
    let found = shared.forward(rt, caller, id, &known);
    if let Some(point) = found.expect(rt, "a follower") {
        told.truncate(point.number as usize);
    }
}

/// A client's follower is told what the client wasn't told yet, until it has `blocks` blocks. Their points.
fn follows<B: Room, R: Wait + Abort + AllocGlobal>(
    rt: &R,
    shared: &Shared<TestScheme, B>,
    mut caller: Caller<B>,
    mut told: Vec<Point>,
    blocks: usize,
) -> Vec<Point> {
    let id = shared.open(rt, &mut caller).expect(rt, "a follower");
    goes_on(rt, shared, &mut caller, id, &mut told);
    for _ in rt.forever() {
        match shared.next(rt, &mut caller, id) {
            Ok(Some(Instruction::AddBlock(block))) => {
                told.push(block.point()).expect(rt, MEMORY);
            }
            Ok(Some(Instruction::RollBack(point))) => told.truncate(point.number as usize),
            Ok(None) if told.len() < blocks => thread::yield_now(),
            Ok(None) => return told,
            Err(_) => rt.abort(),
        }
    }
    unreachable!()
}

/// Peers send blocks, and the adder brings them, while a client follows. Then what is never rolled back goes onto the
/// log. What the client was told.
fn runs<B: Room + Send + Sync, M: Mailroom, R: Threads + Wait + Abort + AllocGlobal + Sync>(
    rt: &R,
    opened: Opened<TestScheme>,
    inbox: inbox::Opened,
    log: &mut NodeLog,
    told: Vec<Point>,
    part: Part<'_>,
) -> Vec<Point>
    requires table { opened.table ≡ B.table }
    requires start { opened.start ≡ B.start }
    requires blocks { texts_of B.start.opened ≡ log.old.blocks }
    requires queue { inbox.table ≡ M.table }
    requires capacity { inbox.capacity ≡ M.capacity }
{
    let mut parts = parts_of::<OpenGate, B, M>(rt, OpenGate, opened, inbox);
    let Parts {
        shared,
        adder,
        peers,
        callers,
    } = &mut *parts;
    let shared = &*shared;
    send_blocks(rt, peers, part.names, part.first, part.last);
    let last = part.last;
    let (caller, mut flushing) = (next_of(rt, callers), next_of(rt, callers));
    let (told, ()) = join(
        rt,
        move || -> Vec<Point> { follows(rt, shared, caller, told, last) },
        move || {
            drains(rt, adder, shared, peers);
        },
    );
    shared.height(&mut flushing);
    let flushed = flush_shared(rt, log, shared, &mut flushing);
    assert!(rt; flushed == Ok(()));
    assert!(rt; told.last().copied() == Some(shared.tip(rt, &mut flushing)));
    told
}

/// A node runs on the log.
fn runs_on<R: Threads + Wait + Abort + AllocGlobal + Sync>(
    rt: &R,
    log: &mut NodeLog,
    restart: Restart<TestScheme>,
    told: Vec<Point>,
    part: Part<'_>,
) -> Vec<Point>
    requires { restart.blocks ≡ log.old.blocks }
{
    let Ok(opened) = restart.shared(3) else {
        rt.abort();
    };
    let inbox = inbox::Opened::new(rt.alloc(), 64).expect(rt, "an inbox");
    runs::<Brand, Brand, _>(rt, opened, inbox, log, told, part)
}

#[test]
fn begins_again_on_its_log(rt: HostRuntime) {
    let names = names_of(&rt, &chain_lines(&rt, ALL));
    let mut log = log_on(&rt, FakeFile::new(rt.alloc(), u64::MAX));
    let part = Part {
        names: &names,
        first: 1,
        last: FIRST,
    };
    let told = runs_on(&rt, &mut log, restart_of(&rt), Vec::new(rt.alloc()), part);
    assert!(rt; told.len() == FIRST);
    let (mut log, restart) = again(&rt, log);
    assert!(rt; log.durable() == FIRST - BACK);
    let part = Part {
        names: &names,
        first: FIRST - BACK + 1,
        last: ALL,
    };
    let told = runs_on(&rt, &mut log, restart, told, part);
    assert!(rt; told.len() == ALL);
    assert!(rt; log.durable() == ALL - BACK);
}
