//! Calls of a shared core that change nothing, and arrivals that are refused: what one takes, and how much memory is
//! held after many.

ghost use Rattle.std.specs.Prelude.{◌≡◌};

use crate::memory::held;
use crate::networks::{FAR_BACK, genesis};
use crate::timing::{Telling, nanos_if, now, print};
use chain_core::FollowerId;
use inbox::{Mailroom, PEERS, PeerEnd};
use mempool::SubmitReply;
use shared::{Adder, Caller, Room, Shared};
use std::alloc::Global;
use std::fs::File;
use std::io;
use std::marker::Brand;
use std::rt::{Clock, Files};
use std::sync::Wait;
use std::thread::Threads;
use witness_pool::{OpenGate, Pool, TestScheme};

/// How many bytes that are no block's arrive at once, and how often.
const MEGABYTE: usize = 1_000_000;

const MEGABYTES: u64 = 1_000;

/// Prints how many bytes of memory the program holds after `many` of these.
fn print_held<R: Files<File = File> + AllocGlobal + Print>(
    rt: &R,
    name: &str,
    many: u64,
) -> io::Result<()> {
    let Some(bytes) = held(rt) else {
        return Err(io::ErrorKind::Other.into());
    };
    println!(rt; "{name} {many}: {bytes} bytes are held")
}

/// Submits bytes that are no transaction's, `calls` times, and answers whether each was refused.
fn are_refused<B: Room, R: Wait>(
    rt: &R,
    shared: &Shared<TestScheme, B>,
    caller: &mut Caller<B>,
    calls: u64,
) -> bool {
    let mut all = true;
    for _ in 0..calls {
        all &= match shared.submit(rt, caller, b"\x00") {
            Ok(SubmitReply::Malformed) => true,
            _ => false,
        };
    }
    all
}

/// Asks `calls` times what the follower is told next, and answers whether there was never anything.
fn are_untold<B: Room, R: Wait>(
    rt: &R,
    shared: &Shared<TestScheme, B>,
    caller: &mut Caller<B>,
    id: FollowerId,
    calls: u64,
) -> bool {
    let mut all = true;
    for _ in 0..calls {
        all &= match shared.next(rt, caller, id) {
            Ok(None) => true,
            _ => false,
        };
    }
    all
}

/// Makes `calls` calls of each kind, and prints what one takes and what is held then.
fn measure_calls<B: Room, R: Files<File = File> + AllocGlobal + Wait + Clock + Print>(
    rt: &R,
    shared: &Shared<TestScheme, B>,
    caller: &mut Caller<B>,
    id: FollowerId,
    calls: u64,
) -> io::Result<()> {
    let start = now(rt);
    let done = are_refused(rt, shared, caller, calls);
    let nanos = nanos_if(rt, start, done);
    print(
        rt,
        Telling::Times,
        "Shared::submit, malformed,",
        calls,
        calls,
        nanos,
    )?;
    let start = now(rt);
    let done = are_untold(rt, shared, caller, id, calls);
    let nanos = nanos_if(rt, start, done);
    print(
        rt,
        Telling::Times,
        "Shared::next, nothing due,",
        calls,
        calls,
        nanos,
    )?;
    print_held(rt, "calls", calls.saturating_mul(2))
}

/// Bytes that are no block's.
fn megabyte(alloc: Global) -> Vec<u8> {
    let mut bytes = Vec::new(alloc);
    let _ = bytes.resize(MEGABYTE, 0);
    bytes
}

/// Sends such bytes and brings them `arrivals` times, and answers whether each was brought.
fn are_brought<B: Room, M: Mailroom, R: AllocGlobal + Threads + Wait + Sync>(
    rt: &R,
    shared: &Shared<TestScheme, B>,
    adder: &mut Adder<TestScheme, OpenGate, B, M>,
    peer: &mut PeerEnd<M>,
    arrivals: u64,
) -> bool {
    let mut all = true;
    for _ in 0..arrivals {
        all &= peer.send(rt, megabyte(rt.alloc())).is_ok();
        all &= match adder.run(rt, shared, 1) {
            Ok(brought) => brought == 1,
            Err(_) => false,
        };
    }
    all
}

/// Has such bytes arrive `MEGABYTES` times, and prints what one takes and what is held before and then.
fn measure_arrivals<
    B: Room,
    M: Mailroom,
    R: Files<File = File> + AllocGlobal + Threads + Wait + Clock + Print + Sync,
>(
    rt: &R,
    shared: &Shared<TestScheme, B>,
    adder: &mut Adder<TestScheme, OpenGate, B, M>,
    peer: &mut PeerEnd<M>,
) -> io::Result<()> {
    print_held(rt, "malformed megabytes", 0)?;
    let start = now(rt);
    let done = are_brought(rt, shared, adder, peer, MEGABYTES);
    let nanos = nanos_if(rt, start, done);
    print(
        rt,
        Telling::Times,
        "malformed megabytes",
        MEGABYTES,
        MEGABYTES,
        nanos,
    )?;
    print_held(rt, "malformed megabytes", MEGABYTES)
}

/// The first of the peers.
fn first_of<M: Mailroom>(alloc: Global, ends: [PeerEnd<M>; PEERS]) -> Option<PeerEnd<M>> {
    Vec::from_array(alloc, ends).ok()?.pop()
}

/// Has the last of the callers open a follower and make its calls. None where one can't be opened or printed.
fn run_caller<B: Room, R: Files<File = File> + AllocGlobal + Threads + Wait + Clock + Print>(
    rt: &R,
    shared: &Shared<TestScheme, B>,
    callers: &mut Vec<Caller<B>>,
) -> Option<()> {
    let mut caller = callers.pop()?;
    let id = shared.open(rt, &mut caller).ok()?;
    measure_calls(rt, shared, &mut caller, id, 50_000).ok()?;
    measure_calls(rt, shared, &mut caller, id, 500_000).ok()
}

/// Opens the inbox under a name, and runs all. None where it can't be made.
fn run_inbox<
    B: Room,
    M: Mailroom,
    R: Files<File = File> + AllocGlobal + Threads + Wait + Clock + Print + Sync,
>(
    rt: &R,
    shared: &Shared<TestScheme, B>,
    mut callers: Vec<Caller<B>>,
    inbox: inbox::Opened,
) -> Option<io::Result<()>>
    requires queue { inbox.table ≡ M.table }
    requires capacity { inbox.capacity ≡ M.capacity }
{
    run_caller(rt, shared, &mut callers)?;
    let (ends, end) = inbox.named::<M>().ok()?;
    let mut peer = first_of(rt.alloc(), ends)?;
    let mut adder = Adder::new(rt.alloc(), end, callers.pop()?, Pool::new(OpenGate), 1);
    Some(measure_arrivals(rt, shared, &mut adder, &mut peer))
}

/// Opens the core under a name, and runs all. None where it can't be made.
fn run_core<B: Room, R: Files<File = File> + AllocGlobal + Threads + Wait + Clock + Print + Sync>(
    rt: &R,
    opened: shared::Opened<TestScheme>,
    inbox: inbox::Opened,
) -> Option<io::Result<()>>
    requires table { opened.table ≡ B.table }
    requires start { opened.start ≡ B.start }
{
    let (shared, callers) = opened.named::<B>().ok()?;
    run_inbox::<B, Brand, R>(rt, &shared, callers, inbox)
}

/// Runs all. None where it can't be made.
fn run<R: Files<File = File> + AllocGlobal + Threads + Wait + Clock + Print + Sync>(
    rt: &R,
) -> Option<io::Result<()>> {
    let inbox = inbox::Opened::new(rt.alloc(), 1).ok()?;
    let genesis = genesis(rt.alloc(), FAR_BACK)?;
    let opened = shared::Opened::new(rt.alloc(), genesis, 2).ok()?;
    run_core::<Brand, R>(rt, opened, inbox)
}

/// Runs each measurement, and prints what it took. Err where one can't be made.
pub fn measure<R: Files<File = File> + AllocGlobal + Threads + Wait + Clock + Print + Sync>(
    rt: &R,
) -> io::Result<()> {
    run(rt).unwrap_or(Err(io::ErrorKind::Other.into()))
}
