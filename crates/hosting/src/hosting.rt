//! A node that stays.

ghost use Rattle.std.specs.Prelude.{◌≡◌, ◌⊎◌, ℕ, false, OnOk, IfOk, IfErr, IsOk};
ghost use Rattle.model.specs.Journal.{Journal, Knowledge, IsLook};
ghost use Rattle.chain_core.specs.Immutable.{texts_of};
ghost use Rattle.inbox.specs.Arrivals.{no_intake};
ghost use Rattle.shared.specs.Starts.{network_from};
ghost use Rattle.shared.specs.Copies.{AreImmutableAfter};
ghost use Rattle.flushing.specs.Texts.{Begins};
ghost use Rattle.hosting.specs.Keeping.{IsKept};
ghost use Rattle.hosting.specs.Ends.{end_of};
ghost use Rattle.hosting.specs.declared.hosting.HostFault.TheVariants.{OutOfMemory};

use crate::adding::run_adder;
use crate::client_lane::run_client;
use crate::floor::Floor;
use crate::news::News;
use crate::peer_lane::run_peer;
use crate::plan::{ClientLane, PeerLane, Plan, Workers};
use crate::recording::{Record, record_last, run_record};
use crate::store::{keep_log, keep_none, let_go};
use immlog::{AppendFault, Disk, Log};
use inbox::{AdderEnd, Mailroom, PEERS, PeerEnd};
use reception::{Keeper, Places, Reception, WhenFull};
use shared::{Adder, Caller, Room, Shared};
use std::alloc::{AllocError, Global};
use std::marker::Brand;
use std::sync::{Arc, Wait};
use std::thread;
use std::thread::Threads;
use thiserror::Error;
use witness_pool::{OpenGate, Pool, SigScheme};

/// How many places the inbox has.
const PLACES: usize = 64;

/// Why a node ended otherwise than it was asked to.
#[derive(Clone, Copy, Debug, Drop, PartialEq, Eq, Error)]
pub enum HostFault {
    /// Memory ran out, or a thread couldn't be started.
    #[error("out of memory")]
    OutOfMemory,
    /// The log's disk failed.
    #[error("log: disk fault")]
    LogFault,
}

impl From<AllocError> for HostFault {
    ghost from_gives = { λ _ fault. fault ≡ OutOfMemory };

    fn from(_: AllocError) -> HostFault {
        HostFault::OutOfMemory
    }
}

/// Those of a node's callers that aren't clients'.
#[derive(Drop)]
struct Staff<B: Room> {
    adding: Caller<B>,
    keeping: Caller<B>,
    watching: Caller<B>,
    flushing: Caller<B>,
}

/// A node that was started: what its threads share, the caller who flushes, and where the figures of the end are written
/// down, if they are to be.
#[derive(Drop)]
struct Started<S: SigScheme, B: Room> {
    floor: Floor<S, B>,
    flushing: Caller<B>,
    record: Option<Record>,
}

/// The last four of the callers.
fn staff_of<B: Room>(callers: &mut Vec<Caller<B>>) -> Option<Staff<B>> {
    Some(Staff {
        adding: callers.pop()?,
        keeping: callers.pop()?,
        watching: callers.pop()?,
        flushing: callers.pop()?,
    })
}

/// The one who takes in what peers send.
fn reception_of<S: SigScheme + Send, B: Room, M: Mailroom>(
    alloc: Global,
    end: AdderEnd<M>,
    adding: Caller<B>,
    keeping: Caller<B>,
    workers: Workers,
    places: Places,
    when_full: WhenFull,
) -> Reception<S, B, M>
    requires { end ≡ no_intake }
{
    Reception {
        adder: Adder::new(alloc, end, adding, Pool::new(OpenGate), workers.many),
        keeper: Keeper::new(keeping, places),
        when_full,
    }
}

/// Starts the thread that brings what peers send.
fn start_adder<
    S: SigScheme + Send + Sync + 'static,
    B: Room + Send + Sync + 'static,
    M: Mailroom + Send + Sync + 'static,
    R: Threads + Wait + Copy + Send + Sync + 'static,
>(rt: &R, floor: &Floor<S, B>, reception: Reception<S, B, M>) -> Result<(), AllocError> {
    let handle = *rt;
    let floor = floor.try_clone()?;
    thread::spawn(rt, move || run_adder(&handle, &floor, reception))?;
    Ok(())
}

/// Starts the thread that writes down what the node counts, if it is to be, in the file of this path.
fn start_record<
    S: SigScheme + Send + Sync + 'static,
    B: Room + Send + Sync + 'static,
    R: Threads + Wait + Copy + Send + Sync + 'static,
>(rt: &R, floor: &Floor<S, B>, caller: Caller<B>, path: Option<String>) -> Result<(), AllocError> {
    let Some(path) = path else {
        return Ok(());
    };
    let record = Record::at(floor.alloc, &path)?;
    let handle = *rt;
    let floor = floor.try_clone()?;
    thread::spawn(rt, move || run_record(&handle, &floor, caller, &record))?;
    Ok(())
}

/// Starts the thread of a peer's lane.
fn start_peer<
    S: SigScheme + Send + Sync + 'static,
    B: Room + Send + Sync + 'static,
    M: Mailroom + Send + Sync + 'static,
    R: Threads + Wait + Copy + Send + Sync + 'static,
>(rt: &R, floor: &Floor<S, B>, end: PeerEnd<M>, lane: PeerLane) -> Result<(), AllocError> {
    let handle = *rt;
    let floor = floor.try_clone()?;
    thread::spawn(rt, move || run_peer(&handle, &floor, end, &lane))?;
    Ok(())
}

/// Starts the thread of a client's lane.
fn start_client<
    S: SigScheme + Send + Sync + 'static,
    B: Room + Send + Sync + 'static,
    R: Threads + Wait + Copy + Send + Sync + 'static,
>(rt: &R, floor: &Floor<S, B>, caller: Caller<B>, lane: ClientLane) -> Result<(), AllocError> {
    let handle = *rt;
    let floor = floor.try_clone()?;
    thread::spawn(rt, move || run_client(&handle, &floor, caller, &lane))?;
    Ok(())
}

/// Starts a thread for each peer's lane.
fn start_peers<
    S: SigScheme + Send + Sync + 'static,
    B: Room + Send + Sync + 'static,
    M: Mailroom + Send + Sync + 'static,
    R: Threads + Wait + Copy + Send + Sync + 'static,
>(
    rt: &R,
    floor: &Floor<S, B>,
    ends: Vec<PeerEnd<M>>,
    lanes: Vec<PeerLane>,
) -> Result<(), AllocError> {
    for (end, lane) in ends.into_iter().zip(lanes) {
        start_peer(rt, floor, end, lane)?;
    }
    Ok(())
}

/// Starts a thread for each client's lane.
fn start_clients<
    S: SigScheme + Send + Sync + 'static,
    B: Room + Send + Sync + 'static,
    R: Threads + Wait + Copy + Send + Sync + 'static,
>(
    rt: &R,
    floor: &Floor<S, B>,
    callers: Vec<Caller<B>>,
    lanes: Vec<ClientLane>,
) -> Result<(), AllocError> {
    for (caller, lane) in callers.into_iter().zip(lanes) {
        start_client(rt, floor, caller, lane)?;
    }
    Ok(())
}

/// Starts all threads but that of the log.
fn start_all<
    S: SigScheme + Send + Sync + 'static,
    B: Room + Send + Sync + 'static,
    M: Mailroom + Send + Sync + 'static,
    R: Threads + Wait + Copy + Send + Sync + 'static,
>(
    rt: &R,
    floor: &Floor<S, B>,
    ends: ([PeerEnd<M>; PEERS], AdderEnd<M>),
    staff: (Caller<B>, Caller<B>, Caller<B>),
    callers: Vec<Caller<B>>,
    plan: Plan,
) -> Result<(), AllocError>
    requires { ends.1 ≡ no_intake }
{
    let (peers, end) = ends;
    let (adding, keeping, watching) = staff;
    let Plan {
        clients,
        peers: lanes,
        workers,
        until_closed: _,
        when_full,
        places,
        metrics,
    } = plan;
    let peers = Vec::from_array(floor.alloc, peers)?;
    let reception = reception_of(
        floor.alloc,
        end,
        adding,
        keeping,
        workers,
        places,
        when_full,
    );
    start_adder(rt, floor, reception)?;
    start_peers(rt, floor, peers, lanes)?;
    start_clients(rt, floor, callers, clients)?;
    start_record(rt, floor, watching, metrics)
}

/// How a node ended whose last flush ended so.
fn ended(is_short: bool, flushed: Result<(), AppendFault>) -> Result<(), HostFault>
    ensures end { result ≡ end_of is_short flushed }
    ensures well { OnOk result (IsOk flushed) }
    ensures short { OnOk flushed (IfErr result (λ fault. fault ≡ OutOfMemory)) }
{
    match flushed {
        Ok(()) if !is_short => Ok(()),
        Ok(()) | Err(AppendFault::OutOfMemory) => Err(HostFault::OutOfMemory),
        Err(AppendFault::Broken | AppendFault::DiskFault) => Err(HostFault::LogFault),
    }
}

/// What is told of a node of this plan with so many callers for clients: only so many lanes are opened, and no more
/// peers' streams than an inbox has peers.
fn news_of(plan: &Plan, callers: usize, height: u64, durable: Option<u64>) -> News {
    let peers = plan.peers.len().min(PEERS) as u64;
    let clients = plan.clients.len().min(callers) as u64;
    News::new(peers, clients, height, durable, plan.until_closed)
}

/// Where the figures of the end are written down, if they are to be.
fn record_of(alloc: Global, plan: &Plan) -> Result<Option<Record>, AllocError> {
    match &plan.metrics {
        Some(path) => Ok(Some(Record::at(alloc, path)?)),
        None => Ok(None),
    }
}

/// What is done when the node has ended: clients take their last replies, and the figures of the end are written down.
fn finish<S: SigScheme, B: Room, R: Wait>(
    rt: &R,
    floor: &Floor<S, B>,
    caller: &mut Caller<B>,
    record: Option<&Record>,
) {
    let_go(rt, &floor.news, &floor.system);
    if let Some(record) = record {
        record_last(rt, floor, caller, record);
    }
}

/// Starts a node whose core has just got its name, and answers what its threads share, with the caller who flushes: it
/// has looked at the height.
fn start<
    S: SigScheme + Send + Sync + 'static,
    B: Room + Send + Sync + 'static,
    M: Mailroom + Send + Sync + 'static,
    R: Threads + Wait + Copy + Send + Sync + 'static,
>(
    rt: &R,
    system: HostRuntime,
    shared: Shared<S, B>,
    mut callers: Vec<Caller<B>>,
    ends: ([PeerEnd<M>; PEERS], AdderEnd<M>),
    durable: Option<u64>,
    plan: Plan,
) -> Result<Started<S, B>, AllocError>
    requires { ends.1 ≡ no_intake }
    ensures { IfOk result (λ started. (before : Knowledge) × (height : ℕ)
        × IsLook (network_from B.start S.verifies) before height started.flushing) }
{
    let alloc = system.alloc();
    let Some(staff) = staff_of(&mut callers) else {
        return Err(AllocError);
    };
    let Staff {
        adding,
        keeping,
        watching,
        mut flushing,
    } = staff;
    let height = shared.height(&mut flushing);
    let news = news_of(&plan, callers.len(), height, durable);
    let record = record_of(alloc, &plan)?;
    let floor = Floor {
        alloc,
        shared: Arc::new(alloc, shared)?,
        news: Arc::new(alloc, news)?,
        until_closed: plan.until_closed,
        system,
    };
    match start_all(rt, &floor, ends, (adding, keeping, watching), callers, plan) {
        Ok(()) => {
            floor.news.begin(rt);
            Ok(Started {
                floor,
                flushing,
                record,
            })
        }
        Err(AllocError) => {
            floor.news.end(rt);
            Err(AllocError)
        }
    }
}

/// Runs a node on this core and this log, through an inbox that was opened for it.
fn run_on_log<
    S: SigScheme + Send + Sync + 'static,
    B: Room + Send + Sync + 'static,
    M: Mailroom + Send + Sync + 'static,
    R: Threads + Wait + Copy + Send + Sync + 'static,
    D: Disk,
>(
    rt: &R,
    system: HostRuntime,
    opened: shared::Opened<S>,
    inbox: inbox::Opened,
    log: &mut Log<D>,
    plan: Plan,
) -> Result<(), HostFault>
    requires table { opened.table ≡ B.table }
    requires start { opened.start ≡ B.start }
    requires on_log { texts_of B.start.opened ≡ log.old.blocks }
    requires queue { inbox.table ≡ M.table }
    requires capacity { inbox.capacity ≡ M.capacity }
    ensures stay { Begins log.old.blocks log.new.blocks }
    ensures all { OnOk result ((journal : Journal)
        × AreImmutableAfter (network_from opened.start S.verifies) journal log.new.blocks) }
    ensures sound { OnOk result (log.new.broken ≡ false) }
    ensures keeps { log.old.broken ≡ false → (log.new ≡ log.old) ⊎ ((journal : Journal)
        × IsKept (network_from opened.start S.verifies) journal log.old.blocks log.new.blocks
        (D.past log.old.disk) (D.past log.new.disk) (D.moment log.new.disk)) }
{
    let durable = log.durable() as u64;
    let (shared, callers) = opened.named::<B>()?;
    let ends = inbox.named::<M>()?;
    let Started {
        floor,
        mut flushing,
        record,
    } = start(rt, system, shared, callers, ends, Some(durable), plan)?;
    let flushed = keep_log(rt, &floor, &mut flushing, log);
    finish(rt, &floor, &mut flushing, record.as_ref());
    ended(floor.news.is_short(rt), flushed)
}

/// Runs a node on this core, without a log.
fn run_on_none<
    S: SigScheme + Send + Sync + 'static,
    B: Room + Send + Sync + 'static,
    M: Mailroom + Send + Sync + 'static,
    R: Threads + Wait + Copy + Send + Sync + 'static,
>(
    rt: &R,
    system: HostRuntime,
    opened: shared::Opened<S>,
    inbox: inbox::Opened,
    plan: Plan,
) -> Result<(), HostFault>
    requires table { opened.table ≡ B.table }
    requires start { opened.start ≡ B.start }
    requires queue { inbox.table ≡ M.table }
    requires capacity { inbox.capacity ≡ M.capacity }
    ensures { IfErr result (λ fault. fault ≡ OutOfMemory) }
{
    let (shared, callers) = opened.named::<B>()?;
    let ends = inbox.named::<M>()?;
    let Started {
        floor,
        mut flushing,
        record,
    } = start(rt, system, shared, callers, ends, None, plan)?;
    keep_none(rt, &floor.news);
    finish(rt, &floor, &mut flushing, record.as_ref());
    ended(floor.news.is_short(rt), Ok(()))
}

/// An inbox for a node's peers.
fn new_inbox(alloc: Global) -> Result<inbox::Opened, HostFault>
    ensures { IfErr result (λ fault. fault ≡ OutOfMemory) }
{
    inbox::Opened::new(alloc, PLACES).map_err(|_| HostFault::OutOfMemory)
}

/// The same through an inbox of its own.
fn run_with_inbox<
    S: SigScheme + Send + Sync + 'static,
    B: Room + Send + Sync + 'static,
    D: Disk,
    R: Threads + Wait + Copy + Send + Sync + 'static,
>(
    rt: &R,
    system: HostRuntime,
    opened: shared::Opened<S>,
    log: &mut Log<D>,
    plan: Plan,
) -> Result<(), HostFault>
    requires table { opened.table ≡ B.table }
    requires start { opened.start ≡ B.start }
    requires on_log { texts_of B.start.opened ≡ log.old.blocks }
    ensures stay { Begins log.old.blocks log.new.blocks }
    ensures all { OnOk result ((journal : Journal)
        × AreImmutableAfter (network_from opened.start S.verifies) journal log.new.blocks) }
    ensures sound { OnOk result (log.new.broken ≡ false) }
    ensures keeps { log.old.broken ≡ false → (log.new ≡ log.old) ⊎ ((journal : Journal)
        × IsKept (network_from opened.start S.verifies) journal log.old.blocks log.new.blocks
        (D.past log.old.disk) (D.past log.new.disk) (D.moment log.new.disk)) }
{
    let inbox = new_inbox(system.alloc())?;
    run_on_log::<S, B, Brand, R, D>(rt, system, opened, inbox, log, plan)
}

/// The same through an inbox of its own.
fn run_alone<
    S: SigScheme + Send + Sync + 'static,
    B: Room + Send + Sync + 'static,
    R: Threads + Wait + Copy + Send + Sync + 'static,
>(rt: &R, system: HostRuntime, opened: shared::Opened<S>, plan: Plan) -> Result<(), HostFault>
    requires table { opened.table ≡ B.table }
    requires start { opened.start ≡ B.start }
    ensures { IfErr result (λ fault. fault ≡ OutOfMemory) }
{
    let inbox = new_inbox(system.alloc())?;
    run_on_none::<S, B, Brand, R>(rt, system, opened, inbox, plan)
}

/// Runs a node on a core that was opened for as many callers as the plan says, on the blocks of this log, until a
/// client asks it to stop or, where the plan says so, nobody is left who could send a block or ask for something. Each
/// lane has a thread of its own, and what goes wrong on it ends it alone; one thread brings what peers send, and this
/// one puts onto the log what no rollback reaches any more, whenever the chain grows or a client asks for it. In the
/// end what then stands in the inbox is brought, all that is immutable is flushed, and clients who wait are told that
/// the node ends. Threads that still read a lane are left to themselves: they end with the process.
///
/// Err `LogFault` where the log's disk failed, and `OutOfMemory` where memory ran out or a thread couldn't be started.
pub fn host_on_log<
    S: SigScheme + Send + Sync + 'static,
    D: Disk,
    R: Threads + Wait + Copy + Send + Sync + 'static,
>(
    rt: &R,
    system: HostRuntime,
    opened: shared::Opened<S>,
    log: &mut Log<D>,
    plan: Plan,
) -> Result<(), HostFault>
    requires { texts_of opened.start.opened ≡ log.old.blocks }
    // Whatever it answers, the log keeps what it had.
    ensures stay { Begins log.old.blocks log.new.blocks }
    // At Ok it has all that no rollback reaches after some legal journal of a core's calls. That these are the calls
    // that the node's threads made no clause says: a node that does nothing would keep to it.
    ensures all { OnOk result ((journal : Journal)
        × AreImmutableAfter (network_from opened.start S.verifies) journal log.new.blocks) }
    ensures sound { OnOk result (log.new.broken ≡ false) }
    // A log that wasn't broken is kept through it: it wasn't touched, or after some such journal it has the first of
    // these blocks, and so does what a crash leaves at any moment since it was called, with all that it had.
    ensures keeps { log.old.broken ≡ false → (log.new ≡ log.old) ⊎ ((journal : Journal)
        × IsKept (network_from opened.start S.verifies) journal log.old.blocks log.new.blocks
        (D.past log.old.disk) (D.past log.new.disk) (D.moment log.new.disk)) }
{
    run_with_inbox::<S, Brand, D, R>(rt, system, opened, log, plan)
}

/// The same of a node without a log: what it has is gone when it ends, and a flush that is asked for is refused.
pub fn host<S: SigScheme + Send + Sync + 'static, R: Threads + Wait + Copy + Send + Sync + 'static>(
    rt: &R,
    system: HostRuntime,
    opened: shared::Opened<S>,
    plan: Plan,
) -> Result<(), HostFault>
    ensures { IfErr result (λ fault. fault ≡ OutOfMemory) }
{
    run_alone::<S, Brand, R>(rt, system, opened, plan)
}
