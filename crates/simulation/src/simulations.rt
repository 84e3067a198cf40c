//! Simulations: peers send blocks to a core that clients follow, each in a thread of its own.

ghost use Rattle.std.specs.Prelude.{◌≡◌, ◌+◌, ◌⊎◌, [], Some, length, IfErr, IfOk, IfSome, OnOk};
ghost use Rattle.std.specs.Io.KnownBytes.{Appends};
ghost use Rattle.inbox.specs.Arrivals.{no_intake};
ghost use Rattle.simulation.specs.declared.summary.Summary.{Summary};
ghost use Rattle.script.specs.Names.{no_names};
ghost use Rattle.simulation.specs.Simulation.{IsFaultless, IsSimFault, summary_text};

use crate::clients::Clients;
use crate::course::Course;
use crate::summary::{Summary, put_summary};
use crate::threads::{Client, Peer, run_adder, run_client, run_peer};
use genesis::{Genesis, Scheme};
use inbox::{AdderEnd, Mailroom, PEERS, PeerEnd};
use reception::{Keeper, Places, Reception, WhenFull};
use scenario::{ScenarioFault, Sending};
use shared::{Adder, Caller, Room, Shared};
use std::alloc::{AllocError, Global};
use std::io::{BufRead, Write};
use std::marker::Brand;
use std::sync::Wait;
use std::thread;
use std::thread::{JoinHandle, Threads};
use witness_pool::{Gate, OpenGate, Pool, SigScheme};

/// How many places the inbox has.
const PLACES: usize = 8;

/// How many workers check transactions for the adder.
const WORKERS: usize = 4;

/// The peers, who have nothing to send yet.
fn peers_of<M: Mailroom>(
    alloc: Global,
    ends: [PeerEnd<M>; PEERS],
) -> Result<Vec<Peer<M>>, AllocError> {
    let mut peers = Vec::with_capacity(alloc, PEERS)?;
    for end in Vec::from_array(alloc, ends)? {
        peers.push(Peer {
            end,
            texts: Vec::new(alloc),
        })?;
    }
    Ok(peers)
}

/// Gives each peer what it sends, in this order.
fn deal<M: Mailroom>(peers: &mut Vec<Peer<M>>, sends: Vec<Sending>) -> Result<(), AllocError> {
    for Sending { peer, bytes } in sends {
        let place = (peer as usize).wrapping_sub(1);
        if let Some(peer) = peers.get_mut(place) {
            peer.texts.push(bytes)?;
        }
    }
    Ok(())
}

/// How a simulation is set up.
#[derive(Clone, Copy, Debug)]
pub struct Setup {
    /// How many clients follow the chain.
    pub clients: Clients,
    /// What is done where a block has no place among the live ones.
    pub when_full: WhenFull,
}

/// What those who act are given.
#[derive(Drop)]
struct Plan {
    sends: Vec<Sending>,
    places: Places,
    when_full: WhenFull,
}

/// Those who act in a simulation.
#[derive(Drop)]
struct Cast<S: SigScheme, B: Room, M: Mailroom> {
    reception: Reception<S, B, M>,
    peers: Vec<Peer<M>>,
    clients: Vec<Caller<B>>,
}

/// Those who have done their part.
#[derive(Drop)]
struct Ended<S: SigScheme, B: Room, M: Mailroom> {
    reception: Reception<S, B, M>,
    peers: Vec<PeerEnd<M>>,
    clients: Vec<Client<B>>,
}

/// Keeps a thread, where it was started. Where it wasn't, or memory runs out, all threads are told to end.
fn keep<T: Drop>(
    course: &Course,
    threads: &mut Vec<JoinHandle<T>>,
    started: Option<JoinHandle<T>>,
) {
    let is_kept = match started {
        Some(thread) => threads.push(thread).is_ok(),
        None => false,
    };
    if !is_kept {
        course.stop();
    }
}

/// Waits for these threads. Where memory runs out, all threads are told to end.
fn join_all<T: Drop, R: Threads>(
    rt: &R,
    alloc: Global,
    course: &Course,
    threads: Vec<JoinHandle<T>>,
) -> Vec<T> {
    let mut ended = Vec::new(alloc);
    for thread in threads {
        let end = thread.join(rt);
        if ended.push(end).is_err() {
            course.stop();
        }
    }
    ended
}

/// The clients that these threads gave back. Err where one gave none.
fn clients_of<B: Room>(
    alloc: Global,
    found: Vec<Option<Client<B>>>,
) -> Result<Vec<Client<B>>, AllocError> {
    let mut clients = Vec::with_capacity(alloc, found.len())?;
    for client in found {
        match client {
            Some(client) => clients.push(client)?,
            None => return Err(AllocError),
        }
    }
    Ok(clients)
}

/// Waits for the threads of the peers and of the clients, and answers who has done their part: all, unless the threads
/// were told to end.
fn all_ended<S: SigScheme, B: Room, M: Mailroom, R: Threads>(
    rt: &R,
    alloc: Global,
    course: &Course,
    reception: Reception<S, B, M>,
    sending: Vec<JoinHandle<PeerEnd<M>>>,
    watching: Vec<JoinHandle<Option<Client<B>>>>,
) -> Result<Ended<S, B, M>, AllocError> {
    let peers = join_all(rt, alloc, course, sending);
    let found = join_all(rt, alloc, course, watching);
    match clients_of(alloc, found) {
        Ok(clients) if !course.is_stopped() => Ok(Ended {
            reception,
            peers,
            clients,
        }),
        _ => Err(AllocError),
    }
}

/// Runs all threads, the adder on this one beside the others, and answers who has done their part once they have ended.
/// Err where a thread can't be started, or memory runs out: those that run are then told to end.
fn run_threads<
    S: SigScheme + Send + Sync,
    B: Room + Send + Sync,
    M: Mailroom + Send + Sync,
    R: Threads + Wait + Sync,
    G: Gate,
>(
    rt: &R,
    alloc: Global,
    shared: &Shared<S, B>,
    cast: Cast<S, B, M>,
    gate: &G,
) -> Result<Ended<S, B, M>, AllocError> {
    let course = Course::new();
    let course = &course;
    let Cast {
        reception,
        peers,
        clients,
    } = cast;
    thread::scope(
        thread::scope_env(),
        rt,
        move |scope| -> Result<Ended<S, B, M>, AllocError> {
            let mut sending = Vec::new(alloc);
            for (place, peer) in peers.into_iter().enumerate() {
                let sender = scope.spawn(move || run_peer(rt, course, gate, place, peer));
                keep(course, &mut sending, sender.ok());
            }
            let mut watching = Vec::new(alloc);
            for (place, caller) in clients.into_iter().enumerate() {
                let watcher = scope.spawn(move || run_client(
                    rt, shared, course, gate, place, caller,
                ));
                keep(course, &mut watching, watcher.ok());
            }
            let reception = run_adder(rt, alloc, shared, course, gate, reception);
            all_ended(rt, alloc, course, reception, sending, watching)
        },
    )
}

/// The first client meets the adder, and then each of the others meets the first.
fn meet_all<S: SigScheme + Send, B: Room, M: Mailroom, R: Wait>(
    rt: &R,
    shared: &Shared<S, B>,
    adder: &mut Adder<S, OpenGate, B, M>,
    first: &mut Client<B>,
    others: &mut [Client<B>],
)
    ensures { length others.new ≡ length others.old }
{
    adder.meet(rt, shared, &mut first.caller);
    for place in 0..others.len() {
        shared.meet(rt, &mut first.caller, &mut others[place].caller);
    }
}

/// Each client's follower is told all that is left. Answers how long the chains are that they were told.
fn ask_all<S: SigScheme, B: Room, R: Wait>(
    rt: &R,
    alloc: Global,
    shared: &Shared<S, B>,
    first: &mut Client<B>,
    others: &mut [Client<B>],
) -> Result<Vec<u64>, AllocError>
    ensures { IfOk result (λ told. length told.items ≡ length others.old + 1) }
{
    let mut told = Vec::with_capacity(alloc, others.len())?;
    first.ask_all(rt, shared)?;
    told.push(first.told())?;
    for place in 0..others.len() {
        let client = &mut others[place];
        client.ask_all(rt, shared)?;
        told.push(client.told())?;
    }
    Ok(told)
}

/// What comes of it once the threads have ended: what the inbox still has is added, and the clients learn of all.
fn summed_up<S: SigScheme + Send, B: Room, M: Mailroom, R: Threads + Wait + Sync>(
    rt: &R,
    alloc: Global,
    shared: &Shared<S, B>,
    reception: &mut Reception<S, B, M>,
    peers: &mut [PeerEnd<M>; PEERS],
    first: &mut Client<B>,
    others: &mut [Client<B>],
) -> Result<Summary, AllocError>
    ensures { IfOk result (λ summary. length summary.told.items ≡ length others.old + 1) }
{
    reception.drain(rt, alloc, shared, peers)?;
    meet_all(rt, shared, &mut reception.adder, first, others);
    let told = ask_all(rt, alloc, shared, first, others)?;
    let height = first.read_height(shared);
    let fell = first.fell() || others.iter().any(|client| client.fell());
    Ok(Summary {
        height,
        arrivals: reception.adder.counts(),
        discarded: reception.keeper.discarded(),
        fell,
        told,
    })
}

/// The same of all of them, where there is a client.
fn summary_of<S: SigScheme + Send, B: Room, M: Mailroom, R: Threads + Wait + Sync>(
    rt: &R,
    alloc: Global,
    shared: &Shared<S, B>,
    ended: Ended<S, B, M>,
) -> Result<Summary, AllocError>
    ensures { IfOk result (λ summary. length summary.told.items ≡ length ended.clients.items) }
{
    let Ended {
        mut reception,
        peers,
        mut clients,
    } = ended;
    let Ok(mut peers) = <[PeerEnd<M>; PEERS]>::try_from(peers) else {
        return Err(AllocError);
    };
    match clients.split_first_mut() {
        Some((first, others)) => {
            summed_up(rt, alloc, shared, &mut reception, &mut peers, first, others)
        }
        None => Err(AllocError),
    }
}

/// Those who act: the callers of the core, of whom the last one is the adder and the one before it keeps places free,
/// and the ends of the inbox, with what is sent.
fn cast_of<S: SigScheme + Send, B: Room, M: Mailroom>(
    alloc: Global,
    mut callers: Vec<Caller<B>>,
    ends: ([PeerEnd<M>; PEERS], AdderEnd<M>),
    plan: Plan,
) -> Result<Cast<S, B, M>, AllocError>
    requires { ends.1 ≡ no_intake }
    ensures { IfOk result (λ cast. length cast.clients.items + 2 ≡ length callers.items) }
{
    let (ends, end) = ends;
    let Plan {
        sends,
        places,
        when_full,
    } = plan;
    let mut peers = peers_of(alloc, ends)?;
    deal(&mut peers, sends)?;
    let Some(adding) = callers.pop() else {
        return Err(AllocError);
    };
    let Some(keeping) = callers.pop() else {
        return Err(AllocError);
    };
    let reception = Reception {
        adder: Adder::new(alloc, end, adding, Pool::new(OpenGate), WORKERS),
        keeper: Keeper::new(keeping, places),
        when_full,
    };
    Ok(Cast {
        reception,
        peers,
        clients: callers,
    })
}

/// Runs a simulation on a shared core with these callers, through an inbox that was opened for it.
fn simulate_on<
    S: SigScheme + Send + Sync,
    B: Room + Send + Sync,
    M: Mailroom + Send + Sync,
    R: Threads + Wait + Sync + AllocGlobal,
    G: Gate,
>(
    rt: &R,
    shared: &Shared<S, B>,
    callers: Vec<Caller<B>>,
    inbox: inbox::Opened,
    plan: Plan,
    gate: &G,
) -> Result<Summary, AllocError>
    requires table { inbox.table ≡ M.table }
    requires capacity { inbox.capacity ≡ M.capacity }
    ensures { IfOk result (λ summary. length summary.told.items + 2 ≡ length callers.items) }
{
    let ends = inbox.named::<M>()?;
    let cast = cast_of(rt.alloc(), callers, ends, plan)?;
    let many = cast.clients.len();
    let ended = run_threads(rt, rt.alloc(), shared, cast, gate)?;
    if ended.clients.len() != many {
        return Err(AllocError);
    }
    summary_of(rt, rt.alloc(), shared, ended)
}

/// Runs a simulation on a core and through an inbox that were opened for it.
#[tactic(auto, using(crate::proofs::Newcomers::newcomers_length))]
fn simulate<
    S: SigScheme + Send + Sync,
    B: Room + Send + Sync,
    R: Threads + Wait + Sync + AllocGlobal,
    G: Gate,
>(
    rt: &R,
    core: shared::Opened<S>,
    inbox: inbox::Opened,
    plan: Plan,
    gate: &G,
) -> Result<Summary, AllocError>
    requires table { core.table ≡ B.table }
    requires start { core.start ≡ B.start }
    ensures { IfOk result (λ summary. length summary.told.items + 2 ≡ core.callers) }
{
    let (shared, callers) = core.named::<B>()?;
    simulate_on::<S, B, Brand, R, G>(rt, &shared, callers, inbox, plan, gate)
}

/// Opens a core, for the clients, the adder and who keeps places free, and an inbox, and runs a simulation on them.
fn simulate_sends<S: SigScheme + Send + Sync, R: Threads + Wait + Sync + AllocGlobal, G: Gate>(
    rt: &R,
    genesis: Genesis,
    sends: Vec<Sending>,
    setup: Setup,
    gate: &G,
) -> Result<Summary, AllocError>
    ensures { IfOk result (λ summary. length summary.told.items ≡ setup.clients.many) }
{
    let callers = setup.clients.many + 2;
    let plan = Plan {
        sends,
        places: Places::of(&genesis),
        when_full: setup.when_full,
    };
    let inbox = inbox::Opened::new(rt.alloc(), PLACES).map_err(|_| AllocError)?;
    // The core is made last: what has much to drop is then not dropped at another end.
    let core = shared::Opened::new(rt.alloc(), genesis, callers).map_err(|_| AllocError)?;
    simulate::<S, Brand, R, G>(rt, core, inbox, plan, gate)
}

/// Writes what came of a simulation. Where memory runs out nothing is written.
fn print<W: Write>(
    alloc: Global,
    writer: &mut W,
    summary: &Summary,
    when_full: WhenFull,
) -> Result<(), ScenarioFault>
    ensures ok { OnOk result (Appends (W.contents writer.old) (W.contents writer.new)
        (summary_text when_full summary.now)) }
    ensures silent { IfErr result (λ why. (why ≡ ScenarioFault.WriteFailed) ⊎ (writer.new ≡ writer.old)) }
    ensures fault { IfErr result (λ why. (why ≡ ScenarioFault.OutOfMemory) ⊎ (why ≡ ScenarioFault.WriteFailed)) }
{
    let mut lines = Vec::new(alloc);
    if put_summary(&mut lines, summary, when_full).is_err() {
        return Err(ScenarioFault::OutOfMemory);
    }
    match writer.write_all(&lines) {
        Ok(()) => Ok(()),
        Err(_) => Err(ScenarioFault::WriteFailed),
    }
}

/// Runs the simulation that a script says, on a new core of this genesis. Whether a signature is good the core judges
/// by `S`, and what the script signs it signs by `scheme`: give both the same. Each peer sends what the script has it
/// send through an inbox of 8 places, from a thread of its own; the thread that calls adds what they send to the core,
/// with 4 workers; and each of the clients follows the chain and reads its height, from a thread of its own. Where a
/// block is to be added that has no place among the live ones, `setup` says whether blocks that no way leads to are
/// discarded first. When the peers have ended, what is left in the inbox is added, and the clients learn of all. Then
/// it is written how high the chain is, how many arrivals there were, how many blocks were discarded, if that was to
/// be, and what each client was told. The gate is told of each thread, on that
/// thread, before its first act and after its last: of the adder by the number 1, of the peers by those from 2 on, and
/// of the clients by those that come next.
///
/// The script is read before any thread starts: its first fault is told as [`scenario::sends`] tells it. Where memory
/// runs out, or a thread can't be started, those that run are told to end, and `OutOfMemory` is answered once they
/// have. Waits for all threads that it starts.
pub fn sim<
    S: SigScheme + Send + Sync,
    R: Threads + Wait + Sync + AllocGlobal,
    I: BufRead,
    W: Write,
    G: Gate,
>(
    rt: &R,
    genesis: Genesis,
    scheme: Scheme,
    reader: &mut I,
    writer: &mut W,
    setup: Setup,
    gate: &G,
) -> Result<(), ScenarioFault>
    // Lines are written of some summary, with a follower for each client, and nothing else.
    ensures ok { OnOk result ((summary : Summary) × (length summary.told.items ≡ setup.clients.many)
        × Appends (W.contents writer.old) (W.contents writer.new) (summary_text setup.when_full summary)) }
    // The script has no fault then, and was read whole.
    ensures script { OnOk result (IfSome (I.remaining reader.old) (λ text.
        IsFaultless (no_names scheme genesis.params.network) text × (I.remaining reader.new ≡ Some []))) }
    // A fault is what `sends` tells: the script's first one, or that reading failed or memory ran out on the way. Or
    // the script has none and was read whole, and memory ran out then, or it couldn't be written.
    ensures fault { IfErr result (λ why. IfSome (I.remaining reader.old)
        (λ text. IsSimFault (no_names scheme genesis.params.network) text (I.remaining reader.new) why)) }
    // Nothing is written, but where it is told that writing failed.
    ensures silent { IfErr result (λ why. (why ≡ ScenarioFault.WriteFailed) ⊎ (writer.new ≡ writer.old)) }
{
    let sends = scenario::sends(rt.alloc(), &genesis, scheme, reader, PEERS as u64)?;
    let Ok(summary) = simulate_sends::<S, R, G>(rt, genesis, sends, setup, gate) else {
        return Err(ScenarioFault::OutOfMemory);
    };
    print(rt.alloc(), writer, &summary, setup.when_full)
}
