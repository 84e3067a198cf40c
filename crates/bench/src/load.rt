//! Four peers that send blocks, of which one in three is bad, beside eight clients that submit, follow and read
//! heights: how long it takes, and that nothing is lost.

ghost use Rattle.std.specs.Prelude.{◌≡◌};

use crate::networks::{FAR_BACK, genesis};
use crate::peers::{Sender, Work, bring_if, dealt, send_each};
use crate::texts::{End, genesis_id, put_payments};
use crate::timing::{Telling, nanos_if, now, print};
use chain_core::{FollowerId, Instruction};
use inbox::{Mailroom, PEERS};
use mempool::SubmitReply;
use shared::{Adder, Caller, Room, Shared};
use std::alloc::Global;
use std::marker::Brand;
use std::rt::Clock;
use std::sync::Wait;
use std::sync::atomic::{AtomicBool, Ordering};
use std::thread::Threads;
use std::{io, thread};
use witness_pool::{OpenGate, Pool, TestScheme};

/// How many texts are sent, every third of which is bad, and how many blocks there are beside these.
const TEXTS: u64 = 100_000;

const BLOCKS: u64 = 66_667;

/// How many peers send them.
const SENDING: usize = 4;

/// How many clients there are.
const CLIENTS: usize = 8;

/// The most times that a client submits, asks what is next, and reads the height.
const ROUNDS: u64 = 20_000;

/// How many workers check transactions.
const WORKERS: usize = 2;

/// How many places the inbox has.
const PLACES: usize = 64;

/// The texts that are sent. A bad one is the block before with another last byte, which is none.
fn texts_sent(alloc: Global) -> Vec<Vec<u8>> {
    let mut texts: Vec<Vec<u8>> = Vec::new(alloc);
    let mut end = End::genesis();
    for n in 0..TEXTS {
        if n % 3 == 2 {
            let mut bad = Vec::new(alloc);
            if let Some(text) = texts.last() {
                let _ = bad.extend_from_slice(text);
            }
            let _ = bad.pop();
            let _ = bad.push(0x81);
            let _ = texts.push(bad);
        } else {
            end.put_next(alloc, &mut texts, 0);
        }
    }
    texts
}

/// One who submits a payment again and again, follows the chain and reads its height.
#[derive(Drop)]
struct Client<B: Room> {
    caller: Caller<B>,
    follower: FollowerId,
    payment: Vec<u8>,
    /// How many calls it made, and how often its payment was added.
    calls: u64,
    added: u64,
    /// How long the chain is that its follower was told.
    told: u64,
    /// The height that it read last, and whether one was less than one before.
    height: u64,
    fell: bool,
}

impl<B: Room> Client<B> {
    /// Submits the payment.
    fn submit<R: Wait>(&mut self, rt: &R, shared: &Shared<TestScheme, B>) {
        if let Ok(SubmitReply::Added) = shared.submit(rt, &mut self.caller, &self.payment) {
            self.added = self.added.saturating_add(1);
        }
    }

    /// Asks what the follower is told next, and answers whether it was told anything.
    fn ask<R: Wait>(&mut self, rt: &R, shared: &Shared<TestScheme, B>) -> bool {
        match shared.next(rt, &mut self.caller, self.follower) {
            Ok(Some(Instruction::AddBlock(_))) => {
                self.told = self.told.saturating_add(1);
                true
            }
            Ok(Some(Instruction::RollBack(point))) => {
                self.told = point.number;
                true
            }
            _ => false,
        }
    }

    /// Reads the height.
    fn look(&mut self, shared: &Shared<TestScheme, B>) {
        let height = shared.height(&mut self.caller);
        self.fell |= height < self.height;
        self.height = height;
    }

    /// Makes its calls until it is told to end.
    fn visit<R: Wait>(&mut self, rt: &R, shared: &Shared<TestScheme, B>, ended: &AtomicBool) {
        for _ in 0..ROUNDS {
            if ended.load(Ordering::SeqCst) {
                break;
            }
            self.submit(rt, shared);
            self.ask(rt, shared);
            self.look(shared);
            self.calls = self.calls.saturating_add(3);
        }
    }

    /// Asks until nothing is told any more.
    fn catch_up<R: Wait>(&mut self, rt: &R, shared: &Shared<TestScheme, B>) {
        for _ in rt.forever() {
            if !self.ask(rt, shared) {
                return;
            }
        }
    }
}

/// What a client's thread does: it visits the core until it is told to end.
fn visited<B: Room, R: Wait>(
    rt: &R,
    shared: &Shared<TestScheme, B>,
    mut client: Client<B>,
    ended: &AtomicBool,
) -> Client<B> {
    client.visit(rt, shared, ended);
    client
}

/// The clients, each with a caller and a payment of its own.
fn clients_of<B: Room, R: Wait>(
    rt: &R,
    alloc: Global,
    shared: &Shared<TestScheme, B>,
    callers: Vec<Caller<B>>,
) -> Option<Vec<Client<B>>> {
    let mut payments: Vec<Vec<u8>> = Vec::new(alloc);
    put_payments(alloc, &mut payments, genesis_id(), 1_000, CLIENTS as u16);
    let mut clients = Vec::new(alloc);
    for mut caller in callers {
        let payment = payments.pop()?;
        let follower = shared.open(rt, &mut caller).ok()?;
        let client = Client {
            caller,
            follower,
            payment,
            calls: 0,
            added: 0,
            told: 0,
            height: 0,
            fell: false,
        };
        clients.push(client).ok()?;
    }
    Some(clients)
}

/// The clients, who have done their part, and how long all arrivals took, if every thread could be started.
#[derive(Drop)]
struct Ended<B: Room> {
    clients: Vec<Client<B>>,
    brought: Option<Work>,
}

/// Runs all threads, the adder on this one.
fn run_threads<B: Room + Send + Sync, M: Mailroom + Send + Sync, R: Threads + Wait + Clock + Sync>(
    rt: &R,
    alloc: Global,
    shared: &Shared<TestScheme, B>,
    adder: &mut Adder<TestScheme, OpenGate, B, M>,
    senders: Vec<Sender<M>>,
    clients: Vec<Client<B>>,
) -> Ended<B> {
    let ended = AtomicBool::new(false);
    let ended = &ended;
    thread::scope(thread::scope_env(), rt, move |scope| -> Ended<B> {
        let mut all = true;
        let mut visiting = Vec::new(alloc);
        for client in clients {
            let visitor = scope.spawn(move || visited(rt, shared, client, ended));
            match visitor {
                Ok(visitor) => all &= visiting.push(visitor).is_ok(),
                Err(_) => all = false,
            }
        }
        for sender in senders {
            all &= scope.spawn(move || send_each(rt, sender, ended)).is_ok();
        }
        let brought = bring_if(all, rt, shared, adder, TEXTS, ended);
        let mut clients = Vec::new(alloc);
        for visitor in visiting {
            // One that is lost here is missed when all are counted.
            let _ = clients.push(visitor.join(rt));
        }
        Ended { clients, brought }
    })
}

/// Whether each sending peer's texts were all brought, and nothing of the others.
fn are_counted(counts: &[u64; PEERS]) -> bool {
    let each = TEXTS / SENDING as u64;
    let mut all = true;
    for (place, count) in counts.iter().enumerate() {
        let sent = if place < SENDING { each } else { 0 };
        all &= *count == sent;
    }
    all
}

/// Whether a client learns of all blocks once it met the adder, no height fell, and its payment was added just once.
fn learns_all<B: Room, M: Mailroom, R: Wait>(
    rt: &R,
    shared: &Shared<TestScheme, B>,
    adder: &mut Adder<TestScheme, OpenGate, B, M>,
    client: &mut Client<B>,
) -> bool {
    adder.meet(rt, shared, &mut client.caller);
    client.look(shared);
    client.catch_up(rt, shared);
    client.told == BLOCKS && client.height == BLOCKS && client.added == 1 && !client.fell
}

/// What was done by the adder, and how many calls the clients made. None where anything was lost.
fn summed_up<B: Room, M: Mailroom, R: Wait>(
    rt: &R,
    shared: &Shared<TestScheme, B>,
    adder: &mut Adder<TestScheme, OpenGate, B, M>,
    clients: &mut [Client<B>],
    brought: Work,
) -> Option<(Work, u64)> {
    let mut all = are_counted(&adder.counts()) && clients.len() == CLIENTS;
    let mut calls = 0u64;
    for client in clients {
        calls = calls.saturating_add(client.calls);
        all &= learns_all(rt, shared, adder, client);
    }
    if all { Some((brought, calls)) } else { None }
}

/// Opens the inbox under a name, and runs all. None where it can't be made, or anything was lost.
fn run_inbox<B: Room + Send + Sync, M: Mailroom + Send + Sync, R: Threads + Wait + Clock + Sync>(
    rt: &R,
    alloc: Global,
    shared: &Shared<TestScheme, B>,
    mut callers: Vec<Caller<B>>,
    inbox: inbox::Opened,
) -> Option<(Work, u64)>
    requires queue { inbox.table ≡ M.table }
    requires capacity { inbox.capacity ≡ M.capacity }
{
    let caller = callers.pop()?;
    let (ends, end) = inbox.named::<M>().ok()?;
    let senders = dealt(alloc, ends, SENDING, texts_sent(alloc))?;
    let clients = clients_of(rt, alloc, shared, callers)?;
    let mut adder = Adder::new(alloc, end, caller, Pool::new(OpenGate), WORKERS);
    let mut ended = run_threads(rt, alloc, shared, &mut adder, senders, clients);
    summed_up(
        rt,
        shared,
        &mut adder,
        ended.clients.as_mut_slice(),
        ended.brought?,
    )
}

/// Opens the core under a name, and runs all. None where it can't be made, or anything was lost.
fn run_core<B: Room + Send + Sync, R: Threads + Wait + Clock + Sync>(
    rt: &R,
    alloc: Global,
    opened: shared::Opened<TestScheme>,
    inbox: inbox::Opened,
) -> Option<(Work, u64)>
    requires table { opened.table ≡ B.table }
    requires start { opened.start ≡ B.start }
{
    let (shared, callers) = opened.named::<B>().ok()?;
    run_inbox::<B, Brand, R>(rt, alloc, &shared, callers, inbox)
}

/// Runs all. None where it can't be made, or anything was lost.
fn time<R: Threads + Wait + Clock + Sync>(rt: &R, alloc: Global) -> Option<(Work, u64)> {
    let inbox = inbox::Opened::new(alloc, PLACES).ok()?;
    let genesis = genesis(alloc, FAR_BACK)?;
    let opened = shared::Opened::new(alloc, genesis, CLIENTS + 1).ok()?;
    run_core::<Brand, R>(rt, alloc, opened, inbox)
}

/// Runs all, and prints what a text took, and how many calls the clients made meanwhile. Err where anything was lost.
pub fn measure<R: Threads + Wait + Clock + Print + Sync>(rt: &R, alloc: Global) -> io::Result<()> {
    let Some((brought, calls)) = time(rt, alloc) else {
        return Err(io::ErrorKind::Other.into());
    };
    print(
        rt,
        Telling::Times,
        "Adder::run beside clients",
        TEXTS,
        TEXTS,
        brought.nanos,
    )?;
    println!(rt;
        "calls of 8 clients meanwhile: {calls}; no height fell, each was told {BLOCKS} blocks"
    )
}
