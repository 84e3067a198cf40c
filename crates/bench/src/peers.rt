//! Blocks that peers send from threads of their own, brought to a shared core by an adder, while one caller reads the
//! height.

ghost use Rattle.std.specs.Prelude.{◌≡◌};
ghost use Rattle.witness_pool.specs.Workers.{AreWorkers};

use crate::networks::{FAR_BACK, ed25519_genesis, genesis};
use crate::reopening::{empty_blocks, paying_blocks};
use crate::texts::TEST_SIGNER;
use crate::timing::{Telling, nanos_if, now, print};
use ed25519::SecretKey;
use genesis::Genesis;
use inbox::{Mailroom, PEERS, PeerEnd};
use shared::{Adder, Caller, Room, Shared};
use std::alloc::Global;
use std::marker::Brand;
use std::rt::Clock;
use std::sync::Wait;
use std::sync::atomic::{AtomicBool, Ordering};
use std::thread::Threads;
use std::{io, thread};
use witness_pool::{Ed25519, OpenGate, Pool, SigScheme, TestScheme};

/// How many places the inbox has.
const PLACES: usize = 64;

/// How often the adder tries to take before it looks how many it has brought.
const TURNS: u64 = 64;

/// The most times that it is asked.
const MOST_READS: u64 = 1_000_000_000;

/// How many calls a thread made, and how long they took together.
#[derive(Clone, Copy)]
pub struct Work {
    pub calls: u64,
    pub nanos: Option<u128>,
}

/// What was done by the adder, and by the one who watched.
#[derive(Clone, Copy)]
struct Measured {
    brought: Work,
    watched: Work,
}

/// A peer with what it sends.
#[derive(Drop)]
pub struct Sender<M: Mailroom> {
    end: PeerEnd<M>,
    texts: Vec<Vec<u8>>,
}

/// Sends each of the texts, and tries again where the inbox is full, until all is to end.
pub fn send_each<M: Mailroom, R: Wait>(rt: &R, sender: Sender<M>, ended: &AtomicBool) {
    let Sender { mut end, texts } = sender;
    for text in texts {
        let mut unsent = text;
        'tries: for _ in rt.forever() {
            match end.send(rt, unsent) {
                Ok(()) => break 'tries,
                Err(full) => unsent = full.bytes,
            }
            if ended.load(Ordering::SeqCst) {
                return;
            }
            thread::yield_now();
        }
    }
}

/// The first `many` peers, each with every `many`-th of the blocks.
pub fn dealt<M: Mailroom>(
    alloc: Global,
    ends: [PeerEnd<M>; PEERS],
    many: usize,
    texts: Vec<Vec<u8>>,
) -> Option<Vec<Sender<M>>> {
    let mut senders = Vec::new(alloc);
    for end in Vec::from_array(alloc, ends).ok()? {
        let texts = Vec::new(alloc);
        senders.push(Sender { end, texts }).ok()?;
    }
    for (n, text) in texts.into_iter().enumerate() {
        let place = n.checked_rem(many)?;
        senders.get_mut(place)?.texts.push(text).ok()?;
    }
    Some(senders)
}

/// Brings `blocks` blocks, however often it has to be tried. Where memory runs out it is tried again.
fn bring_all<S: SigScheme + Send, B: Room, M: Mailroom, R: Threads + Wait + Sync>(
    rt: &R,
    shared: &Shared<S, B>,
    adder: &mut Adder<S, OpenGate, B, M>,
    blocks: u64,
) {
    let mut left = blocks;
    for _ in rt.forever() {
        if left == 0 {
            return;
        }
        let many = adder.run(rt, shared, TURNS).unwrap_or(0);
        left = left.saturating_sub(many);
        if many == 0 {
            thread::yield_now();
        }
    }
}

/// Brings all blocks, and tells how long that took. Whoever watches is then to end.
fn bring<S: SigScheme + Send, B: Room, M: Mailroom, R: Threads + Wait + Clock + Sync>(
    rt: &R,
    shared: &Shared<S, B>,
    adder: &mut Adder<S, OpenGate, B, M>,
    blocks: u64,
    ended: &AtomicBool,
) -> Work {
    let start = now(rt);
    bring_all(rt, shared, adder, blocks);
    let nanos = nanos_if(rt, start, true);
    ended.store(true, Ordering::SeqCst);
    Work {
        calls: blocks,
        nanos,
    }
}

/// The same where every thread could be started. Else those that were are to end.
pub fn bring_if<S: SigScheme + Send, B: Room, M: Mailroom, R: Threads + Wait + Clock + Sync>(
    all_started: bool,
    rt: &R,
    shared: &Shared<S, B>,
    adder: &mut Adder<S, OpenGate, B, M>,
    blocks: u64,
    ended: &AtomicBool,
) -> Option<Work> {
    if all_started {
        return Some(bring(rt, shared, adder, blocks, ended));
    }
    ended.store(true, Ordering::SeqCst);
    None
}

/// What the one who watches asks.
#[derive(Clone, Copy)]
enum Question {
    Height,
    Tip,
    Utxo,
}

impl Question {
    /// The call that asks so.
    fn name(self) -> &'static str {
        match self {
            Question::Height => "Shared::height meanwhile",
            Question::Tip => "Shared::tip meanwhile",
            Question::Utxo => "Shared::utxo meanwhile",
        }
    }

    /// Asks once. What is answered goes.
    fn ask<S: SigScheme, B: Room, R: Wait>(
        self,
        rt: &R,
        shared: &Shared<S, B>,
        caller: &mut Caller<B>,
    ) {
        match self {
            Question::Height => {
                shared.height(caller);
            }
            Question::Tip => {
                shared.tip(rt, caller);
            }
            Question::Utxo => {
                let _ = shared.utxo(rt, caller);
            }
        }
    }
}

/// Asks until it is told to end, and tells how often.
fn watch_until<S: SigScheme, B: Room, R: Wait>(
    rt: &R,
    shared: &Shared<S, B>,
    caller: &mut Caller<B>,
    question: Question,
    ended: &AtomicBool,
) -> u64 {
    let mut calls = 0u64;
    for _ in 0..MOST_READS {
        if ended.load(Ordering::SeqCst) {
            break;
        }
        question.ask(rt, shared, caller);
        calls = calls.saturating_add(1);
    }
    calls
}

/// Asks until it is told to end, and tells how long that took.
fn watch<S: SigScheme, R: Clock + Wait, B: Room>(
    rt: &R,
    shared: &Shared<S, B>,
    mut caller: Caller<B>,
    question: Question,
    ended: &AtomicBool,
) -> Work {
    let start = now(rt);
    let calls = watch_until(rt, shared, &mut caller, question, ended);
    Work {
        calls,
        nanos: nanos_if(rt, start, true),
    }
}

/// Two of the callers.
fn two_of<B: Room>(callers: &mut Vec<Caller<B>>) -> Option<(Caller<B>, Caller<B>)> {
    let one = callers.pop()?;
    let other = callers.pop()?;
    Some((one, other))
}

/// Each peer sends from a thread of its own what this thread brings, while another asks. None where a thread couldn't
/// be started.
fn run_all<
    S: SigScheme + Send + Sync,
    B: Room + Send + Sync,
    M: Mailroom + Send + Sync,
    R: Threads + Wait + Clock + Sync,
>(
    rt: &R,
    shared: &Shared<S, B>,
    adder: &mut Adder<S, OpenGate, B, M>,
    senders: Vec<Sender<M>>,
    watcher: Caller<B>,
    question: Question,
    blocks: u64,
) -> Option<Measured> {
    let ended = AtomicBool::new(false);
    let ended = &ended;
    thread::scope(thread::scope_env(), rt, move |scope| -> Option<Measured> {
        let watching = scope.spawn(move || watch(rt, shared, watcher, question, ended));
        let mut all = true;
        for sender in senders {
            all &= scope.spawn(move || send_each(rt, sender, ended)).is_ok();
        }
        let brought = bring_if(all, rt, shared, adder, blocks, ended);
        let watched = watching.ok()?.join(rt);
        Some(Measured {
            brought: brought?,
            watched,
        })
    })
}

/// What is run: blocks, which `peers` peers send, and whose transactions `workers` workers check; and what is asked
/// meanwhile.
#[derive(Drop)]
struct Load {
    texts: Vec<Vec<u8>>,
    peers: usize,
    workers: usize,
    question: Question,
}

/// Opens the inbox under a name, and runs the measurement. None where it can't be made.
fn run_inbox<
    S: SigScheme + Send + Sync,
    B: Room + Send + Sync,
    M: Mailroom + Send + Sync,
    R: Threads + Wait + Clock + Sync,
>(
    rt: &R,
    alloc: Global,
    shared: &Shared<S, B>,
    callers: &mut Vec<Caller<B>>,
    inbox: inbox::Opened,
    load: Load,
) -> Option<Measured>
    requires queue { inbox.table ≡ M.table }
    requires capacity { inbox.capacity ≡ M.capacity }
    requires workers { AreWorkers load.workers }
{
    let (watcher, caller) = two_of(callers)?;
    let (ends, end) = inbox.named::<M>().ok()?;
    let blocks = load.texts.len() as u64;
    let senders = dealt(alloc, ends, load.peers, load.texts)?;
    let mut adder = Adder::new(alloc, end, caller, Pool::new(OpenGate), load.workers);
    run_all(
        rt,
        shared,
        &mut adder,
        senders,
        watcher,
        load.question,
        blocks,
    )
}

/// Opens the core under a name, and runs the measurement. None where it can't be made.
fn run_core<S: SigScheme + Send + Sync, B: Room + Send + Sync, R: Threads + Wait + Clock + Sync>(
    rt: &R,
    alloc: Global,
    opened: shared::Opened<S>,
    inbox: inbox::Opened,
    load: Load,
) -> Option<Measured>
    requires table { opened.table ≡ B.table }
    requires start { opened.start ≡ B.start }
    requires workers { AreWorkers load.workers }
{
    let (shared, mut callers) = opened.named::<B>().ok()?;
    run_inbox::<S, B, Brand, R>(rt, alloc, &shared, &mut callers, inbox, load)
}

/// Runs the measurement on a network of this genesis. None where it can't be made.
fn time<S: SigScheme + Send + Sync, R: Threads + Wait + Clock + Sync>(
    rt: &R,
    alloc: Global,
    genesis: Option<Genesis>,
    load: Load,
) -> Option<Measured>
    requires { AreWorkers load.workers }
{
    let inbox = inbox::Opened::new(alloc, PLACES).ok()?;
    let opened = shared::Opened::new(alloc, genesis?, 2).ok()?;
    run_core::<S, Brand, R>(rt, alloc, opened, inbox, load)
}

/// Runs the measurement on a network of this genesis, and prints its names, or what it took a block and a question.
fn measure_load<S: SigScheme + Send + Sync, R: Threads + Wait + Clock + Print + Sync>(
    rt: &R,
    alloc: Global,
    telling: Telling,
    name: &str,
    genesis: Option<Genesis>,
    load: Load,
) -> io::Result<()>
    requires { AreWorkers load.workers }
{
    let blocks = load.texts.len() as u64;
    let question = load.question;
    let none = Work {
        calls: 0,
        nanos: None,
    };
    let (brought, watched) = match time::<S, R>(rt, alloc, genesis, load) {
        Some(Measured { brought, watched }) => (brought, watched),
        None => (none, none),
    };
    print(rt, telling, name, blocks, brought.calls, brought.nanos)?;
    print(
        rt,
        telling,
        question.name(),
        blocks,
        watched.calls,
        watched.nanos,
    )
}

/// Runs the measurement of `blocks` blocks without transactions, from 1, 2, 4 and all peers.
fn measure_empty<R: Threads + Wait + Clock + Print + Sync>(
    rt: &R,
    alloc: Global,
    telling: Telling,
    blocks: u64,
) -> io::Result<()> {
    for (name, peers) in [
        ("Adder::run, 1 peer", 1),
        ("Adder::run, 2 peers", 2),
        ("Adder::run, 4 peers", 4),
        ("Adder::run, all peers", PEERS),
    ] {
        let load = Load {
            texts: empty_blocks(alloc, blocks),
            peers,
            workers: 1,
            question: Question::Height,
        };
        let genesis = genesis(alloc, FAR_BACK);
        measure_load::<TestScheme, R>(rt, alloc, telling, name, genesis, load)?;
    }
    Ok(())
}

/// Runs the measurement of blocks of a hundred payments, from 4 peers.
fn measure_paying<R: Threads + Wait + Clock + Print + Sync>(
    rt: &R,
    alloc: Global,
    name: &str,
    workers: usize,
    question: Question,
) -> io::Result<()>
    requires { AreWorkers workers }
{
    let load = Load {
        texts: paying_blocks(alloc, &TEST_SIGNER, 100),
        peers: 4,
        workers,
        question,
    };
    let genesis = genesis(alloc, FAR_BACK);
    measure_load::<TestScheme, R>(rt, alloc, Telling::Times, name, genesis, load)
}

/// The same under Ed25519.
fn measure_ed25519<R: Threads + Wait + Clock + Print + Sync>(
    rt: &R,
    alloc: Global,
    name: &str,
    workers: usize,
) -> io::Result<()>
    requires { AreWorkers workers }
{
    let load = Load {
        texts: paying_blocks(alloc, &SecretKey::from_seed([1; 32]), 100),
        peers: 4,
        workers,
        question: Question::Height,
    };
    let genesis = ed25519_genesis(alloc, FAR_BACK);
    measure_load::<Ed25519, R>(rt, alloc, Telling::Times, name, genesis, load)
}

/// Runs each measurement, and prints what it took; where names are asked for, one of a few blocks.
pub fn measure<R: Threads + Wait + Clock + Print + Sync>(
    rt: &R,
    alloc: Global,
    telling: Telling,
) -> io::Result<()> {
    if telling == Telling::Names {
        return measure_empty(rt, alloc, telling, 100);
    }
    measure_empty(rt, alloc, telling, 100_000)?;
    let question = Question::Height;
    measure_paying(rt, alloc, "Adder::run on payments, 1 worker", 1, question)?;
    measure_paying(rt, alloc, "Adder::run on payments, 2 workers", 2, question)?;
    measure_paying(rt, alloc, "Adder::run on payments, 4 workers", 4, question)?;
    measure_ed25519(rt, alloc, "Adder::run on payments, Ed25519, 1 worker", 1)?;
    measure_ed25519(rt, alloc, "Adder::run on payments, Ed25519, 2 workers", 2)?;
    measure_ed25519(rt, alloc, "Adder::run on payments, Ed25519, 4 workers", 4)
}

/// Runs the measurement of blocks of a hundred payments with a question that waits for the lock, and prints what it
/// took.
pub fn measure_questions<R: Threads + Wait + Clock + Print + Sync>(
    rt: &R,
    alloc: Global,
) -> io::Result<()> {
    measure_paying(rt, alloc, "Adder::run on payments", 1, Question::Tip)?;
    measure_paying(rt, alloc, "Adder::run on payments", 1, Question::Utxo)
}
