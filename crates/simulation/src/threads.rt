//! What the threads of a simulation do.

ghost use Rattle.std.specs.Prelude.{◌<◌, ◌≤◌, ◌↔◌, ◌⊎◌, IsTrue};

use crate::course::Course;
use chain_core::{FollowerId, Instruction};
use inbox::{Mailroom, PEERS, PeerEnd};
use reception::Reception;
use shared::{Caller, Room, Shared};
use std::alloc::{AllocError, Global};
use std::sync::Wait;
use std::thread;
use std::thread::Threads;
use witness_pool::{Gate, SigScheme};

/// The numbers under which a gate is told of the threads: the adder's, the first peer's, and the first client's.
const ADDER: usize = 1;

const FIRST_PEER: usize = ADDER + 1;

const FIRST_CLIENT: usize = FIRST_PEER + PEERS;

/// How often a client asks what is next and how high the chain is while others send.
const ROUNDS: u64 = 1_000;

/// Takes in what is sent until the peers have ended. Where memory runs out for an arrival, which then stays with the
/// adder, all threads are told to end.
fn add<S: SigScheme + Send, B: Room, M: Mailroom, R: Threads + Wait + Sync>(
    rt: &R,
    alloc: Global,
    shared: &Shared<S, B>,
    reception: &mut Reception<S, B, M>,
    course: &Course,
) {
    for _ in rt.forever() {
        if course.is_over() {
            break;
        }
        match reception.bring_next(rt, alloc, shared) {
            Ok(None) => thread::yield_now(),
            Ok(Some(_reply)) => {}
            Err(AllocError) => course.stop(),
        }
    }
}

/// What the adder's thread does.
pub fn run_adder<S: SigScheme + Send, B: Room, M: Mailroom, R: Threads + Wait + Sync, G: Gate>(
    rt: &R,
    alloc: Global,
    shared: &Shared<S, B>,
    course: &Course,
    gate: &G,
    mut reception: Reception<S, B, M>,
) -> Reception<S, B, M> {
    gate.start(ADDER);
    add(rt, alloc, shared, &mut reception, course);
    gate.done(ADDER);
    reception
}

/// A peer with the texts that it is to send.
#[derive(Drop)]
pub struct Peer<M: Mailroom> {
    /// Where it sends.
    pub end: PeerEnd<M>,
    /// What it sends, in this order.
    pub texts: Vec<Vec<u8>>,
}

/// Sends these bytes, and tries again where the inbox is full. Answers whether they were sent: not where all threads
/// were told to end before.
fn send<M: Mailroom, R: Wait>(
    rt: &R,
    peer: &mut PeerEnd<M>,
    bytes: Vec<u8>,
    course: &Course,
) -> bool {
    let mut unsent = bytes;
    for _ in rt.forever() {
        match peer.send(rt, unsent) {
            Ok(()) => return true,
            Err(full) => unsent = full.bytes,
        }
        if course.is_stopped() {
            return false;
        }
        thread::yield_now();
    }
    unreachable!()
}

/// Sends each of these texts, in their order.
fn send_all<M: Mailroom, R: Wait>(
    rt: &R,
    end: &mut PeerEnd<M>,
    texts: Vec<Vec<u8>>,
    course: &Course,
) {
    for text in texts {
        if !send(rt, end, text, course) {
            break;
        }
    }
}

/// What the thread of a peer does. Its place among the peers is counted from 0.
pub fn run_peer<M: Mailroom, R: Wait, G: Gate>(
    rt: &R,
    course: &Course,
    gate: &G,
    place: usize,
    peer: Peer<M>,
) -> PeerEnd<M> {
    let number = FIRST_PEER.saturating_add(place);
    gate.start(number);
    let Peer { mut end, texts } = peer;
    send_all(rt, &mut end, texts, course);
    course.end_peer();
    gate.done(number);
    end
}

/// One who follows the chain and reads its height.
#[derive(Drop)]
pub struct Client<B: Room> {
    pub caller: Caller<B>,
    follower: FollowerId,
    told: u64,
    highest: u64,
    fell: bool,
}

impl<B: Room> Client<B> {
    /// A client with a follower of its own. Err where memory runs out.
    fn open<S: SigScheme, R: Wait>(
        rt: &R,
        shared: &Shared<S, B>,
        mut caller: Caller<B>,
    ) -> Result<Client<B>, AllocError> {
        // A new core has a number for more followers than there are clients: what is refused is memory.
        let Ok(follower) = shared.open(rt, &mut caller) else {
            return Err(AllocError);
        };
        Ok(Client {
            caller,
            follower,
            told: 0,
            highest: 0,
            fell: false,
        })
    }

    /// How long the chain is that the follower was told.
    pub fn told(&self) -> u64 {
        self.told
    }

    /// Whether a height that was read was less than one that was read before.
    pub fn fell(&self) -> bool {
        self.fell
    }

    /// Reads the height.
    pub fn read_height<S: SigScheme>(&mut self, shared: &Shared<S, B>) -> u64
        ensures fell { IsTrue self.new.fell ↔ (IsTrue self.old.fell ⊎ (result < self.old.highest)) }
        ensures highest { (result ≤ self.new.highest) × (self.old.highest ≤ self.new.highest) }
    {
        let height = shared.height(&mut self.caller);
        if height < self.highest {
            self.fell = true;
        } else {
            self.highest = height;
        }
        height
    }

    /// Asks what the follower is told next, and answers whether it was told anything. Err where memory runs out.
    fn ask<S: SigScheme, R: Wait>(
        &mut self,
        rt: &R,
        shared: &Shared<S, B>,
    ) -> Result<bool, AllocError> {
        // The follower is open: what is refused is memory.
        match shared.next(rt, &mut self.caller, self.follower) {
            Ok(None) => Ok(false),
            Ok(Some(Instruction::AddBlock(_))) => {
                self.told = self.told.saturating_add(1);
                Ok(true)
            }
            Ok(Some(Instruction::RollBack(point))) => {
                self.told = point.number;
                Ok(true)
            }
            Err(_) => Err(AllocError),
        }
    }

    /// Asks until the follower is told nothing more. Err where memory runs out.
    pub fn ask_all<S: SigScheme, R: Wait>(
        &mut self,
        rt: &R,
        shared: &Shared<S, B>,
    ) -> Result<(), AllocError> {
        for _ in rt.forever() {
            if !self.ask(rt, shared)? {
                return Ok(());
            }
        }
        unreachable!()
    }

    /// Asks what is next and reads the height, many times.
    fn watch_long<S: SigScheme, R: Wait>(
        &mut self,
        rt: &R,
        shared: &Shared<S, B>,
        course: &Course,
    ) -> Result<(), AllocError> {
        for _ in 0..ROUNDS {
            if course.is_stopped() {
                break;
            }
            self.ask(rt, shared)?;
            self.read_height(shared);
        }
        Ok(())
    }
}

/// Opens a follower, and then asks what it is told next and reads the height, many times. Where memory runs out, all
/// threads are told to end. None where it ran out before the follower was open.
fn watch<S: SigScheme, B: Room, R: Wait>(
    rt: &R,
    shared: &Shared<S, B>,
    course: &Course,
    caller: Caller<B>,
) -> Option<Client<B>> {
    let Ok(mut client) = Client::open(rt, shared, caller) else {
        course.stop();
        return None;
    };
    if client.watch_long(rt, shared, course).is_err() {
        course.stop();
    }
    Some(client)
}

/// What the thread of a client does. Its place among the clients is counted from 0.
pub fn run_client<S: SigScheme, B: Room, R: Wait, G: Gate>(
    rt: &R,
    shared: &Shared<S, B>,
    course: &Course,
    gate: &G,
    place: usize,
    caller: Caller<B>,
) -> Option<Client<B>> {
    let number = FIRST_CLIENT.saturating_add(place);
    gate.start(number);
    let client = watch(rt, shared, course, caller);
    gate.done(number);
    client
}
