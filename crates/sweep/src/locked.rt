//! Calls of a core that is shared under a lock, and blocks that an adder brings to it.

ghost use Rattle.std.specs.Prelude.{◌≡◌};

use crate::locked_calls::{Call, close, forward, make_call, submit};
use crate::network::{bytes_of, genesis, names, points_of, text_of};
use crate::told::Told;
use ident::Point;
use inbox::{Mailroom, PEERS, PeerEnd};
use shared::{Adder, Caller, Opened, Room, Shared};
use std::alloc::Global;
use std::marker::Brand;
use std::sync::Wait;
use std::thread::Threads;
use witness_pool::{OpenGate, Pool, TestScheme};

/// A shared core under its name, and its callers.
#[derive(Drop)]
struct Named<B: Room> {
    shared: Shared<TestScheme, B>,
    callers: Vec<Caller<B>>,
}

/// A shared core, its adder, who has two workers, with the peers who send to it, and a caller.
#[derive(Drop)]
struct Parts<B: Room, M: Mailroom> {
    shared: Box<Named<B>>,
    adder: Adder<TestScheme, OpenGate, B, M>,
    peers: [PeerEnd<M>; PEERS],
    caller: Caller<B>,
}

/// The core under its name, in a box, whose drop is a call.
fn name_core<B: Room>(alloc: Global, opened: Opened<TestScheme>) -> Option<Box<Named<B>>>
    requires table { opened.table ≡ B.table }
    requires start { opened.start ≡ B.start }
{
    let (shared, callers) = opened.named::<B>().ok()?;
    Box::new(alloc, Named { shared, callers }).ok()
}

/// Two of the callers.
fn two_of<B: Room>(callers: &mut Vec<Caller<B>>) -> Option<(Caller<B>, Caller<B>)> {
    let one = callers.pop()?;
    let other = callers.pop()?;
    Some((one, other))
}

/// The core and an inbox under their names. What has much to drop is made last, behind all that may fail.
fn name_all<B: Room, M: Mailroom>(
    alloc: Global,
    opened: Opened<TestScheme>,
    inbox: inbox::Opened,
) -> Option<Parts<B, M>>
    requires table { opened.table ≡ B.table }
    requires start { opened.start ≡ B.start }
    requires queue { inbox.table ≡ M.table }
    requires capacity { inbox.capacity ≡ M.capacity }
{
    let mut shared = name_core::<B>(alloc, opened)?;
    let (caller, adding) = two_of(&mut shared.callers)?;
    let (peers, end) = inbox.named::<M>().ok()?;
    Some(Parts {
        shared,
        adder: Adder::new(alloc, end, adding, Pool::new(OpenGate), 2),
        peers,
        caller,
    })
}

/// What is handed in: two blocks, a transaction, and the point of the first block.
#[derive(Drop)]
struct HandedIn {
    first: Vec<u8>,
    second: Vec<u8>,
    tx: Vec<u8>,
    points: Vec<Point>,
}

/// What is handed in, where memory lasts.
fn hand_in(alloc: Global) -> Option<HandedIn> {
    let names = names(alloc)?;
    let first = bytes_of(alloc, &names, "A1")?;
    let second = bytes_of(alloc, &names, "A2")?;
    let tx = text_of(&names, "Stays")?;
    let points = points_of(alloc, &names, "A1")?;
    Some(HandedIn {
        first,
        second,
        tx,
        points,
    })
}

impl<B: Room, M: Mailroom> Parts<B, M> {
    /// The height that the caller sees.
    fn height(&mut self) -> u64 {
        self.shared.shared.height(&mut self.caller)
    }

    /// Has the adder try once to take and bring, and tells how many it brought, and the height. Answers whether there
    /// was memory.
    fn brings<R: Threads + Wait + Sync>(&mut self, rt: &R, told: &mut Told) -> bool {
        match self.adder.run(rt, &self.shared.shared, 1) {
            Ok(many) => {
                let height = self.height();
                let _ = write!(told.text(), "{many}, height {height}");
                true
            }
            Err(_) => false,
        }
    }

    /// A peer sends bytes, and the adder brings them, in a second call where it was refused memory.
    fn bring<R: Threads + Wait + Sync>(&mut self, rt: &R, bytes: Vec<u8>, told: &mut Told) {
        told.put("bring: ");
        if self.peers[2].send(rt, bytes).is_err() {
            told.put("no room ");
        }
        let before = (self.height(), self.adder.counts()[2]);
        if !self.brings(rt, told) {
            told.refused();
            if self.height() != before.0 || self.adder.counts()[2] != before.1 {
                told.put("changed, ");
            }
            if !self.brings(rt, told) {
                told.put("out of memory");
            }
        }
        told.put("\n");
    }

    /// Makes a call of each kind, between two blocks that a peer sends.
    fn play<R: Threads + Wait + Sync>(&mut self, rt: &R, given: HandedIn, told: &mut Told) {
        let HandedIn {
            first,
            second,
            tx,
            points,
        } = given;
        self.bring(rt, first, told);
        submit(rt, &self.shared.shared, &mut self.caller, &tx, told);
        make_call(rt, &self.shared.shared, &mut self.caller, Call::Open, told);
        make_call(rt, &self.shared.shared, &mut self.caller, Call::Next, told);
        make_call(rt, &self.shared.shared, &mut self.caller, Call::Next, told);
        self.bring(rt, second, told);
        forward(rt, &self.shared.shared, &mut self.caller, &points, told);
        make_call(rt, &self.shared.shared, &mut self.caller, Call::Next, told);
        close(rt, &self.shared.shared, &mut self.caller, told);
    }
}

/// Makes calls at a core and an inbox that were opened for it. Answers whether there was memory to begin.
fn plays<B: Room, M: Mailroom, R: Threads + Wait + Sync>(
    rt: &R,
    alloc: Global,
    opened: Opened<TestScheme>,
    inbox: inbox::Opened,
    given: HandedIn,
    told: &mut Told,
) -> bool
    requires table { opened.table ≡ B.table }
    requires start { opened.start ≡ B.start }
    requires queue { inbox.table ≡ M.table }
    requires capacity { inbox.capacity ≡ M.capacity }
{
    match name_all::<B, M>(alloc, opened, inbox) {
        Some(mut parts) => {
            parts.play(rt, given, told);
            true
        }
        None => false,
    }
}

/// A shared core for two callers.
fn open_core(alloc: Global) -> Option<Opened<TestScheme>> {
    Opened::new(alloc, genesis(alloc)?, 2).ok()
}

/// Opens a core and an inbox, and makes calls there. Answers whether there was memory to begin.
fn begins<R: Threads + Wait + Sync>(rt: &R, alloc: Global, told: &mut Told) -> bool {
    let Some(given) = hand_in(alloc) else {
        return false;
    };
    let Ok(inbox) = inbox::Opened::new(alloc, 8) else {
        return false;
    };
    match open_core(alloc) {
        Some(opened) => plays::<Brand, Brand, R>(rt, alloc, opened, inbox, given, told),
        None => false,
    }
}

/// Makes the calls, begun once more where memory ran out.
pub fn tell<R: Threads + Wait + Sync>(rt: &R, alloc: Global, told: &mut Told) {
    if !begins(rt, alloc, told) && !begins(rt, alloc, told) {
        told.put("no core\n");
    }
}
