//! One who adds the blocks that peers sent.

ghost use Rattle.std.specs.Prelude.{◌≡◌, ℕ, ◌+◌, ◌-◌, ◌<◌, ◌≤◌, [], length, slice_index, slice_set, None, Some, IfOk};
ghost use Rattle.std.specs.Prelude.{IfNone, OnOk, OnErr, IfErr, IsSome, MatchOption, option_map};
ghost use Rattle.std.specs.List.{AllByRecursion};
ghost use Rattle.shared.specs.Starts.{network_from};
ghost use Rattle.model.specs.Journal.{IsMeeting};
ghost use Rattle.inbox.specs.Arrivals.{IsPeer, peers};
ghost use Rattle.inbox.specs.Telling.{IsAllThatWasSent};
ghost use Rattle.witness_pool.specs.Workers.{AreWorkers};
ghost use Rattle.shared.specs.Adding.{HasAdded, HasTaken, IsGrownBy, IsAllBrought, IsBroughtCount, IsLastAnswer};

use crate::caller::Caller;
use crate::caller_seat::CallerSeat;
use crate::held::Held;
use crate::reader::Reader;
use crate::room::Room;
use crate::shared::Shared;
use chain_core::ArriveReply;
use inbox::{AdderEnd, Mailroom, PEERS, PeerEnd};
use std::alloc::{AllocError, AllocFailed, Global};
use std::marker::Model;
use std::sync::Wait;
use std::thread::Threads;
use witness_pool::{Gate, Pool, SigScheme};

/// Takes what peers sent from an inbox, and brings it to a shared core, one arrival after the other. Each is read, and
/// its transactions are checked by a pool of workers, before the lock is taken. A contract sees what the adder knows as
/// a caller, what it took, and the arrival that it took and hasn't brought: one that memory ran out for stays with it.
///
/// Of each peer, the arrivals among its calls, and then the one that it holds, are what it took of that peer.
pub struct Adder<S: SigScheme, G, B: Room, M: Mailroom> {
    reader: Reader<G>,
    caller: CallerSeat<B>,
    end: AdderEnd<M>,
    held: Option<Held<S>>,
}

// By hand, so that each exit calls it: the derived one is copied to each exit of each owner.
impl<S: SigScheme, G: Drop, B: Room, M: Mailroom> Drop for Adder<S, G, B, M> {
    fn drop(self) {
        let Adder {
            reader: _,
            caller: _,
            end: _,
            held: _,
        } = self;
    }
}

impl<S: SigScheme, G, B: Room, M: Mailroom> Model for Adder<S, G, B, M> {
    ghost use Rattle.shared.specs.Adding.{Adding, coded_adding};

    ghost Value = { Adding };

    ghost coded = { coded_adding };

    ghost use Rattle.shared.specs.Adders.{adder_view, IsAdderInside};

    ghost view = { adder_view };

    ghost invariant = { IsAdderInside };
}

/// One less, for the peer of this number, from 1 on.
fn count_out(counts: &mut [u64; PEERS], peer: u64)
    requires peer { IsPeer peer }
    requires many { length counts.old ≡ peers }
    ensures { counts.new ≡ slice_set counts.old (peer - 1) (slice_index counts.old (peer - 1) - 1) }
{
    let place = (peer - 1) as usize;
    counts[place] = counts[place].saturating_sub(1);
}

impl<S: SigScheme + Send, G: Gate, B: Room, M: Mailroom> Adder<S, G, B, M> {
    /// An adder that takes from this end of an inbox, from which nothing was taken yet, and makes its calls as this
    /// caller. Blocks' transactions are checked by `workers` workers of the pool, 1 to 16. Takes no memory.
    pub fn new(
        alloc: Global,
        end: AdderEnd<M>,
        caller: Caller<B>,
        pool: Pool<G>,
        workers: usize,
    ) -> Adder<S, G, B, M>
        requires end { end.taken ≡ [] }
        requires workers { AreWorkers workers }
        ensures { result ≡ record { knows = caller; intake = end; held = None } }
    {
        let Caller { seat } = caller;
        let reader = Reader {
            alloc,
            pool,
            workers,
        };
        Adder {
            reader,
            caller: seat,
            end,
            held: None,
        }
    }

    /// How many arrivals it brought of each peer, in the order of their numbers. Takes no memory, and waits for nobody.
    pub fn counts(&self) -> [u64; PEERS]
        ensures { (place : ℕ) → place < peers → IsBroughtCount self.now place (slice_index result place) }
    {
        let mut counts = self.end.counts();
        if let Some(held) = &self.held {
            count_out(&mut counts, held.peer());
        }
        counts
    }

    /// The adder and a caller meet: each looks at the height, and has then seen the same journal, which begins with all
    /// that it had seen. Waits for the lock. Takes no memory.
    pub fn meet<R: Wait>(&mut self, rt: &R, shared: &Shared<S, B>, caller: &mut Caller<B>)
        ensures meeting { IsMeeting (network_from B.start S.verifies) self.old.knows caller.old self.new.knows
            caller.new }
        ensures same { self.new ≡ record self.old { knows = self.new.knows } }
    {
        shared.meet_seats(rt, &mut self.caller, &mut caller.seat);
    }

    /// Takes the oldest arrival, if there is one.
    fn take<R: Wait>(&mut self, rt: &R)
        requires { self.old.held ≡ None }
        ensures { HasTaken self.old self.new }
    {
        self.held = Held::taken(self.end.take(rt));
    }

    /// Takes the oldest arrival with these peers lent, which have ended; where there is none all that they sent was
    /// taken.
    fn take_last<R: Wait>(&mut self, rt: &R, peers: &mut [PeerEnd<M>])
        requires { self.old.held ≡ None }
        ensures taken { HasTaken self.old self.new }
        ensures peers { peers.new ≡ peers.old }
        ensures last { IfNone self.new.held (AllByRecursion (IsAllThatWasSent self.new.intake.taken) peers.old) }
    {
        self.held = Held::taken(self.end.take_last(rt, peers));
    }

    /// Takes the oldest arrival, unless it holds one.
    fn hold_one<R: Wait>(&mut self, rt: &R)
        ensures added { HasAdded (network_from B.start S.verifies) self.old self.new }
        ensures knows { self.new.knows ≡ self.old.knows }
        ensures turns { length self.new.intake.taken ≤ length self.old.intake.taken + 1 }
    {
        if self.held.is_none() {
            self.take(rt);
        }
    }

    /// Takes the oldest arrival, unless it holds one, and answers how many bytes the one has that it then holds, which
    /// the next call of [`Adder::run`] begins with; None where it holds none and the inbox is empty. So it can be
    /// looked whether the arrival has a place among the live blocks before it is brought. Waits for a thread that is in
    /// the middle of a step. Takes no memory.
    pub fn fetch<R: Wait>(&mut self, rt: &R) -> Option<usize>
        ensures added { HasAdded (network_from B.start S.verifies) self.old self.new }
        // It brings none.
        ensures knows { self.new.knows ≡ self.old.knows }
        ensures turns { length self.new.intake.taken ≤ length self.old.intake.taken + 1 }
        ensures size { result ≡ option_map (λ arrival. length arrival.bytes) self.new.held }
    {
        self.hold_one(rt);
        match &self.held {
            Some(held) => Some(held.len()),
            None => None,
        }
    }

    /// Brings the arrival that it holds, and answers what the core did; None where it holds none. Where memory runs out
    /// the arrival is still held. Waits for the lock. Costs what an arrival costs in [`Adder::run`].
    pub fn bring<R: Threads + Wait + Sync>(
        &mut self,
        rt: &R,
        shared: &Shared<S, B>,
    ) -> Result<Option<ArriveReply>, AllocError>
        ensures added { HasAdded (network_from B.start S.verifies) self.old self.new }
        // Its last call is the arrival, with this reply; or it made none.
        ensures told { IfOk result (λ reply. MatchOption reply (self.new.knows ≡ self.old.knows)
            (IsLastAnswer self.old.knows.calls self.new.knows.calls)) }
        ensures intake { self.new.intake ≡ self.old.intake }
        ensures ok { OnOk result (self.new.held ≡ None) }
        ensures err { OnErr result (self.new ≡ self.old) }
        ensures waits { OnErr result (IsSome self.old.held) }
    {
        let Some(held) = self.held.take() else {
            return Ok(None);
        };
        match self.reader.read(rt, held) {
            Ok(arrival) => match shared.arrive(rt, &mut self.caller, &arrival) {
                Ok(reply) => Ok(Some(reply)),
                Err(AllocError) => {
                    self.held = Some(Held::Seen(arrival));
                    Err(AllocError)
                }
            },
            Err(AllocFailed { value }) => {
                self.held = Some(Held::Unread(value));
                Err(AllocError)
            }
        }
    }

    /// Brings the arrival that is held, if one is, and answers how many that are.
    fn bring_held<R: Threads + Wait + Sync>(
        &mut self,
        rt: &R,
        shared: &Shared<S, B>,
    ) -> Result<u64, AllocError>
        ensures added { HasAdded (network_from B.start S.verifies) self.old self.new }
        ensures many { IfOk result (λ many.
            length self.new.knows.calls ≡ length self.old.knows.calls + many) }
        ensures intake { self.new.intake ≡ self.old.intake }
        ensures ok { OnOk result (self.new.held ≡ None) }
        ensures err { OnErr result (self.new ≡ self.old) }
        ensures waits { OnErr result (IsSome self.old.held) }
    {
        match self.bring(rt, shared)? {
            Some(_reply) => Ok(1),
            None => Ok(0),
        }
    }

    /// Tries to take `turns` times, and brings each arrival that it takes to the core; first the one that it holds,
    /// if it does. Answers how many it brought; that count stands still at the largest number of 64 bits. A take that
    /// finds the inbox empty counts as one. Where memory runs out for an arrival it stays with the adder, and the next
    /// call begins with it. Waits for the lock, and for a thread that is in the middle of a step.
    ///
    /// An arrival costs what reading it costs, shared by the workers, and what it costs the core, which alone is done
    /// under the lock. Where memory runs out for it under the lock it isn't read again; where it runs out before, it
    /// is. Its bytes are never copied.
    pub fn run<R: Threads + Wait + Sync>(
        &mut self,
        rt: &R,
        shared: &Shared<S, B>,
        turns: u64,
    ) -> Result<u64, AllocError>
        // What the adder knows grows by locked calls of its own, each of which brings one arrival that it took; and of
        // all that it took just one arrival may not be brought yet.
        ensures added { HasAdded (network_from B.start S.verifies) self.old self.new }
        ensures many { IfOk result (λ many. IsGrownBy self.old.knows.calls self.new.knows.calls many) }
        // It takes at most `turns` arrivals.
        ensures turns { length self.new.intake.taken ≤ length self.old.intake.taken + turns }
        ensures ok { OnOk result (self.new.held ≡ None) }
        ensures err { OnErr result (IsSome self.new.held) }
    {
        let mut count = self.bring_held(rt, shared)?;
        'turns: for _turn in 0..turns {
            self.take(rt);
            count = count.saturating_add(self.bring_held(rt, shared)?);
        }
        Ok(count)
    }

    /// Takes until the inbox is empty, and brings each arrival to the core; first the one that it holds, if it does.
    /// The peers, which are all that the inbox has, have ended, and are lent. Where memory runs out for an arrival it
    /// stays with the adder, and the next call begins with it. Waits for the lock, and for a thread that is in the
    /// middle of a step.
    pub fn drain<R: Threads + Wait + Sync>(
        &mut self,
        rt: &R,
        shared: &Shared<S, B>,
        peers: &mut [PeerEnd<M>; PEERS],
    ) -> Result<(), AllocError>
        ensures peers { peers.new ≡ peers.old }
        ensures added { HasAdded (network_from B.start S.verifies) self.old self.new }
        // All that these peers sent was brought, in order, each once.
        ensures all { OnOk result (AllByRecursion (IsAllBrought self.new.knows.calls) peers.old) }
        ensures ok { OnOk result (self.new.held ≡ None) }
        ensures err { OnErr result (IsSome self.new.held) }
    {
        self.bring_held(rt, shared)?;
        'takes: for _ in rt.forever() {
            self.take_last(rt, peers);
            if self.held.is_none() {
                return Ok(());
            }
            self.bring_held(rt, shared)?;
        }
        unreachable!()
    }
}
