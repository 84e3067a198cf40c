//! Where what peers sent is taken in.

ghost use Rattle.std.specs.Prelude.{◌≡◌, ℕ, suc, ◌+◌, ◌-◌, ◌<◌, ◌++◌, [], ◌∷◌, length, slice_index, slice_set};
ghost use Rattle.std.specs.Prelude.{IfSome, IfNone};
ghost use Rattle.std.specs.List.{AllByRecursion};
ghost use Rattle.inbox.specs.Arrivals.{IsPeer, IsCountOf, peers, came_of, one_more, with_arrival, with_told, IsToldOf};
ghost use Rattle.inbox.specs.Telling.{BeginsWhatWasSent, IsAllThatWasSent};

use crate::arrival::Arrival;
use crate::mailroom::Mailroom;
use crate::passes::{InboxPass, Queue, Taking};
use crate::peer_end::{PEERS, PeerEnd};
use crate::telling::{compare_all, hear_all};
use std::alloc::Global;
use std::marker::{Model, PhantomData};
use std::sync::{Arc, Wait};

/// Where one who adds blocks takes what peers sent, from one thread at a time. A contract sees all that was taken.
#[derive(Drop)]
pub struct AdderEnd<B: Mailroom> {
    pub(crate) counts: [u64; PEERS],
    pub(crate) queue: Arc<Queue, Global>,
    pub(crate) pass: InboxPass,
    pub(crate) inbox: PhantomData<B>,
}

impl<B: Mailroom> Model for AdderEnd<B> {
    ghost use Rattle.inbox.specs.Arrivals.{Intake};
    ghost use Rattle.inbox.specs.Codes.{coded_intake};

    ghost Value = { Intake };

    ghost coded = { coded_intake };

    ghost use Rattle.inbox.specs.Ends.{adder_view, IsAdderEndOf};

    ghost view = { adder_view };

    ghost invariant = { IsAdderEndOf B.table B.capacity };
}

/// One more, for the peer of this number, from 1 on.
fn count_one(counts: &mut [u64; PEERS], peer: u64)
    requires peer { IsPeer peer }
    requires many { length counts.old ≡ peers }
    ensures { counts.new ≡ slice_set counts.old (peer - 1) (one_more (slice_index counts.old (peer - 1))) }
{
    let place = (peer - 1) as usize;
    counts[place] = counts[place].saturating_add(1);
}

impl<B: Mailroom> AdderEnd<B> {
    /// How many were taken of this peer.
    pub(crate) fn count_of(&self, peer: u64) -> u64
        requires { IsPeer peer }
        ensures { IsCountOf result (length (came_of peer self.now.taken)) }
    {
        self.counts[(peer - 1) as usize]
    }

    /// How many were taken of each peer, in the order of their numbers. A count stands still at the largest number of
    /// 64 bits. Takes no memory.
    pub fn counts(&self) -> [u64; PEERS]
        ensures many { length result ≡ peers }
        ensures counts { (place : ℕ) → place < peers
            → IsCountOf (slice_index result place) (length (came_of (suc place) self.now.taken)) }
    {
        self.counts
    }

    /// The end is told what these peers, which are lent, have sent so far.
    fn hear(&mut self, peers: &mut [PeerEnd<B>])
        ensures adder { self.new ≡ with_told self.old peers.old }
        ensures peers { peers.new ≡ peers.old }
    {
        hear_all(&self.queue, &mut self.pass, peers);
    }

    /// Takes the oldest arrival. None is answered only where the inbox was empty at one moment of the call. Takes no
    /// memory. May wait for a thread that is in the middle of a step.
    pub fn take<R: Wait>(&mut self, rt: &R) -> Option<Arrival>
        ensures some { IfSome result (λ arrival. self.new ≡ with_arrival self.old arrival) }
        ensures peer { IfSome result (λ arrival. IsPeer arrival.peer) }
        ensures none { IfNone result (self.new ≡ self.old) }
        // All was taken that the end was told of.
        ensures empty { IfNone result (AllByRecursion (IsToldOf self.old.taken) self.old.told) }
    {
        let arrival = self.queue.pop_as::<Taking, R>(rt, &mut self.pass)?;
        count_one(&mut self.counts, arrival.peer);
        Some(arrival)
    }

    /// Takes the oldest arrival, as [`AdderEnd::take`], with peers lent that have ended. None is then answered only
    /// where all that these peers sent was taken. Takes no memory. Costs a few steps for each peer beside.
    pub fn take_last<R: Wait>(&mut self, rt: &R, peers: &mut [PeerEnd<B>]) -> Option<Arrival>
        ensures peers { peers.new ≡ peers.old }
        ensures told { self.new.told ≡ self.old.told ++ peers.old }
        ensures some { IfSome result (λ arrival. self.new.taken ≡ self.old.taken ++ arrival ∷ []) }
        ensures peer { IfSome result (λ arrival. IsPeer arrival.peer) }
        ensures none { IfNone result (self.new.taken ≡ self.old.taken) }
        ensures last { IfNone result (AllByRecursion (IsAllThatWasSent self.new.taken) peers.old) }
        // Whatever is answered, what was taken of a peer is a beginning of what it sent.
        ensures begins { AllByRecursion (BeginsWhatWasSent self.new.taken) peers.old }
    {
        self.hear(peers);
        let taken = self.take(rt);
        compare_all(self, peers);
        taken
    }
}
