//! What lies under the lock.

ghost use Rattle.std.specs.Prelude.{◌≡◌, ◌↔◌, ◌≤◌, ◌++◌, [], ◌∷◌, length, map, Ok, Err, IfOk, IfErr};
ghost use Rattle.std.specs.Prelude.{OnOk, OnErr, IsTrue};
ghost use Rattle.shared.specs.Starts.{network_from};
ghost use Rattle.model.specs.History.{Arrive, Submit, Open, Next, Forward, Close, Discard};
ghost use Rattle.model.specs.Journal.{IsCalled, IsLook, IsMeeting, height_of};
ghost use Rattle.model.specs.Chain.{IsOpening};
ghost use Rattle.model.specs.Limits.{block_size_limit};
ghost use Rattle.model.specs.Log.{IsLogBlock};
ghost use Rattle.std.specs.List.{AllByRecursion};
ghost use Rattle.ident.specs.PointView.{point_of};
ghost use Rattle.inbox.specs.Arrivals.{IsPeer};
ghost use Rattle.chain_core.specs.Views.{arrive_reply_of, submit_reply_of, open_reply_of, next_reply_of};
ghost use Rattle.chain_core.specs.Views.{forward_reply_of, close_reply_of, discard_reply_of};
ghost use Rattle.mempool.specs.Calls.{IsWantAtSubmission};
ghost use Rattle.chain_core.specs.declared.follower.NextFault.TheVariants as fault;
ghost use Rattle.shared.specs.Entries.{call_by, arrival_by};
ghost use Rattle.shared.specs.Answers.{IsAnswered, IsJournaled, HasSeenAll};
ghost use Rattle.chain_core.specs.Reopening.{texts_in};
ghost use Rattle.shared.specs.Copies.{AreCopiesAfter};
ghost use Rattle.shared.specs.Asking.{IsAsked};
ghost use Rattle.chain_core.specs.ForgedBlocks.{IsForgeFault};
ghost use Rattle.shared.specs.Forging.{IsForgedOf};
ghost use Rattle.shared.specs.Wants.{IsWantAtArriving, IsWantAtOpening, IsWantAtTelling};
ghost use Rattle.shared.specs.Meeting.{IsInformed};
ghost use Rattle.shared.specs.Standing.{IsHeightOf, IsCoreOf};

use crate::call::Call;
use crate::caller_seat::CallerSeat;
use crate::heights::Heights;
use crate::journal::Journal;
use crate::room::Room;
use block::Seen;
use chain_core::{
    ArriveReply, Core, FollowerId, ForgeFault, Forged, Instruction, NextFault, NotBeside,
    OpenFollowerFault, UnknownFollower,
};
use ident::{BlockHash, Point};
use mempool::SubmitReply;
use std::alloc::AllocError;
use std::marker::Model;
use witness_pool::SigScheme;

/// The core, and the journal of all calls that were made. A contract sees it as its journal.
pub struct Desk<S: SigScheme, B: Room> {
    pub(crate) core: Core<S>,
    pub(crate) journal: Journal<B>,
}

// By hand, so that each exit calls it: the derived one is copied to each exit of each owner.
impl<S: SigScheme, B: Room> Drop for Desk<S, B> {
    fn drop(self) {
        let Desk {
            core: _,
            journal: _,
        } = self;
    }
}

impl<S: SigScheme, B: Room> Model for Desk<S, B> {
    ghost use Rattle.model.specs.Journal as model;
    ghost use Rattle.model.specs.JournalCodes.{coded_journal};

    ghost Value = { model.Journal };

    ghost coded = { coded_journal };

    ghost use Rattle.shared.specs.Desks.{desk_view, IsDeskOf};

    ghost view = { desk_view };

    ghost invariant = { IsDeskOf S.verifies B.start };
}

/// Whether memory ran out for what a follower is to be told.
fn is_want<S: SigScheme>(answer: &Result<Option<Instruction<S>>, NextFault>) -> bool
    ensures { IsTrue result ↔ (answer.now ≡ Err fault.OutOfMemory) }
{
    matches!(answer, Err(NextFault::OutOfMemory))
}

// In each call the core answers first, and unless memory ran out the event and the reply are then the journal's last
// entry. The journal itself takes no memory. So a call that memory runs out for changes nothing and is in no journal.
// What the core is only asked is in no journal either.
impl<S: SigScheme, B: Room> Desk<S, B> {
    /// Bytes of a block arrive that a peer sent; the caller brings them, and has seen what they are.
    pub fn arrive(
        &mut self,
        heights: &Heights<S>,
        caller: &mut CallerSeat<B>,
        peer: u64,
        seen: &Seen<S>,
    ) -> Result<ArriveReply, AllocError>
        requires heights { IsHeightOf B.table B.start heights.now }
        requires peer { IsPeer peer }
        // The call is the last entry of the journal, and the caller has seen all of it.
        ensures journal { IfOk result (λ reply. self.new ≡ self.old
            ++ arrival_by caller.old.caller peer seen.now (arrive_reply_of (Ok reply)) ∷ []) }
        ensures seen { OnOk result (caller.new.seen ≡ self.new) }
        ensures called { IfOk result (λ reply. IsCalled (network_from B.start S.verifies) caller.old
            (arrival_by caller.old.caller peer seen.now (arrive_reply_of (Ok reply))) caller.new) }
        // Memory runs out only where no refusal applies.
        ensures memory { OnErr result (IsWantAtArriving S.verifies B.start self.old seen.now) }
        ensures size { OnErr result (length seen.now ≤ block_size_limit) }
        ensures err { OnErr result (self.new ≡ self.old) }
        ensures caller { OnErr result (caller.new ≡ caller.old) }
    {
        let reply = self.core.arrive_lent(seen)?;
        let entry = caller.entry(Call::Arrive {
            peer,
            bytes: seen.bytes(),
            reply: &reply,
        });
        self.journal.write(heights, caller, &self.core, &entry);
        Ok(reply)
    }

    /// Bytes of a transaction are submitted by the caller.
    pub fn submit(
        &mut self,
        heights: &Heights<S>,
        caller: &mut CallerSeat<B>,
        bytes: &[u8],
    ) -> Result<SubmitReply, AllocError>
        requires { IsHeightOf B.table B.start heights.now }
        ensures journal { IfOk result (λ reply. self.new ≡ self.old
            ++ call_by caller.old.caller (Submit bytes.now) (submit_reply_of (Ok reply)) ∷ []) }
        ensures seen { OnOk result (caller.new.seen ≡ self.new) }
        ensures called { IfOk result (λ reply. IsCalled (network_from B.start S.verifies) caller.old
            (call_by caller.old.caller (Submit bytes.now) (submit_reply_of (Ok reply))) caller.new) }
        // Memory runs out only where the bytes begin as a transaction does, and not at one without parts.
        ensures memory { OnErr result (IsWantAtSubmission bytes.now) }
        ensures err { OnErr result (self.new ≡ self.old) }
        ensures caller { OnErr result (caller.new ≡ caller.old) }
    {
        let reply = self.core.submit(bytes)?;
        let entry = caller.entry(Call::Submit {
            bytes,
            reply: &reply,
        });
        self.journal.write(heights, caller, &self.core, &entry);
        Ok(reply)
    }

    /// A follower is opened for the caller.
    pub fn open(
        &mut self,
        heights: &Heights<S>,
        caller: &mut CallerSeat<B>,
    ) -> Result<FollowerId, OpenFollowerFault>
        requires { IsHeightOf B.table B.start heights.now }
        ensures journal { IsJournaled self.old caller.old.caller Open (open_reply_of result) self.new }
        ensures seen { HasSeenAll (open_reply_of result) self.new caller.new }
        ensures answered { IsAnswered (network_from B.start S.verifies) caller.old Open (open_reply_of result)
            caller.new }
        // Memory runs out only where a number is free.
        ensures memory { IsWantAtOpening S.verifies B.start self.old (open_reply_of result) }
    {
        let answer = self.core.open();
        if let Err(OpenFollowerFault::OutOfMemory) = answer {
            return Err(OpenFollowerFault::OutOfMemory);
        }
        let entry = caller.entry(Call::Open { reply: &answer });
        self.journal.write(heights, caller, &self.core, &entry);
        answer
    }

    /// The caller asks what a follower is told next. The block is shared by the core and the caller.
    pub fn next(
        &mut self,
        heights: &Heights<S>,
        caller: &mut CallerSeat<B>,
        id: FollowerId,
    ) -> Result<Option<Instruction<S>>, NextFault>
        requires { IsHeightOf B.table B.start heights.now }
        ensures journal { IsJournaled self.old caller.old.caller (Next id.number) (next_reply_of result) self.new }
        ensures seen { HasSeenAll (next_reply_of result) self.new caller.new }
        ensures answered { IsAnswered (network_from B.start S.verifies) caller.old (Next id.number)
            (next_reply_of result) caller.new }
        // Memory runs out only where a block comes next.
        ensures memory { IsWantAtTelling S.verifies B.start self.old id.number (next_reply_of result) }
    {
        let answer = self.core.next(id);
        if is_want(&answer) {
            return Err(NextFault::OutOfMemory);
        }
        let entry = caller.entry(Call::Next { id, reply: &answer });
        self.journal.write(heights, caller, &self.core, &entry);
        answer
    }

    /// The caller has a follower set to the first of the points that is on the selected chain. Takes no memory.
    pub fn forward(
        &mut self,
        heights: &Heights<S>,
        caller: &mut CallerSeat<B>,
        id: FollowerId,
        points: &[Point],
    ) -> Result<Option<Point>, UnknownFollower>
        requires { IsHeightOf B.table B.start heights.now }
        ensures journal { self.new ≡ self.old ++ call_by caller.old.caller
            (Forward id.number (map point_of points.now)) (forward_reply_of result) ∷ [] }
        ensures seen { caller.new.seen ≡ self.new }
        ensures called { IsCalled (network_from B.start S.verifies) caller.old (call_by caller.old.caller
            (Forward id.number (map point_of points.now)) (forward_reply_of result)) caller.new }
    {
        let answer = self.core.forward(id, points);
        let entry = caller.entry(Call::Forward {
            id,
            points,
            reply: &answer,
        });
        self.journal.write(heights, caller, &self.core, &entry);
        answer
    }

    /// The caller has a follower closed. Takes no memory.
    pub fn close(
        &mut self,
        heights: &Heights<S>,
        caller: &mut CallerSeat<B>,
        id: FollowerId,
    ) -> Result<(), UnknownFollower>
        requires { IsHeightOf B.table B.start heights.now }
        ensures journal { self.new ≡ self.old
            ++ call_by caller.old.caller (Close id.number) (close_reply_of result) ∷ [] }
        ensures seen { caller.new.seen ≡ self.new }
        ensures called { IsCalled (network_from B.start S.verifies) caller.old
            (call_by caller.old.caller (Close id.number) (close_reply_of result)) caller.new }
    {
        let answer = self.core.close(id);
        let entry = caller.entry(Call::Close { id, reply: &answer });
        self.journal.write(heights, caller, &self.core, &entry);
        answer
    }

    /// The caller has a live block discarded that is beside the selected chain. Takes no memory.
    pub fn discard(
        &mut self,
        heights: &Heights<S>,
        caller: &mut CallerSeat<B>,
        hash: BlockHash,
    ) -> Result<(), NotBeside>
        requires { IsHeightOf B.table B.start heights.now }
        ensures journal { self.new ≡ self.old
            ++ call_by caller.old.caller (Discard hash.bytes) (discard_reply_of result) ∷ [] }
        ensures seen { caller.new.seen ≡ self.new }
        ensures called { IsCalled (network_from B.start S.verifies) caller.old
            (call_by caller.old.caller (Discard hash.bytes) (discard_reply_of result)) caller.new }
    {
        let answer = self.core.discard(hash);
        let entry = caller.entry(Call::Discard {
            hash,
            reply: &answer,
        });
        self.journal.write(heights, caller, &self.core, &entry);
        answer
    }

    /// A block is forged in this slot, of what waits. Whatever is answered, the caller sees the whole journal.
    pub fn forge(
        &mut self,
        heights: &Heights<S>,
        caller: &mut CallerSeat<B>,
        slot: u64,
    ) -> Result<Forged, ForgeFault>
        requires { IsHeightOf B.table B.start heights.now }
        ensures journal { self.new ≡ self.old }
        ensures forged { IfOk result (λ f. IsAsked (network_from B.start S.verifies) caller.old caller.new
            (λ s. IsForgedOf (network_from B.start S.verifies) s slot f.bytes.items f.point)) }
        ensures fault { IfErr result (λ fault. IsAsked (network_from B.start S.verifies) caller.old caller.new
            (λ s. IsForgeFault (network_from B.start S.verifies) s.chain slot fault)) }
    {
        let answer = self.core.forge(slot);
        self.journal.tell(heights, caller);
        answer
    }

    /// Copies of the texts of the blocks that are never rolled back, except the first `from` of them. The caller sees
    /// the whole journal.
    pub fn copy(
        &mut self,
        heights: &Heights<S>,
        caller: &mut CallerSeat<B>,
        from: u64,
    ) -> Result<Vec<Vec<u8>>, AllocError>
        requires { IsHeightOf B.table B.start heights.now }
        ensures journal { self.new ≡ self.old }
        ensures look { OnOk result (IsLook (network_from B.start S.verifies) caller.old
            (height_of (network_from B.start S.verifies) self.old) caller.new) }
        ensures copies { IfOk result (λ texts. AreCopiesAfter (network_from B.start S.verifies) caller.new.seen from
            (texts_in texts.items)) }
        ensures sizes { IfOk result (λ texts. AllByRecursion IsLogBlock (texts_in texts.items)) }
        // What the core begins from is sound.
        ensures opens { IsOpening (network_from B.start S.verifies) }
        ensures err { OnErr result (caller.new ≡ caller.old) }
    {
        let texts = self.core.copy_immutable(from)?;
        self.tell(heights, caller);
        Ok(texts)
    }

    /// The caller sees the whole journal.
    pub fn tell(&mut self, heights: &Heights<S>, caller: &mut CallerSeat<B>)
        requires { IsHeightOf B.table B.start heights.now }
        ensures journal { self.new ≡ self.old }
        ensures informed { IsInformed (network_from B.start S.verifies) self.new caller.old caller.new }
    {
        self.journal.tell(heights, caller);
    }

    /// The core, to be asked.
    pub fn core(&self) -> &Core<S>
        ensures { IsCoreOf S.verifies B.start self.now result.now }
    {
        &self.core
    }

    /// Two callers see the whole journal.
    pub fn meet(&mut self, heights: &Heights<S>, one: &mut CallerSeat<B>, other: &mut CallerSeat<B>)
        requires { IsHeightOf B.table B.start heights.now }
        ensures journal { self.new ≡ self.old }
        ensures seen { (one.new.seen ≡ self.new) × (other.new.seen ≡ self.new) }
        ensures meeting { IsMeeting (network_from B.start S.verifies) one.old other.old one.new other.new }
    {
        self.journal.tell(heights, one);
        self.journal.tell(heights, other);
    }
}
