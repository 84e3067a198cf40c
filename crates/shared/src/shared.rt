//! One core for many threads.

ghost use Rattle.std.specs.Prelude.{◌≡◌, ◌↔◌, ◌≤◌, ℕ, Ok, Some, IfOk, IfErr, OnOk, OnErr, IsTrue, length, map};
ghost use Rattle.std.specs.Arc.{arc_value};
ghost use Rattle.std.specs.List.{AllByRecursion};
ghost use Rattle.model.specs.Ledger.{Ledger, ledger_of};
ghost use Rattle.shared.specs.Starts.{network_from};
ghost use Rattle.model.specs.History.{Submit, Open, Next, Forward, Close, Discard};
ghost use Rattle.model.specs.Journal.{IsCalled, IsLook, IsMeeting};
ghost use Rattle.model.specs.Chain.{IsOpening, genesis_tip, tip_after, tip_point, immutable_length};
ghost use Rattle.model.specs.Follower.{Follower, follower_of};
ghost use Rattle.model.specs.Limits.{block_size_limit};
ghost use Rattle.model.specs.Log.{IsLogBlock};
ghost use Rattle.ident.specs.PointView.{point_of};
ghost use Rattle.inbox.specs.Arrivals.{IsPeer};
ghost use Rattle.chain_core.specs.Views.{arrive_reply_of, submit_reply_of, open_reply_of, next_reply_of};
ghost use Rattle.chain_core.specs.Views.{forward_reply_of, close_reply_of, discard_reply_of};
ghost use Rattle.mempool.specs.Calls.{IsWantAtSubmission};
ghost use Rattle.shared.specs.Answers.{IsAnswered};
ghost use Rattle.chain_core.specs.Numbers.{block_numbered};
ghost use Rattle.chain_core.specs.Reopening.{texts_in};
ghost use Rattle.shared.specs.Copies.{AreCopiesAfter};
ghost use Rattle.shared.specs.Asking.{IsAsked};
ghost use Rattle.chain_core.specs.ForgedBlocks.{IsForgeFault};
ghost use Rattle.shared.specs.Forging.{IsForgedOf};
ghost use Rattle.shared.specs.Standing.{IsHeightOf, height_is_fact};
ghost use Rattle.shared.specs.Entries.{call_by, arrival_by};

use crate::caller::Caller;
use crate::caller_seat::CallerSeat;
use crate::desk::Desk;
use crate::handles::{copy_handles, share_block};
use crate::heights::Heights;
use crate::held::SeenArrival;
use crate::room::Room;
use block::CheckedBlock;
use chain_core::{
    ArriveReply, FollowerId, ForgeFault, Forged, Instruction, NextFault, NotBeside,
    OpenFollowerFault, UnknownFollower,
};
use ident::{BlockHash, Point};
use mempool::SubmitReply;
use std::alloc::{AllocError, Global};
use std::sync::{Arc, Mutex, Wait};
use utxo_rules::Utxo;
use witness_pool::{CheckedTx, SigScheme};

/// A core that threads share. Calls take turns under one lock, in the order of one journal; the height is read without
/// the lock.
///
/// What a contract says of a call it says of the caller: the journal that it has then seen is legal, begins with all
/// that it had seen before, and ends with this call and its reply. A call that is refused stands in the journal too,
/// but where memory runs out: then it is in no journal, and nothing changes. The journal is for contracts alone and
/// takes no memory: a call asks for what the core asks for, and [`Shared::mempool`] for its list beside that; what was
/// said is not kept.
pub struct Shared<S: SigScheme, B: Room> {
    pub(crate) heights: Heights<S>,
    pub(crate) desk: Mutex<Desk<S, B>>,
    pub(crate) ghost word: { IsHeightOf B.table B.start heights } by { height_is_fact B.table B.start heights },
}

// By hand, so that each exit calls it: the derived one is copied to each exit of each owner.
impl<S: SigScheme, B: Room> Drop for Shared<S, B> {
    fn drop(self) {
        let Shared {
            heights: _,
            desk: _,
        } = self;
    }
}

impl<S: SigScheme, B: Room> Shared<S, B> {
    /// How many blocks the selected chain has. One load: takes no lock, waits for nobody, and takes no memory. What a
    /// caller reads is never less than what it read before, nor than after its own last call.
    pub fn height(&self, caller: &mut Caller<B>) -> u64
        // It is the length of the chain after a legal journal, which begins with all that the caller had seen.
        ensures { IsLook (network_from B.start S.verifies) caller.old result caller.new }
    {
        caller.seat.look(&self.heights)
    }

    /// Bytes of a transaction are submitted by this caller. The call stands in the journal with its reply, whatever
    /// that is; where memory runs out it doesn't, and nothing changes. Waits for the lock. Costs what the submission
    /// costs the core, and copies no bytes beside.
    pub fn submit<R: Wait>(
        &self,
        rt: &R,
        caller: &mut Caller<B>,
        bytes: &[u8],
    ) -> Result<SubmitReply, AllocError>
        ensures called { IfOk result (λ reply. IsCalled (network_from B.start S.verifies) caller.old
            (call_by caller.old.caller (Submit bytes.now) (submit_reply_of (Ok reply))) caller.new) }
        // Memory runs out only where the bytes begin as a transaction does, and not at one without parts.
        ensures memory { OnErr result (IsWantAtSubmission bytes.now) }
        ensures err { OnErr result (caller.new ≡ caller.old) }
    {
        let mut desk = self.desk.lock(rt);
        desk.submit(&self.heights, &mut caller.seat, bytes)
    }

    /// Opens a follower of the least number that is free, 0 to 1,023. That there are 1,024 stands in the journal as the
    /// call's reply; where memory runs out nothing does, and nothing changes. Waits for the lock. Costs what it costs
    /// the core.
    pub fn open<R: Wait>(
        &self,
        rt: &R,
        caller: &mut Caller<B>,
    ) -> Result<FollowerId, OpenFollowerFault>
        // Unless memory ran out, the caller has then seen a legal journal that begins with all that it had seen and
        // ends with this call and its reply.
        ensures answered { IsAnswered (network_from B.start S.verifies) caller.old Open (open_reply_of result)
            caller.new }
    {
        let mut desk = self.desk.lock(rt);
        desk.open(&self.heights, &mut caller.seat)
    }

    /// What the follower of this number is told next: to go back, a block, or nothing. That no such follower is open
    /// stands in the journal as the call's reply; where memory runs out nothing does, and nothing changes. Waits for
    /// the lock. In constant time: the block is shared with the core, and none of its bytes are copied.
    pub fn next<R: Wait>(
        &self,
        rt: &R,
        caller: &mut Caller<B>,
        id: FollowerId,
    ) -> Result<Option<Instruction<S>>, NextFault>
        ensures answered { IsAnswered (network_from B.start S.verifies) caller.old (Next id.number)
            (next_reply_of result) caller.new }
    {
        let mut desk = self.desk.lock(rt);
        desk.next(&self.heights, &mut caller.seat, id)
    }

    /// Sets the follower of this number to the first of the points that is on the selected chain, and answers that
    /// point, or that none is. The call stands in the journal with its reply, also where no such follower is open.
    /// Waits for the lock. A look-up by number for each point; takes no memory, and so it can't run out.
    pub fn forward<R: Wait>(
        &self,
        rt: &R,
        caller: &mut Caller<B>,
        id: FollowerId,
        points: &[Point],
    ) -> Result<Option<Point>, UnknownFollower>
        ensures { IsCalled (network_from B.start S.verifies) caller.old (call_by caller.old.caller
            (Forward id.number (map point_of points.now)) (forward_reply_of result)) caller.new }
    {
        let mut desk = self.desk.lock(rt);
        desk.forward(&self.heights, &mut caller.seat, id, points)
    }

    /// Closes the follower of this number, which may then be given again. The call stands in the journal with its
    /// reply, also where no such follower is open. Waits for the lock. In constant time; takes no memory, and so it
    /// can't run out.
    pub fn close<R: Wait>(
        &self,
        rt: &R,
        caller: &mut Caller<B>,
        id: FollowerId,
    ) -> Result<(), UnknownFollower>
        ensures { IsCalled (network_from B.start S.verifies) caller.old
            (call_by caller.old.caller (Close id.number) (close_reply_of result)) caller.new }
    {
        let mut desk = self.desk.lock(rt);
        desk.close(&self.heights, &mut caller.seat, id)
    }

    /// The live block with this hash is kept no more, if it is beside the selected chain, as
    /// [`chain_core::Core::discard`] does it; it may arrive again. The call stands in the journal with its reply, also
    /// where there is no such block. Waits for the lock, and holds it for what that call costs: a few look-ups, and one
    /// more for each live block to which a way led only by this one; where a block was found to be invalid since the
    /// last such call, all live blocks are looked at. Takes no memory, and so it can't run out.
    pub fn discard<R: Wait>(
        &self,
        rt: &R,
        caller: &mut Caller<B>,
        hash: BlockHash,
    ) -> Result<(), NotBeside>
        ensures { IsCalled (network_from B.start S.verifies) caller.old
            (call_by caller.old.caller (Discard hash.bytes) (discard_reply_of result)) caller.new }
    {
        let mut desk = self.desk.lock(rt);
        desk.discard(&self.heights, &mut caller.seat, hash)
    }

    /// Copies of the texts of the blocks that are never rolled back, except the first `from` of them: what a log still
    /// lacks that has `from`. The journal has nothing of it; the caller has then seen all of the journal, and looked
    /// at the height. Where memory runs out nothing changes. Waits for the lock, and holds it while it copies
    /// the bytes of each, once.
    pub fn copy<R: Wait>(
        &self,
        rt: &R,
        caller: &mut Caller<B>,
        from: u64,
    ) -> Result<Vec<Vec<u8>>, AllocError>
        ensures look { OnOk result ((height : ℕ)
            × IsLook (network_from B.start S.verifies) caller.old height caller.new) }
        // They are those after the journal that the caller has then seen.
        ensures copies { IfOk result (λ texts. AreCopiesAfter (network_from B.start S.verifies) caller.new.seen from
            (texts_in texts.items)) }
        // Each has 1 to 1,048,576 bytes.
        ensures sizes { IfOk result (λ texts. AllByRecursion IsLogBlock (texts_in texts.items)) }
        // What the core begins from is sound: the chain that it was opened on is valid, and its blocks have texts.
        ensures opens { IsOpening (network_from B.start S.verifies) }
        ensures err { OnErr result (caller.new ≡ caller.old) }
    {
        let mut desk = self.desk.lock(rt);
        desk.copy(&self.heights, &mut caller.seat, from)
    }

    /// The last block of the selected chain, or the genesis point. The journal has nothing of it; the caller has then
    /// seen all of the journal, and looked at the height. Waits for the lock. In constant time; takes no memory.
    pub fn tip<R: Wait>(&self, rt: &R, caller: &mut Caller<B>) -> Point
        ensures { IsAsked (network_from B.start S.verifies) caller.old caller.new
            (λ s. point_of result ≡ tip_point s.chain) }
    {
        let mut desk = self.desk.lock(rt);
        desk.tell(&self.heights, &mut caller.seat);
        desk.core().tip()
    }

    /// The slot of the selected chain's last block, and 0 where it has none. The journal has nothing of it; the caller
    /// has then seen all of the journal, and looked at the height. Waits for the lock. In constant time; takes no
    /// memory.
    pub fn slot<R: Wait>(&self, rt: &R, caller: &mut Caller<B>) -> u64
        ensures { IsAsked (network_from B.start S.verifies) caller.old caller.new
            (λ s. result ≡ (tip_after genesis_tip s.chain).slot) }
    {
        let mut desk = self.desk.lock(rt);
        desk.tell(&self.heights, &mut caller.seat);
        desk.core().slot()
    }

    /// How many blocks of the selected chain are never rolled back: all but the last k, and at least those that the
    /// core was opened on. The journal has nothing of it; the caller has then seen all of the journal, and looked at
    /// the height. Waits for the lock. In constant time; takes no memory.
    pub fn immutable<R: Wait>(&self, rt: &R, caller: &mut Caller<B>) -> u64
        ensures { IsAsked (network_from B.start S.verifies) caller.old caller.new
            (λ s. result ≡ immutable_length (network_from B.start S.verifies) s.chain) }
    {
        let mut desk = self.desk.lock(rt);
        desk.tell(&self.heights, &mut caller.seat);
        desk.core().immutable()
    }

    /// The block of this number of the selected chain, from 1 to its height, and else None: the one that the core
    /// keeps, shared; none of its bytes are copied. The journal has nothing of it; the caller has then seen all of the
    /// journal, and looked at the height. Err where 2^63 - 1 owners share the block already, and then nothing changes.
    /// Waits for the lock. In constant time; takes no memory.
    pub fn block<R: Wait>(
        &self,
        rt: &R,
        caller: &mut Caller<B>,
        number: u64,
    ) -> Result<Option<CheckedBlock<S>>, AllocError>
        ensures block { IfOk result (λ found. IsAsked (network_from B.start S.verifies) caller.old caller.new
            (λ s. found ≡ block_numbered s.chain number)) }
        ensures err { OnErr result (caller.new ≡ caller.old) }
    {
        let mut desk = self.desk.lock(rt);
        let found = share_block(desk.core().block(number))?;
        desk.tell(&self.heights, &mut caller.seat);
        Ok(found)
    }

    /// The fees of all transactions of the selected chain, in lovelace. The journal has nothing of it; the caller has
    /// then seen all of the journal, and looked at the height. Waits for the lock. In constant time; takes no memory.
    pub fn fees<R: Wait>(&self, rt: &R, caller: &mut Caller<B>) -> u64
        // They are those of the fold of the rules over the chain.
        ensures { IsAsked (network_from B.start S.verifies) caller.old caller.new
            (λ s. (ledger : Ledger) × (ledger_of (network_from B.start S.verifies) s.chain ≡ Some ledger)
            × (result ≡ ledger.fees)) }
    {
        let mut desk = self.desk.lock(rt);
        desk.tell(&self.heights, &mut caller.seat);
        desk.core().fees()
    }

    /// The unspent outputs of the selected chain. They share all their nodes with those of the core, which goes on
    /// beside them: who walks them has no lock. The journal has nothing of it; the caller has then seen all of the
    /// journal, and looked at the height. Err where 2^63 copies share them already, and then nothing changes. Waits for
    /// the lock. In constant time; takes no memory.
    pub fn utxo<R: Wait>(&self, rt: &R, caller: &mut Caller<B>) -> Result<Utxo, AllocError>
        // They are those of the fold of the rules over the chain.
        ensures utxo { IfOk result (λ utxo. IsAsked (network_from B.start S.verifies) caller.old caller.new
            (λ s. (ledger : Ledger) × (ledger_of (network_from B.start S.verifies) s.chain ≡ Some ledger)
            × (utxo ≡ ledger.utxo))) }
        ensures err { OnErr result (caller.new ≡ caller.old) }
    {
        let mut desk = self.desk.lock(rt);
        let utxo = desk.core().utxo().try_clone()?;
        desk.tell(&self.heights, &mut caller.seat);
        Ok(utxo)
    }

    /// The transactions that wait to come into a block, in the order in which they came, as handles that share them
    /// with the core. The journal has nothing of it; the caller has then seen all of the journal, and looked at the
    /// height. Where memory runs out nothing changes. Waits for the lock, and holds it for a few steps a transaction;
    /// copies none.
    pub fn mempool<R: Wait>(
        &self,
        rt: &R,
        caller: &mut Caller<B>,
        alloc: Global,
    ) -> Result<Vec<Arc<CheckedTx<S>>>, AllocError>
        ensures mempool { IfOk result (λ handles. IsAsked (network_from B.start S.verifies) caller.old caller.new
            (λ s. map arc_value handles.items ≡ s.mempool)) }
        ensures err { OnErr result (caller.new ≡ caller.old) }
    {
        let mut desk = self.desk.lock(rt);
        let handles = copy_handles(alloc, desk.core().mempool())?;
        desk.tell(&self.heights, &mut caller.seat);
        Ok(handles)
    }

    /// Whether a follower of this number is open. The journal has nothing of it; the caller has then seen all of the
    /// journal, and looked at the height. Waits for the lock. In constant time; takes no memory.
    pub fn is_open<R: Wait>(&self, rt: &R, caller: &mut Caller<B>, id: FollowerId) -> bool
        ensures { IsAsked (network_from B.start S.verifies) caller.old caller.new
            (λ s. IsTrue result ↔ ((f : Follower) × (follower_of s.followers id.number ≡ Some f))) }
    {
        let mut desk = self.desk.lock(rt);
        desk.tell(&self.heights, &mut caller.seat);
        desk.core().is_open(id)
    }

    /// Forges the block that comes next on the selected chain in this slot, as [`chain_core::Core::forge`] does, of the
    /// transactions that wait. Nothing changes in the core, and the journal has nothing of it; the caller has then seen
    /// all of the journal, and looked at the height. Where another block was put on meanwhile, it comes too late. Err
    /// tells the first that applies: the slot isn't after the tip's, it or the number is 2^63 or more, or memory ran
    /// out.
    ///
    /// Waits for the lock, and holds it for what that call costs: each transaction that waits is judged once.
    pub fn forge<R: Wait>(
        &self,
        rt: &R,
        caller: &mut Caller<B>,
        slot: u64,
    ) -> Result<Forged, ForgeFault>
        // It is the block that the definitions say, beside the state that the journal leaves, with its text and its
        // place; and where its bytes arrive next there it is put on.
        ensures forged { IfOk result (λ f. IsAsked (network_from B.start S.verifies) caller.old caller.new
            (λ s. IsForgedOf (network_from B.start S.verifies) s slot f.bytes.items f.point)) }
        // Else it is the first fault that applies there, or memory ran out and none does.
        ensures fault { IfErr result (λ fault. IsAsked (network_from B.start S.verifies) caller.old caller.new
            (λ s. IsForgeFault (network_from B.start S.verifies) s.chain slot fault)) }
    {
        let mut desk = self.desk.lock(rt);
        desk.forge(&self.heights, &mut caller.seat, slot)
    }

    /// An arrival, brought by the caller of this seat, which has seen what its bytes are. The call stands in the
    /// journal with its reply; where memory runs out it doesn't, and nothing changes.
    pub(crate) fn arrive<R: Wait>(
        &self,
        rt: &R,
        caller: &mut CallerSeat<B>,
        arrival: &SeenArrival<S>,
    ) -> Result<ArriveReply, AllocError>
        requires { IsPeer arrival.now.peer }
        ensures called { IfOk result (λ reply. IsCalled (network_from B.start S.verifies) caller.old (arrival_by
            caller.old.caller arrival.now.peer arrival.now.seen (arrive_reply_of (Ok reply))) caller.new) }
        ensures size { OnErr result (length arrival.now.seen ≤ block_size_limit) }
        ensures err { OnErr result (caller.new ≡ caller.old) }
    {
        let mut desk = self.desk.lock(rt);
        desk.arrive(&self.heights, caller, arrival.peer, &arrival.seen)
    }

    /// The callers of two seats meet.
    pub(crate) fn meet_seats<R: Wait>(
        &self,
        rt: &R,
        one: &mut CallerSeat<B>,
        other: &mut CallerSeat<B>,
    )
        ensures { IsMeeting (network_from B.start S.verifies) one.old other.old one.new other.new }
    {
        let mut desk = self.desk.lock(rt);
        desk.meet(&self.heights, one, other);
    }

    /// Two callers meet: each looks at the height, and has then seen the same journal, which begins with all that it
    /// had seen. Waits for the lock. A few steps on the word of the height; takes no memory, and writes nothing.
    pub fn meet<R: Wait>(&self, rt: &R, one: &mut Caller<B>, other: &mut Caller<B>)
        ensures { IsMeeting (network_from B.start S.verifies) one.old other.old one.new other.new }
    {
        self.meet_seats(rt, &mut one.seat, &mut other.seat);
    }
}
