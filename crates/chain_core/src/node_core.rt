//! The core: what arrived, and the chain that is selected.

use crate::arrival::ArriveReply;
use crate::chain_db::ChainDb;
use crate::event::{RawEvent, Reply};
use crate::follower::{Instruction, NextFault, instruction_for};
use crate::forging::{ForgeFault, Forged, forge};
use crate::judging::first_refusal;
use crate::live_form::{live_form, shared_live_form};
use crate::place::first_on;
use crate::refusal::Refusal;
use crate::reopening::{OpenedChain, ReopenFault, Reopening};
use block::{CheckedBlock, Seen};
use followers::{FollowerId, Followers, OpenFollowerFault, UnknownFollower};
use genesis::Genesis;
use ident::Point;
use ledger::LedgerState;
use mempool::{Mempool, SubmitReply};
use std::alloc::{AllocError, Global};
use std::marker::Model;
use utxo_rules::Utxo;
use witness_pool::{CheckedTx, SigScheme};

/// The node's chain, from the bytes of blocks in any order.
///
/// ```text
/// let genesis = Genesis::from_toml(alloc, &text)?; // it grants one output of 1,200 lovelace
/// let mut core = Core::<TestScheme>::new(alloc, genesis)?;
/// let header = Header { number: 1, slot: 1, previous: None, body_hash: empty_body_hash() };
/// let bytes = write_empty(alloc, &header)?; // a first block without transactions
/// let reply = core.arrive(&bytes)?; // ArriveReply::Kept { back: 0, added: 1 }: none is rolled back, one is put on
/// let again = core.arrive(&bytes)?; // ArriveReply::Refused(Refusal::Known)
/// let follower = core.open()?; // FollowerId { number: 0 }
/// let told = core.next(follower)?; // Some(Instruction::AddBlock(block)), where block.bytes() is those bytes
/// let rest = core.next(follower)?; // None: that was all
/// let tip = core.tip(); // tip.number is 1, core.utxo().len() is 1, and core.fees() is 0
/// ```
///
/// The core keeps the selected chain, the live blocks, the states of the chain's last k blocks, the mempool, and for
/// each follower how many blocks it was told and how many of these the chain still has.
pub struct Core<S: SigScheme> {
    pub(crate) alloc: Global,
    pub(crate) genesis: Genesis,
    pub(crate) chain_db: ChainDb<S>,
    pub(crate) followers: Followers,
}

// By hand, so that each exit calls it: the derived one is copied to each exit of each owner.
impl<S: SigScheme> Drop for Core<S> {
    fn drop(self) {
        let Core {
            alloc: _,
            genesis: _,
            chain_db: _,
            followers: _,
        } = self;
    }
}

impl<S: SigScheme> Model for Core<S> {
    ghost use Rattle.chain_core.specs.Held.{Held, coded_held};

    ghost Value = { Held };

    ghost coded = { coded_held };

    ghost use Rattle.chain_core.specs.Inside.{held, IsSoundInside};

    ghost view = { held };

    ghost invariant = { IsSoundInside S.verifies };
}

impl<S: SigScheme> Core<S> {
    ghost use Rattle.std.specs.Prelude.{◌≡◌, ◌≤◌, ◌<◌, ◌+◌, ℕ, List, [], length, None, Some, IfOk, IfErr, OnErr};
    ghost use Rattle.std.specs.Prelude.{MatchOption, map, drop, option_map, IsTrue, ◌↔◌};
    ghost use Rattle.std.specs.List.{AllByRecursion};
    ghost use Rattle.model.specs.Transaction.{SpellsTransaction};
    ghost use Rattle.model.specs.Utxo.{coin_of, outputs_of};
    ghost use Rattle.model.specs.Block.{Block as Plain, SpellsBlock, block_text};
    ghost use Rattle.model.specs.Chain.{genesis_tip, tip_after, tip_point, immutable_length, immutable_part};
    ghost use Rattle.model.specs.Chain.{BeginsWith};
    ghost use Rattle.model.specs.Applying.{IsStateOf};
    ghost use Rattle.model.specs.Genesis.{supply_of};
    ghost use Rattle.model.specs.Ledger.{Ledger, ledger_of, network_of, network_on};
    ghost use Rattle.model.specs.Limits.{block_size_limit};
    ghost use Rattle.model.specs.Log.{IsLogBlock};
    ghost use Rattle.model.specs.Follower.{Follower, follower_of};
    ghost use Rattle.model.specs.Forging.{ArrivesNext};
    ghost use Rattle.model.specs.History as history;
    ghost use Rattle.model.specs.History.{State, Entry, Arrive, Submit, Open, Next, Forward, Close, IsRun, Applies};
    ghost use Rattle.model.specs.History.{ChainTheorem};
    ghost use Rattle.ident.specs.PointView.{point_of};
    ghost use Rattle.block.specs.Read.{IsRead};
    ghost use Rattle.chain_core.specs.Views.{event_of, reply_of, arrive_reply_of, submit_reply_of, open_reply_of};
    ghost use Rattle.chain_core.specs.Views.{next_reply_of, forward_reply_of, close_reply_of, history_of, IsReplyTo};
    ghost use Rattle.chain_core.specs.Views.{AreRepliesTo};
    ghost use Rattle.chain_core.specs.Steps.{Steps, KeepsStart};
    ghost use Rattle.chain_core.specs.Calls.{IsWantAtArrival, IsWantAt, IsLeftAt, AreCalls};
    ghost use Rattle.mempool.specs.Calls.{IsWantAtSubmission};
    ghost use Rattle.chain_core.specs.Mempools.{IsWantOf};
    ghost use Rattle.chain_core.specs.FollowerCalls.{IsWantAtOpen, IsWantAtNext, Peeks};
    ghost use Rattle.chain_core.specs.ForgedBlocks.{IsForgedAs, IsForgeFault};
    ghost use Rattle.chain_core.specs.Held.{opening_held, network_held, Stands};
    ghost use Rattle.chain_core.specs.Numbers.{block_numbered};
    ghost use Rattle.chain_core.specs.Immutable.{immutable_texts};
    ghost use Rattle.chain_core.specs.Reopening.{IsChainOf, IsReopenFault, WereImmutable, texts_in};
    ghost use Rattle.chain_core.specs.declared.reopening.ReopenFault.TheVariants as reopen;

    /// A core before anything arrived: the selected chain is empty, and the unspent outputs are those of the genesis.
    /// Err where memory runs out for these. Takes one insertion for each of them.
    pub fn new(alloc: Global, genesis: Genesis) -> Result<Core<S>, AllocError>
        ensures { IfOk result (λ core. core ≡ opening_held genesis []) }
    {
        let state = LedgerState::new(alloc, &genesis)?;
        let chain = Vec::new(alloc);
        Core::on(alloc, genesis, OpenedChain { state, chain })
    }

    /// A core whose selected chain is that of these blocks, the first one first, none of which is ever rolled back: a
    /// node that restarts on the immutable blocks that it kept. No transaction waits, and no follower is open; one that
    /// is opened stands at genesis and is told these blocks too. Where the text of a block is none, or a block can't
    /// come after those before it, there is no core, and the number of the first such block is told, counted from 1; or
    /// memory ran out.
    ///
    /// Reads, hashes and judges each block once, and copies its bytes once, in the order of the chain. [`Reopening`]
    /// does this one block at a time.
    ///
    /// ```text
    /// let blocks: Vec<Vec<u8>> = ..; // the texts of `core.block(1)` to `core.block(core.immutable())`, kept
    /// let core = Core::<TestScheme>::reopen(alloc, genesis, &blocks)?;
    /// ```
    pub fn reopen(
        alloc: Global,
        genesis: Genesis,
        blocks: &[Vec<u8>],
    ) -> Result<Core<S>, ReopenFault>
        // The bytes are those of the blocks of a valid chain, and the core begins from that chain.
        ensures opened { IfOk result (λ core. (chain : List Plain)
            × IsChainOf (network_of genesis S.verifies) (texts_in blocks.now) chain
            × (core ≡ opening_held genesis chain)) }
        // Else it is the first block that is none or can't come next, or memory ran out.
        ensures fault { IfErr result (IsReopenFault (network_of genesis S.verifies) (texts_in blocks.now)) }
        // No block is told of the blocks that a node kept of those that no rollback reaches.
        ensures again { IfErr result (λ fault. WereImmutable (network_of genesis S.verifies) (texts_in blocks.now)
            → fault ≡ reopen.OutOfMemory) }
    {
        let mut reopening = Reopening::new(alloc, genesis)?;
        for bytes in blocks {
            reopening = reopening.push(bytes)?;
        }
        Ok(reopening.finish()?)
    }

    /// A core on a chain with its state.
    pub(crate) fn on(
        alloc: Global,
        genesis: Genesis,
        on: OpenedChain<S>,
    ) -> Result<Core<S>, AllocError>
        requires state { (opened : List Plain) →
            IsStateOf (network_on genesis S.verifies opened) on.chain.items on.state }
        requires spelled { AllByRecursion (λ b. SpellsBlock b (block_text b)) on.chain.items }
        ensures { IfOk result (λ core. core ≡ opening_held genesis on.chain.items) }
    {
        let chain_db = ChainDb::open(alloc, &genesis, on)?;
        Ok(Core {
            alloc,
            genesis,
            chain_db,
            followers: Followers::new(alloc),
        })
    }

    /// Bytes of a block arrive. They are refused for the first reason that applies, or the block is kept, the chain is
    /// selected anew, and the mempool is brought up to date with it. Where memory runs out nothing changes.
    ///
    /// Reads and hashes the bytes once, and copies them once where they aren't refused. A refusal takes no memory, but
    /// for the transactions that are read before it is known. A block that no way leads to from the immutable tip is
    /// kept as these bytes alone, with what its header says, and none of its signatures is verified: whatever its
    /// transactions, it takes no more memory than its bytes, beside a few hundred for the look-ups. Where one leads to
    /// it later, and the chain with it is longer, its transactions are read once more, and judged. A block that extends
    /// the tip is judged once, and one of a fork that is not longer isn't judged. A few look-ups among the live blocks,
    /// and one more for each block on the way to the new one, for each that goes on from it and for each that becomes
    /// immutable; one among the hashes of immutable blocks, and one more for each that becomes immutable. Where the
    /// chain changes, each transaction of the mempool is judged once. Each follower is looked at once.
    pub fn arrive(&mut self, bytes: &[u8]) -> Result<ArriveReply, AllocError>
        // For every state of the definitions that the core stands for, this is a step to one that it then stands for.
        ensures step { Steps S.verifies self.old (Arrive bytes.now) (arrive_reply_of result) self.new }
        // Memory runs out only where the bytes begin as a block does, and, where they are the text of one without
        // transactions, where no refusal applies.
        ensures memory { OnErr result (IsWantAtArrival S.verifies self.old bytes.now) }
        ensures size { OnErr result (length bytes.now ≤ block_size_limit) }
        ensures start { KeepsStart self.old self.new }
        ensures err { OnErr result (self.new ≡ self.old) }
    {
        let found = match block::look(self.alloc, bytes)? {
            Ok(found) => found,
            Err(bad) => return Ok(ArriveReply::Refused(Refusal::from(bad))),
        };
        if let Some(refusal) = first_refusal(&self.chain_db, found.point(), found.bytes()) {
            return Ok(ArriveReply::Refused(refusal));
        }
        let block = live_form(self.alloc, &self.chain_db.store, found)?;
        let change = self.chain_db.add(self.alloc, &self.genesis, block)?;
        self.followers
            .moved(self.chain_db.chain.len() as u64 - change.added);
        Ok(ArriveReply::Kept {
            back: change.back,
            added: change.added,
        })
    }

    /// Bytes of a block arrive that were read before, on this thread or another. The answer is that of [`Core::arrive`]
    /// to the bytes. Where memory runs out nothing changes.
    ///
    /// Hashes and copies no bytes, and verifies no signature: that was done when they were seen, also of a block that
    /// is then refused. Of a block that no way leads to, its transactions and verdicts are let go, as [`Core::arrive`]
    /// has it. A refusal takes no memory. The rest takes as long as for [`Core::arrive`].
    pub fn arrive_seen(&mut self, seen: Seen<S>) -> Result<ArriveReply, AllocError>
        // For every state of the definitions that the core stands for, this is a step to one that it then stands for.
        ensures step { Steps S.verifies self.old (Arrive seen) (arrive_reply_of result) self.new }
        // Memory runs out only where no refusal applies.
        ensures memory { OnErr result ((s : State) → Stands self.old s → (refusal : history.Refusal) →
            Applies (network_held self.old S.verifies) s seen refusal → ⊥) }
        ensures size { OnErr result (length seen ≤ block_size_limit) }
        ensures start { KeepsStart self.old self.new }
        ensures err { OnErr result (self.new ≡ self.old) }
    {
        self.arrive_lent(&seen)
    }

    /// As [`Core::arrive_seen`] has it, of bytes that stay with the caller, which may bring them again where memory ran
    /// out. A block that is kept is shared with it.
    pub fn arrive_lent(&mut self, seen: &Seen<S>) -> Result<ArriveReply, AllocError>
        // For every state of the definitions that the core stands for, this is a step to one that it then stands for.
        ensures step { Steps S.verifies self.old (Arrive seen.now) (arrive_reply_of result) self.new }
        // Memory runs out only where no refusal applies.
        ensures memory { OnErr result ((s : State) → Stands self.old s → (refusal : history.Refusal) →
            Applies (network_held self.old S.verifies) s seen.now refusal → ⊥) }
        ensures size { OnErr result (length seen.now ≤ block_size_limit) }
        ensures start { KeepsStart self.old self.new }
        ensures err { OnErr result (self.new ≡ self.old) }
    {
        let block = match seen.block() {
            Ok(block) => block,
            Err(bad) => return Ok(ArriveReply::Refused(Refusal::from(bad))),
        };
        if let Some(refusal) = first_refusal(&self.chain_db, block.point(), block.bytes()) {
            return Ok(ArriveReply::Refused(refusal));
        }
        let shared = shared_live_form(&self.chain_db.store, block)?;
        let change = self.chain_db.add(self.alloc, &self.genesis, shared)?;
        self.followers
            .moved(self.chain_db.chain.len() as u64 - change.added);
        Ok(ArriveReply::Kept {
            back: change.back,
            added: change.added,
        })
    }

    /// Bytes of a transaction are submitted. They are judged on what the mempool's transactions leave of the selected
    /// chain's unspent outputs, at the slot after its tip's, and the transaction waits at the mempool's end, or the
    /// reply says why it doesn't. Where memory runs out nothing changes.
    ///
    /// Linear in the bytes, with a look-up of the identifier, and what [`utxo_rules::check`] takes; only a transaction
    /// that is new, and against which none of the reasons 1 to 7 is there, has its signatures verified. Memory is asked
    /// for from the first part of a transaction on that is read.
    pub fn submit(&mut self, bytes: &[u8]) -> Result<SubmitReply, AllocError>
        ensures step { Steps S.verifies self.old (Submit bytes.now) (submit_reply_of result) self.new }
        // Memory runs out only where the bytes begin as a transaction does, and not at one without parts.
        ensures memory { OnErr result (IsWantAtSubmission bytes.now) }
        ensures start { KeepsStart self.old self.new }
        ensures err { OnErr result (self.new ≡ self.old) }
    {
        self.chain_db.submit(bytes)
    }

    /// A transaction is submitted whose signatures and scripts were judged before, on this thread or another. The
    /// answer is that of [`Core::submit`] to its bytes. Where memory runs out nothing changes; it is asked for only
    /// where the transaction isn't known, and none of the reasons 1 to 7 is there.
    ///
    /// A look-up of the identifier, and what [`utxo_rules::check`] takes; reads, hashes and verifies nothing.
    pub fn submit_checked(&mut self, tx: CheckedTx<S>) -> Result<SubmitReply, AllocError>
        ensures step { (bytes : List ℕ) → SpellsTransaction tx bytes →
            Steps S.verifies self.old (Submit bytes) (submit_reply_of result) self.new }
        // Memory runs out only where it isn't known without it what is answered.
        ensures memory { OnErr result ((bytes : List ℕ) → SpellsTransaction tx bytes →
            IsWantOf (network_held self.old S.verifies) self.old.chain self.old.mempool bytes) }
        ensures start { KeepsStart self.old self.new }
        ensures err { OnErr result (self.new ≡ self.old) }
    {
        self.chain_db.submit_checked(tx)
    }

    /// The transactions that wait to come into a block, in the order in which they came. In constant time; takes no
    /// memory.
    pub fn mempool(&self) -> &Mempool<S>
        ensures { result.now.waiting.txs ≡ self.now.mempool }
    {
        &self.chain_db.mempool
    }

    /// Forges the block that comes next on the selected chain in this slot: its number is the next one, and it has, in
    /// their order, the mempool's transactions against which there is no reason at this slot on what those taken before
    /// leave, and for which its body has room; the others are skipped. Nothing changes. Where its bytes arrive next
    /// they are kept and the block is put on, if there are memory and room for it and no other block has its hash. Err
    /// tells the first that applies: the slot isn't after the tip's, it or the number is 2^63 or more, or memory ran
    /// out.
    ///
    /// Judges each transaction of the mempool once; verifies, hashes and copies none. Writes each text once, and copies
    /// the body once. A fault other than `OutOfMemory` takes no memory.
    ///
    /// ```text
    /// let forged = core.forge(slot)?;
    /// core.arrive(&forged.bytes)?; // ArriveReply::Kept { back: 0, added: 1 }, where no live block goes on from it
    /// ```
    pub fn forge(&self, slot: u64) -> Result<Forged, ForgeFault>
        // It is the block that the definitions say, with its text and its place.
        ensures forged { IfOk result (λ f. IsForgedAs (network_held self.now S.verifies) self.now.chain
            self.now.mempool slot f.bytes.items f.point) }
        // Else it is the first fault that applies, or memory ran out and none does.
        ensures fault { IfErr result (IsForgeFault (network_held self.now S.verifies) self.now.chain slot) }
        // Beside every state of the definitions that the core stands for: where the bytes arrive next the block is put
        // on.
        ensures arrives { IfOk result (λ f. (s : State) → Stands self.now s → (b : Plain) →
            SpellsBlock b f.bytes.items → ArrivesNext (network_held self.now S.verifies) s b f.bytes.items) }
    {
        // What says that an empty body fits, and that live blocks have texts, are clauses of these two.
        let (_supply, _live) = (self.genesis.supply(), self.chain_db.store.len());
        forge(self.alloc, &self.chain_db, slot)
    }

    /// Opens a follower of the least number that is free, 0 to 1,023. It was told nothing, and stands at genesis. Where
    /// there are 1,024, or memory runs out, nothing changes. Takes time that grows with the logarithm of
    /// how many lower numbers are free.
    pub fn open(&mut self) -> Result<FollowerId, OpenFollowerFault>
        ensures step { Steps S.verifies self.old Open (open_reply_of result) self.new }
        // Memory runs out only where a number is free.
        ensures memory { IfErr result (IsWantAtOpen self.old) }
        ensures start { KeepsStart self.old self.new }
        ensures err { OnErr result (self.new ≡ self.old) }
    {
        self.followers.open()
    }

    /// What the follower of this number is told next. Where of the chain that it was told blocks were rolled back
    /// since, it goes back to the last one that every selected chain has had; else it gets the next block of the
    /// selected chain; and nothing where it was told all of that.
    ///
    /// A client that puts on and cuts back as it is told has the selected chain after one instruction for each block
    /// that it lacks, and one to go back.
    ///
    /// Where no such follower is open, or memory runs out, nothing changes. Takes no memory where it answers nothing.
    /// In constant time, however far along the follower is. Shares the block, and copies none of its bytes.
    pub fn next(&mut self, id: FollowerId) -> Result<Option<Instruction<S>>, NextFault>
        ensures step { Steps S.verifies self.old (Next id.number) (next_reply_of result) self.new }
        // Memory runs out only where a block comes next.
        ensures memory { IfErr result (IsWantAtNext self.old id.number) }
        ensures start { KeepsStart self.old self.new }
        ensures err { OnErr result (self.new ≡ self.old) }
    {
        let height = self.height();
        let due = self.followers.due(id, height)?;
        let instruction = instruction_for(&self.chain_db.chain, due)?;
        self.followers.next(id, height)?;
        Ok(instruction)
    }

    /// What [`Core::next`] would tell the follower of this number. Nothing changes: it is still to be told that. Where
    /// no such follower is open it says so. Takes no memory where it answers nothing. In constant time, and copies no
    /// bytes.
    pub fn peek(&self, id: FollowerId) -> Result<Option<Instruction<S>>, NextFault>
        // From every state of the definitions that the core stands for there is a step in which this is answered.
        ensures step { Peeks S.verifies self.now id.number (next_reply_of result) }
        // Memory runs out only where a block comes next.
        ensures memory { IfErr result (IsWantAtNext self.now id.number) }
    {
        let height = self.height();
        let due = self.followers.due(id, height)?;
        let instruction = instruction_for(&self.chain_db.chain, due)?;
        Ok(instruction)
    }

    /// Sets the follower of this number to the first of the points that is on the selected chain, and answers that
    /// point. It is then told what comes after it; it gets no rollback to where it stands. The genesis point is on
    /// every chain. Where none of them is on it, or no such follower is open, nothing changes.
    ///
    /// Takes no memory. A look-up by number for each point.
    pub fn forward(
        &mut self,
        id: FollowerId,
        points: &[Point],
    ) -> Result<Option<Point>, UnknownFollower>
        ensures step { Steps S.verifies self.old (Forward id.number (map point_of points.now))
            (forward_reply_of result) self.new }
        ensures start { KeepsStart self.old self.new }
        ensures err { OnErr result (self.new ≡ self.old) }
    {
        if !self.followers.is_open(id) {
            return Err(UnknownFollower {});
        }
        let found = first_on(&self.chain_db.chain, points);
        if let Some(point) = found {
            self.followers.forward(id, point.number)?;
        }
        Ok(found)
    }

    /// Closes the follower of this number, which may then be given again. Where no such follower is open nothing
    /// changes. Takes time that grows with the logarithm of how many numbers are free, and no memory.
    pub fn close(&mut self, id: FollowerId) -> Result<(), UnknownFollower>
        ensures step { Steps S.verifies self.old (Close id.number) (close_reply_of result) self.new }
        ensures start { KeepsStart self.old self.new }
        ensures err { OnErr result (self.new ≡ self.old) }
    {
        self.followers.close(id)
    }

    /// Whether a follower of this number is open. In constant time; takes no memory.
    pub fn is_open(&self, id: FollowerId) -> bool
        // One is in every state of the definitions that the core stands for, or in none.
        ensures { (s : State) → Stands self.now s →
            IsTrue result ↔ ((f : Follower) × (follower_of s.followers id.number ≡ Some f)) }
    {
        self.followers.is_open(id)
    }

    /// Answers one event, by the call of its kind, and costs what that costs. A fault of the call stands in the
    /// reply.
    pub fn answer(&mut self, event: &RawEvent) -> Reply<S>
        ensures step { Steps S.verifies self.old (event_of event.now) (reply_of result) self.new }
        ensures kind { IsReplyTo event.now result }
        ensures want { IsWantAt S.verifies self.old event.now result }
        ensures start { KeepsStart self.old self.new }
        ensures left { IsLeftAt self.old result self.new }
    {
        match event {
            RawEvent::Arrive(bytes) => Reply::Arrive(self.arrive(bytes)),
            RawEvent::Submit(bytes) => Reply::Submit(self.submit(bytes)),
            RawEvent::Open => Reply::Open(self.open()),
            RawEvent::Next(id) => Reply::Next(self.next(*id)),
            RawEvent::Forward(id, points) => Reply::Forward(self.forward(*id, points)),
            RawEvent::Close(id) => Reply::Close(self.close(*id)),
            RawEvent::Discard(hash) => Reply::Discard(self.discard(*hash)),
        }
    }

    /// Answers events in their order, one reply to each. Room for the replies is taken first: Err where memory runs
    /// out there, and then no event has come. Costs what the calls of the events cost, one after the other.
    pub fn run(&mut self, events: &[RawEvent]) -> Result<Vec<Reply<S>>, AllocError>
        // Each is answered by its call, so what the calls promise holds of each, also of OutOfMemory.
        ensures calls { IfOk result (λ replies. AreCalls S.verifies self.old events.now replies.items self.new) }
        // Each event has a reply of its kind.
        ensures kinds { IfOk result (λ replies. AreRepliesTo events.now replies.items) }
        // For every state of the definitions that the core stands for, the events with the replies are a run to one
        // that it then stands for.
        ensures run { IfOk result (λ replies. (s : State) → Stands self.old s → (t : State)
            × IsRun (network_held self.old S.verifies) s (history_of events.now replies.items) t
            × Stands self.new t) }
        // From a new core on, the chain theorem.
        ensures theorem { IfOk result (λ replies. self.old ≡ opening_held self.old.genesis self.old.opened → (t : State)
            × ChainTheorem (network_held self.old S.verifies) (history_of events.now replies.items) t
            × Stands self.new t) }
        ensures start { KeepsStart self.old self.new }
        ensures err { OnErr result (self.new ≡ self.old) }
    {
        let mut replies = Vec::with_capacity(self.alloc, events.len())?;
        for event in events {
            let reply = self.answer(event);
            replies.push(reply)?;
        }
        Ok(replies)
    }

    /// The last block of the selected chain, or the genesis point, of number 0. In constant time; takes no memory.
    pub fn tip(&self) -> Point
        ensures tip { point_of result ≡ tip_point self.now.chain }
        // Every core stands for the state that a legal history leaves, and the chain theorem holds of it.
        ensures theorem { (history : List Entry) × (s : State)
            × ChainTheorem (network_held self.now S.verifies) history s × Stands self.now s }
    {
        self.chain_db.chain.point_at(self.height())
    }

    /// The slot of the selected chain's last block, and 0 where it has none. In constant time; takes no memory.
    pub fn slot(&self) -> u64
        ensures { result ≡ (tip_after genesis_tip self.now.chain).slot }
    {
        self.chain_db.state().slot()
    }

    /// How many blocks the selected chain has. In constant time; takes no memory.
    pub fn height(&self) -> u64
        ensures { result ≡ length self.now.chain }
    {
        self.chain_db.chain.len() as u64
    }

    /// How many blocks of the selected chain are never rolled back: all but the last k, and at least those that it was
    /// opened on. In constant time; takes no memory.
    pub fn immutable(&self) -> u64
        ensures count { result ≡ immutable_length (network_held self.now S.verifies) self.now.chain }
        // The chain that it was opened on begins them.
        ensures opened { BeginsWith (immutable_part (network_held self.now S.verifies) self.now.chain) self.now.opened }
    {
        self.chain_db.immutable() as u64
    }

    /// The block of this number of the selected chain, from 1 to [`Core::height`], and else None: the one that the core
    /// keeps, which `try_clone` shares. Its text, `bytes`, has at most 1,048,576 bytes. In constant time; copies
    /// nothing, and takes no memory.
    pub fn block(&self, number: u64) -> Option<&CheckedBlock<S>>
        ensures { option_map (λ b. b.now) result ≡ block_numbered self.now.chain number }
    {
        self.chain_db.chain.get(number)
    }

    /// The text of the block of this number of the selected chain.
    fn text_at(&self, number: u64) -> Option<&[u8]>
        ensures { MatchOption result (block_numbered self.now.chain number ≡ None) (λ bytes. (b : Plain)
            × (block_numbered self.now.chain number ≡ Some b) × IsRead b bytes.now) }
    {
        match self.block(number) {
            Some(block) => Some(block.bytes()),
            None => None,
        }
    }

    /// Copies of the texts of the blocks that are never rolled back, except the first `from` of them; none where
    /// there are no more. Err where memory runs out for these, and never where there are none. Copies the bytes of each
    /// once.
    pub fn copy_immutable(&self, from: u64) -> Result<Vec<Vec<u8>>, AllocError>
        ensures texts { IfOk result (λ texts.
            texts_in texts.items ≡ drop from (immutable_texts S.verifies self.now)) }
        // Each has 1 to 1,048,576 bytes.
        ensures sizes { IfOk result (λ texts. AllByRecursion IsLogBlock (texts_in texts.items)) }
        ensures some { OnErr result (from < immutable_length (network_held self.now S.verifies) self.now.chain) }
    {
        let mut texts = Vec::new(self.alloc);
        for number in from..self.immutable() {
            let Some(block) = self.text_at(number + 1) else {
                unreachable!();
            };
            let copy = block.to_vec(self.alloc)?;
            texts.push(copy)?;
        }
        Ok(texts)
    }

    /// The unspent outputs of the selected chain. In constant time; takes no memory.
    pub fn utxo(&self) -> &Utxo
        // They are those of the fold of the rules over the chain.
        ensures { (ledger : Ledger) × (ledger_of (network_held self.now S.verifies) self.now.chain ≡ Some ledger)
            × (result.now ≡ ledger.utxo) }
    {
        self.chain_db.state().utxo()
    }

    /// The fees of all transactions of the selected chain, in lovelace: below 2^63, together with what the unspent
    /// outputs hold. In constant time; takes no memory.
    pub fn fees(&self) -> u64
        ensures fees { (ledger : Ledger)
            × (ledger_of (network_held self.now S.verifies) self.now.chain ≡ Some ledger)
            × (result ≡ ledger.fees) }
        // With what the unspent outputs hold they are what the genesis granted.
        ensures supply { (ledger : Ledger)
            → ledger_of (network_held self.now S.verifies) self.now.chain ≡ Some ledger
            → coin_of (outputs_of ledger.utxo) + result ≡ supply_of self.now.genesis }
    {
        self.chain_db.state().fees()
    }
}
