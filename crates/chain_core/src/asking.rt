//! What a core is asked about blocks and transactions.

ghost use Rattle.std.specs.Prelude.{◌≡◌, ◌↔◌, ◌⊎◌, ◌-◌, ℕ, length, drop, Contains, IsTrue, MatchOption, IfOk, OnErr};
ghost use Rattle.std.specs.Option.{option_map};
ghost use Rattle.std.specs.Slice.Iter.{iter_rest};
ghost use Rattle.model.specs.Block.{block_hash_of};
ghost use Rattle.model.specs.History.{State, live_of, IsFullFor};
ghost use Rattle.model.specs.Chain.{NoneHas};
ghost use Rattle.model.specs.Asked.{IsPlaceOf, IsTxPlaceOf, IsWhyOf, Beside, AreUnconnected, ExplainsSubmission};
ghost use Rattle.model.specs.Evaluating.{IsEvaluation};
ghost use Rattle.mempool.specs.Calls.{IsWantAtSubmission};
ghost use Rattle.mempool.specs.View.{evaluation_of};
ghost use Rattle.utxo_rules.specs.DetailView.{detail_of};
ghost use Rattle.chain_core.specs.Asking.{place_of, tx_place_of};
ghost use Rattle.chain_core.specs.Ways.{why_of};
ghost use Rattle.chain_core.specs.Held.{network_held, Stands};

use crate::finding::{Place, block_with, is_full_for, live_count, place_in, unconnected_in};
use crate::node_core::Core;
use crate::place::blocks_from;
use crate::standing::{TxPlace, tx_place_in};
use crate::why::{Why, why_in};
use block::{Block, CheckedBlock};
use blockstore::Unconnected;
use ident::{BlockHash, TxId};
use mempool::Evaluation;
use std::alloc::AllocError;
use std::slice::Iter;
use utxo_rules::Detail;
use witness_pool::SigScheme;

impl<S: SigScheme> Core<S> {
    /// Where the block with this hash is: on the selected chain, beside it, or nowhere. A look-up or two, whose time
    /// grows with the logarithm of how many blocks there are, where their hashes look random; takes no memory.
    ///
    /// ```text
    /// match core.place(hash) {
    ///     Place::Chain(number) => core.block(number),
    ///     Place::Beside(_) | Place::Unknown => None,
    /// }
    /// ```
    pub fn place(&self, hash: BlockHash) -> Place
        // It is so in every state of the definitions that the core stands for.
        ensures { (s : State) → Stands self.now s →
            IsPlaceOf (network_held self.now S.verifies) s hash.bytes (place_of result) }
    {
        place_in(&self.chain_db, hash)
    }

    /// The block with this hash, without its transactions: that of the selected chain, or else the live one, and None
    /// where there is neither. It is the one that the core keeps, which `try_clone` shares. Takes as long as
    /// [`Core::place`], and no memory. [`CheckedBlock::from_block`] reads its transactions.
    pub fn block_by_hash(&self, hash: BlockHash) -> Option<&Block>
        ensures { (s : State) → Stands self.now s → MatchOption result
            (NoneHas s.chain hash.bytes × NoneHas (live_of (network_held self.now S.verifies) s) hash.bytes)
            (λ b. (Contains s.chain b.now ⊎ Contains (live_of (network_held self.now S.verifies) s) b.now)
            × (block_hash_of b.now ≡ hash.bytes)) }
    {
        block_with(&self.chain_db, hash)
    }

    /// The blocks of the selected chain from this number on, one after the other: all of them from 0 or 1 on, and none
    /// past its end. In constant time; copies nothing, and takes no memory.
    ///
    /// ```text
    /// for block in core.blocks(core.immutable() + 1) {
    ///     .. // those that may still be rolled back
    /// }
    /// ```
    pub fn blocks(&self, from: u64) -> Iter<'_, CheckedBlock<S>>
        ensures { iter_rest result ≡ drop (from - 1) self.now.chain }
    {
        blocks_from(self.chain_db.in_memory(), from)
    }

    /// Where the transaction with this identifier stands: at its position in the mempool, or else in the last of the
    /// last k blocks of the selected chain that has it. Walks the mempool, and then compares the identifiers in these
    /// blocks one by one, from the last block on; takes no memory.
    pub fn transaction(&self, id: TxId) -> TxPlace
        ensures { (s : State) → Stands self.now s →
            IsTxPlaceOf (network_held self.now S.verifies) s id.bytes (tx_place_of result) }
    {
        tx_place_in(&self.chain_db, self.genesis.k(), id)
    }

    /// Why the block with this hash isn't selected: the first reason that applies. Nothing else can be: where it goes
    /// back to the chain and all of its way is let through, the chain with it isn't longer. Changes nothing, and keeps
    /// nothing. A few look-ups for each block of the way back, memory for the list of these, and where they go back to
    /// the chain the time to read those that wait, to judge them all, and to roll the others back. Err where memory
    /// runs out.
    pub fn why(&self, hash: BlockHash) -> Result<Why, AllocError>
        ensures why { IfOk result (λ why. (s : State) → Stands self.now s →
            IsWhyOf (network_held self.now S.verifies) s hash.bytes (why_of why)) }
        // Memory is asked for only where the block is live and not on the chain.
        ensures memory { OnErr result ((s : State) → Stands self.now s →
            (number : ℕ) × IsPlaceOf (network_held self.now S.verifies) s hash.bytes (Beside number)) }
    {
        why_in(self.alloc, &self.chain_db, hash)
    }

    /// The live blocks beside the selected chain that no way leads to from it, one after the other, each once, those
    /// with the greatest numbers first. None of them is in a valid chain of kept blocks through the immutable tip, so
    /// whoever discards them loses no chain that could be selected as things are. Blocks may be among them that were
    /// found invalid, or that go back to the chain by one that was. In constant time, and takes no memory; each step
    /// takes time in proportion to the logarithm of the number of live blocks, once for the block that it gives and
    /// once for each that it passes over since a way leads to it.
    ///
    /// ```text
    /// let mut furthest = Vec::new(alloc); // what a node may do whose store of live blocks is full
    /// for block in core.unconnected().take(100) {
    ///     furthest.push(block.hash())?;
    /// }
    /// for hash in &furthest {
    ///     core.discard(*hash)?;
    /// }
    /// ```
    pub fn unconnected(&self) -> Unconnected<'_, S>
        ensures { (s : State) → Stands self.now s →
            AreUnconnected (network_held self.now S.verifies) s result }
    {
        unconnected_in(&self.chain_db)
    }

    /// How many live blocks there are: those of the selected chain that may still be rolled back, and those beside it
    /// that may still come into a selected chain. At most `max_volatile`. In constant time; takes no memory.
    pub fn live_blocks(&self) -> u64
        ensures { (s : State) → Stands self.now s → result ≡ length (live_of (network_held self.now S.verifies) s) }
    {
        live_count(&self.chain_db)
    }

    /// Whether there is no place for a live block of `size` bytes more: `max_volatile` blocks are live, or with these
    /// bytes they would have more than `max_volatile_bytes`. So a block of this size that is refused for no other
    /// reason is refused as [`Refusal::VolatileFull`](crate::Refusal). In constant time; takes no memory.
    pub fn is_full_for(&self, size: usize) -> bool
        ensures { (s : State) → Stands self.now s →
            IsTrue result ↔ IsFullFor (network_held self.now S.verifies) s size }
    {
        is_full_for(&self.chain_db, size)
    }

    /// Why these bytes would be refused if they were submitted: the reason against the transaction, with what it is
    /// about. None where [`Core::submit`] would refuse them for no reason: they are no transaction, it waits already,
    /// or there is nothing against it. Changes nothing. Linear in the bytes, with a look-up of the identifier and what
    /// [`utxo_rules::explain`] takes; only where none of the reasons 1 to 7 applies, signatures are verified. Err where
    /// memory runs out.
    ///
    /// ```text
    /// if let SubmitReply::Refused(reason) = core.submit(&bytes)? {
    ///     if let Some(detail) = core.explain_submission(&bytes)? {
    ///         println!(rt; "{reason}: {detail}")?;
    ///     }
    /// }
    /// ```
    pub fn explain_submission(&self, bytes: &[u8]) -> Result<Option<Detail>, AllocError>
        ensures told { IfOk result (λ told. (s : State) → Stands self.now s →
            ExplainsSubmission (network_held self.now S.verifies) s bytes.now (option_map detail_of told)) }
        // Memory is asked for only where the bytes begin as a transaction does, and not at one without parts.
        ensures memory { OnErr result (IsWantAtSubmission bytes.now) }
    {
        self.chain_db.explain(bytes)
    }

    /// What these bytes would be answered if they were submitted, judged at this slot: the reply, and of a refusal what
    /// it is about. At the slot after the tip's it is what [`Core::submit`] answers. Changes nothing. Costs what
    /// [`Core::explain_submission`] does. Err where memory runs out.
    ///
    /// ```text
    /// match core.evaluate(slot, &bytes)? {
    ///     Evaluation::Acceptable => println!(rt; "valid in slot {slot}")?,
    ///     Evaluation::Refused(detail) => println!(rt; "{detail}")?,
    ///     Evaluation::Malformed | Evaluation::Known | Evaluation::Full => ..,
    /// }
    /// ```
    pub fn evaluate(&self, slot: u64, bytes: &[u8]) -> Result<Evaluation, AllocError>
        ensures told { IfOk result (λ told. (s : State) → Stands self.now s →
            IsEvaluation (network_held self.now S.verifies) s slot bytes.now (evaluation_of told)) }
        // Memory is asked for only where the bytes begin as a transaction does, and not at one without parts.
        ensures memory { OnErr result (IsWantAtSubmission bytes.now) }
    {
        self.chain_db.evaluate(slot, bytes)
    }
}
