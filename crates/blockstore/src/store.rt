//! The store of live blocks.

ghost use Rattle.std.specs.Prelude.{◌≡◌, ◌↔◌, [], ◌+◌, length, map, option_map, IsTrue, MatchOption};
ghost use Rattle.std.specs.Prelude.{OnOk, OnErr, IfOk, IfErr};
ghost use Rattle.std.specs.List.{AllByRecursion};
ghost use Rattle.model.specs.Block.{Block, block_text, bytes_in};
ghost use Rattle.model.specs.Genesis.{IsOver};
ghost use Rattle.block.specs.Read.{IsRead};
ghost use Rattle.model.specs.Chain.{genesis_tip};
ghost use Rattle.block.specs.View.{bytes_of, header_of, tip_of};
ghost use Rattle.blockstore.specs.Stored.{empty_store, blocks_of, IsSet, HasBlock};
ghost use Rattle.blockstore.specs.Insertion.{IsKnown, IsFull, IsAllowed, IsInsertFault, IsInserted};
ghost use Rattle.blockstore.specs.Answers.{HasNoneAt, IsAt, AreSuccessors, HasSuccessor, IsMarkSet, IsRid, IsCutTo};
ghost use Rattle.blockstore.specs.Shelves.{HasPast};
ghost use Rattle.blockstore.specs.Ways.{HasWay};
ghost use Rattle.blockstore.specs.OffWays.{AreOffWays};
ghost use Rattle.blockstore.specs.Live.{HoldsNothing, GainsLive, LosesLive, FollowsChain, KeepsLive};

use crate::capacity::Capacity;
use crate::insert_fault::InsertFault;
use crate::live_block::LiveBlock;
use crate::reach::Reach;
use crate::shelf::Shelf;
use crate::stored_block::StoredBlock;
use crate::unconnected::Unconnected;
use block::{CheckedBlock, Header, Tip};
use ident::BlockHash;
use std::alloc::{AllocError, Global};
use std::marker::Model;
use witness_pool::SigScheme;

/// The live blocks: those that may still come into a selected chain, whose numbers are past the immutable part of the
/// selected one. They come in any order, and no two of them have one hash. Each call takes a look-up, whose time grows
/// with the logarithm of how many there are, unless it says otherwise.
#[derive(Drop)]
pub struct BlockStore<S: SigScheme> {
    alloc: Global,
    capacity: Capacity,
    root: Tip,
    blocks: Shelf<S>,
    reach: Reach,
    /// Whether a mark was set since all marks were taken off.
    has_marks: bool,
}

impl<S: SigScheme> Model for BlockStore<S> {
    ghost use Rattle.blockstore.specs.Stored.{Store, coded_store};

    ghost Value = { Store };

    ghost coded = { coded_store };

    ghost use Rattle.blockstore.specs.HeldStore.{store_of, IsHeldStore};

    ghost view = { store_of };

    ghost invariant = { IsHeldStore };
}

impl<S: SigScheme> BlockStore<S> {
    /// A store of this capacity, without a block, of chains from genesis. Takes no memory.
    pub fn new(alloc: Global, capacity: Capacity) -> BlockStore<S>
        ensures empty { result ≡ empty_store capacity genesis_tip }
        ensures live { HoldsNothing result }
    {
        BlockStore::behind(alloc, capacity, Tip::genesis())
    }

    /// A store of this capacity, without a block, of chains through this place. Takes no memory.
    pub fn behind(alloc: Global, capacity: Capacity, root: Tip) -> BlockStore<S>
        ensures empty { result ≡ empty_store capacity (tip_of root) }
        ensures live { HoldsNothing result }
    {
        BlockStore {
            alloc,
            capacity,
            root,
            blocks: Shelf::new(alloc),
            reach: Reach::new(alloc),
            has_marks: false,
        }
    }

    /// How many live blocks there are, in constant time.
    pub fn len(&self) -> usize
        ensures count { result ≡ length self.now.blocks }
        // No two have one hash, and there are at most as many as may be.
        ensures set { IsSet self.now }
        // Each was read from its text.
        ensures read { AllByRecursion (λ stored. IsRead stored.block (block_text stored.block)) self.now.blocks }
    {
        self.blocks.len()
    }

    /// Whether there is no live block, in constant time.
    pub fn is_empty(&self) -> bool
        ensures { IsTrue result ↔ (self.now.blocks ≡ []) }
    {
        self.blocks.len() == 0
    }

    /// Whether there is no room for a block of `size` bytes: there are as many live blocks as may be, or with these
    /// bytes they have more than they may have. In constant time.
    pub fn is_full_for(&self, size: usize) -> bool
        ensures { IsTrue result ↔ IsFull self.now size }
    {
        self.blocks.len() as u64 >= self.capacity.blocks || self.is_over(size)
    }

    /// Whether the live blocks have more bytes than they may have, with `size` more.
    fn is_over(&self, size: usize) -> bool
        ensures { IsTrue result ↔ IsOver self.now.capacity.bytes (bytes_in (blocks_of self.now) + size) }
    {
        match self.capacity.bytes {
            Some(most) => self.blocks.bytes() + size as u128 > most as u128,
            None => false,
        }
    }

    /// The live block with this hash, if there is one.
    pub fn get(&self, hash: BlockHash) -> Option<&StoredBlock<S>>
        ensures found { MatchOption result (HasNoneAt self.now hash.bytes)
            (λ found. IsAt self.now hash.bytes found.now) }
        // A live block with the text of one that was read is that block.
        ensures one { (b : Block) → IsRead b (block_text b) → IsKnown self.now b ↔ HasBlock self.now b }
        ensures set { IsSet self.now }
    {
        self.blocks.with_hash(hash)
    }

    /// The live blocks that name this one as the block before them, in no order that is promised: None asks for the
    /// first blocks of chains. Takes a look-up more for each of them, and copies no block. Err where there is no memory
    /// for the references, which is so only where there are some.
    pub fn successors(
        &self,
        previous: Option<BlockHash>,
    ) -> Result<Vec<&StoredBlock<S>>, AllocError>
        ensures found { IfOk result (λ found.
            AreSuccessors self.now (option_map bytes_of previous) (map (λ x. x.now) found.items)) }
        ensures some { OnErr result (HasSuccessor self.now (option_map bytes_of previous)) }
    {
        self.blocks.after(self.alloc, previous)
    }

    /// Whether a way leads to a block with this header, which need not be live: live blocks without marks, each
    /// following the one before it, the first of them, or the block itself where there are none, following the place
    /// that chains go through. Where none does, no chain of live blocks without marks leads from that place to it.
    pub fn connects(&self, header: &Header) -> bool
        ensures { (b : Block) → b.header ≡ header_of header.now →
            IsTrue result ↔ HasWay self.now.root self.now.blocks b }
    {
        self.blocks.connects(&self.root, header)
    }

    /// Holds this block with its transactions from now on, if it is live, a way leads to it and it is held as its text
    /// alone: so they aren't read again. A look-up, and then its text is compared. Takes no memory.
    pub fn hold(&mut self, block: CheckedBlock<S>)
        ensures { self.new ≡ self.old }
    {
        self.blocks.hold(block);
    }

    /// The live blocks that no way leads to, or that have a mark, each once, those with the greatest numbers first. In
    /// constant time; each step of the iterator takes a look-up for the block that it gives and for each that it passes
    /// over, since a way leads to it. Takes no memory.
    pub fn unconnected(&self) -> Unconnected<'_, S>
        ensures { AreOffWays self.now result }
    {
        self.blocks.unnoted()
    }

    /// Whether a live block has a number past this one: where none has, none goes on from a block with this number.
    /// Looks at the one with the greatest number alone.
    pub fn goes_past(&self, number: u64) -> bool
        ensures { IsTrue result ↔ HasPast number self.now.blocks }
    {
        self.blocks.goes_past(number)
    }

    /// Takes the block in, without a mark. Err where one of the reasons applies, and then nothing changes. A mark will
    /// take no more memory. Texts are compared where hashes agree, and then that of one block. Where a way leads to the
    /// block, it looks behind it, and behind each that one leads to from then on: a look-up, and one more for each
    /// block that is found there.
    pub fn insert(&mut self, block: LiveBlock<S>) -> Result<(), InsertFault>
        ensures ok { OnOk result (IsAllowed self.old block × IsInserted self.old block self.new) }
        ensures err { IfErr result (λ fault. IsInsertFault self.old block fault × (self.new ≡ self.old)) }
        // A live block with its text is this block.
        ensures one { IsKnown self.old block ↔ HasBlock self.old block }
        ensures set { IsSet self.new }
        ensures live { OnOk result (GainsLive self.old block self.new) }
    {
        let text = block.block().bytes();
        if let Some(stored) = self.get(block.block().hash()) {
            if stored.block().has_text(text) {
                return Err(InsertFault::Known);
            }
            return Err(InsertFault::Clash);
        }
        if self.is_full_for(text.len()) {
            return Err(InsertFault::VolatileFull);
        }
        if self
            .reach
            .take_in(&mut self.blocks, self.root, block)
            .is_err()
        {
            return Err(InsertFault::OutOfMemory);
        }
        Ok(())
    }

    /// Marks the live block with this hash as one that no valid chain will ever have. Nothing changes where no live
    /// block has the hash. Where a way led to the block, it looks behind it, and behind each that none leads to from
    /// then on: a look-up, and one more for each block that is found there. Takes no memory.
    pub fn mark_invalid(&mut self, hash: BlockHash)
        ensures marks { IsMarkSet self.old hash.bytes self.new }
        ensures set { IsSet self.new }
        ensures live { KeepsLive self.old self.new }
    {
        self.has_marks = true;
        self.reach.mark(&mut self.blocks, self.root, hash);
    }

    /// Takes out the live block with this hash, if there is one, which may come in again, and takes all marks off: a
    /// mark rests on the blocks that its block goes back to, and another of the same hash could come in this one's
    /// place. Where a way led to the block, it looks behind it, and behind each that none leads to from then on: a
    /// look-up, and one more for each block that is found there. Where a mark was set since the last such call, it
    /// looks at all live blocks. Takes no memory.
    pub fn discard(&mut self, hash: BlockHash)
        ensures rid { IsRid self.old hash.bytes self.new }
        ensures set { IsSet self.new }
        ensures live { LosesLive self.old hash.bytes self.new }
    {
        self.reach.discard(&mut self.blocks, self.root, hash);
        if self.has_marks {
            self.reach.unmark_all(&mut self.blocks, &self.root);
            self.has_marks = false;
        }
    }

    /// Takes out all blocks with a number up to that of this place, which all chains go through from then on: the
    /// immutable tip of the selected one. Takes look-ups for each that goes, and for each that hangs on another of them
    /// than the one at the place. Where no way led to the place, and it isn't the one before, it takes look-ups for
    /// all. Takes no memory.
    pub fn drop_up_to(&mut self, root: Tip)
        ensures cut { IsCutTo self.old root.number self.new }
        ensures root { self.new.root ≡ tip_of root }
        ensures set { IsSet self.new }
        ensures live { FollowsChain self.old root.number self.new }
    {
        self.reach.rise(&mut self.blocks, &self.root, &root);
        self.root = root;
    }
}
