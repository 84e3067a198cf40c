//! How the notes of which live blocks a way leads to are kept up to date.

ghost use Rattle.std.specs.Prelude.{◌≡◌, [], ◌∷◌, ◌+◌, ◌-◌, ◌^◌, ◌++◌, ◌<◌, ◌≤◌, Some, None, length, map, filter};
ghost use Rattle.std.specs.Prelude.{OnOk, OnErr, vec_len, vec_capacity, option_map, true, false};
ghost use Rattle.model.specs.Block.{block_hash_of};
ghost use Rattle.block.specs.View.{tip_of};
ghost use Rattle.blockstore.specs.Stored.{unmarked};
ghost use Rattle.model.specs.Chain.{HaveDistinctHashes};
ghost use Rattle.blockstore.specs.Tests.{is_past, lacks_hash, marked_at};
ghost use Rattle.blockstore.specs.Shelves.{IsSame, HasNone, HasAge, IsWithout};
ghost use Rattle.blockstore.specs.Ways.{AreNotes, AreTurning, FollowsOne, AllStand, may_turn};
ghost use Rattle.blockstore.specs.Ways.{IsNotedAt, IsLetGo, AreDropped};

use crate::keys::Age;
use crate::live_block::LiveBlock;
use crate::placed_block::PlacedBlock;
use crate::shelf::Shelf;
use crate::stored_block::StoredBlock;
use block::Tip;
use ident::BlockHash;
use std::alloc::{AllocError, Global};
use witness_pool::SigScheme;

/// What a call still has to look behind: it begins at one place, and goes on behind each block whose note has turned.
#[derive(Drop)]
pub struct Reach {
    /// Empty between calls, with room for all live blocks.
    pub waiting: Vec<Tip>,
}

impl Reach {
    /// Nothing waits. Takes no memory.
    pub fn new(alloc: Global) -> Reach
        ensures { result.waiting.items ≡ [] }
    {
        Reach {
            waiting: Vec::new(alloc),
        }
    }

    /// Puts a block there, without a mark, whose hash none of the live ones has, and brings up to date which ones a way
    /// leads to. A look-up for the block before it, and those that it takes to put it there; where a way leads to it,
    /// it looks behind it, and behind each block whose note turns. Err where memory runs out: nothing changes.
    pub fn take_in<S: SigScheme>(
        &mut self,
        blocks: &mut Shelf<S>,
        root: Tip,
        block: LiveBlock<S>,
    ) -> Result<(), AllocError>
        requires alone { HasNone blocks.old.blocks (block_hash_of block) }
        requires few { length blocks.old.blocks < 2 ^ 64 - 1 }
        requires notes { AreNotes (Some (tip_of root)) blocks.old.blocks blocks.old.notes }
        requires none { self.old.waiting.items ≡ [] }
        requires room { length blocks.old.blocks ≤ vec_capacity self.old.waiting }
        ensures ok { OnOk result (IsSame blocks.new.blocks (blocks.old.blocks ++ unmarked block ∷ [])) }
        ensures err { OnErr result (blocks.new ≡ blocks.old) }
        ensures notes { AreNotes (Some (tip_of root)) blocks.new.blocks blocks.new.notes }
        ensures waiting { self.new.waiting.items ≡ [] }
        ensures room { length blocks.new.blocks ≤ vec_capacity self.new.waiting }
    {
        self.waiting.reserve(blocks.len() + 1)?;
        let reached = blocks.connects(&root, block.block().header());
        let place = Tip::at(block.block());
        blocks.put(PlacedBlock::new(StoredBlock::new(block), reached))?;
        if reached && blocks.goes_past(place.number) {
            let _ = self.waiting.push(place);
            self.settle(blocks, Some(root), true);
        }
        Ok(())
    }

    /// Marks the live block with this hash, if there is one, and brings up to date which ones a way leads to. A
    /// look-up; where a way led to it, it looks behind it, and behind each block whose note turns. Takes no memory.
    pub fn mark<S: SigScheme>(&mut self, blocks: &mut Shelf<S>, root: Tip, hash: BlockHash)
        requires notes { AreNotes (Some (tip_of root)) blocks.old.blocks blocks.old.notes }
        requires none { self.old.waiting.items ≡ [] }
        requires room { length blocks.old.blocks ≤ vec_capacity self.old.waiting }
        ensures blocks { IsSame blocks.new.blocks (map (marked_at hash.bytes) blocks.old.blocks) }
        ensures notes { AreNotes (Some (tip_of root)) blocks.new.blocks blocks.new.notes }
        ensures waiting { self.new.waiting.items ≡ [] }
        ensures room { length blocks.new.blocks ≤ vec_capacity self.new.waiting }
    {
        if let Some(place) = blocks.mark(hash) {
            let _ = self.waiting.push(place);
            self.settle(blocks, Some(root), false);
        }
    }

    /// Takes out the live block with this hash, if there is one, and brings up to date which of the others a way leads
    /// to. Look-ups; where a way led to it, it looks behind it, and behind each block whose note turns. Takes no
    /// memory.
    pub fn discard<S: SigScheme>(&mut self, blocks: &mut Shelf<S>, root: Tip, hash: BlockHash)
        requires distinct { HaveDistinctHashes (map (λ s. s.block) blocks.old.blocks) }
        requires notes { AreNotes (Some (tip_of root)) blocks.old.blocks blocks.old.notes }
        requires none { self.old.waiting.items ≡ [] }
        requires room { length blocks.old.blocks ≤ vec_capacity self.old.waiting }
        ensures blocks { IsSame blocks.new.blocks (filter (lacks_hash hash.bytes) blocks.old.blocks) }
        ensures notes { AreNotes (Some (tip_of root)) blocks.new.blocks blocks.new.notes }
        ensures waiting { self.new.waiting.items ≡ [] }
        ensures room { length blocks.new.blocks ≤ vec_capacity self.new.waiting }
    {
        self.mark(blocks, root, hash);
        if let Some(stored) = blocks.with_hash(hash) {
            let age = Age::of(stored.block());
            let _ = blocks.remove(age);
        }
    }

    /// Takes all marks off, and finds anew which blocks a way leads to. Looks at all live blocks; takes no memory.
    pub fn unmark_all<S: SigScheme>(&mut self, blocks: &mut Shelf<S>, root: &Tip)
        requires none { self.old.waiting.items ≡ [] }
        requires room { length blocks.old.blocks ≤ vec_capacity self.old.waiting }
        ensures blocks { blocks.new.blocks ≡ map (λ s. unmarked s.block) blocks.old.blocks }
        ensures notes { AreNotes (Some (tip_of root.now)) blocks.new.blocks blocks.new.notes }
        ensures waiting { self.new.waiting.items ≡ [] }
        ensures room { length blocks.new.blocks ≤ vec_capacity self.new.waiting }
    {
        blocks.clear();
        blocks.look_behind(&mut self.waiting, root, Some(*root), true);
        self.settle(blocks, Some(*root), true);
    }

    /// Takes out all blocks with a number up to that of this place, which ways begin behind from then on, and brings up
    /// to date which of the others a way leads to. Where a block went that one led to, and it wasn't at this place, it
    /// looks behind it, and behind each block whose note turns. Takes no memory.
    pub fn rise<S: SigScheme>(&mut self, blocks: &mut Shelf<S>, old_root: &Tip, root: &Tip)
        requires notes { AreNotes (Some (tip_of old_root.now)) blocks.old.blocks blocks.old.notes }
        requires none { self.old.waiting.items ≡ [] }
        requires room { length blocks.old.blocks ≤ vec_capacity self.old.waiting }
        ensures blocks { IsSame blocks.new.blocks (filter (is_past root.now.number) blocks.old.blocks) }
        ensures notes { AreNotes (Some (tip_of root.now)) blocks.new.blocks blocks.new.notes }
        ensures waiting { self.new.waiting.items ≡ [] }
        ensures room { length blocks.new.blocks ≤ vec_capacity self.new.waiting }
    {
        let leads = self.drop_up_to(blocks, root);
        if leads || old_root == root {
            self.settle(blocks, Some(*root), false);
        } else {
            self.begin_anew(blocks, old_root, root);
        }
    }

    /// Takes out all blocks with a number up to that of this place. Answers whether one of them stood there, and a way
    /// led to it: a way leads still to what follows it. The places of the others that one led to wait. Takes look-ups
    /// for each of them, and no memory.
    fn drop_up_to<S: SigScheme>(&mut self, blocks: &mut Shelf<S>, root: &Tip) -> bool
        requires room { length blocks.old.blocks ≤ vec_capacity self.old.waiting }
        requires none { self.old.waiting.items ≡ [] }
        ensures blocks { IsSame blocks.new.blocks (filter (is_past root.now.number) blocks.old.blocks) }
        ensures dropped { AreDropped blocks.old blocks.new (tip_of root.now) result self.new.waiting.items }
        ensures room { vec_len self.new.waiting + length blocks.new.blocks ≤ vec_capacity self.new.waiting }
    {
        let mut leads = false;
        let mut oldest = blocks.oldest_up_to(root.number);
        while let Some(age) = oldest {
            if self.let_go(blocks, root, age) {
                leads = true;
            }
            oldest = blocks.oldest_up_to(root.number);
        }
        leads
    }

    /// Takes out the block at this age. Where a way led to it, its place waits, unless it is this one: answers whether
    /// it is.
    fn let_go<S: SigScheme>(&mut self, blocks: &mut Shelf<S>, root: &Tip, age: Age) -> bool
        requires there { HasAge blocks.old.blocks age }
        requires room { vec_len self.old.waiting < vec_capacity self.old.waiting }
        ensures blocks { IsWithout blocks.old.blocks age blocks.new.blocks }
        ensures notes { IsNotedAt age.hash false blocks.old.notes blocks.new.notes }
        ensures gone { IsLetGo blocks.old age.hash (tip_of root.now) result self.old.waiting.items
            self.new.waiting.items }
        ensures one_more { vec_len self.new.waiting ≤ vec_len self.old.waiting + 1 }
        ensures room { vec_capacity self.old.waiting ≤ vec_capacity self.new.waiting }
    {
        let Some(place) = blocks.remove(age) else {
            return false;
        };
        if place == *root {
            return true;
        }
        let _ = self.waiting.push(place);
        false
    }

    /// Begins behind another place than before, to which no way led, where the places of what was taken out wait. Looks
    /// at all live blocks that a way leads to from either; takes no memory.
    fn begin_anew<S: SigScheme>(&mut self, blocks: &mut Shelf<S>, old_root: &Tip, root: &Tip)
        requires room { vec_len self.old.waiting + length blocks.old.blocks ≤ vec_capacity self.old.waiting }
        requires all_stand { AllStand None blocks.old.blocks false blocks.old.notes
            (old_root.now ∷ self.old.waiting.items) }
        requires turning { AreTurning None blocks.old.blocks false
            (FollowsOne (old_root.now ∷ self.old.waiting.items)) blocks.old.notes }
        ensures blocks { blocks.new.blocks ≡ blocks.old.blocks }
        ensures notes { AreNotes (Some (tip_of root.now)) blocks.new.blocks blocks.new.notes }
        ensures waiting { self.new.waiting.items ≡ [] }
        ensures room { vec_capacity self.old.waiting ≤ vec_capacity self.new.waiting }
    {
        blocks.look_behind(&mut self.waiting, old_root, None, false);
        self.settle(blocks, None, false);
        blocks.look_behind(&mut self.waiting, root, Some(*root), true);
        self.settle(blocks, Some(*root), true);
    }

    /// Looks behind all that wait, and those that come to wait, until none does. Each block waits once at most. Takes
    /// no memory.
    fn settle<S: SigScheme>(&mut self, blocks: &mut Shelf<S>, root: Option<Tip>, reached: bool)
        requires room { vec_len self.old.waiting + may_turn blocks.old.blocks reached blocks.old.notes
            ≤ vec_capacity self.old.waiting }
        requires all_stand { AllStand (option_map tip_of root) blocks.old.blocks reached blocks.old.notes
            self.old.waiting.items }
        requires turning { AreTurning (option_map tip_of root) blocks.old.blocks reached
            (FollowsOne self.old.waiting.items) blocks.old.notes }
        ensures blocks { blocks.new.blocks ≡ blocks.old.blocks }
        ensures notes { AreNotes (option_map tip_of root) blocks.new.blocks blocks.new.notes }
        ensures waiting { self.new.waiting.items ≡ [] }
        ensures room { vec_capacity self.old.waiting ≤ vec_capacity self.new.waiting }
    {
        while let Some(place) = self.waiting.pop() {
            blocks.look_behind(&mut self.waiting, &place, root, reached);
        }
    }
}
