//! The live blocks, found by hash, by the block before them, and by number, each with the note of whether a way leads
//! to it.

ghost use Rattle.std.specs.Prelude.{◌≡◌, ◌↔◌, ◌∷◌, [], ◌++◌, ◌+◌, ◌*◌, ◌^◌, ◌<◌, ◌≤◌, length, false, map};
ghost use Rattle.std.specs.Prelude.{ℕ, List, option_map, Contains};
ghost use Rattle.std.specs.Prelude.{IsTrue, Some, MatchOption, IfOk, OnOk, OnErr, vec_len, vec_capacity};
ghost use Rattle.std.specs.BTreeSet.{IsOrdered};
ghost use Rattle.model.specs.Block as model;
ghost use Rattle.model.specs.Block.{block_hash_of, bytes_in};
ghost use Rattle.model.specs.Limits.{block_size_limit};
ghost use Rattle.model.specs.Chain.{HaveDistinctHashes};
ghost use Rattle.block.specs.View.{header_of, tip_of, bytes_of as hash_bytes};
ghost use Rattle.blockstore.specs.Stored.{unmarked};
ghost use Rattle.blockstore.specs.Tests.{marked_at};
ghost use Rattle.blockstore.specs.Keys.{hash_cmp, link_cmp, links_behind};
ghost use Rattle.std.specs.BTreeMap as tree;
ghost use Rattle.blockstore.specs.Placed.{is_noted, nothing_held, blocks_in, notes_in, stored_at};
ghost use Rattle.blockstore.specs.Placed.{IsKeyed, AreSameBlocks};
ghost use Rattle.blockstore.specs.Shelves.{IsSame, AreApart, AreAfter, HasAfter, AreLinksAfter};
ghost use Rattle.blockstore.specs.Shelves.{HasNone, HasPast, ArePast, HasAge, IsWithout};
ghost use Rattle.blockstore.specs.Ways.{HasStep, HasParent, IsNotedAt, IsPlaceOf, FollowsOne, Stands, AllStand};
ghost use Rattle.blockstore.specs.OffWays.{AreUnnoted};
ghost use Rattle.blockstore.specs.Ways.{AreTurning, AreSameNotes, IsLookedAt, may_turn};

use crate::hash_key::HashKey;
use crate::keys::{Age, Link};
use crate::placed_block::PlacedBlock;
use crate::stored_block::StoredBlock;
use crate::unconnected::Unconnected;
use block::{CheckedBlock, Header, Tip};
use ident::BlockHash;
use std::alloc::{AllocError, Global};
use std::collections::btree_set::Range;
use std::collections::{BTreeMap, BTreeSet};
use std::marker::Model;
use witness_pool::SigScheme;

/// The links of the blocks that name the one with this hash as the block before them, one after the other. A look-up;
/// takes no memory.
fn links_of(links: &BTreeSet<Link>, previous: Option<BlockHash>) -> Range<'_, Link>
    ensures between { result ≡ links_behind links.now (option_map hash_bytes previous) }
    ensures ordered { IsOrdered link_cmp links.now }
{
    let first = Link::first(previous);
    let last = Link::last(previous);
    links.range(&first..=&last)
}

/// Looks at the block of this hash behind a place where notes turn: where its own turns, its place waits. A look-up;
/// takes no memory.
fn look_at<S: SigScheme>(
    blocks: &mut BTreeMap<HashKey, PlacedBlock<S>>,
    waiting: &mut Vec<Tip>,
    hash: &HashKey,
    before: &Tip,
    root: Option<Tip>,
    reached: bool,
)
    requires keyed { IsKeyed blocks.old }
    requires room { vec_len waiting.old + may_turn (blocks_in blocks.old) reached (notes_in blocks.old)
        ≤ vec_capacity waiting.old }
    ensures same { AreSameBlocks blocks.old blocks.new }
    ensures ordered { tree.IsOrdered hash_cmp blocks.new }
    ensures looked { MatchOption (stored_at blocks.old hash.now)
        (AreSameNotes (notes_in blocks.old) (notes_in blocks.new) × (waiting.new.items ≡ waiting.old.items))
        (λ x. IsLookedAt (tip_of before.now) (option_map tip_of root) reached x (notes_in blocks.old)
        (notes_in blocks.new) waiting.old.items waiting.new.items) }
    ensures fewer { vec_len waiting.new + may_turn (blocks_in blocks.old) reached (notes_in blocks.new)
        ≤ vec_len waiting.old + may_turn (blocks_in blocks.old) reached (notes_in blocks.old) }
    ensures room { vec_capacity waiting.old ≤ vec_capacity waiting.new }
{
    let Some(placed) = blocks.get_mut(hash) else {
        return;
    };
    if placed.turn(before, root, reached) {
        let _ = waiting.push(Tip::at(placed.block()));
    }
}

/// Blocks, no two of one hash, and of each the note whether a way leads to it. In contracts the blocks are a list in no
/// order that is spoken of, and the notes are found by hash.
#[derive(Drop)]
pub struct Shelf<S: SigScheme> {
    blocks: BTreeMap<HashKey, PlacedBlock<S>>,
    links: BTreeSet<Link>,
    ages: BTreeSet<Age>,
    /// How many bytes the blocks have, all texts together.
    bytes: u128,
}

impl<S: SigScheme> Model for Shelf<S> {
    ghost use Rattle.blockstore.specs.Placed.{Held, coded_held};

    ghost Value = { Held };

    ghost coded = { coded_held };

    ghost use Rattle.blockstore.specs.HeldShelf.{held_on, IsInStep};

    ghost view = { held_on };

    ghost invariant = { IsInStep };
}

impl<S: SigScheme> Shelf<S> {
    /// No block.
    pub fn new(alloc: Global) -> Shelf<S>
        ensures { result ≡ nothing_held }
    {
        Shelf {
            blocks: BTreeMap::new(alloc),
            links: BTreeSet::new(alloc),
            ages: BTreeSet::new(alloc),
            bytes: 0,
        }
    }

    /// How many there are, in constant time.
    pub fn len(&self) -> usize
        ensures { result ≡ length self.now.blocks }
    {
        self.blocks.len()
    }

    /// How many bytes the blocks have, all texts together, in constant time.
    pub fn bytes(&self) -> u128
        ensures bytes { result ≡ bytes_in (map (λ s. s.block) self.now.blocks) }
        ensures bounded { result ≤ length self.now.blocks * block_size_limit }
    {
        self.bytes
    }

    /// The block with this hash, if there is one. A look-up.
    pub fn with_hash(&self, hash: BlockHash) -> Option<&StoredBlock<S>>
        ensures { MatchOption result (HasNone self.now.blocks hash.bytes)
            (λ found. Contains self.now.blocks found.now × (block_hash_of found.now.block ≡ hash.bytes)) }
    {
        let Some(placed) = self.at(&HashKey::of(hash)) else {
            return None;
        };
        Some(placed.stored())
    }

    /// The block with the hash of these bytes, if there is one, with its note. A look-up.
    fn at(&self, hash: &HashKey) -> Option<&PlacedBlock<S>>
        ensures found { MatchOption result (HasNone self.now.blocks hash.now)
            (λ found. Contains self.now.blocks found.now.stored × (block_hash_of found.now.stored.block ≡ hash.now)
            × (is_noted self.now.notes hash.now ≡ found.now.reached)) }
        ensures apart { AreApart self.now.blocks }
    {
        self.blocks.get(hash)
    }

    /// Whether a block with this header, which need not be here, follows the root, or one to which a way leads. A
    /// look-up.
    pub fn connects(&self, root: &Tip, header: &Header) -> bool
        ensures { (b : model.Block) → b.header ≡ header_of header.now →
            IsTrue result ↔ HasStep (Some (tip_of root.now)) self.now.blocks self.now.notes b }
    {
        root.precedes_header(header) || self.has_parent(header)
    }

    /// Whether it follows a block to which a way leads.
    fn has_parent(&self, header: &Header) -> bool
        ensures { (b : model.Block) → b.header ≡ header_of header.now →
            IsTrue result ↔ HasParent self.now.blocks self.now.notes b }
    {
        let Some(previous) = header.previous else {
            return false;
        };
        let Some(parent) = self.at(&HashKey::of(previous)) else {
            return false;
        };
        parent.is_reached() && Tip::at(parent.block()).precedes_header(header)
    }

    /// The blocks that name this one as the block before them. A look-up, and one more for each. Err only where there
    /// are some.
    pub fn after(
        &self,
        alloc: Global,
        previous: Option<BlockHash>,
    ) -> Result<Vec<&StoredBlock<S>>, AllocError>
        ensures found { IfOk result (λ found.
            AreAfter self.now.blocks (option_map hash_bytes previous) (map (λ x. x.now) found.items)) }
        ensures some { OnErr result (HasAfter self.now.blocks (option_map hash_bytes previous)) }
    {
        let mut found = Vec::new(alloc);
        for link in links_of(&self.links, previous) {
            if let Some(placed) = self.blocks.get(&link.hash) {
                found.push(placed.stored())?;
            }
        }
        Ok(found)
    }

    /// Looks behind a place where notes turn to this, at the blocks that name it as the one before them: where the note
    /// of one turns, its place waits. A look-up, and one more for each; takes no memory.
    pub fn look_behind(
        &mut self,
        waiting: &mut Vec<Tip>,
        before: &Tip,
        root: Option<Tip>,
        reached: bool,
    )
        requires room { vec_len waiting.old + may_turn self.old.blocks reached self.old.notes
            ≤ vec_capacity waiting.old }
        requires stands { Stands (option_map tip_of root) self.old.blocks reached self.old.notes (tip_of before.now) }
        requires all_stand { AllStand (option_map tip_of root) self.old.blocks reached self.old.notes
            waiting.old.items }
        requires turning { AreTurning (option_map tip_of root) self.old.blocks reached
            (FollowsOne (before.now ∷ waiting.old.items)) self.old.notes }
        ensures blocks { self.new.blocks ≡ self.old.blocks }
        ensures all_stand { AllStand (option_map tip_of root) self.new.blocks reached self.new.notes waiting.new.items }
        ensures turning { AreTurning (option_map tip_of root) self.new.blocks reached (FollowsOne waiting.new.items)
            self.new.notes }
        ensures fewer { vec_len waiting.new + may_turn self.new.blocks reached self.new.notes
            ≤ vec_len waiting.old + may_turn self.old.blocks reached self.old.notes }
        ensures room { vec_capacity waiting.old ≤ vec_capacity waiting.new }
    {
        let blocks = &mut self.blocks;
        for link in links_of(&self.links, before.hash) {
            look_at(blocks, waiting, &link.hash, before, root, reached);
        }
    }

    /// Puts a block there whose hash none of them has, with the note whether a way leads to it. A look-up in each of
    /// the three trees. Err where memory runs out: nothing changes.
    pub fn put(&mut self, placed: PlacedBlock<S>) -> Result<(), AllocError>
        requires alone { HasNone self.old.blocks (block_hash_of placed.stored.block) }
        requires few { length self.old.blocks < 2 ^ 64 }
        ensures ok { OnOk result (IsSame self.new.blocks (self.old.blocks ++ placed.stored ∷ [])) }
        ensures notes { OnOk result (IsNotedAt (block_hash_of placed.stored.block) placed.reached self.old.notes
            self.new.notes) }
        ensures err { OnErr result (self.new ≡ self.old) }
    {
        let link = Link::of(placed.block());
        let age = Age::of(placed.block());
        let size = placed.block().bytes().len() as u128;
        self.links.insert(link)?;
        if self.ages.insert(age).is_err() {
            self.links.remove(&link);
            return Err(AllocError);
        }
        if self.blocks.insert(link.hash, placed).is_err() {
            self.links.remove(&link);
            self.ages.remove(&age);
            return Err(AllocError);
        }
        self.bytes += size;
        Ok(())
    }

    /// Holds this block with its transactions from now on, if it is here as its text alone. A look-up, and then its
    /// text is compared. Takes no memory.
    pub fn hold(&mut self, block: CheckedBlock<S>)
        ensures { self.new ≡ self.old }
    {
        if let Some(placed) = self.blocks.get_mut(&HashKey::of(block.hash())) {
            placed.hold(block);
        }
    }

    /// Marks the block with this hash, if there is one, so that no way leads on by it. Answers where it stands, if one
    /// led to it until then. A look-up; takes no memory.
    pub fn mark(&mut self, hash: BlockHash) -> Option<Tip>
        ensures blocks { IsSame self.new.blocks (map (marked_at hash.bytes) self.old.blocks) }
        ensures notes { IsNotedAt hash.bytes false self.old.notes self.new.notes }
        ensures place { IsPlaceOf self.old hash.bytes (option_map tip_of result) }
        ensures apart { AreApart self.new.blocks }
    {
        let Some(placed) = self.blocks.get_mut(&HashKey::of(hash)) else {
            return None;
        };
        placed.mark()
    }

    /// Takes all marks off, and notes of none that a way leads to it. Looks at each of them; takes no memory.
    pub fn clear(&mut self)
        ensures blocks { self.new.blocks ≡ map (λ s. unmarked s.block) self.old.blocks }
        ensures notes { (hash : List ℕ) → is_noted self.new.notes hash ≡ false }
    {
        self.blocks.retain(|_, placed| placed.clear());
    }

    /// Whether one of them has a number past this one. Looks at the newest alone.
    pub fn goes_past(&self, number: u64) -> bool
        ensures { IsTrue result ↔ HasPast number self.now.blocks }
    {
        match self.ages.last() {
            Some(newest) => newest.number > number,
            None => false,
        }
    }

    /// Those of which it isn't noted that a way leads to them, those with the greatest numbers first. In constant time.
    pub fn unnoted(&self) -> Unconnected<'_, S>
        ensures { AreUnnoted self.now result }
    {
        Unconnected {
            blocks: &self.blocks,
            ages: self.ages.iter(),
        }
    }

    /// The least age, if it is up to this number. A look-up.
    pub fn oldest_up_to(&self, number: u64) -> Option<Age>
        ensures oldest { MatchOption result (ArePast number self.now.blocks)
            (λ age. HasAge self.now.blocks age × (age.number ≤ number)) }
        // No two blocks have one hash.
        ensures distinct { HaveDistinctHashes (map (λ s. s.block) self.now.blocks) }
    {
        let Some(oldest) = self.ages.first() else {
            return None;
        };
        if oldest.number > number {
            return None;
        }
        Some(*oldest)
    }

    /// Takes out the block at this age. Answers where it stood, if a way led to it. A look-up in each of the three
    /// trees; takes no memory.
    pub fn remove(&mut self, age: Age) -> Option<Tip>
        requires { HasAge self.old.blocks age }
        ensures blocks { IsWithout self.old.blocks age self.new.blocks }
        ensures notes { IsNotedAt age.hash false self.old.notes self.new.notes }
        ensures place { IsPlaceOf self.old age.hash (option_map tip_of result) }
    {
        let Some(gone) = self.blocks.remove(&age.hash) else {
            return None;
        };
        let link = Link::of(gone.block());
        self.links.remove(&link);
        self.ages.remove(&age);
        self.bytes -= gone.block().bytes().len() as u128;
        gone.place()
    }
}
