//! A chain of which the first blocks may have left memory.

ghost use Rattle.std.specs.Prelude.{◌≡◌, ◌≤◌, ◌+◌, ◌++◌, length, map, vec_capacity, option_map, slice_get};
ghost use Rattle.model.specs.Block.{block_hash_of};
ghost use Rattle.model.specs.Chain.{genesis_tip, tip_after};
ghost use Rattle.block.specs.View.{bytes_of, tip_of};
ghost use Rattle.chain.specs.Noted.{noted};

use block::{CheckedBlock, Tip};
use http_server::Log;
use ident::{BlockHash, Point};
use std::alloc::{AllocError, Global};
use std::marker::Model;
use witness_pool::SigScheme;

/// A chain of blocks, the first of which may have left memory: of these the hashes stay, 32 bytes each. The last block
/// is always in memory. The first block of the chain has number 1.
///
/// In contracts it is the blocks that left memory, those behind them, and for how many of these there is memory.
#[derive(Drop)]
pub struct Chain<S: SigScheme> {
    gone: Log<CheckedBlock<S>, ()>, // what only proofs read
    hashes: Vec<BlockHash>,
    resident: Vec<CheckedBlock<S>>,
}

impl<S: SigScheme> Model for Chain<S> {
    ghost use Rattle.chain.specs.Chained.{Chained, coded_chained};

    ghost Value = { Chained };

    ghost coded = { coded_chained };

    ghost use Rattle.chain.specs.Inside.{held, IsHeld};

    ghost view = { held };

    ghost invariant = { IsHeld };
}

/// Notes blocks: their hashes, and in proofs alone the blocks. Takes no memory.
fn note_all<S: SigScheme>(
    gone: &mut Log<CheckedBlock<S>, ()>,
    hashes: &mut Vec<BlockHash>,
    blocks: &[CheckedBlock<S>],
)
    requires room { length hashes.old.items + length blocks.now ≤ vec_capacity hashes.old }
    ensures gone { noted gone.new.items ≡ noted gone.old.items ++ blocks.now }
    ensures hashes { map bytes_of hashes.new.items ≡ map bytes_of hashes.old.items ++ map block_hash_of blocks.now }
{
    for block in blocks {
        let hash = block.hash();
        hashes.push_reserved(hash);
        *gone = gone.and(block, &());
    }
}

/// The block at this place, counted from 0.
fn block_at<S: SigScheme>(blocks: &[CheckedBlock<S>], place: usize) -> Option<&CheckedBlock<S>>
    ensures { option_map (λ b. b.now) result ≡ slice_get blocks.now place }
{
    blocks.get(place)
}

/// The hash at this place, counted from 0.
fn hash_at(hashes: &[BlockHash], place: usize) -> Option<BlockHash>
    ensures { result ≡ slice_get hashes.now place }
{
    hashes.get(place).copied()
}

/// Where a chain of these blocks ends.
fn end_of<S: SigScheme>(blocks: &[CheckedBlock<S>]) -> Tip
    ensures { tip_of result ≡ tip_after genesis_tip blocks.now }
{
    match blocks.last() {
        Some(last) => Tip::at(last.block()),
        None => Tip::genesis(),
    }
}

impl<S: SigScheme> Chain<S> {
    ghost use Rattle.std.specs.Prelude.{◌≡◌, ◌==◌, ◌↔◌, ◌⊎◌, ◌<◌, ◌≤◌, ◌+◌, ◌-◌, ◌++◌, [], ◌∷◌, length, take, drop};
    ghost use Rattle.std.specs.Prelude.{max, OnOk, OnErr, IfSome, IsNone, Some, option_map};
    ghost use Rattle.model.specs.Block.{block_hash_of};
    ghost use Rattle.model.specs.Chain.{genesis_tip, tip_after, tip_point, IsLinked};
    ghost use Rattle.ident.specs.PointView.{point_of};
    ghost use Rattle.block.specs.View.{bytes_of, tip_of};
    ghost use Rattle.chain.specs.Chained.{chain_of, block_numbered};

    /// A chain without blocks. Takes no memory.
    pub fn new(alloc: Global) -> Chain<S>
        ensures { result ≡ record { gone = []; resident = []; room = 0 } }
    {
        Chain::from_blocks(alloc, Vec::new(alloc))
    }

    /// The chain of these blocks, the first one first. Takes no memory.
    pub fn from_blocks(alloc: Global, blocks: Vec<CheckedBlock<S>>) -> Chain<S>
        ensures { result ≡ record { gone = []; resident = blocks.items; room = vec_capacity blocks } }
    {
        Chain {
            gone: Log::new(),
            hashes: Vec::new(alloc),
            resident: blocks,
        }
    }

    /// How many blocks it has. In constant time.
    pub fn len(&self) -> usize
        ensures { result ≡ length (chain_of self.now) }
    {
        self.hashes.len() + self.resident.len()
    }

    /// Whether it has no block. In constant time.
    pub fn is_empty(&self) -> bool
        ensures { result ≡ (length (chain_of self.now) == 0) }
    {
        self.len() == 0
    }

    /// How many blocks left memory: the first ones; where any did, at least one stays. In constant time.
    pub fn gone_len(&self) -> usize
        ensures gone { result ≡ length self.now.gone }
        ensures some_stay { result ≤ length (chain_of self.now) - 1 }
        // Those that left are linked from genesis on.
        ensures linked { IsLinked genesis_tip self.now.gone }
    {
        self.hashes.len()
    }

    /// Where it ends. In constant time.
    pub fn tip(&self) -> Tip
        ensures { tip_of result ≡ tip_after genesis_tip (chain_of self.now) }
    {
        end_of(&self.resident)
    }

    /// Where its first `keep` blocks end, for 0 at genesis. None where the last of these left memory, or there are
    /// fewer. In constant time.
    pub fn tip_of_first(&self, keep: usize) -> Option<Tip>
        ensures tip { IfSome result (λ tip. tip_of tip ≡ tip_after genesis_tip (take keep (chain_of self.now))) }
        ensures none { IsNone result ↔
            (0 < keep) × ((keep ≤ length self.now.gone) ⊎ (length (chain_of self.now) < keep)) }
    {
        if keep == 0 {
            return Some(Tip::genesis());
        }
        let last = self.get(keep as u64)?;
        Some(Tip::at(last.block()))
    }

    /// The block of this number. None where it left memory, or there is none. In constant time.
    pub fn get(&self, number: u64) -> Option<&CheckedBlock<S>>
        ensures there { length self.now.gone < number →
            option_map (λ b. b.now) result ≡ block_numbered (chain_of self.now) number }
        ensures gone { number ≤ length self.now.gone → IsNone result }
        // So what it answers is the block of that number.
        ensures block { IfSome result (λ b.
            (length self.now.gone < number) × (block_numbered (chain_of self.now) number ≡ Some b.now)) }
    {
        let gone = self.hashes.len() as u64;
        if number <= gone {
            return None;
        }
        block_at(&self.resident, (number - gone - 1) as usize)
    }

    /// The hash of the block of this number, also of one that left memory. None where there is none. In constant time.
    pub fn hash_of(&self, number: u64) -> Option<BlockHash>
        ensures { option_map bytes_of result ≡ option_map block_hash_of (block_numbered (chain_of self.now) number) }
    {
        if let Some(block) = self.get(number) {
            return Some(block.hash());
        }
        if number == 0 {
            return None;
        }
        hash_at(&self.hashes, number as usize - 1)
    }

    /// Where its first `length` blocks end, or all where there are fewer: the number and the hash of the last of them,
    /// also of one that left memory, or the genesis point. In constant time.
    pub fn point_at(&self, length: u64) -> Point
        ensures { point_of result ≡ tip_point (take length (chain_of self.now)) }
    {
        let number = length.min(self.len() as u64);
        match self.get(number) {
            Some(block) => block.point(),
            None => self.gone_point(number),
        }
    }

    /// Where the first `number` blocks end, all of which left memory. In constant time.
    fn gone_point(&self, number: u64) -> Point
        requires { number ≤ length self.now.gone }
        ensures { point_of result ≡ tip_point (take number (chain_of self.now)) }
    {
        if number == 0 {
            return Point::genesis();
        }
        Point {
            number,
            hash: self.hashes[number as usize - 1],
        }
    }

    /// The blocks behind the first `keep`: none where there are no more. `keep` is at least how many left memory. In
    /// constant time.
    pub fn resident_after(&self, keep: usize) -> &[CheckedBlock<S>]
        requires { length self.now.gone ≤ keep }
        ensures { result.now ≡ drop keep (chain_of self.now) }
    {
        let skipped = (keep - self.hashes.len()).min(self.resident.len());
        &self.resident[skipped..]
    }

    /// Makes room for `more` blocks behind the last one. Where memory runs out nothing changes.
    pub fn reserve(&mut self, more: usize) -> Result<(), AllocError>
        ensures room { OnOk result (length self.new.resident + more ≤ self.new.room) }
        ensures frame { self.new ≡ record self.old { room = self.new.room } }
        ensures err { OnErr result (self.new ≡ self.old) }
    {
        self.resident.reserve(more)
    }

    /// Keeps the first `len` blocks, or all where there are fewer. Where blocks left memory `len` is more than how many
    /// did: so none of those is cut off, and the last block stays in memory. Takes time in proportion to what is cut
    /// off.
    pub fn truncate(&mut self, len: usize)
        requires { length self.old.gone ≤ len - 1 }
        ensures chain { chain_of self.new ≡ take len (chain_of self.old) }
        ensures frame { self.new ≡ record self.old { resident = self.new.resident } }
    {
        self.resident.truncate(len - self.hashes.len());
    }

    /// The block comes next. Where memory runs out nothing changes.
    pub fn push(&mut self, block: CheckedBlock<S>) -> Result<(), AllocError>
        ensures ok { OnOk result
            (self.new ≡ record self.old { resident = self.old.resident ++ block ∷ []; room = self.new.room }) }
        ensures err { OnErr result (self.new ≡ self.old) }
    {
        self.resident.reserve(1)?;
        self.resident.push_reserved(block);
        Ok(())
    }

    /// The blocks come next, the first one first, for which there is room. Takes time in proportion to them, and no
    /// memory.
    pub fn append(&mut self, mut blocks: Vec<CheckedBlock<S>>)
        requires { length self.old.resident + length blocks.items ≤ self.old.room }
        ensures { self.new ≡ record self.old { resident = self.old.resident ++ blocks.items; room = self.new.room } }
    {
        let Ok(()) = self.resident.append(&mut blocks) else {
            unreachable!();
        };
    }

    /// The blocks 1 to `up_to` leave memory, except those that did already; their hashes stay, and so does the chain.
    /// `up_to` is less than how many blocks there are, or 0, and the blocks are linked from genesis on. Where memory
    /// runs out nothing changes.
    ///
    /// Takes 32 bytes for each block that leaves, up to twice that since the list of hashes grows by doubling; the slots
    /// of the blocks that left stay, for blocks to come. Takes time in proportion to how many leave and how many stay.
    pub fn forget(&mut self, up_to: usize) -> Result<(), AllocError>
        requires within { up_to ≤ length (chain_of self.old) - 1 }
        requires linked { IsLinked genesis_tip (chain_of self.old) }
        ensures chain { chain_of self.new ≡ chain_of self.old }
        ensures gone { OnOk result (length self.new.gone ≡ max (length self.old.gone) up_to) }
        ensures room { self.new.room ≡ self.old.room }
        ensures err { OnErr result (self.new ≡ self.old) }
    {
        let leaving = up_to.saturating_sub(self.hashes.len());
        self.hashes.reserve(leaving)?;
        note_all(&mut self.gone, &mut self.hashes, &self.resident[..leaving]);
        let staying = self.resident.len() - leaving;
        self.resident.rotate_left(leaving);
        self.resident.truncate(staying);
        Ok(())
    }
}
