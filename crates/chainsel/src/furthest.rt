//! What goes on furthest from a block, by links alone.

ghost use Rattle.std.specs.Prelude.{◌≡◌, ◌≢◌, ◌↔◌, ℕ, ◌<◌, ◌^◌, ◌++◌, List, [], ◌∷◌, map, drop, Contains};
ghost use Rattle.std.specs.Prelude.{IsTrue, IfOk, OnOk};
ghost use Rattle.std.specs.List.{AllByRecursion};
ghost use Rattle.std.specs.Ordering.{nat_cmp};
ghost use Rattle.std.specs.declared.cmp.Ordering.TheVariants.{Less};
ghost use Rattle.std.specs.Cmp.Lexicographic.{slice_cmp};
ghost use Rattle.model.specs.Block as model;
ghost use Rattle.model.specs.Block.{block_hash_of};
ghost use Rattle.chainsel.specs.Paths.{IsOnPath, Descends, IsBest};
ghost use Rattle.chainsel.specs.Ends.{AreEnds, AreNext, AreFurthest, HasLeastHash, ends_of};

use crate::found::Found;
use crate::links::{follows, is_fit};
use block::Block;
use blockstore::{BlockStore, LiveBlock};
use ident::BlockHash;
use std::alloc::{AllocError, Global};
use witness_pool::SigScheme;

/// What goes on furthest from a block, by links alone.
#[derive(Drop)]
pub struct Best<'a, S: SigScheme> {
    /// The last block there, of several the one with the least hash: the block itself, where none goes on from it.
    pub end: &'a LiveBlock<S>,
    /// The block itself and what goes on from it, each behind the one that it follows. None where nothing can go on.
    pub walked: Vec<&'a LiveBlock<S>>,
}

/// A block and all that goes on from it, each behind the one that it follows.
#[derive(Drop)]
struct Walk<'a, S: SigScheme> {
    blocks: Vec<&'a LiveBlock<S>>,
    /// From this place on stand those that go on furthest.
    furthest: usize,
}

/// Puts the live blocks against which nothing is known and that follow this one behind those that were walked.
fn push_next<'a, S: SigScheme>(
    store: &'a BlockStore<S>,
    found: &Found,
    end: &Block,
    walked: &mut Vec<&'a LiveBlock<S>>,
) -> Result<(), AllocError>
    ensures { OnOk result ((more : List model.Block)
        × (map (λ x. x.now) walked.new.items ≡ map (λ x. x.now) walked.old.items ++ more)
        × AreNext store.now found.now.hashes.items (end.now ∷ []) more
        × AllByRecursion (λ b. b.header.number < 2 ^ 64) more) }
{
    let successors = store.successors(Some(end.hash()))?;
    for stored in &successors {
        if is_fit(found, stored) && follows(end, stored.block()) {
            walked.push(stored.live())?;
        }
    }
    Ok(())
}

/// Puts the live blocks against which nothing is known and that follow one from this place on behind those that were
/// walked. Takes a look-up of successors for each from there on.
fn walk_on<'a, S: SigScheme>(
    store: &'a BlockStore<S>,
    found: &Found,
    walked: &mut Vec<&'a LiveBlock<S>>,
    from: usize,
) -> Result<(), AllocError>
    ensures { OnOk result ((more : List model.Block)
        × (map (λ x. x.now) walked.new.items ≡ map (λ x. x.now) walked.old.items ++ more)
        × AreNext store.now found.now.hashes.items (drop from (map (λ x. x.now) walked.old.items)) more
        × AllByRecursion (λ b. b.header.number < 2 ^ 64) more) }
{
    for place in from..walked.len() {
        let end = walked[place];
        push_next(store, found, end.block(), walked)?;
    }
    Ok(())
}

/// The new block and all that goes on from it.
fn walk_through<'a, S: SigScheme>(
    alloc: Global,
    store: &'a BlockStore<S>,
    found: &Found,
    new: &'a LiveBlock<S>,
) -> Result<Walk<'a, S>, AllocError>
    ensures steps { IfOk result (λ walk.
        AllByRecursion (IsOnPath store.now found.now.hashes.items new.now) (map (λ x. x.now) walk.blocks.items)) }
    ensures all { IfOk result (λ walk.
        (n : ℕ) × AreEnds store.now found.now.hashes.items new.now n (ends_of walk)) }
    ensures some { IfOk result (λ walk. ends_of walk ≢ []) }
    ensures furthest { IfOk result (λ walk. 0 < new.now.header.number →
        AreFurthest store.now found.now.hashes.items new.now (ends_of walk)) }
{
    let mut blocks = vec![in alloc; new]?;
    let mut furthest = 0;
    for _ in 0..u64::MAX {
        let walked = blocks.len();
        walk_on(store, found, &mut blocks, furthest)?;
        if blocks.len() == walked {
            return Ok(Walk { blocks, furthest });
        }
        furthest = walked;
    }
    Ok(Walk { blocks, furthest })
}

/// Whether the one hash is less than the other, compared as bytes.
fn is_less(hash: BlockHash, other: BlockHash) -> bool
    ensures { IsTrue result ↔ (slice_cmp nat_cmp hash.bytes other.bytes ≡ Less) }
{
    hash.cmp(&other).is_lt()
}

/// The block with the least hash of these, and the new one where there are none.
fn least<'a, S: SigScheme>(new: &'a LiveBlock<S>, ends: &[&'a LiveBlock<S>]) -> &'a LiveBlock<S>
    ensures member { ends.now ≢ [] → Contains (map (λ x. x.now) ends.now) result.now }
    ensures least { HasLeastHash (map (λ x. x.now) ends.now) result.now }
{
    let mut least = *ends.first().unwrap_or(&new);
    for end in ends {
        if is_less(end.block().hash(), least.block().hash()) {
            least = *end;
        }
    }
    least
}

/// What goes on furthest from the new block. Takes a look-up of successors for it, where a live block has a greater
/// number, and for each that goes on from it.
pub fn furthest<'a, S: SigScheme>(
    alloc: Global,
    store: &'a BlockStore<S>,
    found: &Found,
    new: &'a LiveBlock<S>,
) -> Result<Best<'a, S>, AllocError>
    ensures descends { IfOk result (λ best. Descends store.now found.now.hashes.items new.now best.end.now) }
    ensures best { IfOk result (λ best.
        0 < new.now.header.number → IsBest store.now found.now.hashes.items new.now best.end.now) }
    ensures walked { IfOk result (λ best.
        AllByRecursion (IsOnPath store.now found.now.hashes.items new.now) (map (λ x. x.now) best.walked.items)) }
{
    if !store.goes_past(new.block().number()) {
        let walked = Vec::new(alloc);
        return Ok(Best { end: new, walked });
    }
    let walk = walk_through(alloc, store, found, new)?;
    let end = least(new, &walk.blocks[walk.furthest..]);
    let walked = walk.blocks;
    Ok(Best { end, walked })
}
