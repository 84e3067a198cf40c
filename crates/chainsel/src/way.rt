//! How a block hangs on the selected chain.

ghost use Rattle.std.specs.Prelude.{◌≡◌, ◌∷◌, ◌++◌, ◌-◌, ◌≤◌, List, length, map, Contains, MatchOption, IfSome, IfOk};
ghost use Rattle.std.specs.List.{AllByRecursion};
ghost use Rattle.model.specs.Block as model;
ghost use Rattle.model.specs.Chain.{genesis_tip, tip_at, Follows, IsLinked, HaveDistinctHashes};
ghost use Rattle.blockstore.specs.Stored.{blocks_of};
ghost use Rattle.chain.specs.Chained.{chain_of};
ghost use Rattle.chainsel.specs.Paths.{IsFitLive, IsOnPath, IsWay, HasNoWay};

use crate::found::Found;
use crate::furthest::Best;
use crate::links::{follows, follows_chain, is_fit};
use block::{Block, CheckedBlock};
use blockstore::{BlockStore, LiveBlock};
use chain::Chain;
use std::alloc::{AllocError, Global};
use witness_pool::SigScheme;

/// After the first `keep` blocks of the selected chain come these.
#[derive(Drop)]
pub struct Way<S: SigScheme> {
    pub keep: usize,
    pub blocks: Vec<CheckedBlock<S>>,
}

/// The live block before this one, if nothing is known against it.
fn live_parent<'a, S: SigScheme>(
    store: &'a BlockStore<S>,
    found: &Found,
    block: &Block,
) -> Option<&'a LiveBlock<S>>
    ensures { MatchOption result
        (HaveDistinctHashes (blocks_of store.now) → (b : model.Block) → IsFitLive store.now found.now.hashes.items b
        → Follows (tip_at b) block.now → ⊥)
        (λ before. IsFitLive store.now found.now.hashes.items before.now × Follows (tip_at before.now) block.now) }
{
    let stored = store.get(block.previous()?)?;
    if is_fit(found, stored) && follows(stored.block(), block) {
        Some(stored.live())
    } else {
        None
    }
}

/// The last of these blocks that the other follows. It and those behind it are taken out: who goes back by blocks that
/// stand behind the ones that they follow looks at each of them once.
fn walked_parent<'a, S: SigScheme>(
    walked: &mut Vec<&'a LiveBlock<S>>,
    block: &Block,
) -> Option<&'a LiveBlock<S>>
    ensures front { (rest : List model.Block)
        × (map (λ x. x.now) walked.old.items ≡ map (λ x. x.now) walked.new.items ++ rest) }
    ensures parent { IfSome result (λ before. Contains (map (λ x. x.now) walked.old.items) before.now
        × Follows (tip_at before.now) block.now) }
{
    while let Some(before) = walked.pop() {
        if follows(before.block(), block) {
            return Some(before);
        }
    }
    None
}

/// The block before this one: one of those that were walked, the new one, or a live one against which nothing is known.
fn parent<'a, S: SigScheme>(
    store: &'a BlockStore<S>,
    found: &Found,
    new: &'a LiveBlock<S>,
    walked: &mut Vec<&'a LiveBlock<S>>,
    block: &Block,
) -> Option<&'a LiveBlock<S>>
    requires { AllByRecursion (IsOnPath store.now found.now.hashes.items new.now) (map (λ x. x.now) walked.old.items) }
    ensures walked { AllByRecursion (IsOnPath store.now found.now.hashes.items new.now)
        (map (λ x. x.now) walked.new.items) }
    ensures parent { MatchOption result
        (HaveDistinctHashes (blocks_of store.now) → (b : model.Block)
        → IsOnPath store.now found.now.hashes.items new.now b → Follows (tip_at b) block.now → ⊥)
        (λ before. IsOnPath store.now found.now.hashes.items new.now before.now
        × Follows (tip_at before.now) block.now) }
{
    if let Some(before) = walked_parent(walked, block) {
        return Some(before);
    }
    if follows(new.block(), block) {
        return Some(new);
    }
    live_parent(store, found, block)
}

/// The way to a block from the selected chain, past its first `immutable` blocks, the last of which is in memory, if
/// there is one. Of the way, what was walked is found there; takes a look-up in the store for each other block.
pub fn way_to<'a, S: SigScheme>(
    alloc: Global,
    store: &'a BlockStore<S>,
    found: &Found,
    chain: &Chain<S>,
    immutable: usize,
    new: &'a LiveBlock<S>,
    best: Best<'a, S>,
) -> Result<Option<Way<S>>, AllocError>
    requires walked { AllByRecursion (IsOnPath store.now found.now.hashes.items new.now)
        (map (λ x. x.now) best.walked.items) }
    requires gone { length chain.now.gone ≤ immutable - 1 }
    ensures { IfOk result (λ way. MatchOption way
        (HaveDistinctHashes (new.now ∷ blocks_of store.now) → IsLinked genesis_tip (chain_of chain.now) →
        immutable ≤ length (chain_of chain.now) →
        HasNoWay store.now found.now.hashes.items (chain_of chain.now) immutable new.now best.entry.end.now)
        (λ way. IsWay store.now found.now.hashes.items (chain_of chain.now) immutable new.now best.entry.end.now
        way.keep way.blocks.items)) }
{
    let Best { end, mut walked } = best;
    let mut way = Vec::new(alloc); // the newest first
    let mut first = end;
    for keep in (immutable..end.block().number() as usize).rev() {
        way.push(first.read(alloc)?)?;
        if keep <= chain.len() && follows_chain(chain, keep, first.block()) {
            way.reverse();
            return Ok(Some(Way { keep, blocks: way }));
        }
        let Some(before) = parent(store, found, new, &mut walked, first.block()) else {
            return Ok(None);
        };
        first = before;
    }
    Ok(None)
}
