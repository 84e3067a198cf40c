//! Why a block isn't selected.

ghost use Rattle.std.specs.Prelude.{◌≡◌, ◌≤◌, ◌-◌, ℕ, List, [], length, take, reverse, MatchOption, IfOk, OnErr};
ghost use Rattle.model.specs.Block as model;
ghost use Rattle.model.specs.Block.{block_hash_of};
ghost use Rattle.model.specs.Genesis.{Genesis};
ghost use Rattle.model.specs.Ledger.{Network, network_on};
ghost use Rattle.model.specs.Chain.{genesis_tip, tip_at, tip_after, Follows, IsLinked, HaveDistinctHashes};
ghost use Rattle.model.specs.History.{State};
ghost use Rattle.blockstore.specs.Stored.{HasBlock, blocks_of};
ghost use Rattle.ledgerdb.specs.Values.{depth};
ghost use Rattle.model.specs.Chain.{NoneHas};
ghost use Rattle.model.specs.Asked.{IsPlaceOf, IsWhyOf, Beside};
ghost use Rattle.chain.specs.Chained.{chain_of};
ghost use Rattle.chain_core.specs.Ways.{why_of, IsBefore, LeadsOn, IsWayTo, IsJudged};
ghost use Rattle.chain_core.specs.ChainDbs.{IsWhole, HasState, IsIndexed};

use crate::chain_db::ChainDb;
use crate::finding::{block_with, chain_block};
use block::{Block, CheckedBlock, Tip};
use blockstore::{BlockStore, LiveBlock};
use chain::Chain;
use ident::BlockHash;
use ledger::BlockFault;
use ledgerdb::ForkFault;
use std::alloc::{AllocError, Global};
use thiserror::Error;
use witness_pool::SigScheme;

/// Why a block isn't selected: the first of these that applies. One goes back from the block by live blocks that aren't
/// on the selected chain, as long as each follows the one before it: it has the next number, its hash and a later slot.
#[derive(Clone, Copy, Debug, PartialEq, Eq, Error)]
pub enum Why {
    /// No block on the chain has the hash, and no live one.
    #[error("no such block is on the chain or beside it")]
    Unknown,
    /// It is on the selected chain.
    #[error("it is selected")]
    Selected,
    /// The block with this hash, before the first that one comes to, is missing: it is neither on the chain nor live.
    #[error("block {0} before it is missing")]
    Waits(BlockHash),
    /// The first that one comes to, that with this hash, doesn't follow the block that it names, or it names none and
    /// isn't a first block.
    #[error("block {0} does not fit what stands before it")]
    Misfit(BlockHash),
    /// Put on in order behind the part of the chain that they follow, the block with this hash is the first of these
    /// that is refused, for this fault.
    #[error("block {0} is invalid: {1}")]
    Invalid(BlockHash, BlockFault),
    /// All are let through, and the chain with them isn't longer than the selected one.
    #[error("the chain with it is not longer than the selected one")]
    NotLonger,
}

/// What stands before a block.
enum Before<'a, S: SigScheme> {
    /// The first blocks of the selected chain, in this number.
    Chain(usize),
    /// This live one, which isn't on the selected chain.
    Live(&'a LiveBlock<S>),
    /// One with this hash that is missing.
    Missing(BlockHash),
    /// Nothing that it follows.
    Misfit,
}

/// How many first blocks of the chain the block follows: none where it follows no such blocks, or the last of these
/// left memory.
fn kept_before<S: SigScheme>(chain: &Chain<S>, block: &Block) -> Option<usize>
    ensures { MatchOption result (chain.now.gone ≡ [] → IsLinked genesis_tip (chain_of chain.now) → (keep : ℕ)
        → keep ≤ length (chain_of chain.now)
        → Follows (tip_after genesis_tip (take keep (chain_of chain.now))) block.now → ⊥)
        (λ keep. (keep ≤ length (chain_of chain.now))
        × Follows (tip_after genesis_tip (take keep (chain_of chain.now))) block.now) }
{
    let keep = (block.number() as usize).saturating_sub(1);
    let Some(tip) = chain.tip_of_first(keep) else {
        return None;
    };
    if tip.precedes(block) {
        Some(keep)
    } else {
        None
    }
}

/// The live block that this one follows. A look-up.
fn live_before<'a, S: SigScheme>(
    store: &'a BlockStore<S>,
    block: &Block,
) -> Option<&'a LiveBlock<S>>
    ensures { MatchOption result
        (HaveDistinctHashes (blocks_of store.now) → (b : model.Block) → HasBlock store.now b
        → Follows (tip_at b) block.now → ⊥)
        (λ before. HasBlock store.now before.now × Follows (tip_at before.now) block.now) }
{
    let stored = store.get(block.previous()?)?;
    if Tip::at(stored.block()).precedes(block) {
        Some(stored.live())
    } else {
        None
    }
}

/// What stands before a block. A few look-ups.
fn step_back<'a, S: SigScheme>(chain_db: &'a ChainDb<S>, block: &Block) -> Before<'a, S>
    requires { IsIndexed chain_db.now }
    ensures before { (network : Network) (s : State) → IsWhole network chain_db.now → HasState network chain_db.now s
        → IsBefore network s block.now result }
    ensures on { LeadsOn block.now result }
{
    if let Some(keep) = kept_before(&chain_db.chain, block) {
        return Before::Chain(keep);
    }
    if let Some(before) = live_before(&chain_db.store, block) {
        return Before::Live(before);
    }
    let Some(hash) = block.previous() else {
        return Before::Misfit;
    };
    match block_with(chain_db, hash) {
        Some(_) => Before::Misfit,
        None => Before::Missing(hash),
    }
}

/// What one comes to, who goes back from a block.
#[derive(Clone, Copy)]
pub enum Footing {
    /// The first blocks of the selected chain, in this number.
    Chain(usize),
    /// A block before which the one with this hash is missing.
    Missing(BlockHash),
    /// The block with this hash, which doesn't fit.
    Misfit(BlockHash),
}

/// The way back from a block.
#[derive(Drop)]
pub struct Way<S: SigScheme> {
    /// The blocks that one passes, each behind the one that it follows, up to the block itself.
    pub blocks: Vec<LiveBlock<S>>,
    pub footing: Footing,
}

/// The way back from a live block that isn't on the chain. A few look-ups for each block on it. Err where there is no
/// memory for the list of these.
fn way_back<S: SigScheme>(
    alloc: Global,
    chain_db: &ChainDb<S>,
    block: &LiveBlock<S>,
) -> Result<Way<S>, AllocError>
    requires { IsIndexed chain_db.now }
    ensures { IfOk result (λ way. (network : Network) (s : State) → IsWhole network chain_db.now
        → HasState network chain_db.now s → HasBlock chain_db.now.store block.now
        → NoneHas s.chain (block_hash_of block.now)
        → IsWayTo network s (block_hash_of block.now) way.blocks.items way.footing) }
{
    let mut blocks = vec![in alloc; block.try_clone()?]?; // the last one first
    let mut first = block;
    loop {
        match step_back(chain_db, first.block()) {
            Before::Live(next) => {
                blocks.push(next.try_clone()?)?;
                first = next;
            }
            Before::Chain(keep) => return Ok(way_of(blocks, Footing::Chain(keep))),
            Before::Missing(hash) => return Ok(way_of(blocks, Footing::Missing(hash))),
            Before::Misfit => return Ok(way_of(blocks, Footing::Misfit(first.block().hash()))),
        }
    }
}

/// The way over these blocks, of which the last one came first.
fn way_of<S: SigScheme>(mut blocks: Vec<LiveBlock<S>>, footing: Footing) -> Way<S>
    ensures blocks { result.blocks.items ≡ reverse blocks.items }
    ensures footing { result.footing ≡ footing }
{
    blocks.reverse();
    Way { blocks, footing }
}

/// The blocks with their transactions.
fn read_all<S: SigScheme>(
    alloc: Global,
    blocks: &[LiveBlock<S>],
) -> Result<Vec<CheckedBlock<S>>, AllocError>
    ensures { IfOk result (λ read. read.items ≡ blocks.now) }
{
    let mut read = Vec::with_capacity(alloc, blocks.len())?;
    for block in blocks {
        read.push(block.read(alloc)?)?;
    }
    Ok(read)
}

/// What becomes of these blocks where they are put on behind the first `keep` ones of the chain. Takes the time to
/// judge them, and to roll the others back.
fn judge<S: SigScheme>(
    chain_db: &ChainDb<S>,
    keep: usize,
    way: &[CheckedBlock<S>],
) -> Result<Why, AllocError>
    requires keep { keep ≤ length (chain_of chain_db.now.chain) }
    requires depth { length (chain_of chain_db.now.chain) - keep ≤ depth chain_db.now.db }
    ensures { IfOk result (λ why. (genesis : Genesis) (opened : List model.Block)
        → IsWhole (network_on genesis S.verifies opened) chain_db.now
        → IsJudged (network_on genesis S.verifies opened) (take keep (chain_of chain_db.now.chain)) way.now why) }
{
    let back = chain_db.chain.len() - keep;
    match chain_db.db.fork(back, way) {
        Ok(_) => Ok(Why::NotLonger),
        Err(ForkFault::Refused(index, fault)) => Ok(Why::Invalid(way[index].hash(), fault)),
        Err(ForkFault::OutOfMemory) => Err(AllocError),
    }
}

/// The same of live blocks: those that are held as their texts alone are read.
fn judge_live<S: SigScheme>(
    alloc: Global,
    chain_db: &ChainDb<S>,
    keep: usize,
    way: &[LiveBlock<S>],
) -> Result<Why, AllocError>
    requires keep { keep ≤ length (chain_of chain_db.now.chain) }
    requires depth { length (chain_of chain_db.now.chain) - keep ≤ depth chain_db.now.db }
    ensures { IfOk result (λ why. (genesis : Genesis) (opened : List model.Block)
        → IsWhole (network_on genesis S.verifies opened) chain_db.now
        → IsJudged (network_on genesis S.verifies opened) (take keep (chain_of chain_db.now.chain)) way.now why) }
{
    let read = read_all(alloc, way)?;
    judge(chain_db, keep, &read)
}

/// Why the block with this hash isn't selected.
pub fn why_in<S: SigScheme>(
    alloc: Global,
    chain_db: &ChainDb<S>,
    hash: BlockHash,
) -> Result<Why, AllocError>
    requires whole { (network : Network) × IsWhole network chain_db.now }
    ensures why { IfOk result (λ why. (genesis : Genesis) (opened : List model.Block) (s : State)
        → IsWhole (network_on genesis S.verifies opened) chain_db.now
        → HasState (network_on genesis S.verifies opened) chain_db.now s
        → IsWhyOf (network_on genesis S.verifies opened) s hash.bytes (why_of why)) }
    // Memory is asked for only where the block is live and not on the chain.
    ensures memory { OnErr result ((network : Network) (s : State) → IsWhole network chain_db.now
        → HasState network chain_db.now s → (number : ℕ) × IsPlaceOf network s hash.bytes (Beside number)) }
{
    if let Some(_) = chain_block(chain_db, hash) {
        return Ok(Why::Selected);
    }
    let Some(stored) = chain_db.store.get(hash) else {
        return Ok(Why::Unknown);
    };
    let way = way_back(alloc, chain_db, stored.live())?;
    match way.footing {
        Footing::Chain(keep) => judge_live(alloc, chain_db, keep, &way.blocks),
        Footing::Missing(missing) => Ok(Why::Waits(missing)),
        Footing::Misfit(first) => Ok(Why::Misfit(first)),
    }
}
