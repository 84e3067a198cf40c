//! Where a block is, by its hash, the blocks that no way leads to, and how many are live.

ghost use Rattle.std.specs.Prelude.{◌≡◌, ◌↔◌, ◌⊎◌, length, Contains, IsTrue, MatchOption};
ghost use Rattle.model.specs.Block.{block_hash_of};
ghost use Rattle.model.specs.Ledger.{Network};
ghost use Rattle.model.specs.History.{State, live_of, IsFullFor};
ghost use Rattle.model.specs.Chain.{NoneHas};
ghost use Rattle.model.specs.Asked.{IsPlaceOf, AreUnconnected};
ghost use Rattle.chain.specs.Chained.{chain_of};
ghost use Rattle.chain_core.specs.Asking.{place_of};
ghost use Rattle.chain_core.specs.ChainDbs.{IsWhole, HasState, IsIndexed};

use crate::chain_db::ChainDb;
use block::{Block, CheckedBlock};
use blockstore::Unconnected;
use ident::BlockHash;
use witness_pool::SigScheme;

/// Where a block is.
#[derive(Clone, Copy, Debug, PartialEq, Eq)]
pub enum Place {
    /// On the selected chain, as the block of this number; the first one has number 1.
    Chain(u64),
    /// Beside it: a live block with this number, which may still come into a selected chain.
    Beside(u64),
    /// Neither.
    Unknown,
}

/// Whether the block has this hash.
fn has_hash<S: SigScheme>(block: &CheckedBlock<S>, hash: BlockHash) -> bool
    ensures { IsTrue result ↔ (block_hash_of block.now ≡ hash.bytes) }
{
    block.hash() == hash
}

/// The block of the selected chain with this hash. A look-up among the blocks that are never rolled back, and where it
/// is none of these one among the live blocks, as the others of the chain are.
pub fn chain_block<S: SigScheme>(chain_db: &ChainDb<S>, hash: BlockHash) -> Option<&CheckedBlock<S>>
    requires { IsIndexed chain_db.now }
    ensures { MatchOption result
        ((network : Network) → IsWhole network chain_db.now → NoneHas (chain_of chain_db.now.chain) hash.bytes)
        (λ b. Contains (chain_of chain_db.now.chain) b.now × (block_hash_of b.now ≡ hash.bytes)) }
{
    if let Some(number) = chain_db.past.number_of(&chain_db.chain, hash) {
        return chain_db.chain.get(number);
    }
    let Some(stored) = chain_db.store.get(hash) else {
        return None;
    };
    let Some(block) = chain_db.chain.get(stored.block().number()) else {
        return None;
    };
    if has_hash(block, hash) {
        Some(block)
    } else {
        None
    }
}

/// The block of the selected chain with this hash, or else the live one.
pub fn block_with<S: SigScheme>(chain_db: &ChainDb<S>, hash: BlockHash) -> Option<&Block>
    requires { IsIndexed chain_db.now }
    ensures { (network : Network) (s : State) → IsWhole network chain_db.now → HasState network chain_db.now s
        → MatchOption result (NoneHas s.chain hash.bytes × NoneHas (live_of network s) hash.bytes)
        (λ b. (Contains s.chain b.now ⊎ Contains (live_of network s) b.now) × (block_hash_of b.now ≡ hash.bytes)) }
{
    if let Some(block) = chain_block(chain_db, hash) {
        return Some(block.block());
    }
    match chain_db.store.get(hash) {
        Some(stored) => Some(stored.block()),
        None => None,
    }
}

/// Where the block with this hash is.
pub fn place_in<S: SigScheme>(chain_db: &ChainDb<S>, hash: BlockHash) -> Place
    requires { IsIndexed chain_db.now }
    ensures { (network : Network) (s : State) → IsWhole network chain_db.now → HasState network chain_db.now s
        → IsPlaceOf network s hash.bytes (place_of result) }
{
    if let Some(block) = chain_block(chain_db, hash) {
        return Place::Chain(block.number());
    }
    match chain_db.store.get(hash) {
        Some(stored) => Place::Beside(stored.block().number()),
        None => Place::Unknown,
    }
}

/// The live blocks beside the selected chain that no way leads to, those that were found invalid, and those that a way
/// leads to only by one that was, those with the greatest numbers first.
pub fn unconnected_in<S: SigScheme>(chain_db: &ChainDb<S>) -> Unconnected<'_, S>
    ensures { (network : Network) (s : State) → IsWhole network chain_db.now → HasState network chain_db.now s
        → AreUnconnected network s result }
{
    chain_db.store.unconnected()
}

/// How many live blocks there are. In constant time.
pub fn live_count<S: SigScheme>(chain_db: &ChainDb<S>) -> u64
    ensures { (network : Network) (s : State) → HasState network chain_db.now s → result ≡ length (live_of network s) }
{
    chain_db.store.len() as u64
}

/// Whether there is no place for a live block of `size` bytes more. In constant time.
pub fn is_full_for<S: SigScheme>(chain_db: &ChainDb<S>, size: usize) -> bool
    ensures { (network : Network) (s : State) → IsWhole network chain_db.now → HasState network chain_db.now s
        → IsTrue result ↔ IsFullFor network s size }
{
    chain_db.store.is_full_for(size)
}
