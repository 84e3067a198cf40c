//! Whether a block may come next, by its header alone.

ghost use Rattle.std.specs.Prelude.{◌≡◌, ◌≢◌, ◌↔◌, ◌+◌, ◌-◌, ◌≤◌, ◌<◌, ◌^◌, IsTrue, Some, length, take};
ghost use Rattle.std.specs.List.{AllByRecursion};
ghost use Rattle.model.specs.Chain.{genesis_tip, tip_at, tip_after, Follows};
ghost use Rattle.chain.specs.Chained.{chain_of};
ghost use Rattle.chainsel.specs.Paths.{IsFit};

use crate::found::Found;
use block::Block;
use blockstore::StoredBlock;
use chain::Chain;
use ident::BlockHash;
use witness_pool::SigScheme;

/// Whether the number is the next one after the other.
fn is_next(before: u64, number: u64) -> bool
    ensures { IsTrue result ↔ (number ≡ before + 1) }
{
    before < number && number - before == 1
}

/// Whether the block names this one as the block before it.
fn names(block: &Block, hash: BlockHash) -> bool
    ensures { IsTrue result ↔ (block.now.header.previous ≡ Some hash.bytes) }
{
    block.previous() == Some(hash)
}

/// Whether the block may come next after the other.
pub fn follows(before: &Block, block: &Block) -> bool
    ensures next { IsTrue result ↔ Follows (tip_at before.now) block.now }
    // Numbers are of 64 bits.
    ensures range { block.now.header.number < 2 ^ 64 }
{
    is_next(before.number(), block.number())
        && names(block, before.hash())
        && before.slot() < block.slot()
}

/// Whether the block may come next after the first `keep` blocks of the chain, the last of which, if there is one, is
/// in memory.
pub fn follows_chain<S: SigScheme>(chain: &Chain<S>, keep: usize, block: &Block) -> bool
    requires within { keep ≤ length (chain_of chain.now) }
    requires gone { length chain.now.gone ≤ keep - 1 }
    ensures { IsTrue result ↔ Follows (tip_after genesis_tip (take keep (chain_of chain.now))) block.now }
{
    match chain.tip_of_first(keep) {
        Some(tip) => tip.precedes(block),
        None => unreachable!(),
    }
}

/// Whether nothing is known against a live block: it has no mark, and isn't among those that were found dead so far.
/// Takes a look-up.
pub fn is_fit<S: SigScheme>(found: &Found, stored: &StoredBlock<S>) -> bool
    ensures { IsTrue result ↔ IsFit found.now.hashes.items stored.now }
{
    !stored.is_invalid() && found.lacks(stored.block().hash())
}
