//! Why a block that was read is not kept.

ghost use Rattle.std.specs.Prelude.{◌≡◌, ◌↔◌, IsTrue, Any, option_map};
ghost use Rattle.block.specs.Read.{IsRead};
ghost use Rattle.model.specs.Block.{Block as Plain, block_hash_of};
ghost use Rattle.model.specs.Ledger.{Network};
ghost use Rattle.model.specs.Chain.{immutable_part};
ghost use Rattle.model.specs.History.{State};
ghost use Rattle.chain.specs.Chained.{chain_of};
ghost use Rattle.chain_core.specs.Views.{refusal_of};
ghost use Rattle.chain_core.specs.ChainDbs.{IsWhole, HasState, IsIndexed};
ghost use Rattle.chain_core.specs.Judgements.{IsPointOf, IsFirstRefusal};

use crate::chain_db::ChainDb;
use crate::refusal::Refusal;
use ident::{BlockHash, Point};
use witness_pool::SigScheme;

/// Whether a block that is never rolled back has this hash. A look-up; takes no memory.
fn is_past<S: SigScheme>(chain_db: &ChainDb<S>, hash: BlockHash) -> bool
    requires { IsIndexed chain_db.now }
    ensures { (network : Network) → IsWhole network chain_db.now → (IsTrue result
        ↔ Any (λ c. block_hash_of c ≡ hash.bytes) (immutable_part network (chain_of chain_db.now.chain))) }
{
    chain_db.past.number_of(&chain_db.chain, hash).is_some()
}

/// Why the block at this point that was read from these bytes is not kept: the first reason that applies, if any does.
/// Takes a look-up in the store, one among the hashes of the immutable blocks, and no memory. Texts are compared only
/// with a live block of the same hash: a block that is never rolled back has a lower number than one that isn't too
/// old, and so another text.
pub fn first_refusal<S: SigScheme>(
    chain_db: &ChainDb<S>,
    point: Point,
    bytes: &[u8],
) -> Option<Refusal>
    requires { IsIndexed chain_db.now }
    // It is that of each state with this chain and these live blocks.
    ensures { (network : Network) (s : State) (block : Plain) → IsWhole network chain_db.now
        → HasState network chain_db.now s → IsRead block bytes.now → IsPointOf point block
        → IsFirstRefusal network s block (option_map refusal_of result) }
{
    if point.number <= chain_db.immutable() as u64 {
        return Some(Refusal::TooOld);
    }
    if let Some(stored) = chain_db.store.get(point.hash) {
        if stored.block().has_text(bytes) {
            return Some(Refusal::Known);
        }
        return Some(Refusal::Clash);
    }
    if is_past(chain_db, point.hash) {
        return Some(Refusal::Clash);
    }
    if chain_db.store.is_full_for(bytes.len()) {
        return Some(Refusal::VolatileFull);
    }
    None
}
