//! The state that is kept of a fork that isn't taken.

ghost use Rattle.std.specs.Prelude.{◌≡◌, ◌≤◌, ◌++◌, List, length, IfOk, IfSome, Some, slice_get};
ghost use Rattle.model.specs.Genesis.{Genesis};
ghost use Rattle.model.specs.Block.{Block, block_hash_of};
ghost use Rattle.model.specs.Ledger.{network_on};
ghost use Rattle.model.specs.Applying.{IsStateOf};
ghost use Rattle.ledgerdb.specs.Values.{depth};
ghost use Rattle.ledgerdb.specs.Chains.{without_last, IsDatabaseOf};
ghost use Rattle.chainsel.specs.Sides.{IsSideOf};

use block::CheckedBlock;
use ident::BlockHash;
use ledger::LedgerState;
use ledgerdb::{ForkFault, LedgerDb};
use std::alloc::AllocError;
use witness_pool::SigScheme;

/// The index of the block with this hash, if it is there.
fn index_of<S: SigScheme>(blocks: &[CheckedBlock<S>], hash: BlockHash) -> Option<usize>
    ensures { IfSome result (λ place.
        (b : Block) × (slice_get blocks.now place ≡ Some b) × (block_hash_of b ≡ hash.bytes)) }
{
    for (place, block) in blocks.iter().enumerate() {
        if block.hash() == hash {
            return Some(place);
        }
    }
    None
}

/// The state after these blocks behind the chain without its last `back` ones, if each of them is applied. Takes the
/// time to judge them, and to roll those back.
fn state_on<S: SigScheme>(
    db: &LedgerDb,
    back: usize,
    blocks: &[CheckedBlock<S>],
) -> Result<Option<LedgerState>, AllocError>
    requires { back ≤ depth db.now }
    ensures { IfOk result (λ state. IfSome state (λ state. (genesis : Genesis) (opened chain : List Block)
        → IsDatabaseOf (network_on genesis S.verifies opened) chain db.now
        → IsStateOf (network_on genesis S.verifies opened) (without_last back chain ++ blocks.now) state)) }
{
    match db.fork(back, blocks) {
        Ok(prepared) => Ok(Some(db.state_after(&prepared).try_clone()?)),
        Err(ForkFault::Refused(_, _)) => Ok(None),
        Err(ForkFault::OutOfMemory) => Err(AllocError),
    }
}

/// On this way, behind the chain without its last `back` blocks, the block at this place was found dead: the state
/// before it, or before the new block, if that comes first. Takes the time to judge the blocks up to there once more.
pub fn side_of<S: SigScheme>(
    db: &LedgerDb,
    back: usize,
    way: &[CheckedBlock<S>],
    dead: usize,
    new: BlockHash,
) -> Result<Option<LedgerState>, AllocError>
    requires back { back ≤ depth db.now }
    requires dead { dead ≤ length way.now }
    ensures { IfOk result (λ side. IfSome side (IsSideOf S.verifies db.now way.now)) }
{
    let first = index_of(way, new).unwrap_or(dead).min(dead);
    state_on(db, back, &way[..first])
}
