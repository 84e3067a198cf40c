//! The form in which a block comes to the live ones.

ghost use Rattle.std.specs.Prelude.{◌≡◌, IfOk};

use block::{BlockRef, CheckedBlock};
use blockstore::{BlockStore, LiveBlock};
use std::alloc::{AllocError, Global};
use witness_pool::SigScheme;

/// A block that was read comes with its transactions where a way leads to it, and else as its text alone: what may wait
/// for ever takes no more memory than its bytes. The bytes are copied once; signatures are verified in the first case.
pub fn live_form<S: SigScheme>(
    alloc: Global,
    store: &BlockStore<S>,
    found: BlockRef<'_>,
) -> Result<LiveBlock<S>, AllocError>
    ensures { IfOk result (λ block. block ≡ found.entry) }
{
    if store.connects(found.header()) {
        Ok(LiveBlock::checked(found.into_checked_block(alloc)?))
    } else {
        Ok(LiveBlock::unread(found.into_block(alloc)?))
    }
}

/// The same of a block that has its verdicts, which is shared.
pub fn shared_live_form<S: SigScheme>(
    store: &BlockStore<S>,
    block: &CheckedBlock<S>,
) -> Result<LiveBlock<S>, AllocError>
    ensures { IfOk result (λ live. live ≡ block.now) }
{
    if store.connects(block.header()) {
        Ok(LiveBlock::checked(block.try_clone()?))
    } else {
        Ok(LiveBlock::unread(block.block().try_clone()?))
    }
}
