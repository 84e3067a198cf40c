//! Blocks that are applied one after the other.

ghost use Rattle.std.specs.Prelude.{◌≡◌, IfOk, IfErr};
ghost use Rattle.model.specs.Applying.{AreStates};
ghost use Rattle.ledgerdb.specs.Faults.{IsForkFault};
ghost use Rattle.ledgerdb.specs.Inside.{undone_blocks, states_along};

use crate::fork_fault::ForkFault;
use block::CheckedBlock;
use ledger::{ApplyFault, BlockDiff, LedgerState, apply_block_diff};
use std::alloc::Global;
use std::collections::LinkedList;
use witness_pool::SigScheme;

/// The state after these blocks, with what each changed. Applies each block once.
pub fn apply_all<S: SigScheme>(
    alloc: Global,
    root: LedgerState,
    blocks: &[CheckedBlock<S>],
) -> Result<(LedgerState, LinkedList<BlockDiff>), ForkFault>
    ensures applied { IfOk result (λ made. AreStates S.verifies root blocks.now (states_along made.1 made.0)) }
    ensures back { IfOk result (λ made. undone_blocks made.1 made.0 ≡ root) }
    ensures refused { IfErr result (IsForkFault S.verifies root blocks.now) }
{
    let mut diffs = LinkedList::new(alloc);
    let mut state = root;
    for (index, block) in blocks.iter().enumerate() {
        match apply_block_diff(state, block) {
            Ok((after, diff)) => {
                state = after;
                diffs.push_back(diff)?;
            }
            Err(ApplyFault::Refused(fault)) => return Err(ForkFault::Refused(index, fault)),
            Err(ApplyFault::OutOfMemory) => return Err(ForkFault::OutOfMemory),
        }
    }
    Ok((state, diffs))
}
