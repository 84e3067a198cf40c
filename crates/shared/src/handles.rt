//! Handles of what a core holds.

ghost use Rattle.std.specs.Prelude.{◌≡◌, IfOk, map, option_map, take};
ghost use Rattle.std.specs.Arc.{arc_value};
ghost use Rattle.model.specs.Block.{block_hash_of};

use block::{Block, CheckedBlock};
use chain_core::Unconnected;
use ident::BlockHash;
use mempool::Mempool;
use std::alloc::{AllocError, Global};
use std::sync::Arc;
use witness_pool::{CheckedTx, SigScheme};

/// Handles of the transactions that wait, in their order. Copies no transaction. Err where memory runs out.
pub fn copy_handles<S: SigScheme>(
    alloc: Global,
    mempool: &Mempool<S>,
) -> Result<Vec<Arc<CheckedTx<S>>>, AllocError>
    ensures { IfOk result (λ handles. map arc_value handles.items ≡ mempool.now.waiting.txs) }
{
    let mut handles = Vec::with_capacity(alloc, mempool.len())?;
    for tx in mempool.iter() {
        let handle = Arc::try_clone(tx)?;
        handles.push(handle)?;
    }
    Ok(handles)
}

/// One more owner of the block, if there is one. Takes no memory. Err where 2^63 - 1 owners are reached.
pub fn share_block<S: SigScheme>(
    found: Option<&CheckedBlock<S>>,
) -> Result<Option<CheckedBlock<S>>, AllocError>
    ensures { IfOk result (λ shared. shared ≡ option_map (λ b. b.now) found.entry) }
{
    match found {
        Some(block) => Ok(Some(block.try_clone()?)),
        None => Ok(None),
    }
}

/// One more owner of the text of a block, if there is one. Takes no memory. Err where 2^63 - 1 owners are reached.
pub fn share_text(found: Option<&Block>) -> Result<Option<Block>, AllocError>
    ensures { IfOk result (λ shared. shared ≡ option_map (λ b. b.now) found.entry) }
{
    match found {
        Some(block) => Ok(Some(block.try_clone()?)),
        None => Ok(None),
    }
}

/// The hashes of the first `most` of these blocks, or of all where they are fewer. Err where memory runs out.
pub fn copy_hashes<S: SigScheme>(
    alloc: Global,
    blocks: Unconnected<'_, S>,
    most: usize,
) -> Result<Vec<BlockHash>, AllocError>
    ensures { IfOk result (λ hashes. map (λ h. h.bytes) hashes.items ≡ map block_hash_of (take most blocks.entry)) }
{
    let mut hashes = Vec::new(alloc);
    for block in blocks {
        if hashes.len() >= most {
            return Ok(hashes);
        }
        hashes.push(block.hash())?;
    }
    Ok(hashes)
}
