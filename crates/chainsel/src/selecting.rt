//! The selection rule when a block comes.

ghost use Rattle.std.specs.Prelude.{◌≡◌, ◌⊎◌, ◌-◌, ◌≤◌, length, IfOk, IsTrue};
ghost use Rattle.model.specs.Ledger.{Network};
ghost use Rattle.model.specs.Chain.{immutable_length};
ghost use Rattle.blockstore.specs.Stored.{Store};
ghost use Rattle.blockstore.specs.Ways.{HasWay};
ghost use Rattle.chain.specs.Chained.{chain_of};
ghost use Rattle.ledgerdb.specs.Values.{depth};
ghost use Rattle.chainsel.specs.Ready.{IsSettled};
ghost use Rattle.chainsel.specs.Paths.{IsLast};
ghost use Rattle.chainsel.specs.Choices.{IsSelectionAnswer};

use crate::found::Found;
use crate::search::{keep, search};
use crate::selection::Selection;
use crate::sifting::sift;
use blockstore::{BlockStore, LiveBlock};
use chain::Chain;
use ledgerdb::LedgerDb;
use std::alloc::{AllocError, Global};
use witness_pool::SigScheme;

/// How many blocks of the chain are never rolled back: all but as many as the database can. Takes no memory.
pub fn immutable<S: SigScheme>(chain: &Chain<S>, db: &LedgerDb) -> usize
    ensures count { result ≡ length (chain_of chain.now) - depth db.now }
    ensures immutable { (network : Network) (store : Store) → IsSettled network (chain_of chain.now) store db.now
        → result ≡ immutable_length network (chain_of chain.now) }
{
    chain.len().saturating_sub(db.depth())
}

/// Whether the block is no longer than the chain, and no live block names it as the one before. A look-up.
fn goes_no_further<S: SigScheme>(
    store: &BlockStore<S>,
    chain: &Chain<S>,
    new: &LiveBlock<S>,
) -> Result<bool, AllocError>
    ensures { IfOk result (λ ends. IsTrue ends →
        (new.now.header.number ≤ length (chain_of chain.now)) × IsLast store.now new.now) }
{
    let new = new.block();
    if new.number() > chain.len() as u64 {
        return Ok(false);
    }
    Ok(store.successors(Some(new.hash()))?.is_empty())
}

/// Whether the chain stays by links alone: no way leads to the block from the immutable tip, or the block is no longer
/// than the chain and nothing goes on from it. A few look-ups, and none where it extends the chain.
fn stays_by_links<S: SigScheme>(
    store: &BlockStore<S>,
    chain: &Chain<S>,
    new: &LiveBlock<S>,
) -> Result<bool, AllocError>
    ensures { IfOk result (λ stays. IsTrue stays → (HasWay store.now.root store.now.blocks new.now → ⊥)
        ⊎ ((new.now.header.number ≤ length (chain_of chain.now)) × IsLast store.now new.now)) }
{
    if chain.tip().precedes(new.block()) {
        return Ok(false);
    }
    if !store.connects(new.block().header()) {
        return Ok(true);
    }
    goes_no_further(store, chain, new)
}

/// What becomes of the selected chain when this block comes to the live ones (the Consensus and Storage Layer report,
/// chain selection). Nothing changes: the caller marks what was found dead, keeps the state that is answered beside the
/// chain, and switches.
///
/// Links are looked at first and the ledger last. Where no way leads to the block from the immutable tip, or nothing
/// goes on from it and it is no longer than the chain, a few look-ups in the store are all that it takes. Where it
/// comes next after a state that is kept beside the chain, it is judged on that, and so is all that goes on from it:
/// each block once, and where it is refused no time goes into the fork before it. Else, or where it is applied there,
/// it takes a look-up of successors for each block that goes on from it. Where none of these is longer than the chain
/// no other block is judged, and where one is, it takes a look-up for each block on the way to the new one, and the
/// time to judge the longest path. Where a block of that path is dead, the blocks before it are judged once more, and
/// so is all that goes on from the new one, each block once; then the search begins again. A block that is found dead
/// is told, so that it is never judged again.
///
/// No block of the chain from its immutable tip on may have left memory. A block that is held as its text alone is read
/// each time that it is judged. Where the answer is Err, memory ran out.
pub fn select<S: SigScheme>(
    alloc: Global,
    store: &BlockStore<S>,
    db: &LedgerDb,
    chain: &Chain<S>,
    new: &LiveBlock<S>,
) -> Result<Selection<S>, AllocError>
    requires { length chain.now.gone ≤ length (chain_of chain.now) - depth db.now - 1 }
    ensures { IfOk result (IsSelectionAnswer S.verifies (chain_of chain.now) store.now db.now new.now) }
{
    let mut found = Found::new(alloc);
    if stays_by_links(store, chain, new)? {
        return Ok(keep(found, None, Vec::new(alloc)));
    }
    if !sift(alloc, store, &mut found, db.side_before(new.block()), new)? {
        return Ok(keep(found, None, Vec::new(alloc)));
    }
    let immutable = immutable(chain, db);
    search(alloc, store, db, chain, immutable, new, found)
}
