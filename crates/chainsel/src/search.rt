//! The search for the longest way through a block that came.

ghost use Rattle.std.specs.Prelude.{◌≡◌, ◌-◌, ◌≤◌, length, IfOk};
ghost use Rattle.chain.specs.Chained.{chain_of};
ghost use Rattle.ledgerdb.specs.Values.{depth};
ghost use Rattle.chainsel.specs.Founds.{AreFound};
ghost use Rattle.chainsel.specs.Choices.{AreDeadInAll, IsSelectionAnswer};

use crate::beside::side_of;
use crate::found::Found;
use crate::furthest::furthest;
use crate::selection::{Choice, Selection, Switch};
use crate::sifting::sift;
use crate::way::way_to;
use block::CheckedBlock;
use blockstore::{BlockStore, LiveBlock};
use chain::Chain;
use ledger::LedgerState;
use ledgerdb::{ForkFault, LedgerDb};
use std::alloc::{AllocError, Global};
use witness_pool::SigScheme;

/// What becomes of the selected chain when this block comes to the live ones, of which these were found dead so far.
/// The first `immutable` blocks of the chain stay; the last of these, if there is one, is in memory.
///
/// Takes a look-up of successors for each block that goes on from the new one, a look-up for each block on the way to
/// the new one, and the time to judge the longest path. Where a block of that is dead, the blocks before it are judged
/// once more, for the state before it, and so is all that goes on from the new one, each block once; then all of the
/// above is done once more. Err where memory runs out.
pub fn search<S: SigScheme>(
    alloc: Global,
    store: &BlockStore<S>,
    db: &LedgerDb,
    chain: &Chain<S>,
    immutable: usize,
    new: &LiveBlock<S>,
    found: Found,
) -> Result<Selection<S>, AllocError>
    requires immutable { immutable ≡ length (chain_of chain.now) - depth db.now }
    requires gone { length chain.now.gone ≤ immutable - 1 }
    requires found { AreFound store.now found.hashes.items }
    requires dead { AreDeadInAll S.verifies (chain_of chain.now) store.now db.now new.now found.hashes.items }
    ensures { IfOk result (IsSelectionAnswer S.verifies (chain_of chain.now) store.now db.now new.now) }
{
    let mut found = found;
    let mut read = Vec::new(alloc);
    let mut side = None;
    let hash = new.block().hash();
    loop {
        let best = furthest(alloc, store, &found, new)?;
        if best.end.block().number() <= chain.len() as u64 {
            return Ok(keep(found, side, read));
        }
        let Some(way) = way_to(alloc, store, &found, chain, immutable, new, best)? else {
            return Ok(keep(found, side, read));
        };
        let back = chain.len() - way.keep;
        match db.fork(back, &way.blocks) {
            Ok(prepared) => {
                let choice = Choice::Switch(Switch {
                    back,
                    blocks: way.blocks,
                    prepared,
                });
                return Ok(Selection {
                    choice,
                    invalid: found.into_hashes(),
                    side: None,
                    read,
                });
            }
            Err(ForkFault::OutOfMemory) => return Err(AllocError),
            Err(ForkFault::Refused(index, _)) => {
                let dead = way.blocks[index].hash();
                found.push(dead)?;
                side = side_of(db, back, &way.blocks, index, hash)?;
                read = way.blocks;
                read.truncate(index);
                if dead == hash || !sift(alloc, store, &mut found, side.as_ref(), new)? {
                    return Ok(keep(found, side, read));
                }
            }
        }
    }
}

/// The chain stays.
pub fn keep<S: SigScheme>(
    found: Found,
    side: Option<LedgerState>,
    read: Vec<CheckedBlock<S>>,
) -> Selection<S>
    ensures choice { result.choice ≡ Choice.Keep }
    ensures invalid { result.invalid.items ≡ found.hashes.items }
    ensures side { result.side ≡ side }
{
    Selection {
        choice: Choice::Keep,
        invalid: found.into_hashes(),
        side,
        read,
    }
}
