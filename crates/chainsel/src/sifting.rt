//! What goes on from a block, judged.

ghost use Rattle.std.specs.Prelude.{◌≢◌, ◌∷◌, ◌++◌, List, OnOk, IfOk, IfErr, IfSome};
ghost use Rattle.ledger.specs.Judgement.{IsApplyFault};
ghost use Rattle.model.specs.Applying.{IsApplied};
ghost use Rattle.model.specs.Genesis.{Genesis};
ghost use Rattle.model.specs.Block.{Block};
ghost use Rattle.model.specs.Ledger.{network_on};
ghost use Rattle.model.specs.Chain.{tip_at, Follows};
ghost use Rattle.blockstore.specs.Stored.{blocks_of};
ghost use Rattle.chainsel.specs.Paths.{IsFitLive};
ghost use Rattle.chainsel.specs.Choices.{AreDead};
ghost use Rattle.chainsel.specs.Judged.{IsStateAt, StaysSifted, GainsFound, FindsDead};
ghost use Rattle.chainsel.specs.Sides.{IsSide};

use crate::found::Found;
use crate::links::{follows, is_fit};
use blockstore::{BlockStore, LiveBlock};
use ledger::{ApplyFault, LedgerState, apply_block};
use std::alloc::{AllocError, Global};
use witness_pool::SigScheme;

/// A block that was applied, with the state after it.
#[derive(Drop)]
pub struct Judged<'a, S: SigScheme> {
    pub block: &'a LiveBlock<S>,
    pub state: LedgerState,
}

/// Applies a live block to a state. One that is held as its text alone is read for that.
fn apply<S: SigScheme>(
    alloc: Global,
    state: &LedgerState,
    block: &LiveBlock<S>,
) -> Result<LedgerState, ApplyFault>
    ensures applied { IfOk result (λ after. IsApplied S.verifies state.now block.now after) }
    ensures refused { IfErr result (λ fault.
        fault ≢ ApplyFault.OutOfMemory → IsApplyFault S.verifies state.now block.now fault) }
{
    let block = match block.read(alloc) {
        Ok(block) => block,
        Err(AllocError) => return Err(ApplyFault::OutOfMemory),
    };
    apply_block(state, &block)
}

/// Judges a live block against which nothing is known, on the state of the block before it. Where it is applied it
/// comes to wait with the state after it, and else it is found dead.
fn judge<'a, S: SigScheme>(
    alloc: Global,
    store: &'a BlockStore<S>,
    found: &mut Found,
    before: &Judged<'_, S>,
    block: &'a LiveBlock<S>,
    waiting: &mut Vec<Judged<'a, S>>,
) -> Result<(), AllocError>
    requires fit { IsFitLive store.now found.old.hashes.items block.now }
    requires follows { Follows (tip_at before.now.block.now) block.now }
    ensures found { OnOk result (GainsFound store.now found.old.hashes.items found.new.hashes.items) }
    ensures sifted { OnOk result (StaysSifted S.verifies store.now before.now.block.now before.now.state
        found.old.hashes.items found.new.hashes.items waiting.old.items waiting.new.items) }
{
    match apply(alloc, &before.state, block) {
        Ok(state) => waiting.push(Judged { block, state })?,
        Err(ApplyFault::Refused(_)) => found.push(block.block().hash())?,
        Err(ApplyFault::OutOfMemory) => return Err(AllocError),
    }
    Ok(())
}

/// Judges the live blocks that follow this one, against which nothing is known.
fn judge_next<'a, S: SigScheme>(
    alloc: Global,
    store: &'a BlockStore<S>,
    found: &mut Found,
    before: &Judged<'_, S>,
    waiting: &mut Vec<Judged<'a, S>>,
) -> Result<(), AllocError>
    ensures found { OnOk result (GainsFound store.now found.old.hashes.items found.new.hashes.items) }
    ensures sifted { OnOk result (StaysSifted S.verifies store.now before.now.block.now before.now.state
        found.old.hashes.items found.new.hashes.items waiting.old.items waiting.new.items) }
{
    let last = before.block.block();
    let successors = store.successors(Some(last.hash()))?;
    for stored in &successors {
        if is_fit(found, stored) && follows(last, stored.block()) {
            judge(alloc, store, found, before, stored.live(), waiting)?;
        }
    }
    Ok(())
}

/// Judges all that goes on from a block with this state after it: each block once, and none behind one that is dead.
fn judge_behind<'a, S: SigScheme>(
    alloc: Global,
    store: &'a BlockStore<S>,
    found: &mut Found,
    block: &'a LiveBlock<S>,
    state: &LedgerState,
) -> Result<(), AllocError>
    ensures found { OnOk result (GainsFound store.now found.old.hashes.items found.new.hashes.items) }
    ensures dead { OnOk result ((genesis : Genesis) (opened chain : List Block) (new : Block)
        → IsStateAt (network_on genesis S.verifies opened) chain store.now new block.now state.now
        → AreDead (network_on genesis S.verifies opened) chain store.now new found.old.hashes.items
        → AreDead (network_on genesis S.verifies opened) chain store.now new found.new.hashes.items) }
{
    let state = state.try_clone()?;
    let mut waiting = vec![in alloc; Judged { block, state }]?;
    for _ in 0..u64::MAX {
        let Some(before) = waiting.pop() else {
            return Ok(());
        };
        judge_next(alloc, store, found, &before, &mut waiting)?;
    }
    Ok(())
}

/// Judges the new block on this state, which it may come next after, and then all that goes on from it. Answers whether
/// the new one is applied.
fn judge_on<'a, S: SigScheme>(
    alloc: Global,
    store: &'a BlockStore<S>,
    found: &mut Found,
    state: &LedgerState,
    new: &'a LiveBlock<S>,
) -> Result<bool, AllocError>
    requires { Follows state.now.tip new.now }
    ensures found { IfOk result (λ stays. FindsDead store.now new.now stays
        found.old.hashes.items found.new.hashes.items) }
    ensures dead { OnOk result ((genesis : Genesis) (opened chain : List Block)
        → IsSide (network_on genesis S.verifies opened) ((new.now ∷ blocks_of store.now) ++ chain) state.now
        → AreDead (network_on genesis S.verifies opened) chain store.now new.now found.old.hashes.items
        → AreDead (network_on genesis S.verifies opened) chain store.now new.now found.new.hashes.items) }
{
    match apply(alloc, state, new) {
        Ok(after) => {
            judge_behind(alloc, store, found, new, &after)?;
            Ok(true)
        }
        Err(ApplyFault::Refused(_)) => {
            found.push(new.block().hash())?;
            Ok(false)
        }
        Err(ApplyFault::OutOfMemory) => Err(AllocError),
    }
}

/// Where there is a state that the new block may come next after, judges it on that, and then all that goes on from it:
/// each block once, and none behind one that is dead. What is dead is found. Answers whether the new one isn't found
/// dead. Takes the time to judge these blocks, and memory for what each changes; what comes before them takes none.
pub fn sift<'a, S: SigScheme>(
    alloc: Global,
    store: &'a BlockStore<S>,
    found: &mut Found,
    state: Option<&LedgerState>,
    new: &'a LiveBlock<S>,
) -> Result<bool, AllocError>
    ensures found { IfOk result (λ stays. FindsDead store.now new.now stays
        found.old.hashes.items found.new.hashes.items) }
    ensures dead { OnOk result ((genesis : Genesis) (opened chain : List Block)
        → IfSome state.entry (λ s.
        IsSide (network_on genesis S.verifies opened) ((new.now ∷ blocks_of store.now) ++ chain) s.now)
        → AreDead (network_on genesis S.verifies opened) chain store.now new.now found.old.hashes.items
        → AreDead (network_on genesis S.verifies opened) chain store.now new.now found.new.hashes.items) }
{
    match state {
        Some(state) if state.precedes(new.block()) => judge_on(alloc, store, found, state, new),
        _ => Ok(true),
    }
}
