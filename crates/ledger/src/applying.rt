//! Blocks that are applied.

ghost use Rattle.std.specs.Prelude.{◌≡◌, ◌↔◌, ◌+◌, [], ◌∷◌, ◌++◌, List, IsTrue, IfOk, IfErr, MatchOption, option_map};
ghost use Rattle.std.specs.Option.{option_copied};
ghost use Rattle.model.specs.Utxo.{outputs_of, coin_of};
ghost use Rattle.model.specs.Genesis.{Genesis};
ghost use Rattle.model.specs.Block.{Block};
ghost use Rattle.model.specs.Ledger.{Ledger, network_of};
ghost use Rattle.model.specs.Applying.{LedgerState, IsFirstFault, IsApplied, IsStateOf};
ghost use Rattle.block.specs.View.{bytes_of};
ghost use Rattle.utxo_rules.specs.View.{params_of};
ghost use Rattle.ledger.specs.View.{tip_of, fault_of};
ghost use Rattle.ledger.specs.Judgement.{Fits, IsApplyFault, state_with};
ghost use Rattle.ledger.specs.BlockDiffs.{undone_block, tip_before};

use crate::block_diff::BlockDiff;
use crate::block_fault::{ApplyFault, BlockFault};
use crate::ledger_state::LedgerState;
use block::{CheckedBlock, Tip};
use ident::BlockHash;
use utxo_rules::Params;
use witness_pool::SigScheme;

/// Whether the number is the next one after the tip's.
fn is_next(tip: u64, number: u64) -> bool
    ensures { IsTrue result ↔ (number ≡ tip + 1) }
{
    tip < number && number - tip == 1
}

/// Whether the two name the same block, or none.
fn is_same(hash: Option<BlockHash>, other: Option<BlockHash>) -> bool
    ensures { IsTrue result ↔ (option_map bytes_of hash ≡ option_map bytes_of other) }
{
    hash == other
}

/// What is wrong with the block except for its transactions, on a state with these parameters and this tip, if
/// anything is. Takes no memory.
fn misfit<S: SigScheme>(params: &Params, tip: &Tip, block: &CheckedBlock<S>) -> Option<BlockFault>
    ensures { (ledger : Ledger) → MatchOption result
        (Fits (state_with (params_of params.now) ledger (tip_of tip.now)) block.now)
        (λ fault. IsFirstFault S.verifies (state_with (params_of params.now) ledger (tip_of tip.now)) block.now
        (fault_of fault)) }
{
    if !is_next(tip.number, block.number()) {
        return Some(BlockFault::WrongNumber);
    }
    if !is_same(block.previous(), tip.hash) {
        return Some(BlockFault::WrongPrev);
    }
    if block.slot() <= tip.slot {
        return Some(BlockFault::SlotNotRising);
    }
    if block.body_size() as u64 > u64::from(params.max_body_size) {
        return Some(BlockFault::BodyTooBig);
    }
    None
}

/// Applies the transactions of a block that fits the state otherwise, and answers what changed.
fn with_block<S: SigScheme>(
    state: LedgerState,
    block: &CheckedBlock<S>,
) -> Result<(LedgerState, BlockDiff), ApplyFault>
    requires { Fits state block.now }
    ensures applied { IfOk result (λ made. IsApplied S.verifies state block.now made.0) }
    ensures refused { IfErr result (IsApplyFault S.verifies state block.now) }
    ensures back { IfOk result (λ made. undone_block made.1 made.0 ≡ state) }
    ensures conserves { IfOk result (λ made. coin_of (outputs_of made.0.ledger.utxo) + made.0.ledger.fees
        ≡ coin_of (outputs_of state.ledger.utxo) + state.ledger.fees) }
{
    let (fees, tip) = (state.fees, state.tip);
    let (mut after, diffs) = state.with_transactions(block.slot(), block.transactions())?;
    after.tip = Tip::at(block.block());
    Ok((after, BlockDiff { diffs, tip, fees }))
}

/// The state after one more block (Shelley, CHAIN and BBODY): the block follows the tip, and its transactions are
/// judged at its slot and applied, one after the other. Else the first of its faults, or OutOfMemory, which stands for
/// none of the first four. The state that it is applied to stays. Takes, for each transaction, the look-ups of
/// [`utxo_rules::check`] and [`utxo_rules::applied`], and memory for what changes: what doesn't is shared, and each
/// node is copied at most once a block.
///
/// ```text
/// match apply_block(&state, &block) {
///     Ok(after) => state = after,
///     Err(fault) => println!(rt; "block {}: {fault}", block.number())?,
/// }
/// ```
pub fn apply_block<S: SigScheme>(
    state: &LedgerState,
    block: &CheckedBlock<S>,
) -> Result<LedgerState, ApplyFault>
    ensures applied { IfOk result (λ after. IsApplied S.verifies state.now block.now after) }
    ensures refused { IfErr result (IsApplyFault S.verifies state.now block.now) }
    // Where the state is that of a chain, the new one is that of the chain with this block after it.
    ensures chain { IfOk result (λ after. (genesis : Genesis) (chain : List Block) →
        IsStateOf (network_of genesis S.verifies) chain state.now →
        IsStateOf (network_of genesis S.verifies) (chain ++ block.now ∷ []) after) }
    // No ada is made or lost.
    ensures conserves { IfOk result (λ after. coin_of (outputs_of after.ledger.utxo) + after.ledger.fees
        ≡ coin_of (outputs_of state.now.ledger.utxo) + state.now.ledger.fees) }
{
    match misfit(&state.params, &state.tip, block) {
        Some(fault) => return Err(ApplyFault::Refused(fault)),
        None => {}
    }
    let (after, _diff) = with_block(state.try_clone()?, block)?;
    Ok(after)
}

/// The same as [`apply_block`] on a state that is given away, with what changed: [`crate::undo_block`] gives the state
/// back. It is gone with an Err.
///
/// ```text
/// let (after, diff) = apply_block_diff(state, &block)?;
/// let state = undo_block(after, &diff)?; // the same state as before
/// ```
pub fn apply_block_diff<S: SigScheme>(
    state: LedgerState,
    block: &CheckedBlock<S>,
) -> Result<(LedgerState, BlockDiff), ApplyFault>
    ensures applied { IfOk result (λ made. IsApplied S.verifies state block.now made.0) }
    ensures refused { IfErr result (IsApplyFault S.verifies state block.now) }
    ensures back { IfOk result (λ made. undone_block made.1 made.0 ≡ state) }
    // Where the state is that of a chain, the new one is that of the chain with this block after it.
    ensures chain { IfOk result (λ made. (genesis : Genesis) (chain : List Block) →
        IsStateOf (network_of genesis S.verifies) chain state →
        IsStateOf (network_of genesis S.verifies) (chain ++ block.now ∷ []) made.0) }
    // No ada is made or lost.
    ensures conserves { IfOk result (λ made. coin_of (outputs_of made.0.ledger.utxo) + made.0.ledger.fees
        ≡ coin_of (outputs_of state.ledger.utxo) + state.ledger.fees) }
{
    match misfit(&state.params, &state.tip, block) {
        Some(fault) => return Err(ApplyFault::Refused(fault)),
        None => {}
    }
    with_block(state, block)
}

/// Where a chain that ends in this state ended before the block whose difference this is.
fn ended(state: &LedgerState, diff: Option<&BlockDiff>) -> Tip
    ensures { tip_of result ≡ tip_before state.now (option_copied diff.entry) }
{
    match diff {
        None => state.tip,
        Some(diff) => diff.tip,
    }
}

/// What is wrong with a block, except for its transactions, on the state before the block whose difference this is, of
/// a chain that ends in this state; with no difference on the state itself. So it is known before anything is undone.
/// Takes no memory.
pub fn misfit_before<S: SigScheme>(
    state: &LedgerState,
    diff: Option<&BlockDiff>,
    block: &CheckedBlock<S>,
) -> Option<BlockFault>
    ensures { (before : LedgerState) → before.params ≡ state.now.params →
        before.tip ≡ tip_before state.now (option_copied diff.entry) →
        MatchOption result (Fits before block.now)
        (λ fault. IsFirstFault S.verifies before block.now (fault_of fault)) }
{
    misfit(&state.params, &ended(state, diff), block)
}
