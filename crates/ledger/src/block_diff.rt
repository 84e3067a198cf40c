//! What a block changed, and how it is undone.

ghost use Rattle.std.specs.Prelude.{◌≡◌, ◌↔◌, ◌+◌, ◌<◌, IsTrue, IfOk};
ghost use Rattle.model.specs.Limits.{number_limit};
ghost use Rattle.ledger.specs.BlockDiffs.{all_undone, undone_block};

use crate::ledger_state::LedgerState;
use block::{NUMBER_LIMIT, Tip};
use std::alloc::AllocError;
use std::marker::Model;
use utxo_rules::{Diff, Utxo, undone};

/// What a block changed in the state that it was applied to, so that it can be undone: the differences of its
/// transactions, and the tip and the fees before it. It takes memory for each input, and shares the outputs.
#[derive(Drop)]
pub struct BlockDiff {
    pub(crate) diffs: Vec<Diff>,
    pub(crate) tip: Tip,
    pub(crate) fees: u64,
}

impl Model for BlockDiff {
    ghost use Rattle.std.specs.Prelude.{◌<◌};
    ghost use Rattle.model.specs.Limits.{number_limit};
    ghost use Rattle.ledger.specs.View.{tip_of};
    ghost use Rattle.ledger.specs.BlockDiffs as values;
    ghost use Rattle.ledger.specs.BlockDiffs.{coded_block_diff};

    ghost Value = { values.BlockDiff };

    ghost coded = { coded_block_diff };

    ghost view = { λ d. record { diffs = d.diffs.items; tip = tip_of d.tip; fees = d.fees } };

    ghost invariant = { λ d. d.tip.slot < number_limit };
}

/// Whether the two are less than 2^63 lovelace together.
fn is_within(coin: u128, fees: u64) -> bool
    ensures { IsTrue result ↔ (coin + fees < number_limit) }
{
    let limit = u128::from(NUMBER_LIMIT);
    coin < limit && coin + u128::from(fees) < limit
}

/// The unspent outputs before the transactions that made these differences: the last one is undone first.
fn before_all(utxo: Utxo, diffs: &[Diff]) -> Result<Utxo, AllocError>
    ensures { IfOk result (λ before. before ≡ all_undone diffs.now utxo) }
{
    let count = diffs.len();
    let mut before = utxo;
    for done in 0..count {
        before = undone(before, &diffs[count - 1 - done])?;
    }
    Ok(before)
}

/// The state before its last block, whose difference this is. Err where memory runs out: the state is gone with the
/// call. Takes the look-ups of [`utxo_rules::undone`] for each transaction of the block. The difference of another
/// block may leave 2^63 lovelace or more, which no state holds: then it is an Err, too.
pub fn undo_block(state: LedgerState, diff: &BlockDiff) -> Result<LedgerState, AllocError>
    ensures { IfOk result (λ before. before ≡ undone_block diff.now state) }
{
    let utxo = before_all(state.utxo, &diff.diffs)?;
    if !is_within(utxo.coin(), diff.fees) {
        return Err(AllocError);
    }
    Ok(LedgerState {
        alloc: state.alloc,
        params: state.params,
        utxo,
        fees: diff.fees,
        tip: diff.tip,
    })
}
