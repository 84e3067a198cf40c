//! The transactions of a body, applied one after the other.

ghost use Rattle.std.specs.Prelude.{◌≡◌, ◌+◌, None, Ok, OnOk, IfOk, IfErr, MatchResult};
ghost use Rattle.model.specs.Utxo.{outputs_of, coin_of};
ghost use Rattle.model.specs.Ledger.{reason_in, ledger_with, judged_in_order};
ghost use Rattle.utxo_rules.specs.Check.{IsCheckFault};
ghost use Rattle.utxo_rules.specs.Diffs.{undone};
ghost use Rattle.ledger.specs.Judgement.{IsBodyFault, HasSameEnds};
ghost use Rattle.ledger.specs.BlockDiffs.{all_undone};

use crate::block_fault::{ApplyFault, BlockFault};
use crate::ledger_state::LedgerState;
use utxo_rules::{CheckFault, Diff, applied_diff, check};
use witness_pool::{CheckedTx, SigScheme};

impl LedgerState {
    /// Judges the transaction at the slot and applies it, and answers what changed. The state is gone with an Err.
    fn applied<S: SigScheme>(
        self,
        slot: u64,
        tx: &CheckedTx<S>,
    ) -> Result<(LedgerState, Diff), CheckFault>
        ensures accepted { OnOk result (reason_in S.verifies self.params slot self.ledger tx.now ≡ None) }
        ensures applied { IfOk result (λ made. made.0.ledger ≡ ledger_with self.ledger tx.now) }
        ensures ends { IfOk result (λ made. HasSameEnds self made.0) }
        ensures back { IfOk result (λ made. undone made.1 made.0.ledger.utxo ≡ self.ledger.utxo) }
        ensures refused { IfErr result (IsCheckFault S.verifies self.params self.ledger.utxo slot tx.now) }
    {
        check(self.alloc, &self.params, &self.utxo, slot, tx)?;
        let (utxo, diff) = applied_diff(self.utxo, tx.tx())?;
        let after = LedgerState {
            alloc: self.alloc,
            params: self.params,
            utxo,
            fees: self.fees + tx.tx().fee(),
            tip: self.tip,
        };
        Ok((after, diff))
    }

    /// Judges the transactions at the slot, each on what those before it leave, and applies them, and answers what each
    /// changed. The state is gone with an Err.
    pub(crate) fn with_transactions<S: SigScheme>(
        self,
        slot: u64,
        transactions: &[CheckedTx<S>],
    ) -> Result<(LedgerState, Vec<Diff>), ApplyFault>
        ensures judged { let judged = judged_in_order S.verifies self.params slot self.ledger 0 transactions.now in
            MatchResult result (λ made. judged ≡ Ok made.0.ledger) (IsBodyFault judged) }
        ensures ends { IfOk result (λ made. HasSameEnds self made.0) }
        ensures back { IfOk result (λ made. all_undone made.1.items made.0.ledger.utxo ≡ self.ledger.utxo) }
    {
        let mut diffs = Vec::new(self.alloc);
        let mut after = self;
        for (index, tx) in transactions.iter().enumerate() {
            match after.applied(slot, tx) {
                Ok((next, diff)) => {
                    after = next;
                    diffs.push(diff)?;
                }
                Err(CheckFault::Refused(reason)) => {
                    return Err(ApplyFault::Refused(BlockFault::TxFault(index, reason)));
                }
                Err(CheckFault::OutOfMemory) => return Err(ApplyFault::OutOfMemory),
            }
        }
        Ok((after, diffs))
    }
}
