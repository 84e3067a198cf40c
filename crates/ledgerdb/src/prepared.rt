//! What a fork makes ready.

use ledger::{BlockDiff, LedgerState};
use std::collections::LinkedList;
use std::marker::Model;

/// The state after the blocks of a fork, what each of them changed, and how many blocks are rolled back before them:
/// what [`crate::LedgerDb::fork`] makes and [`crate::LedgerDb::commit`] takes. All memory that the change needs is in
/// it.
#[derive(Drop)]
pub struct Prepared {
    pub(crate) back: usize,
    pub(crate) state: LedgerState,
    pub(crate) diffs: LinkedList<BlockDiff>,
}

impl Model for Prepared {
    ghost use Rattle.ledgerdb.specs.Values as values;
    ghost use Rattle.ledgerdb.specs.Values.{coded_prepared};
    ghost use Rattle.ledgerdb.specs.Inside.{undone_blocks, states_along};

    ghost Value = { values.Prepared };

    ghost coded = { coded_prepared };

    ghost view = { λ p. record {
      back = p.back;
      root = undone_blocks p.diffs p.state;
      states = states_along p.diffs p.state;
    } };
}
