//! What a transaction changed.

ghost use Rattle.std.specs.Prelude.{◌≡◌};

use crate::entry::Pair;
use ident::TxId;
use std::marker::Model;

/// What a transaction changed in the unspent outputs that it was applied to, so that it can be undone: the pairs that
/// it spent, the places of the outputs that it made, and its fee. It shares the outputs, and takes memory for each
/// input.
#[derive(Drop)]
pub struct Diff {
    pub(crate) spent: Vec<Pair>,
    pub(crate) id: TxId,
    pub(crate) count: usize,
    pub(crate) fee: u64,
}

impl Model for Diff {
    ghost use Rattle.std.specs.Prelude.{◌≤◌};
    ghost use Rattle.model.specs.Limits.{output_limit};
    ghost use Rattle.utxo_rules.specs.Diffs as diffs;
    ghost use Rattle.utxo_rules.specs.Diffs.{coded_diff, places_from};

    ghost Value = { diffs.Diff };

    ghost coded = { coded_diff };

    ghost view = { λ d. record { spent = d.spent.items; made = places_from d.id.bytes 0 d.count; fee = d.fee } };

    ghost invariant = { λ d. d.count ≤ output_limit };
}

impl Diff {
    /// The fee of the transaction, in lovelace.
    pub fn fee(&self) -> u64
        ensures { result ≡ self.now.fee }
    {
        self.fee
    }
}
