//! Whether as much is consumed as is produced.

ghost use Rattle.std.specs.Prelude.{◌≡◌, ◌≤◌, ◌<◌, ◌+◌, ◌-ℤ◌, ◌^◌, map, length, OnOk, IfOk};
ghost use Rattle.model.specs.Value.{Asset};
ghost use Rattle.model.specs.Utxo.{sum_of, spent_outputs};
ghost use Rattle.model.specs.Balance.{is_balanced};
ghost use Rattle.tx.specs.View.{output_of};
ghost use Rattle.value.specs.Totals.{total_of};
ghost use Rattle.model.specs.Utxo as model;

use std::alloc::{AllocError, Global};
use tx::{Output, Tx};
use value::{Totals, Value};

/// Takes the values of the outputs from the sums.
pub fn take_outputs(totals: &mut Totals, outputs: &[Output]) -> Result<(), AllocError>
    requires { totals.old.values + length outputs.now ≤ 2 ^ 62 }
    ensures sums { OnOk result ((asset : Asset) →
        total_of totals.new asset ≡ total_of totals.old asset -ℤ sum_of asset (map output_of outputs.now)) }
    ensures counted { OnOk result (totals.new.values ≡ totals.old.values + length outputs.now) }
{
    for output in outputs {
        output.value.take_from(totals)?;
    }
    Ok(())
}

/// Whether the transaction consumes as much as it produces, of ada and of each asset, where these are the sums of what
/// it spends.
pub fn is_balanced(alloc: Global, spent: Totals, tx: &Tx) -> Result<bool, AllocError>
    requires few { spent.values ≤ 2 ^ 61 }
    ensures { IfOk result (λ balanced. (utxo : model.Utxo) →
        ((asset : Asset) → total_of spent asset ≡ sum_of asset (spent_outputs utxo tx.now)) →
        balanced ≡ is_balanced utxo tx.now) }
{
    let mut totals = spent;
    tx.mint().add_to(&mut totals)?;
    take_outputs(&mut totals, tx.outputs())?;
    Value::of_coin(alloc, tx.fee()).take_from(&mut totals)?;
    Ok(totals.is_balanced())
}
