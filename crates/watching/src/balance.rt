//! What outputs hold together.

ghost use Rattle.std.specs.Prelude.{◌≡◌, ◌+◌, ◌+ℤ◌, OnOk, IfOk};
ghost use Rattle.model.specs.Value.{Asset, amount_of};
ghost use Rattle.model.specs.Utxo.{outputs_of, sum_of};
ghost use Rattle.std.specs.FinMap as finite;
ghost use Rattle.tx.specs.View.{output_of};
ghost use Rattle.value.specs.Totals.{total_of};

use std::alloc::{AllocError, Global};
use tx::Output;
use utxo_rules::Utxo;
use value::Totals;

/// The most values of which sums are exact.
const MOST_VALUES: u64 = 1 << 62;

/// Adds what an output holds. No outputs are so many that their sums aren't exact.
fn add(totals: &mut Totals, output: &Output) -> Result<(), AllocError>
    ensures sums { OnOk result ((asset : Asset) →
        total_of totals.new asset ≡ total_of totals.old asset +ℤ amount_of asset (output_of output.now).value) }
    ensures counted { OnOk result (totals.new.values ≡ totals.old.values + 1) }
{
    if totals.values() >= MOST_VALUES {
        return Err(AllocError);
    }
    output.value.add_to(totals)
}

/// What these outputs hold together, and how many they are. Looks at each once.
pub fn balance(alloc: Global, outputs: &Utxo) -> Result<Totals, AllocError>
    ensures sums { IfOk result (λ totals. (asset : Asset) →
        total_of totals asset ≡ sum_of asset (outputs_of outputs.now)) }
    ensures counted { IfOk result (λ totals. totals.values ≡ finite.len outputs.now) }
{
    let mut totals = Totals::new(alloc);
    for (_, output) in outputs.iter() {
        add(&mut totals, output)?;
    }
    Ok(totals)
}
