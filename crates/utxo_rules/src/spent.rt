//! What a transaction's inputs bring: their sums, and the hashes of the keys and the scripts that lock them.

ghost use Rattle.std.specs.Prelude.{◌≡◌, ◌≤◌, ◌<◌, ◌^◌, [], map, length, OnOk, IfOk};
ghost use Rattle.model.specs.Utxo.{outputs_at};
ghost use Rattle.tx.specs.View.{input_of, output_of};
ghost use Rattle.utxo_rules.specs.Spent.{IsSpent, IsOneMore};

use crate::utxo::Utxo;
use std::alloc::{AllocError, Global};
use tx::{Credential, Input, Output};
use value::Totals;

/// What outputs that are spent bring and ask for.
#[derive(Drop)]
pub struct Spent {
    /// Their values, added up.
    pub totals: Totals,
    /// The bytes of the hashes of the keys that lock them, in their order.
    pub keys: Vec<[u8; 32]>,
    /// The bytes of the hashes of the scripts that lock them, in their order.
    pub scripts: Vec<[u8; 32]>,
}

impl Spent {
    /// What no output brings.
    fn nothing(alloc: Global) -> Spent
        ensures { IsSpent result [] }
    {
        Spent {
            totals: Totals::new(alloc),
            keys: Vec::new(alloc),
            scripts: Vec::new(alloc),
        }
    }

    /// Adds what one more output brings.
    fn add(&mut self, output: &Output) -> Result<(), AllocError>
        requires { self.old.totals.values < 2 ^ 62 }
        ensures { OnOk result (IsOneMore self.old self.new (output_of output.now)) }
    {
        output.value.add_to(&mut self.totals)?;
        match output.address.payment() {
            Credential::Key(hash) => self.keys.push(*hash.as_bytes())?,
            Credential::Script(hash) => self.scripts.push(*hash.as_bytes())?,
        }
        Ok(())
    }

    /// What the outputs bring that these inputs spend, as far as they stand there: one look-up for each.
    pub fn by(alloc: Global, utxo: &Utxo, inputs: &[Input]) -> Result<Spent, AllocError>
        ensures spent { IfOk result (λ spent. IsSpent spent (outputs_at utxo.now (map input_of inputs.now))) }
        // There are no more of them than inputs, so that they can be counted.
        ensures few { IfOk result (λ spent. spent.totals.values ≤ length inputs.now) }
    {
        let mut spent = Spent::nothing(alloc);
        for input in inputs {
            if let Some(output) = utxo.get(input) {
                spent.add(output)?;
            }
        }
        Ok(spent)
    }
}
