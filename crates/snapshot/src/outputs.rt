//! Outputs that are read in the order of their inputs.

ghost use Rattle.std.specs.Prelude.{◌≡◌, [], ◌∷◌, ◌++◌, OnOk, OnErr, IfOk, IfErr};
ghost use Rattle.std.specs.FinMap as finite;
ghost use Rattle.std.specs.Ordering.{is_lt};
ghost use Rattle.model.specs.Transaction.{input_cmp};
ghost use Rattle.tx.specs.View.{input_of, output_of};
ghost use Rattle.snapshot.specs.Begun.{coin_in};
ghost use Rattle.snapshot.specs.AddFaults.{IsAddFault};

use crate::fault::SnapshotFault;
use std::alloc::{AllocError, Global};
use std::marker::Model;
use tx::{Input, Output};
use utxo_rules::Utxo;

/// Whether the input comes before the other.
fn comes_before(input: &Input, other: &Input) -> bool
    ensures { result ≡ is_lt (input_cmp (input_of input.now) (input_of other.now)) }
{
    input.cmp(other).is_lt()
}

/// Unspent outputs, and the last of their inputs.
#[derive(Drop)]
pub struct Outputs {
    utxo: Utxo,
    last: Option<Input>,
}

impl Model for Outputs {
    ghost use Rattle.std.specs.FinMap as finite;
    ghost use Rattle.model.specs.Utxo as model;
    ghost use Rattle.model.specs.Codes.{coded_input, coded_output};

    ghost Value = { model.Utxo };

    ghost coded = { finite.code coded_input coded_output };

    ghost use Rattle.snapshot.specs.OutputsView.{outputs_in, KnowsLast};

    ghost view = { outputs_in };

    ghost invariant = { KnowsLast };
}

impl Outputs {
    /// None yet. Takes no memory.
    pub fn new(alloc: Global) -> Outputs
        ensures { finite.entries result ≡ [] }
    {
        Outputs {
            utxo: Utxo::new(alloc),
            last: None,
        }
    }

    /// The same outputs again, in constant time. Err where 2^63 copies share them already.
    pub fn try_clone(&self) -> Result<Outputs, AllocError>
        ensures { IfOk result (λ copy. copy ≡ self.now) }
    {
        Ok(Outputs {
            utxo: self.utxo.try_clone()?,
            last: self.last,
        })
    }

    /// How many they are, in constant time.
    pub fn len(&self) -> usize
        ensures { result ≡ finite.len self.now }
    {
        self.utxo.len()
    }

    /// How much lovelace they hold together, in constant time.
    pub fn coin(&self) -> u128
        ensures { result ≡ coin_in (finite.entries self.now) }
    {
        self.utxo.coin()
    }

    /// One more. Err `WrongOrder` where its input doesn't come after the last one, and OutOfMemory: nothing changes.
    /// Takes time in proportion to the logarithm of their number.
    pub fn add(&mut self, input: Input, output: Output) -> Result<(), SnapshotFault>
        ensures ok { OnOk result (finite.entries self.new ≡
            finite.entries self.old ++ (input_of input, output_of output) ∷ []) }
        ensures err { OnErr result (self.new ≡ self.old) }
        ensures fault { IfErr result (IsAddFault (finite.entries self.old) (input_of input)) }
    {
        match self.last {
            Some(last) => {
                if !comes_before(&last, &input) {
                    return Err(SnapshotFault::WrongOrder);
                }
            }
            None => {}
        }
        self.utxo.insert(&input, output)?;
        self.last = Some(input);
        Ok(())
    }

    /// The outputs.
    pub fn into_utxo(self) -> Utxo
        ensures { result ≡ self }
    {
        self.utxo
    }
}
