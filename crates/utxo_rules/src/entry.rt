//! The entries of a map of unspent outputs: they stand for plain inputs and outputs.

ghost use Rattle.std.specs.Prelude.{◌≡◌};
ghost use Rattle.tx.specs.View.{input_of, output_of};

use ident::TxId;
use std::marker::Model;
use std::sync::Arc;
use tx::{Input, Output};

/// Where an output stands: the input that would spend it. Ordered by the bytes of the identifier, then by the index.
#[derive(Clone, Copy, PartialEq, Eq, PartialOrd, Ord, Drop)]
pub struct Place {
    transaction: [u8; 32],
    index: u16,
}

impl Model for Place {
    ghost use Rattle.std.specs.Prelude.{◌≤◌};
    ghost use Rattle.model.specs.Limits.{greatest_index};
    ghost use Rattle.model.specs.Transaction.{Input};
    ghost use Rattle.model.specs.Codes.{coded_input};

    ghost Value = { Input };

    ghost coded = { coded_input };

    ghost view = { λ p. record { transaction = p.transaction; index = p.index } };

    ghost invariant = { λ p. p.index ≤ greatest_index };

    ghost inverse = { λ i. record { transaction = i.transaction; index = i.index } };
}

impl Place {
    /// The place of the output that this input would spend.
    pub fn of(input: &Input) -> Place
        ensures { result ≡ input_of input.now }
    {
        Place {
            transaction: *input.transaction.as_bytes(),
            index: input.index,
        }
    }

    /// The input that would spend the output there.
    pub fn input(&self) -> Input
        ensures { input_of result ≡ self.now }
    {
        Input {
            transaction: TxId::from_bytes(self.transaction),
            index: self.index,
        }
    }
}

/// An output that stands in the map.
#[derive(Drop)]
pub struct Unspent {
    output: Output,
}

impl Model for Unspent {
    ghost use Rattle.model.specs.Transaction as model;
    ghost use Rattle.model.specs.Codes.{coded_output};

    ghost Value = { model.Output };

    ghost coded = { coded_output };

    ghost use Rattle.tx.specs.View.{output_of};

    ghost view = { λ u. output_of u.output };
}

impl Unspent {
    /// The output, to be kept.
    pub fn of(output: Output) -> Unspent
        ensures { result ≡ output_of output }
    {
        Unspent { output }
    }

    /// The output.
    pub fn output(&self) -> &Output
        ensures { output_of result.now ≡ self.now }
    {
        &self.output
    }
}

/// A place and the output that stood there, which other versions may share.
#[derive(Drop)]
pub struct Pair {
    pub place: Place,
    pub unspent: Arc<Unspent>,
}

impl Model for Pair {
    ghost use Rattle.std.specs.Coded.{coded×};
    ghost use Rattle.std.specs.Arc.{arc_value};
    ghost use Rattle.model.specs.Transaction.{Input, Output};
    ghost use Rattle.model.specs.Codes.{coded_input, coded_output};

    ghost Value = { Input × Output };

    ghost coded = { coded× coded_input coded_output };

    ghost view = { λ p. (p.place, arc_value p.unspent) };
}
