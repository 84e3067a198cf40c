//! Inputs: what a transaction spends.

ghost use Rattle.std.specs.Prelude.{◌≡◌, ◌<◌, ◌≤◌, ◌+◌, ◌++◌, length, option_map, OnOk, OnErr, vec_len, vec_capacity};
ghost use Rattle.model.specs.Limits.{greatest_index};
ghost use Rattle.model.specs.Cbor.{text_of};
ghost use Rattle.model.specs.Transaction as model;
ghost use Rattle.model.specs.Transaction.{item_of_input};
ghost use Rattle.cbor.specs.Texts.{Keeps};

use cbor::{CborFault, Decode, Encode};
use ident::TxId;
use std::alloc::{AllocError, Global};

/// One output of an earlier transaction. Ordered by the bytes of the transaction's identifier, then by the index.
#[derive(Clone, Copy, Debug, PartialEq, Eq, PartialOrd, Ord, Hash, Drop)]
pub struct Input {
    /// The transaction that has the output.
    pub transaction: TxId,
    /// The place of the output among those of its transaction, from 0 on.
    pub index: u16,
    pub ghost in_range: { index ≤ greatest_index },
}

impl Input {
    ghost use Rattle.tx.specs.Reading.{input_at};
    ghost use Rattle.tx.specs.View.{input_of};

    /// The input whose text stands first, and the bytes after it (RFC 8949, section 4.2.1): an array of the identifier
    /// and the index. None where no input's text stands there. Constant time.
    #[tactic(auto, unfolding(crate::specs::Reading::input_at, cbor::specs::Shapes::as_at, cbor::specs::Shapes::array_at, cbor::specs::Shapes::both_at, cbor::specs::Shapes::bounded_at, cbor::specs::Shapes::such_at))]
    fn read(bytes: &[u8]) -> Option<(Input, &[u8])>
        ensures { option_map (λ x. (input_of x.0, x.1.now)) result ≡ input_at bytes.now }
    {
        let members = cbor::members(bytes, 2)?;
        let (transaction, rest) = cbor::fixed::<32>(members)?;
        let (index, rest) = cbor::unsigned(rest)?;
        let input = Input {
            transaction: TxId::from_bytes(transaction),
            index: u16::try_from(index).ok()?,
        };
        Some((input, rest))
    }

    /// Writes the identifier and the index after their number. At Err a part of that may stand there.
    fn write_parts(&self, out: &mut Vec<u8>) -> Result<(), AllocError>
        ensures ok { OnOk result (out.new.items ≡ out.old.items ++ text_of (item_of_input (input_of self.now))) }
        ensures keeps { Keeps out.old.items out.new.items }
        ensures full { OnErr result (vec_capacity out.old < vec_len out.old +
            length (text_of (item_of_input (input_of self.now)))) }
        ensures capacity { vec_capacity out.old ≤ vec_capacity out.new }
    {
        cbor::write_array(out, 2)?;
        cbor::write_byte_string(out, self.transaction.as_bytes().as_slice())?;
        cbor::write_unsigned(out, self.index.into())
    }
}

impl Decode for Input {
    ghost use Rattle.tx.specs.Reading.{input_at};
    ghost use Rattle.tx.specs.View.{input_of};

    ghost Plain = { model.Input };

    ghost plain = { input_of };

    ghost decoded_at = { λ depth. input_at };

    fn decode(_alloc: Global, _depth: usize, bytes: &[u8]) -> Result<(Input, &[u8]), CborFault> {
        Input::read(bytes).ok_or(CborFault::Malformed)
    }
}

impl Encode for Input {
    ghost use Rattle.tx.specs.View.{input_of};

    ghost item_of = { λ input. item_of_input (input_of input) };

    fn write(&self, out: &mut Vec<u8>) -> Result<(), AllocError> {
        let start = out.len();
        let written = self.write_parts(out);
        if written.is_err() {
            out.truncate(start);
        }
        written
    }
}
