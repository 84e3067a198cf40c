//! Outputs: what a transaction leaves to be spent.

ghost use Rattle.std.specs.Prelude.{◌≡◌, ◌<◌, ◌≤◌, ◌+◌, ◌++◌, length, option_map, vec_len, vec_capacity};
ghost use Rattle.std.specs.Prelude.{IfOk, OnOk, OnErr};
ghost use Rattle.model.specs.Cbor.{text_of};
ghost use Rattle.model.specs.Transaction as model;
ghost use Rattle.model.specs.Transaction.{item_of_output};
ghost use Rattle.cbor.specs.Gives.{Gives};
ghost use Rattle.cbor.specs.Texts.{Keeps};
ghost use Rattle.value.specs.Reading.{value_at};
ghost use Rattle.tx.specs.Reading.{address_at, output_at};
ghost use Rattle.tx.specs.View.{address_of, output_of};

use crate::address::{ADDRESS_SIZE, Address};
use cbor::{CborFault, Decode, Encode};
use std::alloc::{AllocError, Global};
use value::Value;

/// Who may spend, and what there is to spend.
#[derive(Debug, PartialEq, Drop)]
pub struct Output {
    pub address: Address,
    pub value: Value,
}

impl Output {
    /// An equal output. Err where memory runs out. Linear in the assets.
    pub fn try_clone(&self) -> Result<Output, AllocError>
        ensures { IfOk result (λ copy. output_of copy ≡ output_of self.now) }
    {
        Ok(Output {
            address: self.address,
            value: self.value.try_clone()?,
        })
    }

    /// Writes the address and the value after their number. At Err a part of that may stand there.
    fn write_parts(&self, out: &mut Vec<u8>) -> Result<(), AllocError>
        ensures ok { OnOk result (out.new.items ≡ out.old.items ++ text_of (item_of_output (output_of self.now))) }
        ensures keeps { Keeps out.old.items out.new.items }
        ensures full { OnErr result (vec_capacity out.old < vec_len out.old +
            length (text_of (item_of_output (output_of self.now)))) }
        ensures capacity { vec_capacity out.old ≤ vec_capacity out.new }
    {
        cbor::write_array(out, 2)?;
        cbor::write_byte_string(out, self.address.to_bytes().as_slice())?;
        self.value.write(out)
    }
}

/// The address that stands first, a byte string, and the bytes after it.
#[tactic(auto, unfolding(crate::specs::Reading::address_at, cbor::specs::Shapes::made_at))]
fn read_address(bytes: &[u8]) -> Option<(Address, &[u8])>
    ensures { option_map (λ x. (address_of x.0, x.1.now)) result ≡ address_at bytes.now }
{
    let (bytes, rest) = cbor::fixed::<ADDRESS_SIZE>(bytes)?;
    let address = Address::from_bytes(&bytes)?;
    Some((address, rest))
}

/// The value that stands first, and the bytes after it.
fn read_value(alloc: Global, bytes: &[u8]) -> Result<(Value, &[u8]), CborFault>
    ensures { Gives (λ x. (x.0, x.1.now)) result (value_at bytes.now) }
{
    Value::read(alloc, bytes)
}

impl Decode for Output {
    ghost Plain = { model.Output };

    ghost plain = { output_of };

    ghost decoded_at = { λ depth. output_at };

    #[tactic(auto, unfolding(crate::specs::Reading::output_at, cbor::specs::Shapes::as_at, cbor::specs::Shapes::array_at, cbor::specs::Shapes::both_at))]
    fn decode(alloc: Global, _depth: usize, bytes: &[u8]) -> Result<(Output, &[u8]), CborFault> {
        let members = cbor::members(bytes, 2).ok_or(CborFault::Malformed)?;
        let (address, rest) = read_address(members).ok_or(CborFault::Malformed)?;
        let (value, rest) = read_value(alloc, rest)?;
        Ok((Output { address, value }, rest))
    }
}

impl Encode for Output {
    ghost item_of = { λ output. item_of_output (output_of output) };

    fn write(&self, out: &mut Vec<u8>) -> Result<(), AllocError> {
        let start = out.len();
        let written = self.write_parts(out);
        if written.is_err() {
            out.truncate(start);
        }
        written
    }
}
