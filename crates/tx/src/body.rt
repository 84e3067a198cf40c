//! Bodies of transactions (Shelley-MA): what a transaction does, and what its identifier is the hash of.

ghost use Rattle.std.specs.Prelude.{◌≡◌, ◌<◌, ◌≤◌, ◌+◌, ◌++◌, [], length, OnOk, OnErr, IfErr, vec_len, vec_capacity};
ghost use Rattle.model.specs.Cbor.{text_of, pairs_of, pairs_text, nesting};
ghost use Rattle.cbor.specs.Gives.{Gives, GivesNo, IfWant};
ghost use Rattle.cbor.specs.Texts.{Keeps};
ghost use Rattle.value.specs.Reading.{mint_at};
ghost use Rattle.tx.specs.Body.{body_item, required_entries, optional_entries};
ghost use Rattle.tx.specs.BodyReading.{minted_field_at, body_at};
ghost use Rattle.tx.specs.BodyView.{body_of};
ghost use Rattle.tx.specs.Bare.{IsBareBody};

use crate::input::Input;
use crate::keys::{END, FEE, INPUTS, MINT, OUTPUTS, START};
use crate::nesting::{inputs_nesting, outputs_nesting};
use crate::output::Output;
use crate::{body_writer, lists};
use cbor::CborFault::{self, Malformed};
use std::alloc::{AllocError, Global};
use value::Mint;

/// The body of a transaction.
#[derive(Debug, Drop)]
pub struct Body {
    /// What is spent, in strictly rising order.
    pub inputs: Vec<Input>,
    /// What is left to be spent, at most 65,536.
    pub outputs: Vec<Output>,
    /// The fee, in lovelace.
    pub fee: u64,
    /// The transaction holds before this slot.
    pub end: Option<u64>,
    /// The transaction holds from this slot on.
    pub start: Option<u64>,
    /// What is minted and burned.
    pub mint: Mint,
}

/// What is minted by the text that stands first, which is not nothing, and the bytes after it.
fn read_minted(alloc: Global, bytes: &[u8]) -> Result<(Mint, &[u8]), CborFault>
    ensures { Gives (λ x. (x.0, x.1.now)) result (mint_at bytes.now) }
{
    Mint::read(alloc, bytes)
}

/// What is minted where that entry stands next, or else nothing; how many entries are left, and the bytes from there
/// on.
#[tactic(auto, unfolding(crate::specs::BodyReading::minted_field_at, cbor::specs::Shapes::as_fields_at, cbor::specs::Shapes::optional_field_at))]
fn read_mint(alloc: Global, left: u64, bytes: &[u8]) -> Result<(Mint, u64, &[u8]), CborFault>
    ensures exact { Gives (λ x. (x.0, x.1, x.2.now)) result (minted_field_at left bytes.now) }
    ensures want { IfErr result (λ fault. IfWant fault (GivesNo (λ x. x.0 ≡ []) (minted_field_at left bytes.now))) }
{
    let Some((after, text)) = cbor::field_key(left, MINT, bytes) else {
        return Ok((Mint::nothing(alloc), left, bytes));
    };
    let (mint, rest) = read_minted(alloc, text)?;
    Ok((mint, after, rest))
}

impl Body {
    /// The body whose text stands first, and the bytes after it (RFC 8949, section 4.2.1; a map with the keys in rising
    /// order). Malformed where no body's text stands there, OutOfMemory where memory ran out before that was known,
    /// which it does only where something is spent, made or minted. Linear in the bytes of the text.
    #[tactic(auto, unfolding(crate::specs::BodyReading::body_at, cbor::specs::Shapes::as_at, cbor::specs::Shapes::record_at, cbor::specs::Shapes::fields_at, cbor::specs::Shapes::field_at))]
    pub fn read(alloc: Global, bytes: &[u8]) -> Result<(Body, &[u8]), CborFault>
        ensures exact { Gives (λ x. (body_of x.0, x.1.now)) result (body_at bytes.now) }
        ensures want { IfErr result (λ fault. IfWant fault (GivesNo (λ x. IsBareBody x.0) (body_at bytes.now))) }
    {
        let (left, rest) = cbor::map(bytes).ok_or(Malformed)?;
        let (left, rest) = cbor::field_key(left, INPUTS, rest).ok_or(Malformed)?;
        let (inputs, rest) = lists::read_inputs(alloc, rest)?;
        let (left, rest) = cbor::field_key(left, OUTPUTS, rest).ok_or(Malformed)?;
        let (outputs, rest) = lists::read_outputs(alloc, rest)?;
        let (fee, left, rest) = cbor::unsigned_field(left, FEE, rest).ok_or(Malformed)?;
        let (end, left, rest) = cbor::optional_unsigned_field(left, END, rest).ok_or(Malformed)?;
        let (start, left, rest) = cbor::optional_unsigned_field(left, START, rest).ok_or(
            Malformed,
        )?;
        let (mint, left, rest) = read_mint(alloc, left, rest)?;
        if left > 0 {
            return Err(Malformed);
        }
        let body = Body {
            inputs,
            outputs,
            fee,
            end,
            start,
            mint,
        };
        Ok((body, rest))
    }

    /// How many entries the text has, 3 to 6.
    fn entries(&self) -> u64
        ensures { result ≡ length (required_entries (body_of self.now) ++ optional_entries (body_of self.now)) }
    {
        let has_mint = !self.mint.policies().is_empty();
        3 + u64::from(self.end.is_some()) + u64::from(self.start.is_some()) + u64::from(has_mint)
    }

    /// How deep the text of the body nests: 2 to 7. Linear in the outputs.
    pub fn nesting(&self) -> usize
        ensures deep { result ≡ nesting (body_item (body_of self.now)) }
        ensures within { result ≤ 7 }
    {
        let items = inputs_nesting(&self.inputs).max(outputs_nesting(&self.outputs));
        let mint = self.mint.nesting();
        1 + mint.max(1 + items)
    }

    /// Writes inputs, outputs and fee.
    fn write_required(&self, out: &mut Vec<u8>) -> Result<(), AllocError>
        ensures ok { OnOk result (out.new.items ≡ out.old.items ++
            pairs_text (pairs_of (required_entries (body_of self.now)))) }
        ensures keeps { Keeps out.old.items out.new.items }
        ensures full { OnErr result (vec_capacity out.old < length out.old.items +
            length (pairs_text (pairs_of (required_entries (body_of self.now))))) }
        ensures capacity { vec_capacity out.old ≤ vec_capacity out.new }
    {
        body_writer::write_inputs_field(out, &self.inputs)?;
        body_writer::write_outputs_field(out, &self.outputs)?;
        body_writer::write_number_field(out, FEE, self.fee)
    }

    /// Writes end, start and what is minted, as far as they are there.
    fn write_optional(&self, out: &mut Vec<u8>) -> Result<(), AllocError>
        ensures ok { OnOk result (out.new.items ≡ out.old.items ++
            pairs_text (pairs_of (optional_entries (body_of self.now)))) }
        ensures keeps { Keeps out.old.items out.new.items }
        ensures full { OnErr result (vec_capacity out.old < length out.old.items +
            length (pairs_text (pairs_of (optional_entries (body_of self.now))))) }
        ensures capacity { vec_capacity out.old ≤ vec_capacity out.new }
    {
        body_writer::write_optional_field(out, END, self.end)?;
        body_writer::write_optional_field(out, START, self.start)?;
        body_writer::write_minted_field(out, &self.mint)
    }

    /// Writes the entries after their number.
    fn write_parts(&self, out: &mut Vec<u8>) -> Result<(), AllocError>
        ensures ok { OnOk result (out.new.items ≡ out.old.items ++ text_of (body_item (body_of self.now))) }
        ensures keeps { Keeps out.old.items out.new.items }
        ensures full { OnErr result (vec_capacity out.old < length out.old.items +
            length (text_of (body_item (body_of self.now)))) }
        ensures capacity { vec_capacity out.old ≤ vec_capacity out.new }
    {
        cbor::write_map(out, self.entries())?;
        self.write_required(out)?;
        self.write_optional(out)
    }

    /// Writes the text of the body after the bytes (RFC 8949, section 4.2.1), in time linear in it. Err where memory
    /// runs out, which it does not where the vector has room for the text: the bytes stay as they were.
    pub fn write(&self, out: &mut Vec<u8>) -> Result<(), AllocError>
        ensures ok { OnOk result (out.new.items ≡ out.old.items ++ text_of (body_item (body_of self.now))) }
        ensures err { OnErr result (out.new.items ≡ out.old.items) }
        ensures full { OnErr result (vec_capacity out.old < vec_len out.old +
            length (text_of (body_item (body_of self.now)))) }
        ensures capacity { vec_capacity out.old ≤ vec_capacity out.new }
    {
        let start = out.len();
        let written = self.write_parts(out);
        if written.is_err() {
            out.truncate(start);
        }
        written
    }
}
