//! Outputs with the inputs that would spend them, as they stand in parts.

ghost use Rattle.std.specs.Prelude.{◌≡◌, ◌≤◌, ◌<◌, ◌+◌, ◌++◌, ℕ, length, OnOk, OnErr, IfOk, IfErr};
ghost use Rattle.std.specs.Bool.{OnTrue, OnFalse};
ghost use Rattle.std.specs.Prelude.{vec_len, vec_capacity};
ghost use Rattle.cbor.specs.Gives.{Gives, IfMalformed};
ghost use Rattle.cbor.specs.Texts.{Keeps};
ghost use Rattle.tx.specs.View.{input_of, output_of};
ghost use Rattle.snapshot.specs.Snapshot.{IsPair, pair_text, part_limit};
ghost use Rattle.snapshot.specs.Reading.{pair_at};
ghost use Rattle.snapshot.specs.Faults.{BeginsWithNone};

use cbor::{CborFault, Decode, Encode};
use std::alloc::{AllocError, Global};
use tx::{Input, Output};

/// How many bytes a part has at most: 1 MiB.
pub const PART_LIMIT: usize = 1 << 20;

/// How deep a pair nests at most.
const NESTING: usize = 6;

/// The pair whose text stands first, and the bytes after it.
#[tactic(auto, unfolding(crate::specs::Reading::pair_at, cbor::specs::Shapes::array_at, cbor::specs::Shapes::both_at))]
fn first_pair(alloc: Global, bytes: &[u8]) -> Result<(Input, Output, &[u8]), CborFault>
    ensures { Gives (λ x. ((input_of x.0, output_of x.1), x.2.now)) result (pair_at bytes.now) }
{
    let members = cbor::members(bytes, 2).ok_or(CborFault::Malformed)?;
    let (input, rest) = Input::decode(alloc, NESTING, members)?;
    let (output, rest) = Output::decode(alloc, NESTING, rest)?;
    Ok((input, output, rest))
}

/// The pair whose text stands first, and the bytes after it. Malformed where no pair's text stands there, OutOfMemory
/// where memory ran out before that was known. Linear in the bytes of the text.
pub fn read_pair(alloc: Global, bytes: &[u8]) -> Result<(Input, Output, &[u8]), CborFault>
    ensures text { IfOk result (λ x. bytes.now ≡ pair_text (input_of x.0, output_of x.1) ++ x.2.now) }
    ensures pair { IfOk result (λ x. IsPair (input_of x.0, output_of x.1)) }
    ensures none { IfErr result (λ fault. IfMalformed fault (BeginsWithNone bytes.now)) }
{
    first_pair(alloc, bytes)
}

/// What an input and an output say of themselves: their pair has a text. Takes no memory.
fn are_in_range(input: &Input, output: &Output)
    ensures { IsPair (input_of input.now, output_of output.now) }
{
    let _id = input.transaction;
    let _address = output.address.to_bytes();
    let _nesting = output.value.nesting();
}

/// Writes the input and the output after their number. At Err some of its bytes may stand there.
#[tactic(auto, unfolding(crate::specs::Snapshot::pair_text))]
fn write_members(out: &mut Vec<u8>, input: &Input, output: &Output) -> Result<(), AllocError>
    ensures ok { OnOk result (out.new.items ≡ out.old.items ++ pair_text (input_of input.now, output_of output.now)) }
    ensures keeps { Keeps out.old.items out.new.items }
    ensures full { OnErr result (vec_capacity out.old < vec_len out.old +
        length (pair_text (input_of input.now, output_of output.now))) }
    ensures capacity { vec_capacity out.old ≤ vec_capacity out.new }
{
    cbor::write_array(out, 2)?;
    input.write(out)?;
    output.write(out)
}

/// Puts the pair at the end of a part for which memory was taken, and answers whether it has room there. Where it has
/// none the part stays as it was. Linear in the pair's text.
pub fn put_pair(part: &mut Vec<u8>, input: &Input, output: &Output) -> bool
    requires { part_limit ≤ vec_capacity part.old }
    ensures room { OnTrue result (part.new.items ≡ part.old.items ++
        pair_text (input_of input.now, output_of output.now)) }
    ensures within { OnTrue result (length part.new.items ≤ part_limit) }
    ensures pair { IsPair (input_of input.now, output_of output.now) }
    ensures same { OnFalse result (part.new.items ≡ part.old.items) }
    ensures full { OnFalse result (part_limit < length part.old.items +
        length (pair_text (input_of input.now, output_of output.now))) }
    ensures capacity { vec_capacity part.old ≤ vec_capacity part.new }
{
    let start = part.len();
    are_in_range(input, output);
    let Ok(()) = write_members(part, input, output) else {
        part.truncate(start);
        return false;
    };
    if part.len() > PART_LIMIT {
        part.truncate(start);
        return false;
    }
    true
}
