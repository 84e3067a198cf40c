//! Writers of the entries of a body (RFC 8949, section 4.2.1): each puts its part at the end of a vector of bytes, in
//! time linear in what is written. Where memory runs out a part of it may stand there, and none fails where the vector
//! has room.

ghost use Rattle.std.specs.Prelude.{◌≡◌, ◌<◌, ◌≤◌, ◌+◌, ◌++◌, [], ◌∷◌, length, map, OnOk, OnErr, vec_capacity};
ghost use Rattle.model.specs.Cbor.{Unsigned, text_of, array_of, pairs_of, pairs_text};
ghost use Rattle.model.specs.Value.{item_of_assets, item_of_number};
ghost use Rattle.model.specs.Transaction.{item_of_input, item_of_output, optional_entry, unless_empty};
ghost use Rattle.cbor.specs.Texts.{Keeps};
ghost use Rattle.tx.specs.View.{input_of, output_of};

use crate::input::Input;
use crate::keys::{INPUTS, MINT, OUTPUTS};
use crate::output::Output;
use cbor::Encode;
use std::alloc::AllocError;
use value::Mint;

/// A key, and the array of the items.
pub fn write_items_field<T: Encode>(
    out: &mut Vec<u8>,
    key: u64,
    items: &[T],
) -> Result<(), AllocError>
    ensures ok { OnOk result (out.new.items ≡ out.old.items ++
        pairs_text (pairs_of ((Unsigned key, array_of (map T.item_of items.now)) ∷ []))) }
    ensures keeps { Keeps out.old.items out.new.items }
    ensures full { OnErr result (vec_capacity out.old < length out.old.items +
        length (pairs_text (pairs_of ((Unsigned key, array_of (map T.item_of items.now)) ∷ [])))) }
    ensures capacity { vec_capacity out.old ≤ vec_capacity out.new }
{
    cbor::write_unsigned(out, key)?;
    cbor::write_list_array(out, items)
}

/// The inputs under their key.
#[tactic(auto, using(cbor::proofs::ForCallers::map_twice))]
pub fn write_inputs_field(out: &mut Vec<u8>, inputs: &[Input]) -> Result<(), AllocError>
    ensures ok { OnOk result (out.new.items ≡ out.old.items ++
        pairs_text (pairs_of ((Unsigned 0, array_of (map item_of_input (map input_of inputs.now))) ∷ []))) }
    ensures keeps { Keeps out.old.items out.new.items }
    ensures full { OnErr result (vec_capacity out.old < length out.old.items +
        length (pairs_text (pairs_of ((Unsigned 0, array_of (map item_of_input (map input_of inputs.now))) ∷ [])))) }
    ensures capacity { vec_capacity out.old ≤ vec_capacity out.new }
{
    write_items_field(out, INPUTS, inputs)
}

/// The outputs under their key.
#[tactic(auto, using(cbor::proofs::ForCallers::map_twice))]
pub fn write_outputs_field(out: &mut Vec<u8>, outputs: &[Output]) -> Result<(), AllocError>
    ensures ok { OnOk result (out.new.items ≡ out.old.items ++
        pairs_text (pairs_of ((Unsigned 1, array_of (map item_of_output (map output_of outputs.now))) ∷ []))) }
    ensures keeps { Keeps out.old.items out.new.items }
    ensures full { OnErr result (vec_capacity out.old < length out.old.items +
        length (pairs_text (pairs_of ((Unsigned 1, array_of (map item_of_output (map output_of outputs.now))) ∷ [])))) }
    ensures capacity { vec_capacity out.old ≤ vec_capacity out.new }
{
    write_items_field(out, OUTPUTS, outputs)
}

/// A key, and the number.
pub fn write_number_field(out: &mut Vec<u8>, key: u64, number: u64) -> Result<(), AllocError>
    ensures ok { OnOk result (out.new.items ≡ out.old.items ++
        pairs_text (pairs_of ((Unsigned key, Unsigned number) ∷ []))) }
    ensures keeps { Keeps out.old.items out.new.items }
    ensures full { OnErr result (vec_capacity out.old < length out.old.items +
        length (pairs_text (pairs_of ((Unsigned key, Unsigned number) ∷ [])))) }
    ensures capacity { vec_capacity out.old ≤ vec_capacity out.new }
{
    cbor::write_unsigned(out, key)?;
    cbor::write_unsigned(out, number)
}

/// A key and the number, where there is one.
pub fn write_optional_field(
    out: &mut Vec<u8>,
    key: u64,
    number: Option<u64>,
) -> Result<(), AllocError>
    ensures ok { OnOk result (out.new.items ≡ out.old.items ++ pairs_text (pairs_of (optional_entry key number))) }
    ensures keeps { Keeps out.old.items out.new.items }
    ensures full { OnErr result (vec_capacity out.old < length out.old.items +
        length (pairs_text (pairs_of (optional_entry key number)))) }
    ensures capacity { vec_capacity out.old ≤ vec_capacity out.new }
{
    match number {
        Some(number) => write_number_field(out, key, number),
        None => Ok(()),
    }
}

/// What is minted, where it is not nothing.
pub fn write_minted_field(out: &mut Vec<u8>, mint: &Mint) -> Result<(), AllocError>
    ensures ok { OnOk result (out.new.items ≡ out.old.items ++
        pairs_text (pairs_of (unless_empty 9 (item_of_assets item_of_number) mint.now))) }
    ensures keeps { Keeps out.old.items out.new.items }
    ensures full { OnErr result (vec_capacity out.old < length out.old.items +
        length (pairs_text (pairs_of (unless_empty 9 (item_of_assets item_of_number) mint.now)))) }
    ensures capacity { vec_capacity out.old ≤ vec_capacity out.new }
{
    if mint.policies().is_empty() {
        return Ok(());
    }
    cbor::write_unsigned(out, MINT)?;
    mint.write(out)
}
