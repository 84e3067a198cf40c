//! Writers of the entries of a witness set (RFC 8949, section 4.2.1): each puts its part at the end of a vector of
//! bytes, in time linear in what is written. Where memory runs out a part of it may stand there, and none fails where
//! the vector has room.

ghost use Rattle.std.specs.Prelude.{◌≡◌, ◌<◌, ◌≤◌, ◌+◌, ◌++◌, [], ◌∷◌, length, map, OnOk, OnErr, vec_capacity};
ghost use Rattle.model.specs.Cbor.{Unsigned, array_of, pairs_of, pairs_text};
ghost use Rattle.model.specs.Transaction.{unless_empty, item_of_witness};
ghost use Rattle.cbor.specs.Texts.{Keeps};
ghost use Rattle.tx.specs.View.{witness_of};
ghost use Rattle.tx.specs.WitnessesView.{signatures_item, scripts_item};

use crate::body_writer::write_items_field;
use crate::key_witness::KeyWitness;
use crate::keys::{SCRIPTS, SIGNATURES};
use std::alloc::AllocError;
use timelock::Script;

/// The signatures under their key.
#[tactic(auto, using(cbor::proofs::ForCallers::map_twice))]
fn write_all_signatures(out: &mut Vec<u8>, signatures: &[KeyWitness]) -> Result<(), AllocError>
    ensures ok { OnOk result (out.new.items ≡ out.old.items ++
        pairs_text (pairs_of ((Unsigned 0, array_of (map item_of_witness (map witness_of signatures.now))) ∷ []))) }
    ensures keeps { Keeps out.old.items out.new.items }
    ensures full { OnErr result (vec_capacity out.old < length out.old.items +
        length (pairs_text (pairs_of (
        (Unsigned 0, array_of (map item_of_witness (map witness_of signatures.now))) ∷ [])))) }
    ensures capacity { vec_capacity out.old ≤ vec_capacity out.new }
{
    write_items_field(out, SIGNATURES, signatures)
}

/// The signatures under their key, where there are some.
#[tactic(auto, using(crate::proofs::WitnessTexts::some_are_written))]
pub fn write_signatures_field(
    out: &mut Vec<u8>,
    signatures: &[KeyWitness],
) -> Result<(), AllocError>
    ensures ok { OnOk result (out.new.items ≡ out.old.items ++
        pairs_text (pairs_of (unless_empty 0 signatures_item (map witness_of signatures.now)))) }
    ensures keeps { Keeps out.old.items out.new.items }
    ensures full { OnErr result (vec_capacity out.old < length out.old.items +
        length (pairs_text (pairs_of (unless_empty 0 signatures_item (map witness_of signatures.now))))) }
    ensures capacity { vec_capacity out.old ≤ vec_capacity out.new }
{
    if signatures.is_empty() {
        return Ok(());
    }
    write_all_signatures(out, signatures)
}

/// The scripts under their key, where there are some.
pub fn write_scripts_field(out: &mut Vec<u8>, scripts: &[Script]) -> Result<(), AllocError>
    ensures ok { OnOk result (out.new.items ≡ out.old.items ++
        pairs_text (pairs_of (unless_empty 1 scripts_item scripts.now))) }
    ensures keeps { Keeps out.old.items out.new.items }
    ensures full { OnErr result (vec_capacity out.old < length out.old.items +
        length (pairs_text (pairs_of (unless_empty 1 scripts_item scripts.now)))) }
    ensures capacity { vec_capacity out.old ≤ vec_capacity out.new }
{
    if scripts.is_empty() {
        return Ok(());
    }
    cbor::write_unsigned(out, SCRIPTS)?;
    cbor::write_list_array(out, scripts)
}
