//! The lists of a transaction (RFC 8949, section 4.2.1): from a slice to what stands first and the bytes after it.

ghost use Rattle.std.specs.Prelude.{◌≡◌, [], map, IfErr};
ghost use Rattle.model.specs.Transaction.{input_cmp, witness_cmp, script_cmp};
ghost use Rattle.cbor.specs.Gives.{Gives, GivesNo, IfWant};
ghost use Rattle.tx.specs.Rising.{rises_by};
ghost use Rattle.tx.specs.Reading.{inputs_at, outputs_at, signatures_at};
ghost use Rattle.tx.specs.TransactionReading.{scripts_at};
ghost use Rattle.tx.specs.View.{input_of, output_of, witness_of};

use crate::input::Input;
use crate::key_witness::KeyWitness;
use crate::output::Output;
use cbor::CborFault;
use std::alloc::Global;
use timelock::Script;

/// How many outputs a transaction has at most: the index of an input has 16 bits.
pub const MAX_OUTPUTS: usize = 1 << 16;

/// How deep inputs, outputs and signatures nest at most: assets in the value of an output.
const NESTING: usize = 5;

/// Whether each input stands before the next.
fn inputs_rise(inputs: &[Input]) -> bool
    ensures { result ≡ rises_by input_cmp (map input_of inputs.now) }
{
    inputs.is_sorted_by(|a, b| a.cmp(b).is_lt())
}

/// Whether the key of each signature stands before the next one's.
fn keys_rise(signatures: &[KeyWitness]) -> bool
    ensures { result ≡ rises_by witness_cmp (map witness_of signatures.now) }
{
    signatures.is_sorted_by(|a, b| a.key.cmp(&b.key).is_lt())
}

/// The inputs of a body, maybe none, in strictly rising order. Where there is none no memory is asked for.
#[tactic(auto, unfolding(crate::specs::Reading::inputs_at, cbor::specs::Shapes::such_at))]
pub fn read_inputs(alloc: Global, bytes: &[u8]) -> Result<(Vec<Input>, &[u8]), CborFault>
    ensures exact { Gives (λ x. (map input_of x.0.items, x.1.now)) result (inputs_at bytes.now) }
    ensures want { IfErr result (λ fault. IfWant fault (GivesNo (λ x. x.0 ≡ []) (inputs_at bytes.now))) }
{
    let (inputs, rest) = cbor::list_array::<Input>(alloc, NESTING, bytes)?;
    if !inputs_rise(&inputs) {
        return Err(CborFault::Malformed);
    }
    Ok((inputs, rest))
}

/// The outputs of a body, maybe none, and at most 65,536. Where there is none no memory is asked for.
#[tactic(auto, unfolding(crate::specs::Reading::outputs_at, cbor::specs::Shapes::such_at))]
pub fn read_outputs(alloc: Global, bytes: &[u8]) -> Result<(Vec<Output>, &[u8]), CborFault>
    ensures exact { Gives (λ x. (map output_of x.0.items, x.1.now)) result (outputs_at bytes.now) }
    ensures want { IfErr result (λ fault. IfWant fault (GivesNo (λ x. x.0 ≡ []) (outputs_at bytes.now))) }
{
    let (outputs, rest) = cbor::list_array::<Output>(alloc, NESTING, bytes)?;
    if outputs.len() > MAX_OUTPUTS {
        return Err(CborFault::Malformed);
    }
    Ok((outputs, rest))
}

/// The signatures of a transaction, one at least, whose keys rise strictly.
#[tactic(auto, unfolding(crate::specs::Reading::signatures_at, cbor::specs::Shapes::such_at, cbor::specs::Shapes::nonempty_at))]
pub fn read_signatures(alloc: Global, bytes: &[u8]) -> Result<(Vec<KeyWitness>, &[u8]), CborFault>
    ensures { Gives (λ x. (map witness_of x.0.items, x.1.now)) result (signatures_at bytes.now) }
{
    let (signatures, rest) = cbor::list_array::<KeyWitness>(alloc, NESTING, bytes)?;
    if signatures.is_empty() {
        return Err(CborFault::Malformed);
    }
    if !keys_rise(&signatures) {
        return Err(CborFault::Malformed);
    }
    Ok((signatures, rest))
}

/// Whether the hash of each script stands before the next one's.
fn hashes_rise(scripts: &[Script]) -> bool
    ensures { result ≡ rises_by script_cmp scripts.now }
{
    scripts.is_sorted_by(|a, b| a.hash().cmp(&b.hash()).is_lt())
}

/// The scripts of a transaction, one at least, whose hashes rise strictly, and which nest at most `depth` deep.
#[tactic(auto, using(crate::proofs::Rising::same_list), unfolding(crate::specs::TransactionReading::scripts_at, cbor::specs::Shapes::such_at, cbor::specs::Shapes::nonempty_at))]
pub fn read_scripts(
    alloc: Global,
    depth: usize,
    bytes: &[u8],
) -> Result<(Vec<Script>, &[u8]), CborFault>
    ensures { Gives (λ x. (x.0.items, x.1.now)) result (scripts_at depth bytes.now) }
{
    let (scripts, rest) = cbor::list_array::<Script>(alloc, depth, bytes)?;
    if scripts.is_empty() {
        return Err(CborFault::Malformed);
    }
    if !hashes_rise(&scripts) {
        return Err(CborFault::Malformed);
    }
    Ok((scripts, rest))
}
