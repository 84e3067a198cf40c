//! How deep the lists of a transaction's parts nest (RFC 8949, items in one another). No memory is taken.

ghost use Rattle.std.specs.Prelude.{◌≡◌, ◌≤◌, map};
ghost use Rattle.std.specs.List.{AllByRecursion};
ghost use Rattle.model.specs.Limits.{nesting_limit};
ghost use Rattle.model.specs.Cbor.{nesting, items_nesting, items_of};
ghost use Rattle.model.specs.Script.{item_of_script};
ghost use Rattle.model.specs.Transaction.{item_of_input, item_of_output};
ghost use Rattle.tx.specs.Said.{IsSaidOutput, IsSaidScript};
ghost use Rattle.tx.specs.View.{input_of, output_of};

use crate::input::Input;
use crate::output::Output;
use timelock::Script;

/// How deep the scripts of a transaction nest at most: they stand three deep in it, and items nest at most 64 deep.
pub const MAX_SCRIPT_NESTING: usize = 61;

/// How deep a transaction of a block nests at most: it stands two deep in it, and items nest at most 64 deep.
pub const MAX_TX_NESTING: usize = 62;

/// How deep an input nests: an array of a byte string and a number.
const INPUT_NESTING: usize = 2;

/// How deep the deepest of the inputs nests, or 0 where there is none.
pub fn inputs_nesting(inputs: &[Input]) -> usize
    ensures deep { result ≡ items_nesting (items_of (map item_of_input (map input_of inputs.now))) }
    ensures within { result ≤ 2 }
{
    if inputs.is_empty() {
        return 0;
    }
    INPUT_NESTING
}

/// How deep the deepest of the outputs nests, or 0 where there is none. Linear in the outputs.
pub fn outputs_nesting(outputs: &[Output]) -> usize
    ensures deep { result ≡ items_nesting (items_of (map item_of_output (map output_of outputs.now))) }
    ensures within { result ≤ 5 }
    ensures said { AllByRecursion IsSaidOutput (map output_of outputs.now) }
{
    let mut deepest: usize = 0;
    for output in outputs {
        deepest = deepest.max(1 + output.value.nesting());
    }
    deepest
}

/// How deep the deepest of the scripts nests, or 0 where there is none. Linear in the scripts with all that stands in
/// them.
pub fn scripts_nesting(scripts: &[Script]) -> usize
    ensures deep { result ≡ items_nesting (items_of (map item_of_script scripts.now)) }
    ensures within { result ≤ nesting_limit }
    ensures said { AllByRecursion IsSaidScript scripts.now }
{
    let mut deepest: usize = 0;
    for script in scripts {
        deepest = deepest.max(script.nesting());
    }
    deepest
}
