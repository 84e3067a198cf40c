//! Copies of the parts of a transaction that own memory.

ghost use Rattle.std.specs.Prelude.{◌≡◌, map, IfOk};
ghost use Rattle.tx.specs.View.{output_of};
ghost use Rattle.tx.specs.BodyView.{body_of};
ghost use Rattle.tx.specs.WitnessesView.{witnesses_of};

use crate::body::Body;
use crate::output::Output;
use crate::witnesses::Witnesses;
use std::alloc::{AllocError, Global};
use timelock::Script;

/// The same outputs once more, for those who make a transaction of them and keep them. Err where memory runs out. Takes
/// an allocation for all of them, and those of each one's assets.
pub fn clone_outputs(alloc: Global, outputs: &[Output]) -> Result<Vec<Output>, AllocError>
    ensures { IfOk result (λ copies. map output_of copies.items ≡ map output_of outputs.now) }
{
    let mut copies = Vec::with_capacity(alloc, outputs.len())?;
    for output in outputs {
        let copy = output.try_clone()?;
        copies.push(copy)?;
    }
    Ok(copies)
}

/// The same scripts once more, whose hashes are not computed again.
fn clone_scripts(alloc: Global, scripts: &[Script]) -> Result<Vec<Script>, AllocError>
    ensures { IfOk result (λ copies. map (λ s. s) copies.items ≡ map (λ s. s) scripts.now) }
{
    let mut copies = Vec::with_capacity(alloc, scripts.len())?;
    for script in scripts {
        copies.push(script.try_clone()?)?;
    }
    Ok(copies)
}

/// The same body once more.
pub fn clone_body(alloc: Global, body: &Body) -> Result<Body, AllocError>
    ensures { IfOk result (λ copy. body_of copy ≡ body_of body.now) }
{
    Ok(Body {
        inputs: Vec::from_slice(alloc, &body.inputs)?,
        outputs: clone_outputs(alloc, &body.outputs)?,
        fee: body.fee,
        end: body.end,
        start: body.start,
        mint: body.mint.try_clone()?,
    })
}

/// The same witnesses once more.
#[tactic(auto, using(crate::proofs::Rising::same_list))]
pub fn clone_witnesses(alloc: Global, witnesses: &Witnesses) -> Result<Witnesses, AllocError>
    ensures { IfOk result (λ copy. witnesses_of copy ≡ witnesses_of witnesses.now) }
{
    Ok(Witnesses {
        signatures: Vec::from_slice(alloc, &witnesses.signatures)?,
        scripts: clone_scripts(alloc, &witnesses.scripts)?,
    })
}
