//! What a transaction makes of the unspent outputs.

ghost use Rattle.std.specs.Prelude.{◌≡◌, ◌≤◌, ◌+◌, ℕ, map, length, None, IfOk, OnOk, OnErr};
ghost use Rattle.model.specs.Limits.{output_limit};
ghost use Rattle.model.specs.Signature.{Verifies};
ghost use Rattle.model.specs.Utxo.{utxo_after, without, with_pairs, pairs_from, outputs_of, coin_of};
ghost use Rattle.model.specs.Rules as rules;
ghost use Rattle.model.specs.Rules.{reason_against};
ghost use Rattle.std.specs.List.Sorted.{IsStrictlySortedBy};
ghost use Rattle.model.specs.Transaction.{input_cmp};
ghost use Rattle.tx.specs.View.{input_of, output_of};
ghost use Rattle.utxo_rules.specs.Diffs.{pairs_at, diff_of};

use crate::diff::Diff;
use crate::entry::Pair;
use crate::utxo::Utxo;
use ident::TxId;
use std::alloc::AllocError;
use tx::{Input, Output, Tx};

/// Takes out what these inputs spend.
fn spend(utxo: &mut Utxo, inputs: &[Input]) -> Result<(), AllocError>
    ensures { OnOk result (utxo.new ≡ without (map input_of inputs.now) utxo.old) }
{
    for input in inputs {
        utxo.remove(input)?;
    }
    Ok(())
}

/// Takes out what these inputs spend, and answers the pairs.
fn take_all(utxo: &mut Utxo, inputs: &[Input]) -> Result<Vec<Pair>, AllocError>
    requires { IsStrictlySortedBy input_cmp (map input_of inputs.now) }
    ensures after { OnOk result (utxo.new ≡ without (map input_of inputs.now) utxo.old) }
    ensures taken { IfOk result (λ taken. taken.items ≡ pairs_at utxo.old (map input_of inputs.now)) }
{
    let mut taken = utxo.no_pairs();
    for input in inputs {
        if let Some(pair) = utxo.take(input)? {
            taken.push(pair)?;
        }
    }
    Ok(taken)
}

/// Puts in the outputs of the transaction with this identifier, counted from 0 on.
fn place(utxo: &mut Utxo, id: TxId, outputs: &[Output]) -> Result<(), AllocError>
    requires { length outputs.now ≤ output_limit }
    ensures { OnOk result (utxo.new ≡ with_pairs (pairs_from id.bytes 0 (map output_of outputs.now)) utxo.old) }
{
    for (index, output) in outputs.iter().enumerate() {
        let input = Input {
            transaction: id,
            index: index as u16,
        };
        utxo.insert(&input, output.try_clone()?)?;
    }
    Ok(())
}

/// What the transaction makes of the unspent outputs: without what it spends, and with its own outputs (Shelley, UTxO
/// transitions). It is not judged. Err where memory runs out: the outputs are gone with the call, so that nobody sees
/// them half changed. Takes one look-up for each input and each output, and memory for the outputs and for a copy of
/// each node on the way that another version shares; the others are changed in place.
pub fn applied(utxo: Utxo, tx: &Tx) -> Result<Utxo, AllocError>
    ensures ok { IfOk result (λ after. after ≡ utxo_after utxo tx.now) }
    // No ada is made or lost by a transaction that the rules let through.
    ensures conserves { IfOk result (λ after. (verifies : Verifies) (params : rules.Params) (slot : ℕ) →
        reason_against verifies params utxo slot tx.now ≡ None →
        coin_of (outputs_of after) + tx.now.fee ≡ coin_of (outputs_of utxo)) }
{
    let mut after = utxo;
    spend(&mut after, tx.inputs())?;
    place(&mut after, tx.id(), tx.outputs())?;
    Ok(after)
}

/// Takes out what the transaction spends, and puts in its own outputs, as [`applied`] does. It is not judged. Err where
/// memory runs out: nothing changes. So the nodes on the way to each are copied: where many transactions follow one
/// another, a copy of the whole first and then [`applied`] takes less.
pub fn apply(utxo: &mut Utxo, tx: &Tx) -> Result<(), AllocError>
    ensures ok { OnOk result (utxo.new ≡ utxo_after utxo.old tx.now) }
    ensures err { OnErr result (utxo.new ≡ utxo.old) }
    // No ada is made or lost by a transaction that the rules let through.
    ensures conserves { OnOk result ((verifies : Verifies) (params : rules.Params) (slot : ℕ) →
        reason_against verifies params utxo.old slot tx.now ≡ None →
        coin_of (outputs_of utxo.new) + tx.now.fee ≡ coin_of (outputs_of utxo.old)) }
{
    *utxo = applied(utxo.try_clone()?, tx)?;
    Ok(())
}

/// The same as [`applied`], with what changed.
pub fn applied_diff(utxo: Utxo, tx: &Tx) -> Result<(Utxo, Diff), AllocError>
    ensures after { IfOk result (λ made. made.0 ≡ utxo_after utxo tx.now) }
    ensures diff { IfOk result (λ made. made.1 ≡ diff_of utxo tx.now) }
    // No ada is made or lost by a transaction that the rules let through.
    ensures conserves { IfOk result (λ made. (verifies : Verifies) (params : rules.Params) (slot : ℕ) →
        reason_against verifies params utxo slot tx.now ≡ None →
        coin_of (outputs_of made.0) + tx.now.fee ≡ coin_of (outputs_of utxo)) }
{
    let id = tx.id();
    let mut after = utxo;
    let spent = take_all(&mut after, tx.inputs())?;
    place(&mut after, id, tx.outputs())?;
    let diff = Diff {
        spent,
        id,
        count: tx.outputs().len(),
        fee: tx.fee(),
    };
    Ok((after, diff))
}

/// The same as [`apply`], and answers what changed.
pub fn apply_diff(utxo: &mut Utxo, tx: &Tx) -> Result<Diff, AllocError>
    ensures ok { OnOk result (utxo.new ≡ utxo_after utxo.old tx.now) }
    ensures diff { IfOk result (λ diff. diff ≡ diff_of utxo.old tx.now) }
    ensures err { OnErr result (utxo.new ≡ utxo.old) }
    // No ada is made or lost by a transaction that the rules let through.
    ensures conserves { OnOk result ((verifies : Verifies) (params : rules.Params) (slot : ℕ) →
        reason_against verifies params utxo.old slot tx.now ≡ None →
        coin_of (outputs_of utxo.new) + tx.now.fee ≡ coin_of (outputs_of utxo.old)) }
{
    let (after, diff) = applied_diff(utxo.try_clone()?, tx)?;
    *utxo = after;
    Ok(diff)
}
