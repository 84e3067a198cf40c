//! How what a transaction changed is undone.

ghost use Rattle.std.specs.Prelude.{◌≡◌, ◌≤◌, true, IfOk, OnOk, OnErr};
ghost use Rattle.model.specs.Limits.{output_limit};
ghost use Rattle.model.specs.Transaction.{Transaction};
ghost use Rattle.model.specs.Utxo.{Utxo, utxo_after, without, with_pairs};
ghost use Rattle.model.specs.Rules.{has_free_places};
ghost use Rattle.utxo_rules.specs.Diffs.{places_from, diff_of, undone};

use crate::diff::Diff;
use crate::entry::Pair;
use crate::utxo::Utxo;
use ident::TxId;
use std::alloc::AllocError;
use std::sync::Arc;
use tx::Input;

/// Takes out what stands at `count` places of the transaction with this identifier, counted from 0 on.
fn take_places(utxo: &mut Utxo, id: TxId, count: usize) -> Result<(), AllocError>
    requires { count ≤ output_limit }
    ensures { OnOk result (utxo.new ≡ without (places_from id.bytes 0 count) utxo.old) }
{
    for index in 0..count {
        let input = Input {
            transaction: id,
            index: index as u16,
        };
        utxo.remove(&input)?;
    }
    Ok(())
}

/// Puts these pairs in.
fn put_all(utxo: &mut Utxo, pairs: &[Pair]) -> Result<(), AllocError>
    ensures { OnOk result (utxo.new ≡ with_pairs pairs.now utxo.old) }
{
    for pair in pairs {
        utxo.put(pair.place, Arc::try_clone(&pair.unspent)?)?;
    }
    Ok(())
}

/// The unspent outputs before a transaction: without the places that the difference made, and with the pairs that it
/// spent. Err where memory runs out: the outputs are gone with the call. Takes one look-up for each input and each
/// output of the transaction, and memory for a copy of each node on the way that another version shares: the outputs
/// themselves are shared.
pub fn undone(utxo: Utxo, diff: &Diff) -> Result<Utxo, AllocError>
    ensures ok { IfOk result (λ before. before ≡ undone diff.now utxo) }
    // Where no output stood at a place of the transaction, these are the outputs that it was applied to.
    ensures back { IfOk result (λ before. (old : Utxo) (t : Transaction) →
        diff.now ≡ diff_of old t → utxo ≡ utxo_after old t → has_free_places old t ≡ true → before ≡ old) }
{
    let mut before = utxo;
    take_places(&mut before, diff.id, diff.count)?;
    put_all(&mut before, &diff.spent)?;
    Ok(before)
}

/// The same in place. Err where memory runs out: nothing changes.
pub fn undo(utxo: &mut Utxo, diff: &Diff) -> Result<(), AllocError>
    ensures ok { OnOk result (utxo.new ≡ undone diff.now utxo.old) }
    ensures err { OnErr result (utxo.new ≡ utxo.old) }
    // Where no output stood at a place of the transaction, these are the outputs that it was applied to.
    ensures back { OnOk result ((old : Utxo) (t : Transaction) →
        diff.now ≡ diff_of old t → utxo.old ≡ utxo_after old t → has_free_places old t ≡ true → utxo.new ≡ old) }
{
    *utxo = undone(utxo.try_clone()?, diff)?;
    Ok(())
}
