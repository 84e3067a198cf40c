//! The rules of a transaction.

ghost use Rattle.std.specs.Prelude.{◌≡◌, ◌<◌, ℕ, Some, None, OnOk, IfErr};
ghost use Rattle.model.specs.Signature.{Verifies};
ghost use Rattle.model.specs.Rules as model;
ghost use Rattle.model.specs.Rules.{passes, first_failing, reason_against, reason_number};
ghost use Rattle.utxo_rules.specs.View.{params_of, reason_of};
ghost use Rattle.utxo_rules.specs.Check.{reason_of_result, early_reasons, first_of_witnesses, first_of_spending};
ghost use Rattle.utxo_rules.specs.Check.{IsFirstOf, IsCheckFault, PassesEarly};

use crate::balance::is_balanced;
use crate::check_fault::CheckFault;
use crate::conditions::{
    are_on_network, are_unspent, has_free_places, hold_at_least, is_in_interval, pays_fee,
};
use crate::params::Params;
use crate::reason::Reason;
use crate::spent::Spent;
use crate::utxo::Utxo;
use crate::witnesses::{are_needed, are_supplied, have_signed, with_policies};
use std::alloc::Global;
use tx::Tx;
use witness_pool::{CheckedTx, SigScheme};

/// The first of the reasons 1 to 7 that there is. Takes no memory.
#[tactic(auto, unfolding(model::specs::Rules::first_failing))]
fn check_parts(params: &Params, utxo: &Utxo, slot: u64, tx: &Tx) -> Result<(), Reason>
    ensures first { (verifies : Verifies) → reason_of_result result ≡
        first_failing (passes verifies (params_of params.now) utxo.now slot tx.now) early_reasons }
{
    if !is_in_interval(slot, tx.interval()) {
        return Err(Reason::OutsideInterval);
    }
    if tx.inputs().is_empty() {
        return Err(Reason::NoInputs);
    }
    if tx.size() > u64::from(params.max_tx_size) {
        return Err(Reason::TooBig);
    }
    if !pays_fee(params, tx) {
        return Err(Reason::FeeTooSmall);
    }
    if !are_unspent(utxo, tx.inputs()) {
        return Err(Reason::MissingInput);
    }
    if !hold_at_least(params.era_at(slot), tx.outputs()) {
        return Err(Reason::OutputTooSmall);
    }
    if !are_on_network(params.network, tx.outputs()) {
        return Err(Reason::WrongNetwork);
    }
    Ok(())
}

/// The first of the reasons 10 to 14 that there is, where these keys and scripts are needed.
#[tactic(auto, unfolding(crate::specs::Check::first_of_witnesses))]
fn check_witnesses<S: SigScheme>(
    alloc: Global,
    keys: &[[u8; 32]],
    scripts: Vec<[u8; 32]>,
    checked: &CheckedTx<S>,
) -> Result<(), CheckFault>
    ensures { IsFirstOf (first_of_witnesses S.verifies keys.now scripts.items checked.now) result }
{
    let tx = checked.tx();
    if !checked.is_signed() {
        return Err(CheckFault::Refused(Reason::BadSignature));
    }
    if !have_signed(alloc, keys, checked.keys())? {
        return Err(CheckFault::Refused(Reason::MissingKeyWitness));
    }
    if !are_supplied(alloc, &scripts, tx.scripts())? {
        return Err(CheckFault::Refused(Reason::MissingScript));
    }
    if !are_needed(scripts, tx.scripts()) {
        return Err(CheckFault::Refused(Reason::ExtraScript));
    }
    if !checked.scripts_hold() {
        return Err(CheckFault::Refused(Reason::ScriptFails));
    }
    Ok(())
}

/// The first of the reasons 8 to 14 that there is.
fn check_spending<S: SigScheme>(
    alloc: Global,
    utxo: &Utxo,
    checked: &CheckedTx<S>,
) -> Result<(), CheckFault>
    ensures { IsFirstOf (first_of_spending S.verifies utxo.now checked.now) result }
{
    let tx = checked.tx();
    let spent = Spent::by(alloc, utxo, tx.inputs())?;
    let balanced = is_balanced(alloc, spent.totals, tx)?;
    if !balanced {
        return Err(CheckFault::Refused(Reason::NotBalanced));
    }
    if !has_free_places(utxo, tx) {
        return Err(CheckFault::Refused(Reason::OutputExists));
    }
    let scripts = with_policies(spent.scripts, tx.mint())?;
    check_witnesses(alloc, &spent.keys, scripts, checked)
}

/// The first of the reasons 1 to 7 against a transaction at a slot and on a UTXO, if there is one: the part of
/// [`check`] that asks neither for sums nor for signatures and scripts, so that whoever has a transaction without its
/// verdicts needs none where it is refused here. Takes no memory, and one look-up in the UTXO for each input.
pub fn check_early(params: &Params, utxo: &Utxo, slot: u64, tx: &Tx) -> Result<(), Reason>
    ensures refused { IfErr result (λ reason. (verifies : Verifies) →
        reason_against verifies (params_of params.now) utxo.now slot tx.now ≡ Some (reason_of reason)) }
    ensures early { IfErr result (λ reason. reason_number (reason_of reason) < 8) }
    ensures passed { OnOk result ((verifies : Verifies) →
        PassesEarly verifies (params_of params.now) utxo.now slot tx.now) }
{
    check_parts(params, utxo, slot, tx)
}

/// The first of the reasons 8 to 14 against a transaction that [`check_early`] let pass on this UTXO, if there is one:
/// the rest of [`check`]. OutOfMemory where memory ran out before that was known. Takes a look-up in the UTXO for each
/// input and one for each output; its own memory is linear in the assets and the hashes that it adds up and looks up,
/// and none of them is copied more than once.
pub fn check_late<S: SigScheme>(
    alloc: Global,
    utxo: &Utxo,
    checked: &CheckedTx<S>,
) -> Result<(), CheckFault>
    // Whatever the parameters and the slot are at which the first seven let it pass.
    ensures accepted { OnOk result ((params : model.Params) (slot : ℕ) →
        PassesEarly S.verifies params utxo.now slot checked.now →
        reason_against S.verifies params utxo.now slot checked.now ≡ None) }
    ensures refused { IfErr result (λ fault. (params : model.Params) (slot : ℕ) →
        PassesEarly S.verifies params utxo.now slot checked.now →
        IsCheckFault S.verifies params utxo.now slot checked.now fault) }
{
    check_spending(alloc, utxo, checked)
}

/// Judges a transaction at a slot and on a UTXO (Shelley and Shelley-MA, UTXO and UTXOW; the order of the reasons is
/// this project's own). Ok where there is no reason against it, and else the first. OutOfMemory where memory ran out
/// before that was known, which it does only where none of the reasons 1 to 7 applies. It is [`check_early`] with
/// [`check_late`] after it, and costs what they cost.
///
/// ```text
/// match check(alloc, &params, &utxo, slot, &tx) {
///     Ok(()) => apply(&mut utxo, tx.tx())?,
///     Err(fault) => println!(rt; "{fault}")?,
/// }
/// ```
pub fn check<S: SigScheme>(
    alloc: Global,
    params: &Params,
    utxo: &Utxo,
    slot: u64,
    checked: &CheckedTx<S>,
) -> Result<(), CheckFault>
    ensures accepted { OnOk result (
        reason_against S.verifies (params_of params.now) utxo.now slot checked.now ≡ None) }
    ensures refused { IfErr result (IsCheckFault S.verifies (params_of params.now) utxo.now slot checked.now) }
{
    check_early(params, utxo, slot, checked.tx())?;
    check_late(alloc, utxo, checked)
}
