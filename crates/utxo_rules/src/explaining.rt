//! Why a transaction is refused, and what it is about.

ghost use Rattle.std.specs.Prelude.{◌≡◌, ◌<◌, ◌≤◌, ℕ, Some, IfOk, OnErr, MatchOption};
ghost use Rattle.std.specs.Option.{option_map};
ghost use Rattle.model.specs.Rules as rules;
ghost use Rattle.model.specs.Rules.{reason_number};
ghost use Rattle.model.specs.Signature.{Verifies};
ghost use Rattle.utxo_rules.specs.View.{params_of, reason_of};
ghost use Rattle.utxo_rules.specs.Check.{PassesEarly};
ghost use Rattle.model.specs.Explaining as model;
ghost use Rattle.model.specs.Explaining.{IsDetail, Explains};
ghost use Rattle.utxo_rules.specs.DetailView.{detail_of, FindsDetail};

use crate::check_fault::CheckFault;
use crate::detail::Detail;
use crate::first_witnesses::{
    bad_signature, extra_script, failing_script, missing_key, missing_script,
};
use crate::firsts::{
    foreign_output, missing_input, outside_interval, small_fee, small_output, taken_place, too_big,
};
use crate::imbalance::imbalance;
use crate::params::Params;
use crate::reason::Reason;
use crate::rules::{check_early, check_late};
use crate::utxo::Utxo;
use std::alloc::{AllocError, Global};
use tx::Tx;
use witness_pool::{CheckedTx, SigScheme};

/// What one of the reasons 1 to 7 is about, where its condition fails. Takes no memory.
fn early_detail(params: &Params, slot: u64, utxo: &Utxo, tx: &Tx, reason: Reason) -> Option<Detail>
    requires { reason_number (reason_of reason) < 8 }
    ensures { (verifies : Verifies) → FindsDetail verifies (params_of params.now) utxo.now slot tx.now
        (reason_of reason) (option_map detail_of result) }
{
    match reason {
        Reason::OutsideInterval => outside_interval(slot, tx),
        Reason::NoInputs => Some(Detail::NoInputs),
        Reason::TooBig => too_big(params, tx),
        Reason::FeeTooSmall => small_fee(params, tx),
        Reason::MissingInput => missing_input(utxo, tx),
        Reason::OutputTooSmall => small_output(params, slot, tx),
        Reason::WrongNetwork => foreign_output(params, tx),
        Reason::NotBalanced
        | Reason::OutputExists
        | Reason::BadSignature
        | Reason::MissingKeyWitness
        | Reason::MissingScript
        | Reason::ExtraScript
        | Reason::ScriptFails => None,
    }
}

/// What one of the reasons 8 to 14 is about, where its condition fails.
fn late_detail<S: SigScheme>(
    alloc: Global,
    utxo: &Utxo,
    checked: &CheckedTx<S>,
    reason: Reason,
) -> Result<Option<Detail>, AllocError>
    ensures { IfOk result (λ found. (params : rules.Params) (slot : ℕ) →
        PassesEarly S.verifies params utxo.now slot checked.now →
        FindsDetail S.verifies params utxo.now slot checked.now (reason_of reason) (option_map detail_of found)) }
{
    let tx = checked.tx();
    match reason {
        Reason::NotBalanced => imbalance(alloc, utxo, tx),
        Reason::OutputExists => Ok(taken_place(utxo, tx)),
        Reason::BadSignature => Ok(bad_signature(checked)),
        Reason::MissingKeyWitness => missing_key(alloc, utxo, checked),
        Reason::MissingScript => missing_script(alloc, utxo, checked),
        Reason::ExtraScript => extra_script(alloc, utxo, checked),
        Reason::ScriptFails => Ok(failing_script(checked)),
        Reason::OutsideInterval
        | Reason::NoInputs
        | Reason::TooBig
        | Reason::FeeTooSmall
        | Reason::MissingInput
        | Reason::OutputTooSmall
        | Reason::WrongNetwork => Ok(None),
    }
}

/// The first of the reasons 1 to 7 against a transaction at a slot and on a UTXO with what it is about, or None where
/// there is none of these. It is [`check_early`], and then a search for the first thing that breaks the condition of
/// the reason that it told. Takes no memory, and of the signatures nothing but their places in the bytes is looked at,
/// so it is for what hasn't been verified yet; [`explain_late`] is the rest.
pub fn explain_early(params: &Params, slot: u64, utxo: &Utxo, tx: &Tx) -> Option<Detail>
    ensures { MatchOption result
        ((verifies : Verifies) → PassesEarly verifies (params_of params.now) utxo.now slot tx.now)
        (λ detail. (verifies : Verifies) →
        IsDetail verifies (params_of params.now) utxo.now slot tx.now (detail_of detail)) }
{
    match check_early(params, utxo, slot, tx) {
        Ok(()) => None,
        Err(reason) => early_detail(params, slot, utxo, tx, reason),
    }
}

/// For a transaction against which [`explain_early`] finds nothing on this UTXO: the first of the reasons 8 to 14 with
/// what it is about, or None where none of them applies. It is [`check_late`], and then a search for what breaks the
/// condition of the reason that it told. Err where memory ran out. It costs what `check_late` does and one pass more
/// over what the condition looks at: the sums are made twice more where a transaction isn't balanced, and where a
/// signature isn't good those before it are verified once more.
pub fn explain_late<S: SigScheme>(
    alloc: Global,
    utxo: &Utxo,
    checked: &CheckedTx<S>,
) -> Result<Option<Detail>, AllocError>
    // Whatever the parameters and the slot are at which none of the first seven is there.
    ensures { IfOk result (λ told. (params : rules.Params) (slot : ℕ) →
        PassesEarly S.verifies params utxo.now slot checked.now →
        Explains S.verifies params utxo.now slot checked.now (option_map detail_of told)) }
{
    match check_late(alloc, utxo, checked) {
        Ok(()) => Ok(None),
        Err(CheckFault::Refused(reason)) => late_detail(alloc, utxo, checked, reason),
        Err(CheckFault::OutOfMemory) => Err(AllocError),
    }
}

/// The reason against a transaction at a slot and on a UTXO with what it is about, or None where there is none. It is
/// [`explain_early`] with [`explain_late`] after it, and costs what they cost. Err where memory ran out, which it does
/// only where none of the reasons 1 to 7 applies.
///
/// ```text
/// match explain(alloc, &params, slot, &utxo, &tx)? {
///     None => apply(&mut utxo, tx.tx())?,
///     Some(detail) => println!(rt; "{detail}")?, // output 2 holds 800, where the least is 1000
/// }
/// ```
pub fn explain<S: SigScheme>(
    alloc: Global,
    params: &Params,
    slot: u64,
    utxo: &Utxo,
    checked: &CheckedTx<S>,
) -> Result<Option<Detail>, AllocError>
    ensures told { IfOk result (λ told.
        Explains S.verifies (params_of params.now) utxo.now slot checked.now (option_map detail_of told)) }
    // So there is no other detail.
    ensures only { IfOk result (λ told. (detail : model.Detail) →
        IsDetail S.verifies (params_of params.now) utxo.now slot checked.now detail →
        option_map detail_of told ≡ Some detail) }
    ensures want { OnErr result (PassesEarly S.verifies (params_of params.now) utxo.now slot checked.now) }
{
    match explain_early(params, slot, utxo, checked.tx()) {
        Some(detail) => Ok(Some(detail)),
        None => explain_late(alloc, utxo, checked),
    }
}
