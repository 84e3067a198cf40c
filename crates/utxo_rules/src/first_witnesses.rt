//! The first signature, key or script that breaks a condition: reasons 10 to 14.

ghost use Rattle.std.specs.Prelude.{◌≡◌, map, ℕ, IfOk};
ghost use Rattle.std.specs.Option.{option_map};
ghost use Rattle.model.specs.Script.{script_hash_of};
ghost use Rattle.model.specs.Utxo as model;
ghost use Rattle.model.specs.Rules as rules;
ghost use Rattle.model.specs.Rules.{is_among, BadSignature, MissingKeyWitness, MissingScript, ExtraScript, ScriptFails};
ghost use Rattle.timelock.specs.View.{key_bytes};
ghost use Rattle.utxo_rules.specs.DetailView.{detail_of, hash_bytes, FindsFirst, FindsDetail};

use crate::detail::Detail;
use crate::hashes::Hashes;
use crate::spent::Spent;
use crate::utxo::Utxo;
use crate::witnesses::{bytes_of_keys, hashes_of_scripts, with_policies};
use ident::{KeyHash, ScriptHash};
use std::alloc::{AllocError, Global};
use timelock::Script;
use witness_pool::{CheckedTx, SigScheme};

/// The key of the first signature that isn't good. Asks the scheme once for each, up to that one.
pub fn bad_signature<S: SigScheme>(checked: &CheckedTx<S>) -> Option<Detail>
    ensures { (params : rules.Params) (utxo : model.Utxo) (slot : ℕ) →
        FindsDetail S.verifies params utxo slot checked.now BadSignature (option_map detail_of result) }
{
    let tx = checked.tx();
    let id = tx.id();
    let signatures = tx.signatures();
    for witness in signatures {
        if !S::verify(&witness.key, id.as_bytes(), &witness.signature) {
            return Some(Detail::BadSignature { key: witness.key });
        }
    }
    None
}

/// The first of the keys that are needed that is none of those that signed. Sorts these, and looks each up.
fn first_unsigned(
    alloc: Global,
    needed: &[[u8; 32]],
    signed: &[KeyHash],
) -> Result<Option<[u8; 32]>, AllocError>
    ensures { IfOk result (FindsFirst (is_among (map key_bytes signed.now)) needed.now) }
{
    let hashes = bytes_of_keys(alloc, signed)?;
    let sought = Hashes::of(hashes);
    Ok(sought.first_missing(needed))
}

/// The first key that has to sign and did not.
pub fn missing_key<S: SigScheme>(
    alloc: Global,
    utxo: &Utxo,
    checked: &CheckedTx<S>,
) -> Result<Option<Detail>, AllocError>
    ensures { IfOk result (λ found. (params : rules.Params) (slot : ℕ) →
        FindsDetail S.verifies params utxo.now slot checked.now MissingKeyWitness (option_map detail_of found)) }
{
    let tx = checked.tx();
    let spent = Spent::by(alloc, utxo, tx.inputs())?;
    match first_unsigned(alloc, &spent.keys, checked.keys())? {
        Some(hash) => Ok(Some(Detail::MissingKeyWitness(KeyHash::from_bytes(hash)))),
        None => Ok(None),
    }
}

/// The first of the scripts that are needed that is none of those supplied. Sorts these, and looks each up.
fn first_unsupplied(
    alloc: Global,
    needed: &[[u8; 32]],
    scripts: &[Script],
) -> Result<Option<[u8; 32]>, AllocError>
    ensures { IfOk result (FindsFirst (is_among (map script_hash_of scripts.now)) needed.now) }
{
    let hashes = hashes_of_scripts(alloc, scripts)?;
    let sought = Hashes::of(hashes);
    Ok(sought.first_missing(needed))
}

/// The first script that is needed and not supplied.
pub fn missing_script<S: SigScheme>(
    alloc: Global,
    utxo: &Utxo,
    checked: &CheckedTx<S>,
) -> Result<Option<Detail>, AllocError>
    ensures { IfOk result (λ found. (params : rules.Params) (slot : ℕ) →
        FindsDetail S.verifies params utxo.now slot checked.now MissingScript (option_map detail_of found)) }
{
    let tx = checked.tx();
    let spent = Spent::by(alloc, utxo, tx.inputs())?;
    let needed = with_policies(spent.scripts, tx.mint())?;
    match first_unsupplied(alloc, &needed, tx.scripts())? {
        Some(hash) => Ok(Some(Detail::MissingScript(ScriptHash::from_bytes(hash)))),
        None => Ok(None),
    }
}

/// The first of the scripts that are supplied that is none of those needed. Sorts these, and looks each up.
fn first_unneeded(needed: Vec<[u8; 32]>, scripts: &[Script]) -> Option<ScriptHash>
    ensures { FindsFirst (is_among needed.items) (map script_hash_of scripts.now) (option_map hash_bytes result) }
{
    let sought = Hashes::of(needed);
    for script in scripts {
        let hash = script.hash();
        if !sought.contains(hash.as_bytes()) {
            return Some(hash);
        }
    }
    None
}

/// The first script that is supplied and not needed.
pub fn extra_script<S: SigScheme>(
    alloc: Global,
    utxo: &Utxo,
    checked: &CheckedTx<S>,
) -> Result<Option<Detail>, AllocError>
    ensures { IfOk result (λ found. (params : rules.Params) (slot : ℕ) →
        FindsDetail S.verifies params utxo.now slot checked.now ExtraScript (option_map detail_of found)) }
{
    let tx = checked.tx();
    let spent = Spent::by(alloc, utxo, tx.inputs())?;
    let needed = with_policies(spent.scripts, tx.mint())?;
    match first_unneeded(needed, tx.scripts()) {
        Some(hash) => Ok(Some(Detail::ExtraScript(hash))),
        None => Ok(None),
    }
}

/// The first script that is supplied and does not hold.
pub fn failing_script<S: SigScheme>(checked: &CheckedTx<S>) -> Option<Detail>
    ensures { (params : rules.Params) (utxo : model.Utxo) (slot : ℕ) →
        FindsDetail S.verifies params utxo slot checked.now ScriptFails (option_map detail_of result) }
{
    let tx = checked.tx();
    let keys = checked.keys();
    let interval = tx.interval();
    let scripts = tx.scripts();
    for script in scripts {
        if !script.holds(keys, interval) {
            return Some(Detail::ScriptFails(script.hash()));
        }
    }
    None
}
