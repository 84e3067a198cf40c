//! What the rules ask of a transaction's keys and scripts.

ghost use Rattle.std.specs.Prelude.{◌≡◌, ◌++◌, map, IfOk};
ghost use Rattle.model.specs.Script.{script_hash_of};
ghost use Rattle.model.specs.Rules.{are_among};
ghost use Rattle.timelock.specs.View.{key_bytes};

use crate::hashes::Hashes;
use ident::KeyHash;
use std::alloc::{AllocError, Global};
use timelock::Script;
use value::Mint;

/// The bytes of the hashes of keys, in their order.
pub fn bytes_of_keys(alloc: Global, keys: &[KeyHash]) -> Result<Vec<[u8; 32]>, AllocError>
    ensures { IfOk result (λ hashes. hashes.items ≡ map key_bytes keys.now) }
{
    let mut hashes = Vec::with_capacity(alloc, keys.len())?;
    for key in keys {
        hashes.push(*key.as_bytes())?;
    }
    Ok(hashes)
}

/// The hashes of scripts, in their order.
pub fn hashes_of_scripts(alloc: Global, scripts: &[Script]) -> Result<Vec<[u8; 32]>, AllocError>
    ensures { IfOk result (λ hashes. hashes.items ≡ map script_hash_of scripts.now) }
{
    let mut hashes = Vec::with_capacity(alloc, scripts.len())?;
    for script in scripts {
        hashes.push(*script.hash().as_bytes())?;
    }
    Ok(hashes)
}

/// The hashes with those of the policies of what is minted after them.
pub fn with_policies(hashes: Vec<[u8; 32]>, mint: &Mint) -> Result<Vec<[u8; 32]>, AllocError>
    ensures { IfOk result (λ all. all.items ≡ hashes.items ++ map (λ policy. policy.id) mint.now) }
{
    let mut all = hashes;
    let policies = mint.policies();
    for policy in policies {
        all.push(*policy.id.as_bytes())?;
    }
    Ok(all)
}

/// Whether each of the keys that are needed is one of those that signed. Sorts these, and looks each up.
pub fn have_signed(
    alloc: Global,
    needed: &[[u8; 32]],
    signed: &[KeyHash],
) -> Result<bool, AllocError>
    ensures { IfOk result (λ have. have ≡ are_among needed.now (map key_bytes signed.now)) }
{
    let hashes = bytes_of_keys(alloc, signed)?;
    let sought = Hashes::of(hashes);
    Ok(sought.contain_all(needed))
}

/// Whether each of the scripts that are needed is one of those supplied. Sorts these, and looks each up.
pub fn are_supplied(
    alloc: Global,
    needed: &[[u8; 32]],
    scripts: &[Script],
) -> Result<bool, AllocError>
    ensures { IfOk result (λ are. are ≡ are_among needed.now (map script_hash_of scripts.now)) }
{
    let hashes = hashes_of_scripts(alloc, scripts)?;
    let sought = Hashes::of(hashes);
    Ok(sought.contain_all(needed))
}

/// Whether each of the scripts that are supplied is one of those needed. Sorts these, and looks each up.
pub fn are_needed(needed: Vec<[u8; 32]>, scripts: &[Script]) -> bool
    ensures { result ≡ are_among (map script_hash_of scripts.now) needed.items }
{
    let sought = Hashes::of(needed);
    for script in scripts {
        if !sought.contains(script.hash().as_bytes()) {
            return false;
        }
    }
    true
}
