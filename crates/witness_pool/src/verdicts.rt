//! The verdicts on a transaction, one by one.

ghost use Rattle.std.specs.Prelude.{◌≡◌, map, IfOk};
ghost use Rattle.std.specs.List.{list_all};
ghost use Rattle.model.specs.Script.{holds};
ghost use Rattle.model.specs.Transaction.{key_hash_of};
ghost use Rattle.timelock.specs.View.{key_bytes, interval_of};
ghost use Rattle.tx.specs.View.{witness_of};
ghost use Rattle.witness_pool.specs.Verdicts.{is_good};

use crate::scheme::SigScheme;
use ident::KeyHash;
use std::alloc::{AllocError, Global};
use timelock::{Interval, Script};
use tx::KeyWitness;

/// Whether each signature of the message is good for its key. Asks the scheme once for each, up to the first that
/// isn't.
pub fn all_good<S: SigScheme>(message: &[u8; 32], signatures: &[KeyWitness]) -> bool
    ensures { result ≡ list_all (is_good S.verifies message.now) (map witness_of signatures.now) }
{
    for witness in signatures {
        if !S::verify(&witness.key, message, &witness.signature) {
            return false;
        }
    }
    true
}

/// The hashes of the keys that signed, in order.
pub fn key_hashes(alloc: Global, signatures: &[KeyWitness]) -> Result<Vec<KeyHash>, AllocError>
    ensures { IfOk result (λ hashes.
        map key_bytes hashes.items ≡ map (λ w. key_hash_of w.key) (map witness_of signatures.now)) }
{
    let mut hashes = Vec::with_capacity(alloc, signatures.len())?;
    for witness in signatures {
        hashes.push(witness.key_hash())?;
    }
    Ok(hashes)
}

/// Whether each script holds for these hashes of the keys that signed, and this interval.
pub fn all_hold(keys: &[KeyHash], interval: Interval, scripts: &[Script]) -> bool
    ensures { result ≡ list_all (holds (map key_bytes keys.now) (interval_of interval)) scripts.now }
{
    for script in scripts {
        if !script.holds(keys, interval) {
            return false;
        }
    }
    true
}
