//! Signatures of transactions.

ghost use Rattle.std.specs.Prelude.{◌≡◌, ◌<◌, ◌≤◌, ◌+◌, ◌++◌, ℕ, length, slice_index, option_map};
ghost use Rattle.std.specs.Prelude.{OnOk, OnErr, vec_len, vec_capacity};
ghost use Rattle.model.specs.Limits.{hash_size, signature_size};
ghost use Rattle.model.specs.Cbor.{text_of};
ghost use Rattle.model.specs.Transaction as model;
ghost use Rattle.model.specs.Transaction.{item_of_witness, key_hash_of};
ghost use Rattle.cbor.specs.Texts.{Keeps};

use cbor::{CborFault, Decode, Encode};
use ident::KeyHash;
use std::alloc::{AllocError, Global};

/// A signature of a transaction's identifier, with the key that made it.
#[derive(Clone, Copy, Debug, PartialEq, Eq, Drop)]
pub struct KeyWitness {
    /// The key, to be checked against the hashes that addresses and scripts name.
    pub key: [u8; 32],
    /// What the key made of the identifier.
    pub signature: [u8; 64],
    pub ghost key_sized: { length key ≡ hash_size },
    pub ghost key_fits: { (i : ℕ) → slice_index key i < 256 },
    pub ghost signature_sized: { length signature ≡ signature_size },
    pub ghost signature_fits: { (i : ℕ) → slice_index signature i < 256 },
}

impl KeyWitness {
    ghost use Rattle.tx.specs.Reading.{witness_at};
    ghost use Rattle.tx.specs.View.{witness_of};

    /// The signature by this key.
    pub fn new(key: [u8; 32], signature: [u8; 64]) -> KeyWitness
        ensures { witness_of result ≡ record { key = key; signature = signature } }
    {
        KeyWitness { key, signature }
    }

    /// The signature whose text stands first, and the bytes after it (RFC 8949, section 4.2.1): an array of the key and
    /// what it signed with. None where no such text stands there. Constant time.
    #[tactic(auto, unfolding(crate::specs::Reading::witness_at, cbor::specs::Shapes::as_at, cbor::specs::Shapes::array_at, cbor::specs::Shapes::both_at))]
    fn read(bytes: &[u8]) -> Option<(KeyWitness, &[u8])>
        ensures { option_map (λ x. (witness_of x.0, x.1.now)) result ≡ witness_at bytes.now }
    {
        let members = cbor::members(bytes, 2)?;
        let (key, rest) = cbor::fixed::<32>(members)?;
        let (signature, rest) = cbor::fixed::<64>(rest)?;
        Some((KeyWitness { key, signature }, rest))
    }

    /// The hash of the key, which addresses name.
    #[tactic(auto, unfolding(model::specs::Transaction::key_hash_of))]
    pub fn key_hash(&self) -> KeyHash
        ensures { result.bytes ≡ key_hash_of (witness_of self.now).key }
    {
        KeyHash::of_key(&self.key)
    }

    /// Writes the key and what it signed with after their number. At Err a part of that may stand there.
    fn write_parts(&self, out: &mut Vec<u8>) -> Result<(), AllocError>
        ensures ok { OnOk result (out.new.items ≡ out.old.items ++ text_of (item_of_witness (witness_of self.now))) }
        ensures keeps { Keeps out.old.items out.new.items }
        ensures full { OnErr result (vec_capacity out.old < vec_len out.old +
            length (text_of (item_of_witness (witness_of self.now)))) }
        ensures capacity { vec_capacity out.old ≤ vec_capacity out.new }
    {
        cbor::write_array(out, 2)?;
        cbor::write_byte_string(out, self.key.as_slice())?;
        cbor::write_byte_string(out, self.signature.as_slice())
    }
}

impl Decode for KeyWitness {
    ghost use Rattle.tx.specs.Reading.{witness_at};
    ghost use Rattle.tx.specs.View.{witness_of};

    ghost Plain = { model.KeyWitness };

    ghost plain = { witness_of };

    ghost decoded_at = { λ depth. witness_at };

    fn decode(
        _alloc: Global,
        _depth: usize,
        bytes: &[u8],
    ) -> Result<(KeyWitness, &[u8]), CborFault> {
        KeyWitness::read(bytes).ok_or(CborFault::Malformed)
    }
}

impl Encode for KeyWitness {
    ghost use Rattle.tx.specs.View.{witness_of};

    ghost item_of = { λ witness. item_of_witness (witness_of witness) };

    fn write(&self, out: &mut Vec<u8>) -> Result<(), AllocError> {
        let start = out.len();
        let written = self.write_parts(out);
        if written.is_err() {
            out.truncate(start);
        }
        written
    }
}
