//! Keys that have names.

ghost use Rattle.std.specs.Prelude.{◌≡◌, option_map};
ghost use Rattle.script.specs.Keys.{SecretKey as Secret, key_bytes, key_in, secret_key_in, signer_with};
ghost use Rattle.script.specs.SignerView.{key_signer_of};
ghost use Rattle.script.specs.Line.{said_bytes};
ghost use Rattle.script.specs.PartView.{is_good};

use crate::digits::Digits;
use crate::key_signer::KeySigner;
use draft::{Signing, TestSigner};
use ed25519::SecretKey;
use genesis::Scheme;
use std::marker::Model;

/// A key that has a name: the bytes of the public one, and those that a secret one was made of, so that the public one
/// is computed once.
#[derive(Drop)]
pub struct Key {
    bytes: [u8; 32],
    seed: Option<[u8; 32]>,
}

impl Model for Key {
    ghost use Rattle.script.specs.Keys.{Key, coded_key};

    ghost Value = { Key };

    ghost coded = { coded_key };

    ghost use Rattle.script.specs.KeyView.{key_of, IsHeldKey};

    ghost view = { key_of };

    ghost invariant = { IsHeldKey };
}

impl Key {
    /// The public key of 32 bytes that digits say. Takes no memory.
    pub fn in_digits(digits: &Digits<'_>) -> Option<Key>
        ensures { result ≡ key_in (said_bytes digits.now.text.now) }
    {
        let bytes = digits.key()?;
        Some(Key { bytes, seed: None })
    }

    /// The key of secret bytes. Multiplies a point once.
    fn of_seed(seed: [u8; 32]) -> Key
        ensures { result ≡ Secret seed }
    {
        Key {
            bytes: SecretKey::from_seed(seed).public_key(),
            seed: Some(seed),
        }
    }

    /// The key of 32 secret bytes that digits say, where the scheme has such keys. Takes no memory.
    pub fn secret_in_digits(scheme: Scheme, digits: &Digits<'_>) -> Option<Key>
        ensures { result ≡ secret_key_in scheme (said_bytes digits.now.text.now) }
    {
        match scheme {
            Scheme::Test => None,
            Scheme::Ed25519 => {
                let seed = digits.key()?;
                Some(Key::of_seed(seed))
            }
        }
    }

    /// The bytes of the public key.
    pub fn bytes(&self) -> &[u8; 32]
        ensures { result.now ≡ key_bytes self.now }
    {
        &self.bytes
    }

    /// Who signs with the key under the scheme, well or not. None where nobody can. For a secret key a point is
    /// multiplied once, and once more when it signs.
    pub fn signer(&self, scheme: Scheme, signing: Signing) -> Option<KeySigner>
        ensures { option_map key_signer_of result ≡ signer_with scheme self.now (is_good signing) }
    {
        match (scheme, signing) {
            (Scheme::Ed25519, Signing::Good) => {
                let seed = self.seed?;
                Some(KeySigner::Secret(SecretKey::from_seed(seed)))
            }
            (Scheme::Test, _) | (Scheme::Ed25519, Signing::Bad) => {
                let key = self.bytes;
                Some(KeySigner::Test(TestSigner { key, signing }))
            }
        }
    }
}
