//! The scheme for tests.

ghost use Rattle.std.specs.Prelude.{◌≡◌, ◌++◌};
ghost use Rattle.sha2.specs.Sha256.{sha256};

use crate::scheme::SigScheme;
use sha2::{Digest, Sha256};

/// The scheme for tests: a signature is good where it is the SHA-256 digest (FIPS 180-4) of the key followed by the
/// message, twice. Anyone can make one, so it protects nothing.
#[derive(Clone, Copy, Debug)]
pub struct TestScheme;

/// The digest of the key followed by the message.
fn digest_of(key: &[u8; 32], message: &[u8; 32]) -> [u8; 32]
    ensures { result ≡ sha256 (key.now ++ message.now) }
{
    let mut hasher = Sha256::new();
    hasher.update(key.as_slice());
    hasher.update(message.as_slice());
    hasher.finalize()
}

impl TestScheme {
    /// The one good signature of the message for the key.
    pub fn sign(key: &[u8; 32], message: &[u8; 32]) -> [u8; 64]
        ensures { result ≡ sha256 (key.now ++ message.now) ++ sha256 (key.now ++ message.now) }
    {
        let digest = digest_of(key, message);
        let mut signature = [0; 64];
        let (first, second) = signature.split_at_mut(32);
        first.copy_from_slice(&digest);
        second.copy_from_slice(&digest);
        signature
    }
}

impl SigScheme for TestScheme {
    ghost use Rattle.model.specs.Signature.{test_verifies};

    ghost verifies = { test_verifies };

    #[tactic(auto, unfolding(model::specs::Signature::test_verifies))]
    fn verify(key: &[u8; 32], message: &[u8; 32], signature: &[u8; 64]) -> bool {
        let good = TestScheme::sign(key, message);
        signature.as_slice() == good.as_slice()
    }
}
