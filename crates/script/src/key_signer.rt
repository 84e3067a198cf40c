//! Who signs with a key of a script.

use draft::{Signer, TestSigner};
use ed25519::SecretKey;

/// Who signs with a key of a script.
#[derive(Drop)]
pub enum KeySigner {
    /// Anyone, by the test scheme, or by 64 zero bytes under either scheme.
    Test(TestSigner),
    /// Who knows the secret bytes.
    Secret(SecretKey),
}

impl Signer for KeySigner {
    ghost use Rattle.script.specs.SignerView.{key_signer_of};

    ghost signer = { key_signer_of };

    fn public_key(&self) -> [u8; 32] {
        match self {
            KeySigner::Test(signer) => signer.public_key(),
            KeySigner::Secret(key) => key.public_key(),
        }
    }

    fn signature(&self, id: &[u8; 32]) -> [u8; 64] {
        match self {
            KeySigner::Test(signer) => signer.signature(id),
            KeySigner::Secret(key) => key.signature(id),
        }
    }
}
