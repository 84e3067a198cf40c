//! Who signs a transaction in the making.

ghost use Rattle.std.specs.Prelude.{◌≡◌};
ghost use Rattle.tx.specs.View.{witness_of};
ghost use Rattle.draft.specs.Draft.{witness_by};

use ed25519::SecretKey;
use tx::KeyWitness;
use witness_pool::TestScheme;

/// Who signs: a public key, and the signature that it makes of an identifier.
pub trait Signer {
    ghost use Rattle.std.specs.Prelude.{◌≡◌};
    ghost use Rattle.draft.specs.Draft as model;

    /// Its key, and what it makes of each message.
    ghost signer: { Self → model.Signer };

    /// The bytes of the public key.
    fn public_key(&self) -> [u8; 32]
        ensures { result ≡ (Self.signer self.now).key };

    /// The signature of an identifier, which need not be a good one. The same one each time.
    fn signature(&self, id: &[u8; 32]) -> [u8; 64]
        ensures { result ≡ (Self.signer self.now).signs id.now };
}

/// How a key of the test scheme signs.
#[derive(Clone, Copy, Debug, PartialEq, Eq)]
pub enum Signing {
    /// By its good signature.
    Good,
    /// By 64 zero bytes in the signature's place.
    Bad,
}

/// A key of the test scheme that is to sign.
#[derive(Clone, Copy, Debug)]
pub struct TestSigner {
    pub key: [u8; 32],
    pub signing: Signing,
}

impl Signer for TestSigner {
    ghost use Rattle.draft.specs.SignerView.{test_signer_of};

    ghost signer = { test_signer_of };

    fn public_key(&self) -> [u8; 32] {
        self.key
    }

    fn signature(&self, id: &[u8; 32]) -> [u8; 64] {
        match self.signing {
            Signing::Good => TestScheme::sign(&self.key, id),
            Signing::Bad => [0; 64],
        }
    }
}

/// A signature that was made elsewhere stands for who made it: it is the signature, whatever the identifier is.
impl Signer for KeyWitness {
    ghost use Rattle.draft.specs.SignerView.{signer_of_witness};

    ghost signer = { signer_of_witness };

    fn public_key(&self) -> [u8; 32] {
        self.key
    }

    fn signature(&self, _id: &[u8; 32]) -> [u8; 64] {
        self.signature
    }
}

/// Signs by Ed25519. The cost of a call doesn't grow: an identifier has 32 bytes.
impl Signer for SecretKey {
    ghost use Rattle.draft.specs.Signers.{secret_signer};

    ghost signer = { secret_signer };

    fn public_key(&self) -> [u8; 32] {
        SecretKey::public_key(self)
    }

    fn signature(&self, id: &[u8; 32]) -> [u8; 64] {
        self.sign(id.as_slice())
    }
}

/// What a signer makes of an identifier.
pub fn witness<K: Signer>(signer: &K, id: &[u8; 32]) -> KeyWitness
    ensures { witness_of result ≡ witness_by id.now (K.signer signer.now) }
{
    KeyWitness::new(signer.public_key(), signer.signature(id))
}
