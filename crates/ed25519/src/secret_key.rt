//! Secret keys, and signatures made with them (RFC 8032, 5.1.5 and 5.1.6).

ghost use Rattle.std.specs.Prelude.{◌≡◌, ℕ, ◌++◌, ◌<◌, List};
ghost use Rattle.ed25519.specs.Points.{order};
ghost use Rattle.ed25519.specs.Keys.{public_key, secret_scalar};
ghost use Rattle.ed25519.specs.Signing.{nonce, secret_prefix, signature};

use crate::point::Point;
use crate::scalar::Scalar;
use crate::verification::{challenge, halves};
use sha2::{Digest, Sha512};
use std::marker::Model;

/// A secret key: its 32 bytes, and what signing asks of them, computed once. It can't be printed. Nothing is promised
/// of the time that its calls take, which hangs on the secret, nor that its memory is cleared. No call takes memory.
#[derive(Drop)]
pub struct SecretKey {
    seed: [u8; 32],
    scalar: Scalar,
    prefix: [u8; 32],
    public: [u8; 32],
}

impl Model for SecretKey {
    ghost Value = { List ℕ };

    ghost view = { λ k. k.seed };

    ghost invariant = { λ k. (k.scalar ≡ secret_scalar k.seed) × (k.prefix ≡ secret_prefix k.seed)
        × (k.public ≡ public_key k.seed) };
}

impl SecretKey {
    /// The key of 32 bytes, which are to be random and kept secret (RFC 8032, 5.1.5).
    pub fn from_seed(seed: [u8; 32]) -> SecretKey
        ensures { result ≡ seed }
    {
        let digest: [u8; 64] = Sha512::digest(seed.as_slice());
        let (low, prefix) = halves(&digest);
        let scalar = Scalar::from_bytes(&low).pruned();
        let public = Point::base().multiple(&scalar).encode();
        SecretKey {
            seed,
            scalar,
            prefix,
            public,
        }
    }

    /// The 32 bytes of the public key (RFC 8032, 5.1.5).
    pub fn public_key(&self) -> [u8; 32]
        ensures { result ≡ public_key self.now }
    {
        self.public
    }

    /// r: the digest of the prefix and the message, as a number modulo L.
    fn nonce(&self, message: &[u8]) -> Scalar
        ensures value { result ≡ nonce self.now message.now }
        ensures below { result < order }
    {
        let mut hasher = Sha512::new();
        hasher.update(self.prefix.as_slice());
        hasher.update(message);
        let digest: [u8; 64] = hasher.finalize();
        Scalar::reduced(&digest)
    }

    /// The 64 bytes of the signature of the message, R and then S: the same ones for the same message (RFC 8032,
    /// 5.1.6). Its cost grows with the message alone, which is hashed twice.
    pub fn sign(&self, message: &[u8]) -> [u8; 64]
        ensures { result ≡ signature self.now message.now }
    {
        let r = self.nonce(message);
        let r_bytes = Point::base().multiple(&r).encode();
        let k = challenge(&r_bytes, &self.public, message);
        let s_bytes = self.scalar.times(&k).plus(&r).to_bytes();
        joined(&r_bytes, &s_bytes)
    }
}

/// The bytes of both halves, one after the other.
fn joined(first: &[u8; 32], second: &[u8; 32]) -> [u8; 64]
    ensures { result ≡ first.now ++ second.now }
{
    let mut bytes = [0; 64];
    let (front, back) = bytes.split_at_mut(32);
    front.copy_from_slice(first);
    back.copy_from_slice(second);
    bytes
}
