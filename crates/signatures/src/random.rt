//! Keys and messages that look as if they came by chance, the same ones from the same start.

use ed25519::{SecretKey, verify};
use sha2::{Digest, Sha256};

/// A generator of numbers: Marsaglia's xorshift with a product behind it (xorshift64*).
#[derive(Drop)]
struct Random {
    state: u64,
}

/// What the state is multiplied with.
const FACTOR: u64 = 0x2545_F491_4F6C_DD1D;

/// The bound of messages' lengths.
const LONGEST: usize = 128;

impl Random {
    /// The numbers from this start.
    fn new(start: u64) -> Random {
        Random {
            state: start.wrapping_mul(FACTOR) | 1,
        }
    }

    /// The next number.
    fn next(&mut self) -> u64 {
        let mut state = self.state;
        state ^= state >> 12;
        state ^= state << 25;
        state ^= state >> 27;
        self.state = state;
        state.wrapping_mul(FACTOR) >> 32
    }

    /// Puts the next numbers, as bytes, in the place of others.
    fn fill(&mut self, bytes: &mut [u8]) {
        for byte in bytes {
            *byte = (self.next() % 256) as u8;
        }
    }
}

/// Whether a key at random signs a message at random so that the signature is good; hashes public key and signature.
fn sign_once(random: &mut Random, hasher: &mut Sha256) -> bool {
    let mut seed = [0; 32];
    random.fill(&mut seed);
    let mut message = [0; LONGEST];
    let (message, _) = message.split_at_mut((random.next() % LONGEST as u64) as usize);
    random.fill(message);
    let secret = SecretKey::from_seed(seed);
    let key = secret.public_key();
    let signature = secret.sign(message);
    hasher.update(key.as_slice());
    hasher.update(signature.as_slice());
    verify(&key, message, &signature)
}

/// Whether `number` keys from this start each sign a message so that the signature is good, and the SHA-256 digest of
/// all public keys and signatures is this.
pub fn are_good(number: u64, start: u64, digest: &[u8; 32]) -> bool {
    let mut random = Random::new(start);
    let mut hasher = Sha256::new();
    let mut good = true;
    for _ in 0..number {
        good = sign_once(&mut random, &mut hasher) && good;
    }
    hasher.finalize() == *digest && good
}
