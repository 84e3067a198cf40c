//! A key, a message and a signature.

use ed25519::{SecretKey, verify};
use hex::FromHex;
use std::alloc::Global;

/// A key, a message and a signature.
#[derive(Drop)]
pub struct Vector {
    key: [u8; 32],
    message: Vec<u8>,
    signature: [u8; 64],
}

/// A part of a vector.
#[derive(Clone, Copy)]
enum Part {
    Key,
    Message,
    Signature,
}

/// The bits of a byte.
const BITS: [u8; 8] = [1, 2, 4, 8, 16, 32, 64, 128];

/// Flips these bits of a byte, if there is one at this place.
fn flip(bytes: &mut [u8], place: usize, bits: u8) {
    if let Some(byte) = bytes.get_mut(place) {
        *byte ^= bits;
    }
}

/// The bytes of a word, `-` being none.
fn bytes_of(alloc: Global, word: &str) -> Option<Vec<u8>> {
    hex::decode(alloc, if word == "-" { "" } else { word }).ok()
}

impl Vector {
    /// The vector of a key, a message and a signature in words, if they are such.
    pub fn read(alloc: Global, key: &str, message: &str, signature: &str) -> Option<Vector> {
        let key = <[u8; 32] as FromHex>::from_hex(key).ok()?;
        let signature = <[u8; 64] as FromHex>::from_hex(signature).ok()?;
        let message = bytes_of(alloc, message)?;
        Some(Vector {
            key,
            message,
            signature,
        })
    }

    /// Whether the signature is good.
    pub fn is_good(&self) -> bool {
        verify(&self.key, &self.message, &self.signature)
    }

    /// Whether the key is that of this seed, and the signature what it signs.
    pub fn is_of(&self, seed: [u8; 32]) -> bool {
        let secret = SecretKey::from_seed(seed);
        secret.public_key() == self.key && secret.sign(&self.message) == self.signature
    }

    /// The bytes of a part.
    fn part(&mut self, part: Part) -> &mut [u8] {
        match part {
            Part::Key => &mut self.key,
            Part::Message => &mut self.message,
            Part::Signature => &mut self.signature,
        }
    }

    /// How many bits a part has with which flipped the signature is refused, and how many it has.
    fn refused_flips(&mut self, part: Part) -> (u64, u64) {
        let mut refused: u64 = 0;
        let mut all: u64 = 0;
        for place in 0..self.part(part).len() {
            for bit in BITS {
                flip(self.part(part), place, bit);
                refused = refused.saturating_add(u64::from(!self.is_good()));
                all = all.saturating_add(1);
                flip(self.part(part), place, bit);
            }
        }
        (refused, all)
    }

    /// How many bits the parts have, if the signature is refused where any of them is flipped.
    pub fn flipped_bits(&mut self) -> Option<u64> {
        let mut bits: u64 = 0;
        let mut well = true;
        for part in [Part::Key, Part::Message, Part::Signature] {
            let (refused, all) = self.refused_flips(part);
            bits = bits.saturating_add(all);
            well = well && refused == all;
        }
        if well { Some(bits) } else { None }
    }
}
