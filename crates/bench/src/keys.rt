//! Keys to measure with.

use std::alloc::{AllocError, Global};

/// A key as long as a reference to a transaction's output: a digest and an index.
#[derive(Clone, Copy, PartialEq, Eq, PartialOrd, Ord)]
pub struct Key {
    digest: [u8; 32],
    index: u16,
}

/// Numbers that look random: each is computed from the one before.
fn next_random(seed: u64) -> u64 {
    let x = seed ^ (seed << 13);
    let y = x ^ (x >> 7);
    y ^ (y << 17)
}

fn random_key(seed: u64) -> Key {
    let mut digest = [0; 32];
    let mut x = seed;
    for byte in digest.iter_mut() {
        x = next_random(x);
        *byte = (x >> 56) as u8;
    }
    Key { digest, index: 0 }
}

/// `count` random keys, the same ones at each run.
pub fn random_keys(alloc: Global, count: usize) -> Result<Vec<Key>, AllocError> {
    let mut keys = Vec::with_capacity(alloc, count)?;
    let mut seed = 88_172_645_463_325_252;
    for _ in 0..count {
        seed = next_random(seed);
        keys.push(random_key(seed))?;
    }
    Ok(keys)
}

/// As many keys as there are, each picked at random.
pub fn picked(alloc: Global, keys: &[Key]) -> Result<Vec<Key>, AllocError> {
    let mut picked = Vec::with_capacity(alloc, keys.len())?;
    let mut seed = 88_172_645_463_325_252;
    for _ in keys {
        seed = next_random(seed);
        if let Some(key) = keys.get((seed % 0x4000_0000) as usize % keys.len()) {
            picked.push(*key)?;
        }
    }
    Ok(picked)
}
