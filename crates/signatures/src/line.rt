//! A line of a file of vectors.

use crate::random;
use crate::tally::{Kind, Tally};
use crate::vector::Vector;
use hex::FromHex;
use std::alloc::Global;

/// Whether these words are a seed, its public key, a message and what it signs, and the signature is good.
fn is_signed(alloc: Global, seed: &str, key: &str, message: &str, signature: &str) -> bool {
    let seed = <[u8; 32] as FromHex>::from_hex(seed).ok();
    match (seed, Vector::read(alloc, key, message, signature)) {
        (Some(seed), Some(vector)) => vector.is_of(seed) && vector.is_good(),
        _ => false,
    }
}

/// Whether these words are a key, a message and a signature that is good, or, as `good` says, one that isn't.
fn is_told(alloc: Global, good: bool, key: &str, message: &str, signature: &str) -> bool {
    match Vector::read(alloc, key, message, signature) {
        Some(vector) => vector.is_good() == good,
        None => false,
    }
}

/// How many bits these words have as a key, a message and a good signature, if it is refused where any of them is
/// flipped.
fn flipped_bits(alloc: Global, key: &str, message: &str, signature: &str) -> Option<u64> {
    match Vector::read(alloc, key, message, signature) {
        Some(mut vector) if vector.is_good() => vector.flipped_bits(),
        _ => None,
    }
}

/// How many secret keys at random these words are, from this start, if each signs so that the signature is good, and
/// all together have this digest.
fn signed_at_random(number: &str, start: &str, digest: &str) -> Option<u64> {
    let number = number.parse::<u64>().ok()?;
    let start = start.parse::<u64>().ok()?;
    let digest = <[u8; 32] as FromHex>::from_hex(digest).ok()?;
    if random::are_good(number, start, &digest) {
        Some(number)
    } else {
        None
    }
}

/// Judges a line, and counts what it has.
pub fn judge(alloc: Global, line: &str, tally: &mut Tally) {
    tally.begin_line();
    let mut words = line.split(' ');
    let kind = words.next().unwrap_or("");
    let first = words.next().unwrap_or("");
    let second = words.next().unwrap_or("");
    let third = words.next().unwrap_or("");
    let fourth = words.next().unwrap_or("");
    let counted = match kind {
        "" | "#" => return,
        "signed" => (
            Kind::Signed,
            is_signed(alloc, first, second, third, fourth).then_some(1),
        ),
        "good" => (
            Kind::Good,
            is_told(alloc, true, first, second, third).then_some(1),
        ),
        "bad" => (
            Kind::Bad,
            is_told(alloc, false, first, second, third).then_some(1),
        ),
        "flipped" => (Kind::Flipped, flipped_bits(alloc, first, second, third)),
        "random" => (Kind::Random, signed_at_random(first, second, third)),
        _ => (Kind::Bad, None),
    };
    match counted {
        (kind, Some(number)) => tally.count(kind, number),
        (_, None) => tally.differ(),
    }
}
