//! Which signatures are good (RFC 8032, 5.1.7).

ghost use Rattle.std.specs.Prelude.{◌≡◌, ◌+◌, take, drop, ◌<◌, ◌^◌, length};
ghost use Rattle.ed25519.specs.Points.{order};
ghost use Rattle.ed25519.specs.Signing.{challenge};
ghost use Rattle.ed25519.specs.Verifying.{equation_holds, is_admissible, verifies};

use crate::point::Point;
use crate::scalar::Scalar;
use sha2::{Digest, Sha512};

/// The first 32 bytes and the last 32.
pub fn halves(bytes: &[u8; 64]) -> ([u8; 32], [u8; 32])
    ensures { (result.0 ≡ take 32 bytes.now) × (result.1 ≡ drop 32 bytes.now) }
{
    let mut first = [0; 32];
    let mut last = [0; 32];
    let (low, high) = bytes.split_at(32);
    first.copy_from_slice(low);
    last.copy_from_slice(high);
    (first, last)
}

/// k: the digest of R, the key and the message, as a number modulo L.
pub fn challenge(r: &[u8; 32], key: &[u8; 32], message: &[u8]) -> Scalar
    ensures value { result ≡ challenge r.now key.now message.now }
    ensures below { result < order }
{
    let mut hasher = Sha512::new();
    hasher.update(r.as_slice());
    hasher.update(key.as_slice());
    hasher.update(message);
    let digest: [u8; 64] = hasher.finalize();
    Scalar::reduced(&digest)
}

/// Whether S is below L, and neither A nor R is of small order.
fn is_admissible(a: &Point, r: &Point, s: &Scalar) -> bool
    ensures { result ≡ is_admissible a.now r.now s.now }
{
    s.is_below_order() && !a.has_small_order() && !r.has_small_order()
}

/// Whether [S]B = R + [k]A.
fn equation_holds(a: &Point, r: &Point, s: &Scalar, k: &Scalar) -> bool
    ensures { result ≡ equation_holds a.now r.now s.now k.now }
{
    let left = Point::base().multiple(s);
    let right = r.plus(&a.multiple(k)).to_point();
    left.equals(&right)
}

/// Whether the signature, which is R and then S, of the message is good for the key: the key and R decode, S is below
/// L, neither the key nor R is of small order, and [S]B = R + [k]A (RFC 8032, 5.1.7). It takes no memory; its cost
/// grows with the message alone, which is hashed once.
pub fn verify(key: &[u8; 32], message: &[u8], signature: &[u8; 64]) -> bool
    ensures { result ≡ verifies key.now message.now signature.now }
{
    let (r_bytes, s_bytes) = halves(signature);
    let s = Scalar::from_bytes(&s_bytes);
    let Some(a) = Point::decode(key) else {
        return false;
    };
    let Some(r) = Point::decode(&r_bytes) else {
        return false;
    };
    is_admissible(&a, &r, &s) && equation_holds(&a, &r, &s, &challenge(&r_bytes, key, message))
}
