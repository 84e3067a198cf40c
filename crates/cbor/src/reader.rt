//! Readers: from a slice to the value that stands first and the bytes after it. Each accepts the one
//! deterministic form of its part, never allocates, and takes constant time; a reader of a byte string
//! of fixed length copies it.

ghost use Rattle.std.specs.Prelude.{◌≡◌, ℕ, ◌<◌, ◌^◌, List, ◌++◌, length, option_map, IfSome, IfNone};
ghost use Rattle.model.specs.Cbor as cbor;
ghost use Rattle.cbor.specs.Reading.{head_at, bytes_at, fixed_at, null_at};
ghost use Rattle.cbor.specs.Major.{major_number};

use crate::argument::argument;
use crate::major::{Major, NULL};

/// The argument of a head of this major type.
#[tactic(auto, unfolding(crate::specs::Reading::head_at))]
fn head(bytes: &[u8], major: Major) -> Option<(u64, &[u8])>
    ensures exact { option_map (λ x. (x.0, x.1.now)) result ≡ head_at (major_number major) bytes.now }
    ensures found { IfSome result (λ x. bytes.now ≡ cbor.head (major_number major) x.0 ++ x.1.now) }
    ensures none { IfNone result ((n : ℕ) (rest : List ℕ) → n < 2 ^ 64 →
        bytes.now ≡ cbor.head (major_number major) n ++ rest → ⊥) }
{
    let (first, rest) = bytes.split_first()?;
    if first / 32 != major as u8 {
        return None;
    }
    argument(first % 32, rest)
}

/// The unsigned number that stands first, 0 to 2^64 - 1, and the bytes after it. None where none stands
/// there, or where it is not in its shortest form (RFC 8949, sections 3.1 and 4.2.1).
pub fn unsigned(bytes: &[u8]) -> Option<(u64, &[u8])>
    ensures exact { option_map (λ x. (x.0, x.1.now)) result ≡ head_at 0 bytes.now }
    ensures found { IfSome result (λ x. bytes.now ≡ cbor.head 0 x.0 ++ x.1.now) }
    ensures none { IfNone result ((n : ℕ) (rest : List ℕ) → n < 2 ^ 64 → bytes.now ≡ cbor.head 0 n ++ rest → ⊥) }
{
    head(bytes, Major::Unsigned)
}

/// The negative number that stands first, as the `n` of -1 - n, 0 to 2^64 - 1, and the bytes after it.
/// None where none stands there, or where it is not in its shortest form (RFC 8949, sections 3.1 and
/// 4.2.1).
pub fn negative(bytes: &[u8]) -> Option<(u64, &[u8])>
    ensures exact { option_map (λ x. (x.0, x.1.now)) result ≡ head_at 1 bytes.now }
    ensures found { IfSome result (λ x. bytes.now ≡ cbor.head 1 x.0 ++ x.1.now) }
    ensures none { IfNone result ((n : ℕ) (rest : List ℕ) → n < 2 ^ 64 → bytes.now ≡ cbor.head 1 n ++ rest → ⊥) }
{
    head(bytes, Major::Negative)
}

/// The byte string that stands first, and the bytes after it. None where none stands there, where its
/// length is not in its shortest form or is indefinite, and where it is longer than what is left
/// (RFC 8949, sections 3.1 and 4.2.1).
#[tactic(auto, unfolding(crate::specs::Reading::bytes_at))]
pub fn byte_string(bytes: &[u8]) -> Option<(&[u8], &[u8])>
    ensures exact { option_map (λ x. (x.0.now, x.1.now)) result ≡ bytes_at bytes.now }
    ensures found { IfSome result (λ x. bytes.now ≡ cbor.head 2 (length x.0.now) ++ x.0.now ++ x.1.now) }
    ensures none { IfNone result ((text rest : List ℕ) → bytes.now ≡ cbor.head 2 (length text) ++ text ++ rest → ⊥) }
{
    let (count, rest) = head(bytes, Major::Bytes)?;
    if (rest.len() as u64) < count {
        return None;
    }
    Some(rest.split_at(count as usize))
}

/// The byte string of exactly `N` bytes that stands first, and the bytes after it. None where
/// [`byte_string`] gives none, or one of another length.
#[tactic(auto, unfolding(crate::specs::Reading::fixed_at))]
pub fn fixed<const N: usize>(bytes: &[u8]) -> Option<([u8; N], &[u8])>
    ensures exact { option_map (λ x. (x.0, x.1.now)) result ≡ fixed_at N bytes.now }
    ensures found { IfSome result (λ x. bytes.now ≡ cbor.head 2 N ++ x.0 ++ x.1.now) }
    ensures none { IfNone result ((text rest : List ℕ) → length text ≡ N → bytes.now ≡ cbor.head 2 N ++ text ++ rest →
        ⊥) }
{
    let (text, rest) = byte_string(bytes)?;
    let text = <[u8; N]>::try_from(text).ok()?;
    Some((text, rest))
}

/// How many members the array has that stands first, and the bytes from its first member on, which are
/// not looked at. None where no array stands there, or where the count is not in its shortest form or
/// is indefinite (RFC 8949, sections 3.1 and 4.2.1).
pub fn array(bytes: &[u8]) -> Option<(u64, &[u8])>
    ensures exact { option_map (λ x. (x.0, x.1.now)) result ≡ head_at 4 bytes.now }
    ensures found { IfSome result (λ x. bytes.now ≡ cbor.head 4 x.0 ++ x.1.now) }
    ensures none { IfNone result ((n : ℕ) (rest : List ℕ) → n < 2 ^ 64 → bytes.now ≡ cbor.head 4 n ++ rest → ⊥) }
{
    head(bytes, Major::Array)
}

/// How many entries the map has that stands first, each a key and a value, and the bytes from its first
/// key on, which are not looked at. None where no map stands there, or where the count is not in its
/// shortest form or is indefinite (RFC 8949, sections 3.1 and 4.2.1).
pub fn map(bytes: &[u8]) -> Option<(u64, &[u8])>
    ensures exact { option_map (λ x. (x.0, x.1.now)) result ≡ head_at 5 bytes.now }
    ensures found { IfSome result (λ x. bytes.now ≡ cbor.head 5 x.0 ++ x.1.now) }
    ensures none { IfNone result ((n : ℕ) (rest : List ℕ) → n < 2 ^ 64 → bytes.now ≡ cbor.head 5 n ++ rest → ⊥) }
{
    head(bytes, Major::Map)
}

/// The bytes after the null that stands first. None where no null stands there (RFC 8949, section 3.3).
#[tactic(auto, unfolding(crate::specs::Reading::null_at))]
pub fn null(bytes: &[u8]) -> Option<&[u8]>
    ensures exact { option_map (λ x. x.now) result ≡ null_at bytes.now }
    ensures found { IfSome result (λ x. bytes.now ≡ cbor.head 7 22 ++ x.now) }
    ensures none { IfNone result ((rest : List ℕ) → bytes.now ≡ cbor.head 7 22 ++ rest → ⊥) }
{
    let (value, rest) = head(bytes, Major::Simple)?;
    if value != NULL {
        return None;
    }
    Some(rest)
}
