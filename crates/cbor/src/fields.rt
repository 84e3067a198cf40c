//! Readers of the entries of maps whose keys are known small numbers, as the fields of a record (RFC 8949, sections 3.1
//! and 4.2.1). None of them allocates.

ghost use Rattle.std.specs.Prelude.{◌≡◌, option_map};
ghost use Rattle.cbor.specs.Reading.{head_at};
ghost use Rattle.cbor.specs.Shapes.{key_at, field_at, optional_field_at};

use crate::reader;

/// The key `key` of an entry of a map, where it is the next of `left` entries: how many entries are left after this
/// one, and the bytes from its value on. None where no entry is left, and where another key stands first, or none in
/// its shortest form (RFC 8949, sections 3.1 and 4.2.1). Constant time.
///
/// A map whose keys are known is read entry by entry, in the order of the keys, and none is left at its end:
///
/// ```text
/// let (left, rest) = map(bytes)?; // how many entries it has
/// let (left, rest) = field_key(left, 0, rest)?;
/// let (name, rest) = byte_string(rest)?;
/// let (amount, left, rest) = unsigned_field(left, 1, rest)?;
/// let whole = left == 0;
/// ```
#[tactic(auto, unfolding(crate::specs::Shapes::key_at))]
pub fn field_key(left: u64, key: u64, bytes: &[u8]) -> Option<(u64, &[u8])>
    ensures { option_map (λ x. (x.0, x.1.now)) result ≡ key_at key left bytes.now }
{
    if left == 0 {
        return None;
    }
    let (found, rest) = reader::unsigned(bytes)?;
    if found != key {
        return None;
    }
    Some((left - 1, rest))
}

/// The unsigned number under the key `key`, how many entries are left after it, and the bytes after it. None where
/// [`field_key`] gives none, and where its value is no unsigned number. Constant time.
#[tactic(auto, unfolding(crate::specs::Shapes::field_at))]
pub fn unsigned_field(left: u64, key: u64, bytes: &[u8]) -> Option<(u64, u64, &[u8])>
    ensures { option_map (λ x. (x.0, x.1, x.2.now)) result ≡ field_at key (head_at 0) left bytes.now }
{
    let (left, value) = field_key(left, key, bytes)?;
    let (number, rest) = reader::unsigned(value)?;
    Some((number, left, rest))
}

/// The unsigned number under the key `key` where that key stands next, or else no number; how many entries are left,
/// and the bytes from there on. None where the key stands there and its value is no unsigned number. Constant time.
#[tactic(auto, unfolding(crate::specs::Shapes::optional_field_at))]
pub fn optional_unsigned_field(
    left: u64,
    key: u64,
    bytes: &[u8],
) -> Option<(Option<u64>, u64, &[u8])>
    ensures { option_map (λ x. (x.0, x.1, x.2.now)) result ≡ optional_field_at key (head_at 0) left bytes.now }
{
    let Some((after, value)) = field_key(left, key, bytes) else {
        return Some((None, left, bytes));
    };
    let (number, rest) = reader::unsigned(value)?;
    Some((Some(number), after, rest))
}
