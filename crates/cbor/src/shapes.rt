//! Readers of shapes that typed readers are made of: each accepts the one deterministic text of its shape.

ghost use Rattle.std.specs.Prelude.{◌≡◌, ◌<◌, [], List, ℕ, Some, map, option_map, IfErr, OnErr};
ghost use Rattle.cbor.specs.Gives.{Gives, IfWant};
ghost use Rattle.cbor.specs.Bare.{BeginsWithSome};
ghost use Rattle.cbor.specs.Shapes.{Reading, bounded_at, short_at, members_at, list_at, list_array_at, nonempty_at};
ghost use Rattle.cbor.specs.Shapes.{EntryReading, rising_at, entries_at, map_at};

use crate::fault::CborFault;
use crate::reader;
use std::alloc::Global;

/// The unsigned number below `limit` that stands first, and the bytes after it. None where [`unsigned`] gives
/// none, or one that is not below the limit. Constant time.
///
/// [`unsigned`]: crate::unsigned
#[tactic(auto, unfolding(crate::specs::Shapes::bounded_at, crate::specs::Shapes::such_at))]
pub fn bounded(bytes: &[u8], limit: u64) -> Option<(u64, &[u8])>
    ensures { option_map (λ x. (x.0, x.1.now)) result ≡ bounded_at limit bytes.now }
{
    let (number, rest) = reader::unsigned(bytes)?;
    if number >= limit {
        return None;
    }
    Some((number, rest))
}

/// The byte string of at most `most` bytes that stands first, and the bytes after it. None where
/// [`byte_string`] gives none, or a longer one. Constant time; nothing is copied.
///
/// [`byte_string`]: crate::byte_string
#[tactic(auto, unfolding(crate::specs::Shapes::short_at, crate::specs::Shapes::such_at))]
pub fn short(bytes: &[u8], most: usize) -> Option<(&[u8], &[u8])>
    ensures { option_map (λ x. (x.0.now, x.1.now)) result ≡ short_at most bytes.now }
{
    let (text, rest) = reader::byte_string(bytes)?;
    if text.len() > most {
        return None;
    }
    Some((text, rest))
}

/// The bytes from the first member on of an array of exactly `count` members that stands first; the members are
/// not looked at. None where [`array`] gives none, or another count. Constant time.
///
/// [`array`]: crate::array
#[tactic(auto, unfolding(crate::specs::Shapes::members_at))]
pub fn members(bytes: &[u8], count: u64) -> Option<&[u8]>
    ensures { option_map (λ x. x.now) result ≡ members_at count bytes.now }
{
    let (found, rest) = reader::array(bytes)?;
    if found != count {
        return None;
    }
    Some(rest)
}

/// The text of a map's key that was read: what stands in `bytes` before `rest`. None where it does not stand after
/// the text `before` of the key before, in bytewise order (RFC 8949, section 4.2.1); before the first key stands
/// the empty text. Linear in the shorter text.
#[tactic(auto, unfolding(crate::specs::Shapes::rising_at))]
pub fn rising<'a>(before: &[u8], bytes: &'a [u8], rest: &[u8]) -> Option<&'a [u8]>
    ensures { option_map (λ x. x.now) result ≡ rising_at before.now bytes.now rest.now }
{
    let text = &bytes[..bytes.len().saturating_sub(rest.len())];
    if before.cmp(text).is_ge() {
        return None;
    }
    Some(text)
}

/// What an item of one shape is read to, as a member of a list.
pub trait Decode: Drop {
    /// The plain data that a value stands for.
    ghost Plain: { Type 0 };

    /// What a value stands for.
    ghost plain: { Self → Plain };

    /// The reading of the shape, given how deep its items may nest. A shape that never nests deeper than its readers
    /// ask for may leave the number aside.
    ghost decoded_at: { ℕ → Reading Plain };

    /// The value that stands first, and the bytes after it. Malformed where no item of the shape stands there that
    /// nests at most `depth` deep.
    fn decode(alloc: Global, depth: usize, bytes: &[u8]) -> Result<(Self, &[u8]), CborFault>
        ensures { Gives (λ x. (plain x.0, x.1.now)) result (decoded_at depth bytes.now) };
}

/// `count` like items, each of which nests at most `depth` deep, one after the other, and the bytes after them.
/// Malformed where one of them is. The count reserves nothing: memory is taken for what was read, and none is asked for
/// where there is no item.
pub fn list<T: Decode>(
    alloc: Global,
    depth: usize,
    count: u64,
    bytes: &[u8],
) -> Result<(Vec<T>, &[u8]), CborFault>
    ensures exact { Gives (λ x. (map T.plain x.0.items, x.1.now)) result
        (list_at (T.decoded_at depth) count bytes.now) }
    ensures some { OnErr result (0 < count) }
{
    let mut list = Vec::new(alloc);
    let mut rest = bytes;
    for _ in 0..count {
        let (next, after) = T::decode(alloc, depth, rest)?;
        list.push(next)?;
        rest = after;
    }
    Ok((list, rest))
}

/// The members of an array of like items that stands first, each of which nests at most `depth` deep, and the bytes
/// after it (RFC 8949, section 3.1). Malformed where no such array stands there. The count that the head claims
/// reserves nothing, and only the head of an array with members asks for memory.
#[tactic(auto, unfolding(crate::specs::Shapes::list_array_at))]
pub fn list_array<T: Decode>(
    alloc: Global,
    depth: usize,
    bytes: &[u8],
) -> Result<(Vec<T>, &[u8]), CborFault>
    ensures exact { Gives (λ x. (map T.plain x.0.items, x.1.now)) result
        (list_array_at (T.decoded_at depth) bytes.now) }
    ensures some { OnErr result ((rest : List ℕ) → list_array_at (T.decoded_at depth) bytes.now ≡ Some ([], rest) → ⊥) }
    ensures begins { IfErr result (λ fault. IfWant fault (BeginsWithSome 4 bytes.now)) }
{
    let (count, rest) = reader::array(bytes).ok_or(CborFault::Malformed)?;
    if count == 0 {
        return Ok((Vec::new(alloc), rest));
    }
    list(alloc, depth, count, rest)
}

/// What an entry of a map is read to.
pub trait DecodeEntry: Drop {
    /// The plain data that an entry stands for.
    ghost Plain: { Type 0 };

    /// What an entry stands for.
    ghost plain: { Self → Plain };

    /// The reading of the entry.
    ghost decoded_at: { EntryReading Plain };

    /// The entry that stands first, the text of its key, and the bytes after it. Malformed where no such entry stands
    /// there, and where the key's text does not stand after the text `before`, as [`rising`] has it.
    fn decode_entry<'a>(
        alloc: Global,
        before: &[u8],
        bytes: &'a [u8],
    ) -> Result<(Self, &'a [u8], &'a [u8]), CborFault>
        ensures { Gives (λ x. (plain x.0, x.1.now, x.2.now)) result (decoded_at before.now bytes.now) };
}

/// `count` entries, one after the other, whose keys' texts rise strictly, and the bytes after them. Malformed where one
/// of them is. The count reserves nothing: memory is taken for what was read, and none is asked for where there is no
/// entry.
pub fn entries<E: DecodeEntry>(
    alloc: Global,
    count: u64,
    bytes: &[u8],
) -> Result<(Vec<E>, &[u8]), CborFault>
    ensures exact { Gives (λ x. (map E.plain x.0.items, x.1.now)) result (entries_at E.decoded_at [] count bytes.now) }
    ensures some { OnErr result (0 < count) }
{
    let mut entries = Vec::new(alloc);
    let mut before = &bytes[..0];
    let mut rest = bytes;
    for _ in 0..count {
        let (next, text, after) = E::decode_entry(alloc, before, rest)?;
        entries.push(next)?;
        before = text;
        rest = after;
    }
    Ok((entries, rest))
}

/// The entries of a map that stands first, and the bytes after it (RFC 8949, sections 3.1 and 4.2.1). Malformed
/// where no such map stands there. The count that the head claims reserves nothing, and only the head of a map with
/// entries asks for memory.
#[tactic(auto, unfolding(crate::specs::Shapes::map_at))]
pub fn entries_of_map<E: DecodeEntry>(
    alloc: Global,
    bytes: &[u8],
) -> Result<(Vec<E>, &[u8]), CborFault>
    ensures exact { Gives (λ x. (map E.plain x.0.items, x.1.now)) result (map_at E.decoded_at bytes.now) }
    ensures begins { IfErr result (λ fault. IfWant fault (BeginsWithSome 5 bytes.now)) }
{
    let (count, rest) = reader::map(bytes).ok_or(CborFault::Malformed)?;
    entries(alloc, count, rest)
}

/// The entries of a map that is not empty. Malformed as [`entries_of_map`], and for the empty map. Only the head of a
/// map with entries asks for memory.
#[tactic(auto, using(crate::proofs::ListLoops::none_plain), unfolding(crate::specs::Shapes::nonempty_at, crate::specs::Shapes::such_at))]
pub fn nonempty_map<E: DecodeEntry>(
    alloc: Global,
    bytes: &[u8],
) -> Result<(Vec<E>, &[u8]), CborFault>
    ensures exact { Gives (λ x. (map E.plain x.0.items, x.1.now)) result
        (nonempty_at (map_at E.decoded_at) bytes.now) }
    ensures begins { IfErr result (λ fault. IfWant fault (BeginsWithSome 5 bytes.now)) }
{
    let (entries, rest) = entries_of_map(alloc, bytes)?;
    if entries.is_empty() {
        return Err(CborFault::Malformed);
    }
    Ok((entries, rest))
}
