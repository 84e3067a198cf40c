//! Reading items with all that is in them. Recursion goes down the nesting alone, so its depth is bounded;
//! the time is linear in the bytes. A count that the bytes claim reserves nothing.

ghost use Rattle.std.specs.Prelude.{◌≡◌, ℕ, ◌≤◌, ◌<◌, [], length, take, IfOk, IfErr, OnErr};
ghost use Rattle.model.specs.Cbor as cbor;
ghost use Rattle.model.specs.Cbor.{Spells};
ghost use Rattle.cbor.specs.Tree.{item_of};
ghost use Rattle.cbor.specs.ItemReading.{single_at, item_at, items_at, pair_at, pairs_at, array_item_at, map_item_at};
ghost use Rattle.cbor.specs.Gives.{Gives, IfMalformed, IfWant};
ghost use Rattle.cbor.specs.Bare.{IsBareItem, AnnouncesParts};

use crate::fault::CborFault;
use crate::item::{Entries, Entry, Item, Items};
use crate::reader;
use std::alloc::Global;

/// An item that is no array and no map. Only a byte string that is not empty asks for memory.
#[tactic(auto, unfolding(crate::specs::ItemReading::single_at))]
fn single(alloc: Global, major: u8, bytes: &[u8]) -> Result<(Item, &[u8]), CborFault>
    ensures exact { Gives (λ x. (item_of x.0, x.1.now)) result (single_at major bytes.now) }
    ensures begins { IfErr result (λ fault. IfWant fault (AnnouncesParts bytes.now)) }
{
    match major {
        0 => {
            let (n, rest) = reader::unsigned(bytes).ok_or(CborFault::Malformed)?;
            Ok((Item::Unsigned(n), rest))
        }
        1 => {
            let (n, rest) = reader::negative(bytes).ok_or(CborFault::Malformed)?;
            Ok((Item::Negative(n), rest))
        }
        2 => {
            let (text, rest) = reader::byte_string(bytes).ok_or(CborFault::Malformed)?;
            let mut copy = Vec::new(alloc);
            copy.extend_from_slice(text)?;
            Ok((Item::Bytes(copy), rest))
        }
        _ => {
            let rest = reader::null(bytes).ok_or(CborFault::Malformed)?;
            Ok((Item::Null, rest))
        }
    }
}

/// `count` members, one after the other, which nest at most `depth` deep. Where there is none no memory is asked for.
#[cycle(reading)]
fn members(
    alloc: Global,
    depth: usize,
    count: u64,
    bytes: &[u8],
) -> Result<(Items, &[u8]), CborFault>
    ensures exact { Gives (λ x. (x.0, x.1.now)) result (items_at (item_at depth) count bytes.now) }
    ensures some { OnErr result (0 < count) }
{
    let mut members = Vec::new(alloc);
    let mut rest = bytes;
    for _ in 0..count {
        let (member, after) = item(alloc, depth, rest)?;
        members.push(member)?;
        rest = after;
    }
    Ok((Items::from_vec(members), rest))
}

/// An entry whose key stands after the one with this text, and the text of its own key.
#[cycle(reading)]
#[tactic(auto, unfolding(crate::specs::ItemReading::pair_at))]
fn entry<'a>(
    alloc: Global,
    depth: usize,
    before: &[u8],
    bytes: &'a [u8],
) -> Result<(Entry, &'a [u8], &'a [u8]), CborFault>
    ensures { Gives (λ x. (item_of x.0.key, item_of x.0.value, x.1.now, x.2.now)) result
        (pair_at (item_at depth) before.now bytes.now) }
{
    let (key, after_key) = item(alloc, depth, bytes)?;
    let text = &bytes[..bytes.len() - after_key.len()];
    if before.cmp(text).is_ge() {
        return Err(CborFault::Malformed);
    }
    let (value, rest) = item(alloc, depth, after_key)?;
    Ok((Entry { key, value }, text, rest))
}

/// `count` entries, one after the other, whose keys rise, and which nest at most `depth` deep. Where there is none no
/// memory is asked for.
#[cycle(reading)]
fn entries(
    alloc: Global,
    depth: usize,
    count: u64,
    bytes: &[u8],
) -> Result<(Entries, &[u8]), CborFault>
    ensures exact { Gives (λ x. (x.0, x.1.now)) result (pairs_at (item_at depth) [] count bytes.now) }
    ensures some { OnErr result (0 < count) }
{
    let mut entries = Vec::new(alloc);
    let mut before = &bytes[..0];
    let mut rest = bytes;
    for _ in 0..count {
        let (next, text, after) = entry(alloc, depth, before, rest)?;
        entries.push(next)?;
        before = text;
        rest = after;
    }
    Ok((Entries::from_vec(entries), rest))
}

/// An array, whose members nest at most so deep.
#[cycle(reading)]
#[tactic(auto, unfolding(crate::specs::ItemReading::array_item_at))]
fn array(alloc: Global, depth: usize, bytes: &[u8]) -> Result<(Item, &[u8]), CborFault>
    ensures exact { Gives (λ x. (item_of x.0, x.1.now)) result (array_item_at (item_at depth) bytes.now) }
    ensures begins { IfErr result (λ fault. IfWant fault (AnnouncesParts bytes.now)) }
{
    let (count, rest) = reader::array(bytes).ok_or(CborFault::Malformed)?;
    let (members, rest) = members(alloc, depth, count, rest)?;
    Ok((Item::Array(members), rest))
}

/// A map, whose keys and values nest at most so deep.
#[cycle(reading)]
#[tactic(auto, unfolding(crate::specs::ItemReading::map_item_at))]
fn map(alloc: Global, depth: usize, bytes: &[u8]) -> Result<(Item, &[u8]), CborFault>
    ensures exact { Gives (λ x. (item_of x.0, x.1.now)) result (map_item_at (item_at depth) bytes.now) }
    ensures begins { IfErr result (λ fault. IfWant fault (AnnouncesParts bytes.now)) }
{
    let (count, rest) = reader::map(bytes).ok_or(CborFault::Malformed)?;
    let (entries, rest) = entries(alloc, depth, count, rest)?;
    Ok((Item::Map(entries), rest))
}

/// The item that stands first, which nests at most so deep, and the bytes after it.
#[cycle(reading)]
#[tactic(auto, unfolding(crate::specs::ItemReading::item_at, crate::specs::ItemReading::item_with, crate::specs::ItemReading::item_of_major))]
fn item(alloc: Global, depth: usize, bytes: &[u8]) -> Result<(Item, &[u8]), CborFault>
    ensures exact { Gives (λ x. (item_of x.0, x.1.now)) result (item_at depth bytes.now) }
    ensures begins { IfErr result (λ fault. IfWant fault (AnnouncesParts bytes.now)) }
{
    if depth == 0 {
        return Err(CborFault::Malformed);
    }
    let (first, _) = bytes.split_first().ok_or(CborFault::Malformed)?;
    match *first / 32 {
        4 => array(alloc, depth - 1, bytes),
        5 => map(alloc, depth - 1, bytes),
        major => single(alloc, major, bytes),
    }
}

/// How deep an item may nest, which bounds the recursion.
const MAX_NESTING: usize = 64;

/// The item whose text the bytes begin with, and how many bytes that text has (RFC 8949, section 4.2.1).
/// Malformed where the bytes begin with no item's text, OutOfMemory as [`decode`]; what follows the text is not
/// looked at. Linear in the bytes of the text.
pub fn read(alloc: Global, bytes: &[u8]) -> Result<(Item, usize), CborFault>
    ensures found { IfOk result (λ x. (x.1 ≤ length bytes.now) × Spells (item_of x.0) (take x.1 bytes.now)) }
    ensures malformed { IfErr result (λ fault. IfMalformed fault ((item : cbor.Item) (n : ℕ) →
        Spells item (take n bytes.now) → ⊥)) }
    ensures want { IfErr result (λ fault. IfWant fault ((item : cbor.Item) (n : ℕ) →
        Spells item (take n bytes.now) → IsBareItem item → ⊥)) }
    ensures begins { IfErr result (λ fault. IfWant fault (AnnouncesParts bytes.now)) }
{
    let (item, rest) = item(alloc, MAX_NESTING, bytes)?;
    Ok((item, bytes.len() - rest.len()))
}

/// The item whose text the bytes are, all of them (RFC 8949, section 4.2.1). Malformed where the bytes are no item's
/// text, OutOfMemory where memory ran out before that was known: the tree grows as it is read. Only bytes that begin
/// with the head of a byte string, an array or a map with something in it ask for memory. Linear in the bytes.
///
/// ```text
/// let item = cbor::decode(alloc, b"\x82\x01\xf6")?; // the array of 1 and null
/// assert_eq!(cbor::encode(alloc, &item)?.as_slice(), b"\x82\x01\xf6");
/// ```
pub fn decode(alloc: Global, bytes: &[u8]) -> Result<Item, CborFault>
    ensures found { IfOk result (λ item. Spells (item_of item) bytes.now) }
    ensures malformed { IfErr result (λ fault. IfMalformed fault ((item : cbor.Item) → Spells item bytes.now → ⊥)) }
    ensures want { IfErr result (λ fault. IfWant fault ((item : cbor.Item) → Spells item bytes.now → IsBareItem item
        → ⊥)) }
    ensures begins { IfErr result (λ fault. IfWant fault (AnnouncesParts bytes.now)) }
{
    let (item, length) = read(alloc, bytes)?;
    if length != bytes.len() {
        return Err(CborFault::Malformed);
    }
    Ok(item)
}
