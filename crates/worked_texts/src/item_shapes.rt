//! Lists and maps of typed items.

use super::fixture::{check, hex};
use cbor::{
    CborFault, Decode, DecodeEntry, bounded, entries_of_map, list_array, nonempty_map, rising,
    short,
};
use std::alloc::Global;

/// A number below 100.
#[derive(Drop)]
struct Small {
    number: u64,
}

impl Decode for Small {
    ghost use Rattle.std.specs.Prelude.{ℕ};
    ghost use Rattle.cbor.specs.Shapes.{bounded_at};

    ghost Plain = { ℕ };

    ghost plain = { λ x. x.number };

    ghost decoded_at = { λ depth. bounded_at 100 };

    fn decode(_alloc: Global, _depth: usize, bytes: &[u8]) -> Result<(Small, &[u8]), CborFault> {
        let (number, rest) = bounded(bytes, 100).ok_or(CborFault::Malformed)?;
        Ok((Small { number }, rest))
    }
}

/// A short text with a number below 100.
#[derive(Drop)]
struct Share {
    length: usize,
    number: u64,
}

impl DecodeEntry for Share {
    ghost use Rattle.std.specs.Prelude.{ℕ, List, length};
    ghost use Rattle.cbor.specs.Shapes.{short_at, bounded_at, entry_at};

    ghost Plain = { ℕ × ℕ };

    ghost plain = { λ x. (x.length, x.number) };

    ghost decoded_at = { entry_at (λ text number. (length text, number)) (short_at 2) (bounded_at 100) };

    #[tactic(auto, unfolding(cbor::specs::Shapes::entry_at))]
    fn decode_entry<'a>(
        _alloc: Global,
        before: &[u8],
        bytes: &'a [u8],
    ) -> Result<(Share, &'a [u8], &'a [u8]), CborFault> {
        let (key, rest) = short(bytes, 2).ok_or(CborFault::Malformed)?;
        let text = rising(before, bytes, rest).ok_or(CborFault::Malformed)?;
        let (number, rest) = bounded(rest, 100).ok_or(CborFault::Malformed)?;
        let length = key.len();
        Ok((Share { length, number }, text, rest))
    }
}

/// The numbers of a list of three, and how many bytes are left.
fn numbers(alloc: Global, bytes: &[u8]) -> Result<[u64; 4], CborFault> {
    match list_array::<Small>(alloc, 1, bytes)? {
        (list, rest) => match list.as_slice() {
            [one, two, three] => Ok([one.number, two.number, three.number, rest.len() as u64]),
            _ => Err(CborFault::OutOfMemory),
        },
    }
}

/// The lengths and numbers of a map of two, and how many bytes are left.
fn shares(alloc: Global, bytes: &[u8]) -> Result<[u64; 4], CborFault> {
    match nonempty_map::<Share>(alloc, bytes)? {
        (list, _) => match list.as_slice() {
            [one, two] => Ok([one.length as u64, one.number, two.length as u64, two.number]),
            _ => Err(CborFault::OutOfMemory),
        },
    }
}

/// A text of a map, or of a list, and what is read of it, if anything is.
type Shape = (bool, &'static str, Option<[u64; 4]>);

const SHAPES: &[Shape] = &[
    (false, "83 01 1863 00 f6", Some([1, 99, 0, 1])),
    // too few, one that is too great, and a count that no memory holds
    (false, "82 01", None),
    (false, "81 1864", None),
    (false, "9bffffffffffffffff 01", None),
    (true, "a2 4109 05 420000 06 ff", Some([1, 5, 2, 6])),
    // none, a key twice, one that is too long, and a count that no memory holds
    (true, "a0", None),
    (true, "a2 4109 05 4109 06", None),
    (true, "a1 43000000 05", None),
    (true, "bbffffffffffffffff 4109 05", None),
];

#[test]
fn lists_and_maps(rt: HostRuntime) {
    for (is_map, text, want) in SHAPES {
        let bytes = hex(&rt, &[*text]);
        let found = if *is_map {
            shares(rt.alloc(), &bytes)
        } else {
            numbers(rt.alloc(), &bytes)
        };
        check(&rt, *text, found == want.ok_or(CborFault::Malformed));
    }
}

#[test]
fn map_of_no_share(rt: HostRuntime) {
    let (none, rest) = entries_of_map::<Share>(rt.alloc(), b"\xa0").expect(&rt, "a map");
    check(&rt, "none", none.is_empty() && rest.is_empty());
}
