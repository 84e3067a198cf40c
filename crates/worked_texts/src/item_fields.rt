//! Entries of maps whose keys are known.

use super::fixture::{check, hex};
use cbor::{field_key, map, optional_unsigned_field, unsigned_field};

/// What is read of the map {1: a number, maybe 3: a number}: both numbers, 0 where there is no second one, and how many
/// bytes are left.
fn pair(bytes: &[u8]) -> Option<[u64; 3]> {
    let (left, rest) = map(bytes)?;
    let (first, left, rest) = unsigned_field(left, 1, rest)?;
    let (third, left, rest) = optional_unsigned_field(left, 3, rest)?;
    if left > 0 {
        return None;
    }
    Some([first, third.unwrap_or(0), rest.len() as u64])
}

/// Texts, and what is read of them.
const RECORDS: &[(&str, Option<[u64; 3]>)] = &[
    ("a1 0105 ff", Some([5, 0, 1])),
    ("a2 011818 03190100", Some([24, 256, 0])),
    // an entry that is left out may be followed by the same bytes
    ("a1 0105 0306", Some([5, 0, 2])),
    // no entry, and an array in place of the map
    ("a0", None),
    ("810105", None),
    // the first entry is missing
    ("a10305", None),
    // an unknown key, before and after
    ("a2 0005 0105", None),
    ("a2 0105 0205", None),
    // keys that fall, and a key twice
    ("a2 0306 0105", None),
    ("a2 0105 0105", None),
    // a key in a long form
    ("a1 180105", None),
    // a value of another kind
    ("a2 0105 034106", None),
    // a head that claims more entries than stand there
    ("a2 0105", None),
    ("bbffffffffffffffff 0105", None),
];

#[test]
fn fields_of_records(rt: HostRuntime) {
    for (text, want) in RECORDS {
        let bytes = hex(&rt, &[*text]);
        check(&rt, *text, pair(&bytes) == *want);
    }
}

#[test]
fn keys_of_entries(rt: HostRuntime) {
    let text = b"\x00\x41\x07".as_slice();
    check(
        &rt,
        "the next key",
        matches!(field_key(1, 0, text), Some((0, [0x41, 0x07]))),
    );
    check(&rt, "no entry left", field_key(0, 0, text).is_none());
    check(&rt, "another key", field_key(1, 1, text).is_none());
}
