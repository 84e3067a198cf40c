//! Items, and the readers and writers of their kinds.

use super::fixture::{MEMORY, check, hex, is_spelled};
use cbor::{
    CborFault, array, byte_string, decode, encode, fixed, map, negative, null, read, unsigned,
    write_array, write_byte_string, write_map, write_negative, write_null, write_unsigned,
};

// 24, -1000, four bytes, the heads of 25 members and of 2 entries, and null.
#[test]
fn each_kind_written(rt: HostRuntime) {
    let mut out = Vec::new(rt.alloc());
    write_unsigned(&mut out, 24).expect(&rt, MEMORY);
    write_negative(&mut out, 999).expect(&rt, MEMORY);
    write_byte_string(&mut out, &[1, 2, 3, 4]).expect(&rt, MEMORY);
    write_array(&mut out, 25).expect(&rt, MEMORY);
    write_map(&mut out, 2).expect(&rt, MEMORY);
    write_null(&mut out).expect(&rt, MEMORY);
    is_spelled(&rt, &["1818 3903e7 4401020304 9819 a2 f6"], &out);
}

/// The reader of this place finds this in the bytes: the number, n of the number -1 - n, the size of a byte string, its
/// one byte, or the count of members or of entries.
fn found(place: usize, bytes: &[u8]) -> Option<u64> {
    let (number, _) = match place {
        0 => unsigned(bytes)?,
        1 => negative(bytes)?,
        2 => match byte_string(bytes)? {
            (string, rest) => (string.len() as u64, rest),
        },
        3 => match fixed::<1>(bytes)? {
            (one, rest) => (u64::from(one[0]), rest),
        },
        4 => array(bytes)?,
        _ => map(bytes)?,
    };
    Some(number)
}

/// Texts, and what the readers find there. Null is found in the text of this name alone.
const TEXTS: &[(&str, [Option<u64>; 6])] = &[
    ("1818", [Some(24), None, None, None, None, None]),
    ("3903e7", [None, Some(999), None, None, None, None]),
    ("40", [None, None, Some(0), None, None, None]),
    ("4401020304", [None, None, Some(4), None, None, None]),
    ("4107f6", [None, None, Some(1), Some(7), None, None]),
    ("9819", [None, None, None, None, Some(25), None]),
    ("a2f6", [None, None, None, None, None, Some(2)]),
    (NULL, [None; 6]),
    // not the shortest form
    ("1817", [None; 6]),
    ("1900ff", [None; 6]),
    ("1a0000ffff", [None; 6]),
    ("1b00000000ffffffff", [None; 6]),
    ("580100", [None; 6]),
    // reserved, and indefinite lengths
    ("1c", [None; 6]),
    ("1f", [None; 6]),
    ("5f4100ff", [None; 6]),
    ("9fff", [None; 6]),
    ("bfff", [None; 6]),
    // false, undefined, 1.0, a text and a tag
    ("f4", [None; 6]),
    ("f7", [None; 6]),
    ("f93c00", [None; 6]),
    ("62c3bc", [None; 6]),
    ("c000", [None; 6]),
    // cut short
    ("", [None; 6]),
    ("18", [None; 6]),
    ("1bffffffffffffff", [None; 6]),
    ("4201", [None; 6]),
    ("5bffffffffffffffff00", [None; 6]),
];

/// The text of null.
const NULL: &str = "f6";

#[test]
fn each_kind_read(rt: HostRuntime) {
    for (text, want) in TEXTS {
        let bytes = hex(&rt, &[*text]);
        for (place, number) in want.iter().enumerate() {
            check(&rt, *text, found(place, &bytes) == *number);
        }
        check(&rt, *text, null(&bytes).is_some() == (*text == NULL));
    }
}

// A map of arrays of byte strings: where an allocation is refused the answer is OutOfMemory, and otherwise the item.
#[test]
fn refused_memory(rt: HostRuntime) {
    let text = b"\xa2\x01\x82\x41\x07\x41\x08\x02\x82\x41\x09\x80";
    match decode(rt.alloc(), text) {
        Ok(item) => {
            if let Ok(written) = encode(rt.alloc(), &item) {
                check(&rt, "written", written.as_slice() == text.as_slice());
            }
        }
        Err(fault) => check(&rt, "no memory", fault == CborFault::OutOfMemory),
    }
}

#[test]
fn front_of_longer_bytes(rt: HostRuntime) {
    let (_, length) = read(rt.alloc(), b"\x82\x01\x41\x02\x18").expect(&rt, "an item");
    check(&rt, "a byte behind it", length == 4);
    let fault = read(rt.alloc(), b"\x82\x01").err();
    check(&rt, "cut", fault == Some(CborFault::Malformed));
}
