//! Where texts of items go wrong.

use super::fixture::{MEMORY, check, hex};
use std::alloc::AllocGlobal;
use std::process::Abort;
use wellformed::first_misfit;

/// Texts of items.
const WELL: &[&str] = &[
    "00",
    "f6",
    "1818",
    "190100",
    "1a0001ffff",
    "1b00000001ffffffff",
    "4101",
    "820100",
    "a201000200",
];

const ENDS: &str = "the text ends before its item does";

/// Bytes that are the text of no item, and what is told of them: first bytes of no item, numbers and counts with shorter
/// forms, texts that end too early, also where a count claims more members than there can be, and bytes behind an item.
const ILL: &[(&str, &str)] = &[
    ("f7", "byte 0 begins no item"),
    ("1c", "byte 0 begins no item"),
    ("ff", "byte 0 begins no item"),
    ("60", "byte 0 begins no item"),
    ("8201ff", "byte 2 begins no item"),
    ("bbffffffffffffffff0001ff", "byte 11 begins no item"),
    ("1817", "byte 1 makes a number that has a shorter form"),
    ("1900ff", "byte 1 makes a number that has a shorter form"),
    ("1a0000", "byte 2 makes a number that has a shorter form"),
    (
        "1a0000ffff",
        "byte 2 makes a number that has a shorter form",
    ),
    (
        "1b00000000ffffffff",
        "byte 4 makes a number that has a shorter form",
    ),
    ("9817", "byte 1 makes a number that has a shorter form"),
    ("", ENDS),
    ("18", ENDS),
    ("1901", ENDS),
    ("1b000000", ENDS),
    ("1b00000001ffffff", ENDS),
    ("8201", ENDS),
    ("4201", ENDS),
    ("9bffffffffffffffff00", ENDS),
    ("5bffffffffffffffff0001ff", ENDS),
    ("82010000", "the text goes on at byte 3 behind its item"),
    (
        "82a100a2020001000001",
        "the text goes on at byte 9 behind its item",
    ),
];

/// Items but for their keys, of which one is less than the one before it, or the same; also in a value and in a key.
const OUT_OF_ORDER: &[(&str, &str)] = &[
    (
        "a202000100",
        "the key at byte 3 is not after the key before it",
    ),
    (
        "a201000100",
        "the key at byte 3 is not after the key before it",
    ),
    (
        "82a100a20200010000",
        "the key at byte 6 is not after the key before it",
    ),
    (
        "a1a20200010000",
        "the key at byte 4 is not after the key before it",
    ),
];

/// This is told of the bytes.
fn tells(rt: &(impl Abort + AllocGlobal), bytes: &[u8], told: &str) {
    let misfit = first_misfit(bytes).expect(rt, told);
    let line = format!(in rt.alloc(); "{misfit}").expect(rt, MEMORY);
    check(rt, told, line.as_str() == told);
}

#[test]
fn texts_that_are_well(rt: HostRuntime) {
    for text in WELL {
        check(&rt, *text, first_misfit(&hex(&rt, &[*text])).is_none());
    }
}

#[test]
fn places_in_bytes_that_are_no_text(rt: HostRuntime) {
    for (text, told) in ILL {
        tells(&rt, &hex(&rt, &[*text]), *told);
    }
    for (text, told) in OUT_OF_ORDER {
        tells(&rt, &hex(&rt, &[*text]), *told);
    }
}

// 63 arrays in one another may hold an empty one, and nothing that has a member.
#[test]
fn arrays_as_deep_as_may_be(rt: HostRuntime) {
    let mut bytes = Vec::new(rt.alloc());
    bytes.resize(63, 0x81).expect(&rt, MEMORY);
    bytes.push(0x80).expect(&rt, MEMORY);
    assert!(&rt; first_misfit(&bytes).is_none());
    bytes[63] = 0x81;
    tells(&rt, &bytes, "byte 63 begins no item");
}
