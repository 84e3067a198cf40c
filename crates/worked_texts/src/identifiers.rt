//! Digests of FIPS 180-4 and other known ones, and hexadecimal text in and out.

use super::fixture::{MEMORY, check, is_spelled};
use ident::{BlockHash, BodyHash, Hex, IdentFault, KeyHash, Point, ScriptHash, TxId};

/// The digests of nothing and of abc, which is written in both cases too.
const EMPTY: &str = "e3b0c44298fc1c149afbf4c8996fb92427ae41e4649b934ca495991b7852b855";

const ABC: &str = "ba7816bf8f01cfea414140de5dae2223b00361a396177a9cb410ff61f20015ad";

const ABC_MIXED: &str = "BA7816BF8f01cfea414140DE5DAE2223b00361a396177a9cb410ff61f20015aD";

/// The digests of one zero byte, and of 32.
const ZERO: &str = "6e340b9cffb37a989ca544e6bb780a2c78901d3fb33738768511a30617afa01d";

const ZEROS: &str = "66687aadf862bd776c8fc18b8e9f8e20089714856ee233b3902a591d0d5f2925";

#[test]
fn digests(rt: HostRuntime) {
    is_spelled(&rt, &[ABC], TxId::of_body(b"abc").as_bytes());
    is_spelled(&rt, &[EMPTY], TxId::of_body(b"").as_bytes());
    is_spelled(&rt, &[ABC], BlockHash::of_header(b"abc").as_bytes());
    is_spelled(&rt, &[ABC], BodyHash::of_body(b"abc").as_bytes());
    is_spelled(&rt, &[ZEROS], KeyHash::of_key(&[0; 32]).as_bytes());
    is_spelled(&rt, &[ZERO], ScriptHash::of_script(b"").as_bytes());
}

// The kinds of identifiers are one type, so one of them stands for all.
#[test]
fn texts_in_and_out(rt: HostRuntime) {
    let id = TxId::of_body(b"abc");
    for text in [ABC, ABC_MIXED] {
        let read = text.parse::<TxId>().expect(&rt, "an identifier");
        check(&rt, "read", read == id);
    }
    let shown = id.to_string(rt.alloc()).expect(&rt, MEMORY);
    check(&rt, "printed", shown.as_str() == ABC);
}

/// Texts of no identifier, why they are none, and that as text for people.
const REFUSED: &[(&str, IdentFault, &str)] = &[
    (
        "abc",
        IdentFault::OddDigits,
        "an odd number of hexadecimal digits",
    ),
    (
        "",
        IdentFault::WrongLength { bytes: 0 },
        "0 bytes in place of 32",
    ),
    (
        "7816bf8f01cfea414140de5dae2223b00361a396177a9cb410ff61f20015ad",
        IdentFault::WrongLength { bytes: 31 },
        "31 bytes in place of 32",
    ),
    (
        "ba7g16bf8f01cfea414140de5dae2223b00361a396177a9cb410ff61f20015ax",
        IdentFault::NotADigit {
            character: 'g',
            index: 3,
        },
        "'g' at index 3 is no hexadecimal digit",
    ),
];

#[test]
fn refused_text(rt: HostRuntime) {
    for (text, fault, message) in REFUSED {
        let found = text.parse::<TxId>().err();
        check(&rt, *text, found == Some(*fault));
        let shown = fault.to_string(rt.alloc()).expect(&rt, MEMORY);
        check(&rt, *text, shown.as_str() == *message);
    }
}

#[test]
fn bytes_in_and_out(rt: HostRuntime) {
    let sevens = [7u8; 32];
    let id = TxId::try_from(sevens.as_slice());
    check(&rt, "32", id == Ok(TxId::from_bytes([7; 32])));
    let short = TxId::try_from(&sevens[..31]);
    let want = Err(IdentFault::WrongLength { bytes: 31 });
    check(&rt, "31", short == want);
}

#[test]
fn order(rt: HostRuntime) {
    let low = TxId::from_bytes([1; 32]);
    let mut bytes = [1; 32];
    bytes[31] = 2;
    check(&rt, "identifiers", low < TxId::from_bytes(bytes));
    let genesis = Point::genesis();
    let hash = BlockHash::from_bytes([0; 32]);
    check(&rt, "number of the genesis", genesis.number == 0);
    check(&rt, "hash of the genesis", genesis.hash == hash);
    check(&rt, "a block", genesis < (Point { number: 1, hash }));
}

/// Genesis, and the block of the greatest number whose header's text is abc.
const GENESIS: &str = "0 0000000000000000000000000000000000000000000000000000000000000000";

const GREATEST: &str =
    "18446744073709551615 ba7816bf8f01cfea414140de5dae2223b00361a396177a9cb410ff61f20015ad";

#[test]
fn points(rt: HostRuntime) {
    let genesis = Point::genesis().to_string(rt.alloc());
    check(
        &rt,
        "genesis",
        genesis.expect(&rt, MEMORY).as_str() == GENESIS,
    );
    let point = Point {
        number: u64::MAX,
        hash: BlockHash::of_header(b"abc"),
    };
    let shown = point.to_string(rt.alloc()).expect(&rt, MEMORY);
    check(&rt, "a block", shown.as_str() == GREATEST);
}

#[test]
fn bytes_as_digits(rt: HostRuntime) {
    let shown = Hex(b"\x00\x0a\xf9").to_string(rt.alloc());
    check(&rt, "three", shown.expect(&rt, MEMORY).as_str() == "000af9");
    let shown = Hex(b"").to_string(rt.alloc()).expect(&rt, MEMORY);
    check(&rt, "none", shown.is_empty());
}
