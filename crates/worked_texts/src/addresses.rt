//! Addresses as text: a kind and a network in two digits, and 64 digits of a hash.

use super::fixture::{MEMORY, check};
use ident::{KeyHash, ScriptHash};
use std::process::Abort;
use tx::{Address, AddressFault, Credential};

/// Keys on the networks 0 and 15, and a script on network 1.
const KEY: &str = "600101010101010101010101010101010101010101010101010101010101010101";

const KEY_ON_15: &str = "6fabababababababababababababababababababababababababababababababab";

const KEY_ON_15_MIXED: &str = "6FABababABABABABABABABABABABABABABABABABABABABABABABABABABABABABab";

const SCRIPT: &str = "710202020202020202020202020202020202020202020202020202020202020202";

/// The address of the key whose hash has 32 times this byte.
fn of_key(rt: &impl Abort, network: u8, byte: u8) -> Address {
    let hash = KeyHash::from_bytes([byte; 32]);
    Address::new(network, Credential::Key(hash)).expect(rt, "a network")
}

/// The address of the script whose hash has 32 times this byte.
fn of_script(rt: &impl Abort, network: u8, byte: u8) -> Address {
    let hash = ScriptHash::from_bytes([byte; 32]);
    Address::new(network, Credential::Script(hash)).expect(rt, "a network")
}

/// The address is printed as this text, and read from it.
fn has_text(rt: &(impl Abort + AllocGlobal), address: Address, text: &str) {
    let shown = address.to_string(rt.alloc()).expect(rt, MEMORY);
    check(rt, text, shown.as_str() == text);
    check(rt, text, text.parse::<Address>() == Ok(address));
}

#[test]
fn addresses_in_and_out(rt: HostRuntime) {
    has_text(&rt, of_key(&rt, 0, 1), KEY);
    has_text(&rt, of_key(&rt, 15, 0xab), KEY_ON_15);
    has_text(&rt, of_script(&rt, 1, 2), SCRIPT);
    let mixed = KEY_ON_15_MIXED.parse::<Address>();
    check(&rt, "mixed", mixed == Ok(of_key(&rt, 15, 0xab)));
}

/// Texts of no address, why they are none, and that as text for people: an odd number of digits, 32 bytes, none at all,
/// a character that is no digit where the kind is another one too, and the kinds 0, 8 and 14, of which 0 has a staking
/// part, 8 is Byron's and 14 is for rewards.
const REFUSED: &[(&str, AddressFault, &str)] = &[
    (
        "60010",
        AddressFault::OddDigits,
        "an odd number of hexadecimal digits",
    ),
    (
        "6001010101010101010101010101010101010101010101010101010101010101",
        AddressFault::WrongLength { bytes: 32 },
        "32 bytes in place of 33",
    ),
    (
        "",
        AddressFault::WrongLength { bytes: 0 },
        "0 bytes in place of 33",
    ),
    (
        "00010101010101010101010101010101010101010101010101010101010101010g",
        AddressFault::NotADigit {
            character: 'g',
            index: 65,
        },
        "'g' at index 65 is no hexadecimal digit",
    ),
    (
        "000101010101010101010101010101010101010101010101010101010101010101",
        AddressFault::OtherKind,
        "neither the address of a key alone nor that of a script alone",
    ),
    (
        "800101010101010101010101010101010101010101010101010101010101010101",
        AddressFault::OtherKind,
        "neither the address of a key alone nor that of a script alone",
    ),
    (
        "e00101010101010101010101010101010101010101010101010101010101010101",
        AddressFault::OtherKind,
        "neither the address of a key alone nor that of a script alone",
    ),
];

#[test]
fn refused_addresses(rt: HostRuntime) {
    for (text, fault, message) in REFUSED {
        let found = text.parse::<Address>().err();
        check(&rt, *text, found == Some(*fault));
        let shown = fault.to_string(rt.alloc()).expect(&rt, MEMORY);
        check(&rt, *text, shown.as_str() == *message);
    }
}
