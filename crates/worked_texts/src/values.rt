//! Values and mints that are made of assets in any order, assets that are refused, and what a value holds.

use super::fixture::{MEMORY, ONES, TWOS, boxed, check, hex, is_spelled, is_text};
use ident::ScriptHash;
use std::process::Abort;
use value::{AssetFault, AssetQuantity, Mint, Policy, Value};

/// Assets, each by the byte that the 32 bytes of its policy are, its name and its quantity.
fn assets_of<Q: Copy + Drop>(
    rt: &(impl Abort + AllocGlobal),
    parts: &[(u8, &[u8], Q)],
) -> Vec<AssetQuantity<Q>> {
    let mut assets = Vec::new(rt.alloc());
    for (byte, name, quantity) in parts {
        let asset = AssetQuantity {
            policy: ScriptHash::from_bytes([*byte; 32]),
            name: Vec::from_slice(rt.alloc(), *name).expect(rt, MEMORY),
            quantity: *quantity,
        };
        assets.push(asset).expect(rt, MEMORY);
    }
    assets
}

/// The value of `coin` lovelace and these assets.
pub fn value_of(
    rt: &(impl Abort + AllocGlobal),
    coin: u64,
    parts: &[(u8, &[u8], u64)],
) -> Result<Value, AssetFault> {
    Value::new(rt.alloc(), coin, assets_of(rt, parts))
}

/// What mints these assets.
pub fn mint_of(
    rt: &(impl Abort + AllocGlobal),
    parts: &[(u8, &[u8], i64)],
) -> Result<Mint, AssetFault> {
    Mint::new(rt.alloc(), assets_of(rt, parts))
}

/// 33 bytes, of which names are made, the first 32 of them, and the first 31.
const LONG: &[u8] = b"0123456789abcdefghijklmnopqrstuvw";

const LONGEST: &[u8] = b"0123456789abcdefghijklmnopqrstuv";

const SHORTER: &[u8] = b"0123456789abcdefghijklmnopqrstu";

/// An asset by the byte of its policy, its name and its quantity.
type Held = (u8, &'static [u8], u64);

/// An amount of lovelace, and assets, and the text of their value.
type Made = (u64, &'static [Held], &'static [&'static str]);

/// 5 lovelace and the assets of two policies, of which the first has the empty name and two longer ones.
const SORTED: &[&str] = &[
    "8205a25820",
    ONES,
    "a3 4001 41ff1818 42000002 5820",
    TWOS,
    "a1401b8000000000000000",
];

/// The same assets in three orders, and 5 of another.
const ONE_ORDER: &[Held] = &[
    (1, b"", 1),
    (1, b"\xff", 24),
    (1, b"\0\0", 2),
    (2, b"", 1 << 63),
];

const OTHER_ORDER: &[Held] = &[
    (2, b"", 1 << 63),
    (1, b"\0\0", 2),
    (1, b"\xff", 24),
    (1, b"", 1),
];

const THIRD_ORDER: &[Held] = &[
    (1, b"\0\0", 2),
    (2, b"", 1 << 63),
    (1, b"", 1),
    (1, b"\xff", 24),
];

const FIVE: &[Held] = &[(1, b"", 5)];

/// The assets in three orders, others, coin alone, and names of 31 and 32 bytes.
const VALUES: &[Made] = &[
    (5, ONE_ORDER, SORTED),
    (5, OTHER_ORDER, SORTED),
    (5, THIRD_ORDER, SORTED),
    (800, FIVE, &["82190320a15820", ONES, "a14005"]),
    (24, &[], &["1818"]),
    (
        1,
        &[(1, LONGEST, 1), (2, LONGEST, 1), (1, SHORTER, 1)],
        &[
            "8201a25820",
            ONES,
            "a2 581f 303132333435363738396162636465666768696a6b6c6d6e6f707172737475 01",
            "   5820 303132333435363738396162636465666768696a6b6c6d6e6f70717273747576 01 5820",
            TWOS,
            "a1 5820 303132333435363738396162636465666768696a6b6c6d6e6f70717273747576 01",
        ],
    ),
];

/// Quantities of 0, assets that stand there twice, and names of 33 bytes; of two faults the first.
const NO_VALUES: &[(&[Held], AssetFault)] = &[
    (&[(1, LONGEST, 1), (1, b"", 0)], AssetFault::ZeroQuantity),
    (
        &[(1, LONGEST, 1), (2, b"", 1), (1, LONGEST, 2)],
        AssetFault::Repeated,
    ),
    (
        &[(1, LONGEST, 0), (1, LONGEST, 0)],
        AssetFault::ZeroQuantity,
    ),
    (
        &[(1, b"", 0), (1, LONG, 1), (1, LONG, 1)],
        AssetFault::NameTooLong,
    ),
];

/// A value has this text.
fn has_text(rt: &(impl Abort + AllocGlobal), value: &Value, text: &[&str]) {
    let mut out = Vec::new(rt.alloc());
    value.write(&mut out).expect(rt, MEMORY);
    is_spelled(rt, text, &out);
}

#[test]
fn values_of_assets(rt: HostRuntime) {
    for (coin, assets, text) in VALUES {
        let value = boxed(&rt, value_of(&rt, *coin, *assets).expect(&rt, "a value"));
        has_text(&rt, &value, *text);
    }
    for (assets, want) in NO_VALUES {
        let fault = value_of(&rt, 1, *assets).err();
        check(&rt, "a fault", fault == Some(*want));
    }
}

/// The least and the greatest of what can be minted, and one under another name; and nothing, whose text isn't read
/// again.
const MINTS: &[(&[(u8, &[u8], i64)], &[&str])] = &[
    (
        &[(2, b"b", i64::MAX), (1, b"", -1), (2, b"a", i64::MIN)],
        &[
            "a25820",
            ONES,
            "a14020 5820",
            TWOS,
            "a2 41613b7fffffffffffffff 41621b7fffffffffffffff",
        ],
    ),
    (&[], &["a0"]),
];

/// What mints nothing, for a fault.
const NO_MINTS: &[(&[(u8, &[u8], i64)], AssetFault)] = &[
    (&[(1, b"", 3), (1, b"", -3)], AssetFault::Repeated),
    (&[(1, b"", 0)], AssetFault::ZeroQuantity),
    (&[(1, LONG, -1)], AssetFault::NameTooLong),
];

/// A mint has this text.
fn is_minted(rt: &(impl Abort + AllocGlobal), mint: &Mint, text: &[&str]) {
    let mut out = Vec::new(rt.alloc());
    mint.write(&mut out).expect(rt, MEMORY);
    is_spelled(rt, text, &out);
}

#[test]
fn mints_of_assets(rt: HostRuntime) {
    for (assets, text) in MINTS {
        let mint = boxed(&rt, mint_of(&rt, *assets).expect(&rt, "a mint"));
        is_minted(&rt, &mint, *text);
    }
    for (assets, want) in NO_MINTS {
        let fault = mint_of(&rt, *assets).err();
        check(&rt, "a fault", fault == Some(*want));
    }
}

/// The policies of the sorted assets, by their byte, with the names and quantities of each.
const POLICIES: &[(u8, &[(&[u8], u64)])] = &[
    (1, &[(b"", 1), (b"\xff", 24), (b"\0\0", 2)]),
    (2, &[(b"", 1 << 63)]),
];

/// A policy is that of this byte, with these names and quantities.
fn holds(rt: &impl Abort, policy: &Policy<u64>, byte: u8, tokens: &[(&[u8], u64)]) {
    check(rt, "policy", *policy.id.as_bytes() == [byte; 32]);
    check(rt, "names", policy.tokens.len() == tokens.len());
    for (token, (name, quantity)) in policy.tokens.iter().zip(tokens) {
        check(rt, "name", token.name.as_slice() == *name);
        check(rt, "quantity", token.quantity == *quantity);
    }
}

// Both policies with their names and quantities, in order.
#[test]
fn value_of_a_text(rt: HostRuntime) {
    let text = hex(&rt, SORTED);
    let (value, rest) = Value::read(rt.alloc(), &text).expect(&rt, "a value");
    let value = boxed(&rt, value);
    check(&rt, "alone", rest.is_empty());
    check(&rt, "two policies", value.assets().len() == 2);
    for (policy, (byte, tokens)) in value.assets().iter().zip(POLICIES) {
        holds(&rt, policy, *byte, *tokens);
    }
}

/// The values of 5 lovelace and these lists of assets are equal, or they aren't.
fn are_equal(rt: &(impl Abort + AllocGlobal), one: &[Held], other: &[Held], want: bool) {
    let one = boxed(rt, value_of(rt, 5, one).expect(rt, "a value"));
    let other = boxed(rt, value_of(rt, 5, other).expect(rt, "a value"));
    check(rt, "equal", (*one == *other) == want);
}

#[test]
fn equal_values(rt: HostRuntime) {
    are_equal(&rt, OTHER_ORDER, THIRD_ORDER, true);
    are_equal(&rt, OTHER_ORDER, FIVE, false);
}

#[test]
fn coin_alone_and_nothing_minted(rt: HostRuntime) {
    has_text(&rt, &boxed(&rt, Value::of_coin(rt.alloc(), 24)), &["1818"]);
    let made = boxed(&rt, mint_of(&rt, &[]).expect(&rt, "a mint"));
    let nothing = boxed(&rt, Mint::nothing(rt.alloc()));
    check(&rt, "nothing", *made == *nothing);
}

/// An amount of lovelace, and assets, and the pieces of the text for people.
type Shown = (u64, &'static [Held], &'static [&'static str]);

/// Coin alone, the assets of two policies, and the greatest coin and quantity.
const SHOWN: &[Shown] = &[
    (1000, &[], &["1000 lovelace"]),
    (
        5,
        OTHER_ORDER,
        &[
            "5 lovelace + 1 ",
            ONES,
            " + 24 ",
            ONES,
            ".ff + 2 ",
            ONES,
            ".0000 + 9223372036854775808 ",
            TWOS,
        ],
    ),
    (
        u64::MAX,
        &[(2, b"coin", u64::MAX)],
        &[
            "18446744073709551615 lovelace + 18446744073709551615 ",
            TWOS,
            ".636f696e",
        ],
    ),
];

#[test]
fn values_for_people(rt: HostRuntime) {
    for (coin, assets, pieces) in SHOWN {
        let value = boxed(&rt, value_of(&rt, *coin, *assets).expect(&rt, "a value"));
        let shown = value.to_string(rt.alloc()).expect(&rt, MEMORY);
        is_text(&rt, *pieces, &shown);
    }
}
