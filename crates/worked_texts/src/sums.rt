//! Sums of values and of what is minted.

use super::fixture::{MEMORY, boxed, check};
use super::values::{mint_of, value_of};
use ident::ScriptHash;
use std::process::Abort;
use std::slice::Iter;
use value::{Amounts, Mint, Totals, Value};

/// Assets, each by the byte of its policy, its name and how many there are.
type Held = &'static [(u8, &'static [u8], u64)];

/// Values, by their lovelace and assets.
const VALUES: &[(u64, Held)] = &[
    (0, &[(1, b"gold", u64::MAX)]),
    (u64::MAX, &[(1, b"gold", u64::MAX)]),
    (0, &[(1, b"gold", 5)]),
    // two assets of one policy, and the same with the quantities exchanged
    (0, &[(1, b"gold", 3), (1, b"silver", 4)]),
    (0, &[(1, b"gold", 4), (1, b"silver", 3)]),
    // one name under two policies, and the same with the quantities exchanged
    (0, &[(1, b"gold", 3), (2, b"gold", 4)]),
    (0, &[(1, b"gold", 4), (2, b"gold", 3)]),
    // the empty name
    (5, &[(1, b"", u64::MAX)]),
    // assets of two policies, with a longer name of lower bytes, and each of them alone
    (0, &[(2, b"b", 1), (2, b"aa", 2), (1, b"z", 3)]),
    (0, &[(2, b"aa", 2)]),
    (0, &[(1, b"z", 3)]),
    (0, &[(2, b"b", 1)]),
];

/// What is minted.
const MINTS: &[&[(u8, &[u8], i64)]] = &[&[(1, b"", 5)], &[(1, b"", -5)], &[(1, b"gold", -5)]];

/// A change of sums by the value, or by what is minted, of this place.
#[derive(Clone, Copy)]
enum Change {
    Add(usize),
    Take(usize),
    Mint(usize),
}

/// A change, whether the sums are balanced behind it, and the sums of lovelace and of the empty name.
type Row = (Change, bool, i128, i128);

const CHANGES: &[Row] = &[
    // more than 64 bits, of an asset and of the empty name
    (Change::Add(0), false, 0, 0),
    (Change::Add(1), false, 18446744073709551615, 0),
    (Change::Take(1), false, 0, 0),
    (Change::Take(0), true, 0, 0),
    (Change::Add(7), false, 5, 18446744073709551615),
    (Change::Add(7), false, 10, 36893488147419103230),
    (Change::Take(7), false, 5, 18446744073709551615),
    (Change::Take(7), true, 0, 0),
    // 5 of an asset are made, and then burned, and so once more in the other order
    (Change::Mint(0), false, 0, 5),
    (Change::Mint(1), true, 0, 0),
    (Change::Mint(1), false, 0, -5),
    (Change::Mint(0), true, 0, 0),
    // 5 that are held balance 5 that are burned, and more do not
    (Change::Mint(2), false, 0, 0),
    (Change::Add(2), true, 0, 0),
    (Change::Add(2), false, 0, 0),
    (Change::Take(2), true, 0, 0),
    // only the same assets balance these, and not those with the quantities exchanged
    (Change::Add(3), false, 0, 0),
    (Change::Take(4), false, 0, 0),
    (Change::Add(4), false, 0, 0),
    (Change::Take(3), true, 0, 0),
    (Change::Add(5), false, 0, 0),
    (Change::Take(6), false, 0, 0),
    (Change::Add(6), false, 0, 0),
    (Change::Take(5), true, 0, 0),
];

/// A sum that is listed, with the byte of its policy and its name.
type Listed = (u8, &'static [u8], i128);

/// Changes, and all that is listed behind each.
const LISTED: &[(Change, &[Listed])] = &[
    // in the order of bytes a longer name may stand first
    (Change::Add(8), &[(1, b"z", 3), (2, b"aa", 2), (2, b"b", 1)]),
    // an asset that is taken is listed no more, nor is a policy of which all is taken
    (Change::Take(9), &[(1, b"z", 3), (2, b"b", 1)]),
    (Change::Take(10), &[(2, b"b", 1)]),
    (Change::Take(11), &[]),
    // what is taken and wasn't there is listed as well, and lovelace isn't
    (Change::Take(11), &[(2, b"b", -1)]),
    (Change::Mint(0), &[(1, b"", 5), (2, b"b", -1)]),
    (Change::Mint(1), &[(2, b"b", -1)]),
    (Change::Add(11), &[]),
    (Change::Add(7), &[(1, b"", 18446744073709551615)]),
    (Change::Take(7), &[]),
];

/// The values.
fn values(rt: &(impl Abort + AllocGlobal)) -> Vec<Value> {
    let mut values = Vec::new(rt.alloc());
    for (coin, assets) in VALUES {
        let value = value_of(rt, *coin, *assets).expect(rt, "a value");
        values.push(value).expect(rt, MEMORY);
    }
    values
}

/// What is minted.
fn mints(rt: &(impl Abort + AllocGlobal)) -> Vec<Mint> {
    let mut mints = Vec::new(rt.alloc());
    for assets in MINTS {
        let mint = mint_of(rt, *assets).expect(rt, "a mint");
        mints.push(mint).expect(rt, MEMORY);
    }
    mints
}

/// Makes a change.
fn make_change(
    rt: &impl Abort,
    totals: &mut Totals,
    values: &[Value],
    mints: &[Mint],
    change: Change,
) {
    // Sums have room for 2^62 values.
    assert!(rt; totals.values() < 99);
    let made = match change {
        Change::Add(place) => values.get(place).expect(rt, "a value").add_to(totals),
        Change::Take(place) => values.get(place).expect(rt, "a value").take_from(totals),
        Change::Mint(place) => mints.get(place).expect(rt, "a mint").add_to(totals),
    };
    made.expect(rt, MEMORY);
}

/// The sums are balanced so, with these sums of lovelace and of the empty name.
fn are_so(rt: &impl Abort, totals: &Totals, balanced: bool, coin: i128, unnamed: i128) {
    let policy = ScriptHash::from_bytes([1; 32]);
    check(rt, "coin", totals.coin() == coin);
    check(rt, "unnamed", totals.amount(&policy, b"") == unnamed);
    check(rt, "named", totals.amount(&policy, b"\0") == 0);
    check(rt, "balanced", totals.is_balanced() == balanced);
}

#[test]
fn sums_behind_changes(rt: HostRuntime) {
    let values = boxed(&rt, values(&rt));
    let mints = boxed(&rt, mints(&rt));
    let mut totals = boxed(&rt, Totals::new(rt.alloc()));
    are_so(&rt, &totals, true, 0, 0);
    for (change, balanced, coin, unnamed) in CHANGES {
        make_change(&rt, &mut totals, &values, &mints, *change);
        are_so(&rt, &totals, *balanced, *coin, *unnamed);
    }
    check(&rt, "changes", totals.values() == 24);
}

/// Just these sums are listed under the policy, from the first of them on.
fn are_under(rt: &impl Abort, policy: &ScriptHash, amounts: &Amounts, sums: &mut Iter<'_, Listed>) {
    for (name, amount) in amounts.iter() {
        let (byte, named, sum) = sums.next().expect(rt, "a sum that is listed");
        check(rt, "policy", *policy == ScriptHash::from_bytes([*byte; 32]));
        check(rt, "name", name.as_slice() == *named);
        check(rt, "sum", amount == sum);
    }
}

/// Just these sums are listed, in their order.
fn are_listed(rt: &impl Abort, totals: &Totals, sums: &[Listed]) {
    let mut sums = sums.iter();
    for (policy, amounts) in totals.policies() {
        are_under(rt, policy, amounts, &mut sums);
    }
    check(rt, "all listed", sums.next().is_none());
}

#[test]
fn listed_behind_changes(rt: HostRuntime) {
    let values = boxed(&rt, values(&rt));
    let mints = boxed(&rt, mints(&rt));
    let mut totals = boxed(&rt, Totals::new(rt.alloc()));
    for (change, listed) in LISTED {
        make_change(&rt, &mut totals, &values, &mints, *change);
        are_listed(&rt, &totals, *listed);
    }
}
