//! A map whose versions share their nodes: how deep its tree gets, that versions share, and that calls succeed.

use persistent_map::{Iter, PersistentMap};
use std::alloc::AllocError;
use std::collections::BTreeMap;
use std::process::Abort;
use std::sync::Arc;

/// The map of the tests.
type Amounts = PersistentMap<u64, u64>;

// A way out of a function drops all that it owns, and each makes its proof longer. So want of memory ends a test on the
// spot, and what owns much is borrowed by the functions that do the work.

/// What is said where memory runs out.
const MEMORY: &str = "memory";

/// The figure of this name is the one that is wanted.
fn same(rt: &(impl Abort + AllocGlobal), name: &str, found: u64, want: u64) {
    assert!(rt; found == want, "{name}: {found} in place of {want}");
}

/// Gives a key an amount, and answers that which it had, or 0.
fn try_put(
    rt: &(impl Abort + AllocGlobal),
    map: &mut Amounts,
    key: u64,
    amount: u64,
) -> Result<u64, AllocError> {
    let amount = Arc::new(rt.alloc(), amount)?;
    match map.insert(key, amount)? {
        Some(old) => Ok(*old),
        None => Ok(0),
    }
}

/// The same where there is memory.
fn put(rt: &(impl Abort + AllocGlobal), map: &mut Amounts, key: u64, amount: u64) -> u64 {
    try_put(rt, map, key, amount).expect(rt, MEMORY)
}

/// Takes a key out, and answers the amount that it had, or 0.
fn try_take(map: &mut Amounts, key: u64) -> Result<u64, AllocError> {
    match map.remove(&key)? {
        Some(old) => Ok(*old),
        None => Ok(0),
    }
}

/// The same where there is memory.
fn take(rt: &(impl Abort + AllocGlobal), map: &mut Amounts, key: u64) -> u64 {
    try_take(map, key).expect(rt, MEMORY)
}

/// The amount of a key, or 0.
fn amount(map: &Amounts, key: u64) -> u64 {
    map.get(&key).copied().unwrap_or(0)
}

#[test]
fn kept_and_taken_out(rt: HostRuntime) {
    let mut map = PersistentMap::new(rt.alloc());
    same(&rt, "before", put(&rt, &mut map, 7, 100), 0);
    same(&rt, "amount", amount(&map, 7), 100);
    same(&rt, "taken out", take(&rt, &mut map, 7), 100);
    assert!(rt; map.is_empty());
}

/// Numbers that look random: each is computed from the one before.
fn next_random(seed: u64) -> u64 {
    let x = seed ^ (seed << 13);
    let y = x ^ (x >> 7);
    y ^ (y << 17)
}

/// The first of them.
const SEED: u64 = 88_172_645_463_325_252;

/// Gives each key itself as its amount.
fn fill(rt: &(impl Abort + AllocGlobal), map: &mut Amounts, keys: &[u64]) {
    for key in keys {
        put(rt, map, *key, *key);
    }
}

/// Takes every other one of these keys out.
fn halve(rt: &(impl Abort + AllocGlobal), map: &mut Amounts, keys: &[u64]) {
    for (place, key) in keys.iter().enumerate() {
        if place % 2 == 0 {
            take(rt, map, *key);
        }
    }
}

/// The map has so many entries, and no way down it is longer than this.
fn is_shallow(rt: &(impl Abort + AllocGlobal), map: &Amounts, len: u64, most: usize) {
    same(rt, "entries", map.len() as u64, len);
    assert!(rt; map.depth() <= most);
}

/// A map of 100,000 keys that come in this order is shallow, also once half of them are gone: the logarithm of 100,000
/// is 16.6, and that of 50,000 is 15.6.
fn stays_shallow(rt: &(impl Abort + AllocGlobal), keys: &[u64]) {
    let mut map = PersistentMap::new(rt.alloc());
    fill(rt, &mut map, keys);
    is_shallow(rt, &map, 100_000, 33);
    halve(rt, &mut map, keys);
    is_shallow(rt, &map, 50_000, 31);
}

/// The keys from 0 on, up to this end.
fn rising(rt: &(impl Abort + AllocGlobal), end: u64) -> Vec<u64> {
    (0..end).collect(rt.alloc()).expect(rt, MEMORY)
}

#[test]
fn shallow_after_rising_and_falling_keys(rt: HostRuntime) {
    let mut keys = rising(&rt, 100_000);
    stays_shallow(&rt, &keys);
    keys.reverse();
    stays_shallow(&rt, &keys);
}

#[test]
fn shallow_after_random_keys(rt: HostRuntime) {
    let mut keys = Vec::new(rt.alloc());
    let mut seed = SEED;
    for _ in 0..100_000 {
        seed = next_random(seed);
        keys.push(seed).expect(&rt, MEMORY);
    }
    stays_shallow(&rt, &keys);
}

/// Gives a key an amount in the other map, and answers that which it had, if it had one.
fn put_other(
    rt: &impl Abort,
    other: &mut BTreeMap<u64, u64>,
    key: u64,
    amount: u64,
) -> Option<u64> {
    let old: Result<_, _> = other.insert(key, amount);
    old.expect(rt, MEMORY)
}

/// One of 1,000 operations on both maps: an insertion, a removal or a look-up of one of 200 keys.
fn operate(
    rt: &(impl Abort + AllocGlobal),
    seed: u64,
    map: &mut Amounts,
    other: &mut BTreeMap<u64, u64>,
) {
    let key = seed / 8 % 200;
    let (found, want) = match seed % 4 {
        0 | 1 => (put(rt, map, key, seed), put_other(rt, other, key, seed)),
        2 => (take(rt, map, key), other.remove(&key)),
        _ => (amount(map, key), other.get(&key).copied()),
    };
    same(rt, "the amount before", found, want.unwrap_or(0));
    same(rt, "entries", map.len() as u64, other.len() as u64);
}

/// The entry that comes next is this one.
fn comes_next(
    rt: &(impl Abort + AllocGlobal),
    entries: &mut Iter<'_, u64, u64>,
    key: u64,
    amount: u64,
) {
    let entry = entries.next();
    assert!(rt; entry == Some((&key, &amount)), "the entry of {key}");
}

/// No entry comes next.
fn is_at_end(rt: &(impl Abort + AllocGlobal), entries: &mut Iter<'_, u64, u64>) {
    let entry = entries.next();
    assert!(rt; entry.is_none());
}

/// The entries of both maps are the same, in their order.
fn are_the_same(rt: &(impl Abort + AllocGlobal), map: &Amounts, other: &BTreeMap<u64, u64>) {
    let mut entries = map.iter();
    for (key, amount) in other.iter() {
        comes_next(rt, &mut entries, *key, *amount);
    }
    is_at_end(rt, &mut entries);
    is_at_end(rt, &mut entries);
}

/// Operates on both maps; an older version of the one is kept now and then, so that shared nodes are met too.
fn operate_often(
    rt: &(impl Abort + AllocGlobal),
    map: &mut Amounts,
    other: &mut BTreeMap<u64, u64>,
    kept: &mut Amounts,
) {
    let mut seed = SEED;
    for turn in 0..1000 {
        seed = next_random(seed);
        operate(rt, seed, map, other);
        if turn % 7 == 0 {
            *kept = map.try_clone().expect(rt, MEMORY);
        }
    }
    assert!(rt; kept.len() > 50);
    are_the_same(rt, map, other);
}

#[test]
fn as_another_map(rt: HostRuntime) {
    let mut map = PersistentMap::new(rt.alloc());
    let mut kept = PersistentMap::new(rt.alloc());
    let mut other = BTreeMap::new(rt.alloc());
    operate_often(&rt, &mut map, &mut other, &mut kept);
}

/// Keeps 10,000 versions of a map, each before a change of its own.
fn keep_versions(rt: &(impl Abort + AllocGlobal), map: &mut Amounts, versions: &mut Vec<Amounts>) {
    for version in 0..10_000u64 {
        let before = map.try_clone().expect(rt, MEMORY);
        versions.push(before).expect(rt, MEMORY);
        put(rt, map, version * 10, 7);
    }
}

/// Each version has what it had, and the map has each change.
fn have_what_they_had(rt: &(impl Abort + AllocGlobal), map: &Amounts, versions: &[Amounts]) {
    for (place, version) in versions.iter().enumerate() {
        let key = (place as u64).saturating_mul(10);
        same(rt, "amount of a version", amount(version, key), key);
        same(rt, "amount after all", amount(map, key), 7);
    }
}

/// 10,000 versions of a map of 100,000 entries, each with one change: whole copies would take 100 gigabytes.
#[test]
fn versions_share_their_nodes(rt: HostRuntime) {
    let keys = rising(&rt, 100_000);
    let mut map = PersistentMap::new(rt.alloc());
    fill(&rt, &mut map, &keys);
    let mut versions = Vec::new(rt.alloc());
    keep_versions(&rt, &mut map, &mut versions);
    have_what_they_had(&rt, &map, &versions);
}

/// The entries of the map are these keys, each with itself as its amount, in their order.
fn has_just(rt: &(impl Abort + AllocGlobal), map: &Amounts, keys: &[u64]) {
    let mut entries = map.iter();
    for key in keys {
        comes_next(rt, &mut entries, *key, *key);
    }
    is_at_end(rt, &mut entries);
}

// A version that was kept stays as it was, also where a key is put in and another taken out.
#[test]
fn a_kept_version_stays(rt: HostRuntime) {
    let keys = rising(&rt, 1000);
    let mut map = PersistentMap::new(rt.alloc());
    fill(&rt, &mut map, &keys);
    let kept = map.try_clone().expect(&rt, MEMORY);
    same(&rt, "before", put(&rt, &mut map, 1000, 7), 0);
    same(&rt, "with one more", map.len() as u64, 1001);
    same(&rt, "taken out", take(&rt, &mut map, 500), 500);
    same(&rt, "with one less", map.len() as u64, 1000);
    assert!(rt; map.get(&500).is_none());
    has_just(&rt, &kept, &keys);
}
