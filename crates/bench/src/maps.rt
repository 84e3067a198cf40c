//! `persistent_map` beside std's `BTreeMap`.

use crate::keys::{self, Key};
use crate::timing::{Telling, nanos_if, now, print};
use persistent_map::PersistentMap;
use std::alloc::AllocError;
use std::collections::BTreeMap;
use std::io;
use std::sync::Arc;
use std::time::Instant;

/// How many copies are changed.
const CHANGED: usize = 10_000;

/// The keys of a map, and as many picked at random.
#[derive(Clone, Copy)]
struct Keys<'a> {
    all: &'a [Key],
    picked: &'a [Key],
}

/// Gives each key this value, as far as memory lasts.
fn insert_all(map: &mut PersistentMap<Key, u64>, keys: &[Key], value: &Arc<u64>) {
    for key in keys {
        if let Ok(value) = Arc::try_clone(value) {
            let _ = map.insert(*key, value);
        }
    }
}

/// How many of the keys have a value.
fn found(map: &PersistentMap<Key, u64>, keys: &[Key]) -> usize {
    let mut found = 0usize;
    for key in keys {
        if map.get(key).is_some() {
            found = found.saturating_add(1);
        }
    }
    found
}

/// Copies the map, changes one entry of the copy, and drops the map before.
fn change_copy(
    map: &mut PersistentMap<Key, u64>,
    key: &Key,
    value: &Arc<u64>,
) -> Result<(), AllocError> {
    let value = Arc::try_clone(value)?;
    let mut copy = map.try_clone()?;
    let _ = copy.insert(*key, value);
    *map = copy;
    Ok(())
}

/// Does so with the first of the keys, and answers how often.
fn change_copies(map: &mut PersistentMap<Key, u64>, keys: &[Key], value: &Arc<u64>) -> usize {
    let mut changed = 0usize;
    for key in keys.iter().take(CHANGED) {
        if change_copy(map, key, value).is_ok() {
            changed = changed.saturating_add(1);
        }
    }
    changed
}

/// Takes each key out, as far as memory lasts.
fn remove_all(map: &mut PersistentMap<Key, u64>, keys: &[Key]) {
    for key in keys {
        let _ = map.remove(key);
    }
}

/// Measures each call of the persistent map.
fn measure_persistent(
    rt: &HostRuntime,
    map: &mut PersistentMap<Key, u64>,
    keys: Keys<'_>,
    value: &Arc<u64>,
) -> io::Result<()> {
    let count = keys.all.len();
    let start = now(rt);
    insert_all(map, keys.all, value);
    tell(rt, "PersistentMap::insert", count, map.len(), start)?;
    let start = now(rt);
    let found = found(map, keys.picked);
    tell(rt, "PersistentMap::get", count, found, start)?;
    let start = now(rt);
    let changed = change_copies(map, keys.picked, value);
    tell(
        rt,
        "clone, change one, drop the old at",
        count,
        changed,
        start,
    )?;
    let start = now(rt);
    remove_all(map, keys.all);
    tell(rt, "PersistentMap::remove", count, count, start)
}

/// Gives each key this value, as far as memory lasts.
fn insert_all_plainly(map: &mut BTreeMap<Key, Arc<u64>>, keys: &[Key], value: &Arc<u64>) {
    for key in keys {
        if let Ok(value) = Arc::try_clone(value) {
            let _ = map.insert(*key, value);
        }
    }
}

/// How many of the keys have a value.
fn found_plainly(map: &BTreeMap<Key, Arc<u64>>, keys: &[Key]) -> usize {
    let mut found = 0usize;
    for key in keys {
        if map.contains_key(key) {
            found = found.saturating_add(1);
        }
    }
    found
}

/// Takes each key out.
fn remove_all_plainly(map: &mut BTreeMap<Key, Arc<u64>>, keys: &[Key]) {
    for key in keys {
        map.remove(key);
    }
}

/// Measures each call of std's map.
fn measure_plain(
    rt: &HostRuntime,
    map: &mut BTreeMap<Key, Arc<u64>>,
    keys: Keys<'_>,
    value: &Arc<u64>,
) -> io::Result<()> {
    let count = keys.all.len();
    let start = now(rt);
    insert_all_plainly(map, keys.all, value);
    tell(rt, "BTreeMap::insert", count, map.len(), start)?;
    let start = now(rt);
    let found = found_plainly(map, keys.picked);
    tell(rt, "BTreeMap::get", count, found, start)?;
    let start = now(rt);
    remove_all_plainly(map, keys.all);
    tell(rt, "BTreeMap::remove", count, count, start)
}

/// Prints how long one of `calls` calls took, which began then, with `keys` keys.
fn tell(
    rt: &HostRuntime,
    name: &str,
    keys: usize,
    calls: usize,
    start: Option<Instant>,
) -> io::Result<()> {
    let nanos = nanos_if(rt, start, true);
    print(rt, Telling::Times, name, keys as u64, calls as u64, nanos)
}

/// Measures both maps with these keys.
fn measure_with(rt: &HostRuntime, keys: Keys<'_>) -> io::Result<()> {
    let value = Arc::new(rt.alloc(), 0)?;
    measure_persistent(rt, &mut PersistentMap::new(rt.alloc()), keys, &value)?;
    measure_plain(rt, &mut BTreeMap::new(rt.alloc()), keys, &value)
}

/// Measures both maps with `count` keys.
fn measure_at(rt: &HostRuntime, count: usize) -> io::Result<()> {
    let all = keys::random_keys(rt.alloc(), count)?;
    let picked = keys::picked(rt.alloc(), &all)?;
    let keys = Keys {
        all: &all,
        picked: &picked,
    };
    measure_with(rt, keys)
}

/// Measures each call at 100,000 and at 1,000,000 entries, and prints a line for each.
pub fn measure(rt: &HostRuntime) -> io::Result<()> {
    measure_at(rt, 100_000)?;
    measure_at(rt, 1_000_000)
}
