//! Whether a timelock holds. No memory is taken, and recursion goes down the nesting alone.

ghost use Rattle.std.specs.Prelude.{◌≡◌, map};
ghost use Rattle.model.specs.Script.{holds, all_hold, one_holds, how_many_hold};
ghost use Rattle.timelock.specs.View.{timelock_of, timelocks_of, interval_of, key_bytes};

use crate::interval::Interval;
use crate::timelock::Timelock;
use ident::KeyHash;

/// Whether each of these holds.
#[cycle(holding)]
fn all(members: &[Timelock], keys: &[KeyHash], interval: Interval) -> bool
    ensures { result ≡ all_hold (map key_bytes keys.now) (interval_of interval) (timelocks_of members.now) }
{
    for member in members {
        if !is_met(member, keys, interval) {
            return false;
        }
    }
    true
}

/// Whether one of these holds, at least.
#[cycle(holding)]
fn any(members: &[Timelock], keys: &[KeyHash], interval: Interval) -> bool
    ensures { result ≡ one_holds (map key_bytes keys.now) (interval_of interval) (timelocks_of members.now) }
{
    for member in members {
        if is_met(member, keys, interval) {
            return true;
        }
    }
    false
}

/// How many of these hold.
#[cycle(holding)]
fn how_many(members: &[Timelock], keys: &[KeyHash], interval: Interval) -> u64
    ensures { result ≡ how_many_hold (map key_bytes keys.now) (interval_of interval) (timelocks_of members.now) }
{
    let mut count: u64 = 0;
    for member in members {
        if is_met(member, keys, interval) {
            count += 1;
        }
    }
    count
}

/// Whether the timelock holds.
#[cycle(holding)]
pub fn is_met(timelock: &Timelock, keys: &[KeyHash], interval: Interval) -> bool
    ensures { result ≡ holds (map key_bytes keys.now) (interval_of interval) (timelock_of timelock.now) }
{
    match timelock {
        Timelock::RequireSignature(hash) => keys.contains(hash),
        Timelock::RequireAllOf(members) => all(members.as_slice(), keys, interval),
        Timelock::RequireAnyOf(members) => any(members.as_slice(), keys, interval),
        Timelock::RequireMOf(least, members) => {
            *least <= how_many(members.as_slice(), keys, interval)
        }
        Timelock::RequireTimeStart(slot) => interval.start.is_some_and(|start| *slot <= start),
        Timelock::RequireTimeExpire(slot) => interval.end.is_some_and(|end| end <= *slot),
    }
}
