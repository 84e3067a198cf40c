//! How long something takes, and what is printed of it.
//!
//! A measurement that can't be made is None. So a function that owns a core or a state has one way out, and its proof
//! is short.

use std::io;
use std::rt::Clock;
use std::time::Instant;

/// What is printed of a measurement.
#[derive(Clone, Copy, PartialEq, Eq)]
pub enum Telling {
    /// Its name alone: it is run once.
    Names,
    /// What it took: it is run many times.
    Times,
}

impl Telling {
    /// How many times a measurement is run.
    pub fn repetitions(self) -> u64 {
        match self {
            Telling::Names => 1,
            Telling::Times => 20,
        }
    }
}

/// What the clock shows, if it shows anything.
pub fn now<R: Clock>(rt: &R) -> Option<Instant> {
    Instant::now(rt).ok()
}

/// How many nanoseconds have passed since then, if all was done that was to be done.
pub fn nanos_if<R: Clock>(rt: &R, start: Option<Instant>, done: bool) -> Option<u128> {
    let elapsed = start?.elapsed(rt).ok()?;
    if done { Some(elapsed.as_nanos()) } else { None }
}

/// Prints the name of a measurement, or how long one of `calls` calls took that took `nanos` nanoseconds together, on
/// what has this size. Err where it wasn't made.
pub fn print<R: Print>(
    rt: &R,
    telling: Telling,
    name: &str,
    size: u64,
    calls: u64,
    nanos: Option<u128>,
) -> io::Result<()> {
    let Some(nanos) = nanos else {
        return Err(io::ErrorKind::Other.into());
    };
    if telling == Telling::Names {
        return println!(rt; "{name}");
    }
    let each = nanos.checked_div(u128::from(calls)).unwrap_or(0);
    println!(rt; "{name} {size}: {each} ns, the mean of {calls}")
}
