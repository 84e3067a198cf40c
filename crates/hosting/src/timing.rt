//! How long something took.

use std::time::Instant;

/// The moment that the system's clock tells; None where it doesn't.
pub fn moment(system: &HostRuntime) -> Option<Instant> {
    Instant::now(system).ok()
}

/// How many microseconds have passed since this moment; none where the clock doesn't tell.
pub fn micros_since(system: &HostRuntime, begun: Option<Instant>) -> u64 {
    let Some(begun) = begun else {
        return 0;
    };
    match begun.elapsed(system) {
        Ok(took) => u64::try_from(took.as_micros()).unwrap_or(u64::MAX),
        Err(_) => 0,
    }
}
