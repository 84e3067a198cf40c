//! Signatures by Ed25519: verifications and signings on one thread, and verifications on four threads at once.

use crate::timing::{nanos_if, now};
use ed25519::{SecretKey, verify};
use std::io;
use std::rt::Clock;
use std::thread::{Threads, join};

/// The message that is signed, which is as long as a transaction's identifier.
const MESSAGE: [u8; 32] = [7; 32];

/// How many calls a thread makes in a run.
const CALLS: u32 = 100;

/// How many runs there are, of which the shortest counts: what else the machine does lengthens the others.
const RUNS: u32 = 200;

/// What is measured.
#[derive(Clone, Copy)]
enum Work {
    Verifying,
    Signing,
    /// Verifying on four threads at once.
    VerifyingByFour,
}

/// Under which name, by how many threads, and what is measured.
const WORKS: [(&str, u128, Work); 3] = [
    ("verify", 1, Work::Verifying),
    ("SecretKey::sign", 1, Work::Signing),
    ("verify by 4 threads", 4, Work::VerifyingByFour),
];

/// A key, and its signature of the message.
#[derive(Drop)]
struct Signed {
    signer: SecretKey,
    key: [u8; 32],
    signature: [u8; 64],
}

/// Verifies the signature `CALLS` times, and answers whether it was always good.
fn are_verified(signed: &Signed) -> bool {
    let mut all = true;
    for _ in 0..CALLS {
        all &= verify(&signed.key, &MESSAGE, &signed.signature);
    }
    all
}

/// Signs `CALLS` times, and answers whether the signature was always this one.
fn are_signed(signed: &Signed) -> bool {
    let mut all = true;
    for _ in 0..CALLS {
        all &= signed.signer.sign(&MESSAGE) == signed.signature;
    }
    all
}

/// Verifies on two threads at once.
fn are_verified_by_two<R: Threads + Sync>(rt: &R, signed: &Signed) -> bool {
    let (one, other) = join(rt, || are_verified(signed), || are_verified(signed));
    one && other
}

/// Verifies on four threads at once.
fn are_verified_by_four<R: Threads + Sync>(rt: &R, signed: &Signed) -> bool {
    let (two, others) = join(
        rt,
        || are_verified_by_two(rt, signed),
        || are_verified_by_two(rt, signed),
    );
    two && others
}

/// Does the work, and answers whether all came out as it should.
fn is_done<R: Threads + Sync>(rt: &R, work: Work, signed: &Signed) -> bool {
    match work {
        Work::Verifying => are_verified(signed),
        Work::Signing => are_signed(signed),
        Work::VerifyingByFour => are_verified_by_four(rt, signed),
    }
}

/// How long the shortest run took, in nanoseconds.
fn least<R: Threads + Clock + Sync>(rt: &R, work: Work, signed: &Signed) -> Option<u128> {
    let mut least = u128::MAX;
    for _ in 0..RUNS {
        let start = now(rt);
        let done = is_done(rt, work, signed);
        least = least.min(nanos_if(rt, start, done)?);
    }
    Some(least)
}

/// Measures a work, and prints the time of the shortest run divided by its calls, those of all threads together. Err
/// where one came out otherwise than it should.
fn measure_work<R: Threads + Clock + Print + Sync>(
    rt: &R,
    name: &str,
    threads: u128,
    work: Work,
    signed: &Signed,
) -> io::Result<()> {
    let Some(nanos) = least(rt, work, signed) else {
        return Err(io::ErrorKind::Other.into());
    };
    let calls = threads.saturating_mul(u128::from(CALLS));
    let tenths = nanos.checked_div(calls.saturating_mul(100)).unwrap_or(0);
    let (micros, tenth) = (tenths / 10, tenths % 10);
    println!(rt;
        "{name}: a call every {micros}.{tenth} microseconds, in the shortest of {RUNS} runs of {calls}"
    )
}

/// Runs each measurement, and prints what it took.
pub fn measure<R: Threads + Clock + Print + Sync>(rt: &R) -> io::Result<()> {
    let signer = SecretKey::from_seed([1; 32]);
    let key = signer.public_key();
    let signature = signer.sign(&MESSAGE);
    let signed = Signed {
        signer,
        key,
        signature,
    };
    for &(name, threads, work) in &WORKS {
        measure_work(rt, name, threads, work, &signed)?;
    }
    Ok(())
}
