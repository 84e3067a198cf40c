//! Scripts of more and more blocks, each of ten payments.

use crate::timing::{Telling, nanos_if, now, print};
use genesis::{Genesis, Scheme};
use scenario::Options;
use std::alloc::Global;
use std::io;
use witness_pool::TestScheme;

/// A network without fees, and the output that is paid on and on.
const NETWORK: &str =
    "network = 0\nk = 10\nmin_fee_a = 0\nmin_fee_b = 0\nmin_utxo = 0\nmax_tx_size = 65536\n\
max_body_size = 1048000\nmax_volatile = 100\nmax_mempool = 100\n[[output]]\n\
key = \"0101010101010101010101010101010101010101010101010101010101010101\"\ncoin = 1000\n";

/// The key to which everything is paid, and which signs.
const KEY: &str = "key K 0101010101010101010101010101010101010101010101010101010101010101\n";

/// How many payments a block has.
const PAYMENTS: u64 = 10;

/// Puts the lines of the payment of this number into a script: it spends what the one before made.
fn put_payment(script: &mut String, number: u64) {
    let _ = match number.checked_sub(1) {
        Some(before) => write!(script, "tx T{number}\nin T{before} 0\n"),
        None => write!(script, "tx T{number}\nin genesis 0\n"),
    };
    let _ = script.push_str("out key K 1000\nsign K\nend\n");
}

/// Puts the lines of a block of this number with its payments into a script.
fn put_block(script: &mut String, number: u64) {
    let first = number.saturating_mul(PAYMENTS);
    let behind = first.saturating_add(PAYMENTS);
    for payment in first..behind {
        put_payment(script, payment);
    }
    let _ = match number.checked_sub(1) {
        Some(parent) => write!(script, "block B{number} B{parent} {number}"),
        None => write!(script, "block B{number} genesis {number}"),
    };
    for payment in first..behind {
        let _ = write!(script, " T{payment}");
    }
    let _ = write!(script, "\narrive B{number}\n");
}

/// A script of `blocks` blocks. Where memory runs out it is cut short, and has a fault or prints nothing.
fn script_of(alloc: Global, blocks: u64) -> String {
    let mut script = String::new(alloc);
    let _ = script.push_str(KEY);
    for number in 0..blocks {
        put_block(&mut script, number);
    }
    let _ = script.push_str("tip\n");
    script
}

/// How many bytes a script prints, or none where it has a fault.
fn printed(alloc: Global, script: &str) -> usize {
    let Ok(genesis) = Genesis::from_toml(alloc, NETWORK) else {
        return 0;
    };
    let mut reader = script.as_bytes();
    let mut out = Vec::new(alloc);
    let options = Options::plain(Scheme::Test);
    match scenario::run::<TestScheme, _, _>(alloc, genesis, options, &mut reader, &mut out) {
        Ok(_) => out.len(),
        Err(_) => 0,
    }
}

/// Measures a script of `blocks` blocks.
fn measure_script(rt: &HostRuntime, blocks: u64) -> io::Result<()> {
    let script = script_of(rt.alloc(), blocks);
    let start = now(rt);
    let printed = printed(rt.alloc(), &script);
    let nanos = nanos_if(rt, start, printed != 0);
    print(rt, Telling::Times, "script of blocks,", blocks, 1, nanos)
}

/// Measures scripts of 100, 300 and 1,000 blocks.
pub fn measure(rt: &HostRuntime) -> io::Result<()> {
    for blocks in [100, 300, 1_000] {
        measure_script(rt, blocks)?;
    }
    Ok(())
}
