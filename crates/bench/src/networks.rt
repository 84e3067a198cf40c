//! The network on which everything is measured.

use genesis::Genesis;
use std::alloc::Global;

/// What the network asks: no fee, and no least output. Its first output is the one from which all further ones are
/// made.
const NUMBERS: &str =
    "network = 0\nmin_fee_a = 0\nmin_fee_b = 0\nmin_utxo = 0\nmax_tx_size = 65536\n\
max_body_size = 1048000\nmax_volatile = 100000\nmax_mempool = 100000\n";

/// The key of 32 bytes 01, to which its outputs are under the scheme for tests.
const TEST_KEY: &str = "0101010101010101010101010101010101010101010101010101010101010101";

/// The public key of the secret one of 32 bytes 01.
const ED25519_KEY: &str = "8a88e3dd7409f195fd52db2d3cba5d72ca6709bf1d94121bf3748801b40f6f5c";

/// Puts an output to the key behind a text.
fn put_output(text: &mut String, key: &str, coin: &str) {
    let _ = text.push_str("[[output]]\nkey = \"");
    let _ = text.push_str(key);
    let _ = text.push_str("\"\ncoin = ");
    let _ = text.push_str(coin);
    let _ = text.push_str("\n");
}

/// How many outputs there are that are spent while it is measured.
pub const SPENT_COUNT: u16 = 100;

/// How many blocks may be rolled back, in a line of the genesis.
pub const FAR_BACK: &str = "k = 2160\n";

/// As many as may be.
pub const FURTHEST_BACK: &str = "k = 10000\n";

/// Few blocks.
pub const NEAR: &str = "k = 10\n";

/// The text of the genesis whose outputs are to the key, with the line that says how many blocks may be rolled back.
fn text_with(alloc: Global, back: &str, key: &str) -> String {
    let mut text = String::new(alloc);
    let _ = text.push_str(back);
    let _ = text.push_str(NUMBERS);
    put_output(&mut text, key, "1000000000000");
    for _ in 0..SPENT_COUNT {
        put_output(&mut text, key, "1000");
    }
    text
}

/// The genesis, with the line that says how many blocks may be rolled back.
pub fn genesis(alloc: Global, back: &str) -> Option<Genesis> {
    let text = text_with(alloc, back, TEST_KEY);
    Genesis::from_toml(alloc, &text).ok()
}

/// The same for signatures by Ed25519.
pub fn ed25519_genesis(alloc: Global, back: &str) -> Option<Genesis> {
    let text = text_with(alloc, back, ED25519_KEY);
    Genesis::from_toml(alloc, &text).ok()
}
