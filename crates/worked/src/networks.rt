//! The small network, in parts of which a test makes others.

use super::fixture::MEMORY;
use ledger::Genesis;
use std::process::Abort;

/// The nine numbers of the network.
pub const NUMBERS: &str = "network = 0
k = 2
min_fee_a = 1
min_fee_b = 100
min_utxo = 10
max_tx_size = 4096
max_body_size = 65536
max_volatile = 100
max_mempool = 100
";

/// An output of 1,200 lovelace to the key of 32 bytes 01.
pub const OUTPUT: &str = "[[output]]
key = \"0101010101010101010101010101010101010101010101010101010101010101\"
coin = 1200
";

/// The document of the nine numbers and these outputs.
fn document(rt: &(impl Abort + AllocGlobal), outputs: &str) -> String {
    format!(in rt.alloc(); "{NUMBERS}{outputs}").expect(rt, MEMORY)
}

/// The genesis of the nine numbers and these outputs.
pub fn genesis_of(rt: &(impl Abort + AllocGlobal), outputs: &str) -> Genesis {
    let text = document(rt, outputs);
    Genesis::from_toml(rt.alloc(), text.as_str()).expect(rt, "a genesis")
}
