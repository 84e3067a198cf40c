//! The example of the README, which stands in `readme.rt` word for word.

use super::readme::follow;
use chaindb::{ArriveReply, Core, Ed25519, Genesis};

/// A genesis.
pub const GENESIS: &str = "network = 0
k = 2
min_fee_a = 1
min_fee_b = 100
min_utxo = 10
max_tx_size = 4096
max_body_size = 65536
max_volatile = 100
max_mempool = 100
scheme = \"ed25519\"
[[output]]
key = \"8a88e3dd7409f195fd52db2d3cba5d72ca6709bf1d94121bf3748801b40f6f5c\"
coin = 1200
";

/// A first block in slot 1, without transactions.
const BLOCK: &[u8] = b"\x82\x84\x01\x01\xf6\x58\x20\
\x76\xbe\x8b\x52\x8d\x00\x75\xf7\xaa\xe9\x8d\x6f\xa5\x7a\x6d\x3c\
\x83\xae\x48\x0a\x84\x69\xe6\x68\xd7\xb0\xaf\x96\x89\x95\xac\x71\x80";

#[test]
fn as_a_library(rt: HostRuntime) {
    assert!(rt; follow(&rt, GENESIS, BLOCK).is_ok());
    assert!(rt; follow(&rt, GENESIS, b"\x00").is_ok());
    assert!(rt; follow(&rt, "", BLOCK).is_err());
}

// The block that it has arrive is selected.
#[test]
fn block_of_the_example(rt: HostRuntime) {
    let genesis = Genesis::from_toml(rt.alloc(), GENESIS).expect(&rt, "a genesis");
    let mut core = Core::<Ed25519>::new(rt.alloc(), genesis).expect(&rt, "memory");
    assert!(rt; core.arrive(BLOCK) == Ok(ArriveReply::Kept { back: 0, added: 1 }));
    assert!(rt; core.tip().number == 1);
    assert!(rt; core.utxo().len() == 1);
    assert!(rt; core.fees() == 0);
}
