//! Runs, logs and simulations whose genesis file names Ed25519.

use super::start_tests::{MEMORY, OTHER_NUMBERS, ends, own_folder, remove, write_file};

/// An output to the public key whose secret one has 32 bytes 01.
const OUTPUT: &str = "[[output]]
key = \"8a88e3dd7409f195fd52db2d3cba5d72ca6709bf1d94121bf3748801b40f6f5c\"
coin = 1200
";

/// A genesis that names Ed25519.
const GENESIS: &[&str] = &[
    "scheme = \"ed25519\"\nnetwork = 0\nk = 2\n",
    OTHER_NUMBERS,
    OUTPUT,
];

/// The same that names no scheme, which is then that of the tests.
const UNNAMED: &[&str] = &["network = 0\nk = 2\n", OTHER_NUMBERS, OUTPUT];

/// A payment that the secret key signs, in a block.
const PAYMENT: &str = "seed K 0101010101010101010101010101010101010101010101010101010101010101
tx T1
in genesis 0
out key K 910
fee 290
sign K
end
block A1 genesis 1 T1
";

/// It arrives, and two blocks after it.
const EVENTS: &str = "submit T1
arrive A1
block A2 A1 2
block A3 A2 3
arrive A2
arrive A3
utxo
";

/// What that prints.
const TOLD: &str = "submit T1: added
arrive A1: kept back 0 added 1
arrive A2: kept back 0 added 1
arrive A3: kept back 0 added 1
utxo: pairs 1 coin 910 fees 290
";

/// What comes of the block from the first peer.
const SENT: &str = "height 1
arrivals 1
peer 1 1
peer 2 0
peer 3 0
peer 4 0
peer 5 0
peer 6 0
peer 7 0
peer 8 0
heights ok
follower 1
";

/// A public key that is to sign.
const PUBLIC: &str = "key K 8a88e3dd7409f195fd52db2d3cba5d72ca6709bf1d94121bf3748801b40f6f5c
tx T1
sign K
";

// The log has one block, the one that is never rolled back, and it is none where signatures are judged otherwise.
#[test]
fn runs_by_ed25519(rt: HostRuntime) {
    let folder = own_folder(&rt);
    let genesis = write_file(&rt, &folder, "genesis.toml", GENESIS);
    let unnamed = write_file(&rt, &folder, "unnamed.toml", UNNAMED);
    let script = write_file(&rt, &folder, "some.script", &[PAYMENT, EVENTS]);
    let log = format!(in rt.alloc(); "{folder}/log").expect(&rt, MEMORY);
    let words = ["node", "run", "--genesis", &genesis, "--script", &script];
    ends(&rt, words.as_slice(), 0, TOLD, "");
    let words = [
        "node",
        "run",
        "--genesis",
        &genesis,
        "--script",
        &script,
        "--log",
        &log,
    ];
    ends(&rt, words.as_slice(), 0, TOLD, "");
    let words = ["node", "replay", "--genesis", &genesis, "--log", &log];
    ends(&rt, words.as_slice(), 0, "height 1\n", "");
    let words = ["node", "replay", "--genesis", &unnamed, "--log", &log];
    ends(&rt, words.as_slice(), 1, "", "log: invalid block 1\n");
    let words = ["node", "run", "--genesis", &unnamed, "--script", &script];
    ends(&rt, words.as_slice(), 1, "", "line 1: NotBuilt\n");
    remove(&rt, &folder);
}

#[test]
fn simulation_by_ed25519(rt: HostRuntime) {
    let folder = own_folder(&rt);
    let genesis = write_file(&rt, &folder, "genesis.toml", GENESIS);
    let script = write_file(&rt, &folder, "some.script", &[PAYMENT, "send 1 A1\n"]);
    let words = ["node", "sim", "--genesis", &genesis, "--script", &script];
    ends(&rt, words.as_slice(), 0, SENT, "");
    remove(&rt, &folder);
}

// What a public key can't do is told.
#[test]
fn public_key_signs(rt: HostRuntime) {
    let folder = own_folder(&rt);
    let genesis = write_file(&rt, &folder, "genesis.toml", GENESIS);
    let script = write_file(&rt, &folder, "some.script", &[PUBLIC]);
    let words = [
        "node",
        "run",
        "--genesis",
        &genesis,
        "--script",
        &script,
        "--explain",
    ];
    let told =
        "line 3: NotBuilt\n# line 3, column 6: \"K\" signs twice, or is a public key, where only secret ones sign\n";
    ends(&rt, words.as_slice(), 1, "", told);
    remove(&rt, &folder);
}
