//! Simulations of files.

use super::start_tests::{GENESIS, ends, own_folder, remove, write_file};

/// What comes of one block from the last peer.
const LAST_TOLD: &str = "height 1
arrivals 1
peer 1 0
peer 2 0
peer 3 0
peer 4 0
peer 5 0
peer 6 0
peer 7 0
peer 8 1
heights ok
follower 1
";

/// The same with three clients.
const LAST_TOLD_TO_THREE: &str = "height 1
arrivals 1
peer 1 0
peer 2 0
peer 3 0
peer 4 0
peer 5 0
peer 6 0
peer 7 0
peer 8 1
heights ok
follower 1
follower 1
follower 1
";

/// The same where blocks are discarded that leave others no place: there were none.
const LAST_TOLD_OF_DISCARDS: &str = "height 1
arrivals 1
peer 1 0
peer 2 0
peer 3 0
peer 4 0
peer 5 0
peer 6 0
peer 7 0
peer 8 1
discarded 0
heights ok
follower 1
";

/// A script with one block, which the last peer sends.
const LAST: &str = "block A1 genesis 1\nsend 8 A1\n";

/// Scripts of files with the status, what is printed and what is told.
const SCRIPTS: &[(&str, (u8, &str, &str))] = &[
    (LAST, (0, LAST_TOLD, "")),
    (
        "block A1 genesis 1\nsend 9 A1\n",
        (1, "", "line 2: BadLine\n"),
    ),
    ("send 1 A1\n", (1, "", "line 1: UnknownName\n")),
    ("tip\n", (1, "", "line 1: BadLine\n")),
];

#[test]
fn simulations_of_files(rt: HostRuntime) {
    let folder = own_folder(&rt);
    let genesis = write_file(&rt, &folder, "genesis.toml", GENESIS);
    for (text, (status, printed, told)) in SCRIPTS {
        let script = write_file(&rt, &folder, "some.script", &[*text]);
        let words = ["node", "sim", "--script", &script, "--genesis", &genesis];
        ends(&rt, words.as_slice(), *status, *printed, *told);
    }
    let script = write_file(&rt, &folder, "some.script", &[LAST]);
    let words = [
        "node",
        "sim",
        "--script",
        &script,
        "--genesis",
        &genesis,
        "--clients",
        "3",
    ];
    ends(&rt, words.as_slice(), 0, LAST_TOLD_TO_THREE, "");
    let words = [
        "node",
        "sim",
        "--discard",
        "--script",
        &script,
        "--genesis",
        &genesis,
    ];
    ends(&rt, words.as_slice(), 0, LAST_TOLD_OF_DISCARDS, "");
    let words = ["node", "sim", "--script", "no/such", "--genesis", &genesis];
    ends(&rt, words.as_slice(), 1, "", "cannot read no/such\n");
    let words = ["node", "sim", "--script", "s", "--genesis", "no/such"];
    ends(&rt, words.as_slice(), 1, "", "cannot read no/such\n");
    remove(&rt, &folder);
}
