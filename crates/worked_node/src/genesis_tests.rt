//! Faults of a genesis file that are explained.

use super::explain_tests::{explains, many};
use super::start_tests::{OTHER_NUMBERS, OUTPUT, own_folder, remove, write_file};
use std::fs;

/// Another output in three lines, before its coin.
const ANOTHER: &str = "[[output]]
key = \"0101010101010101010101010101010101010101010101010101010101010101\"
";

/// Texts of genesis files, in parts, with the fault that is told, and what it is about.
const DOCUMENTS: &[(&[&str], &str, &str)] = &[
    (
        &["network = 0\nk = 1\nk = 2\n", OTHER_NUMBERS, OUTPUT],
        "genesis: 1 NotToml\n",
        "line 3, column 1: duplicate key",
    ),
    (&[], "genesis: 2 BadShape\n", "\"network\" is missing"),
    (
        &["network = 0\nk = 2\nkk = 2\n", OTHER_NUMBERS, OUTPUT],
        "genesis: 2 BadShape\n",
        "line 3, column 1: \"kk\" is no key that may stand there",
    ),
    (
        &["network = 0\n k = \"2\"\n", OTHER_NUMBERS, OUTPUT],
        "genesis: 2 BadShape\n",
        "line 2, column 2: \"k\" is no whole number",
    ),
    (
        &[
            "network = 0\nk = 2\nscheme = \"rsa\"\n",
            OTHER_NUMBERS,
            OUTPUT,
        ],
        "genesis: 2 BadShape\n",
        "line 3, column 1: \"scheme\" is neither \"test\" nor \"ed25519\"",
    ),
    (
        &[
            "network = 0\nk = 2\nscheme = 25519\n",
            OTHER_NUMBERS,
            OUTPUT,
        ],
        "genesis: 2 BadShape\n",
        "line 3, column 1: \"scheme\" is no text",
    ),
    (
        &["network = 0\nk = 2\nera2_slot = 5\n", OTHER_NUMBERS, OUTPUT],
        "genesis: 2 BadShape\n",
        "line 3, column 1: \"era2_slot\" stands there without the other number of a second era",
    ),
    (
        &[
            "network = 0\nk = 2\nmax_volatile_bytes = true\n",
            OTHER_NUMBERS,
            OUTPUT,
        ],
        "genesis: 2 BadShape\n",
        "line 3, column 1: \"max_volatile_bytes\" is no whole number",
    ),
    (
        &[
            "network = 0\nk = 2\n",
            OTHER_NUMBERS,
            OUTPUT,
            "[[output]]\ncoin = 1\n",
        ],
        "genesis: 2 BadShape\n",
        "line 13, column 1: \"address\" of output 1 is missing, and no key stands in its stead",
    ),
    (
        &[
            "network = 0\nk = 2\n",
            OTHER_NUMBERS,
            OUTPUT,
            ANOTHER,
            "address = \"\"\n",
        ],
        "genesis: 2 BadShape\n",
        "line 15, column 1: \"address\" of output 1 stands beside a key",
    ),
    (
        &["network = 0\nk = 2\n", OTHER_NUMBERS, "output = 1\n"],
        "genesis: 2 BadShape\n",
        "line 10, column 1: \"output\" is no array",
    ),
    (
        &["network = 0\nk = 2\n", OTHER_NUMBERS, "output = [1]\n"],
        "genesis: 2 BadShape\n",
        "line 10, column 1: \"output\" has no table at place 0",
    ),
    (
        &[
            "network = 0\nk = 2\n",
            OTHER_NUMBERS,
            "output = [{ address = \"\", coin = 1 }, 1]\n",
        ],
        "genesis: 2 BadShape\n",
        "line 10, column 1: \"output\" has no table at place 1",
    ),
    (
        &["network = 0\nk = 0\n", OTHER_NUMBERS, OUTPUT],
        "genesis: 3 OutOfRange\n",
        "line 2, column 1: \"k\" is not from 1 to 10000",
    ),
    (
        &[
            "network = 0\nk = 2\nmax_volatile_bytes = 1099511627777\n",
            OTHER_NUMBERS,
            OUTPUT,
        ],
        "genesis: 3 OutOfRange\n",
        "line 3, column 1: \"max_volatile_bytes\" is not from 1 to 1099511627776",
    ),
    (
        &[
            "network = 0\nk = 2\n",
            OTHER_NUMBERS,
            "[[output]]\nkey = \"01\"\ncoin = 0\n",
        ],
        "genesis: 4 BadAddress\n",
        "line 11, column 1: \"key\" of output 0 is not 64 hexadecimal digits",
    ),
    (
        &[
            "network = 0\nk = 2\n",
            OTHER_NUMBERS,
            "[[output]]\naddress = \"01\"\ncoin = 0\n",
        ],
        "genesis: 4 BadAddress\n",
        "line 11, column 1: \"address\" of output 0 is not 66 hexadecimal digits of an address of the network",
    ),
    (
        &[
            "network = 0\nk = 2\n",
            OTHER_NUMBERS,
            OUTPUT,
            ANOTHER,
            "coin = 0\n",
        ],
        "genesis: 5 BadCoin\n",
        "line 15, column 1: \"coin\" of output 1 is below 1",
    ),
    (
        &[
            "network = 0\nk = 2\n",
            OTHER_NUMBERS,
            OUTPUT,
            ANOTHER,
            "coin = 9223372036854775807\n",
        ],
        "genesis: 5 BadCoin\n",
        "line 15, column 1: \"coin\" of output 1 makes the coins up to there more than 9223372036854775807",
    ),
    (
        &["network = 0\nk = 2\n", OTHER_NUMBERS, "output = []\n"],
        "genesis: 6 BadOutputs\n",
        "line 10, column 1: \"output\" has no table",
    ),
];

#[test]
fn faults_of_the_genesis(rt: HostRuntime) {
    let folder = own_folder(&rt);
    for (parts, fault, hint) in DOCUMENTS {
        let genesis = write_file(&rt, &folder, "genesis.toml", parts);
        explains(&rt, &genesis, "no/such.script", ("", *fault, *hint));
    }
    // Bytes that are no text.
    let genesis = write_file(&rt, &folder, "bytes", &[]);
    fs::write(&rt, genesis.as_str(), b"# \xff\n".as_slice()).expect(&rt, "a file");
    let end = (
        "",
        "genesis: 1 NotToml\n",
        "line 1, column 3: invalid UTF-8",
    );
    explains(&rt, &genesis, "no/such.script", end);
    remove(&rt, &folder);
}

#[test]
fn a_genesis_with_too_many_outputs(rt: HostRuntime) {
    let folder = own_folder(&rt);
    let outputs = many(&rt, OUTPUT, 10_001);
    let parts = ["network = 0\nk = 2\n", OTHER_NUMBERS, outputs.as_str()];
    let genesis = write_file(&rt, &folder, "genesis.toml", parts.as_slice());
    let end = (
        "",
        "genesis: 6 BadOutputs\n",
        "line 10, column 1: \"output\" has more than 10000 tables",
    );
    explains(&rt, &genesis, "no/such.script", end);
    remove(&rt, &folder);
}
