//! Command lines, files and statuses.

use commands::start;
use hosting::Process;
use std::fs::File;
use std::io::Write;
use std::process::Abort;
use std::rt::Files;
use std::sync::Wait;
use std::thread::Threads;
use std::{fs, io};

// Each way out of a function drops all that it owns, which makes its proof longer. So a lack of memory and what can't
// be otherwise end a test on the spot.

/// What is said where memory runs out.
pub const MEMORY: &str = "memory";

/// The words of a command line.
fn words_of(rt: &(impl Abort + AllocGlobal), words: &[&str]) -> Vec<String> {
    let mut all = Vec::new(rt.alloc());
    for word in words {
        let text = (*word).to_string(rt.alloc()).expect(rt, MEMORY);
        all.push(text).expect(rt, MEMORY);
    }
    all
}

/// What was written is this text, or begins with it where two points stand at its end.
fn is_said(rt: &impl Abort, said: &[u8], text: &str) {
    match text.strip_suffix("..") {
        Some(beginning) => assert!(rt; said.starts_with(beginning.as_bytes())),
        None => assert!(rt; said == text.as_bytes()),
    }
}

/// The program ends with this status. It has printed the one text on standard output and told the other on standard
/// error, or something where that is `?`. Standard input is empty.
pub fn ends(
    rt: &(impl Abort
        + Files<File = File>
        + AllocGlobal
        + Threads
        + Wait
        + Process
        + Copy
        + Send
        + Sync
        + 'static),
    words: &[&str],
    status: u8,
    printed: &str,
    told: &str,
) {
    ends_on(rt, words, b"".as_slice(), (status, printed, told));
}

/// The same with this standard input.
pub fn ends_on(
    rt: &(impl Abort
        + Files<File = File>
        + AllocGlobal
        + Threads
        + Wait
        + Process
        + Copy
        + Send
        + Sync
        + 'static),
    words: &[&str],
    input: &[u8],
    (status, printed, told): (u8, &str, &str),
) {
    let words = words_of(rt, words);
    let mut input = input;
    let mut out = Vec::new(rt.alloc());
    let mut err = Vec::new(rt.alloc());
    let answer = start(rt, words.as_slice(), &mut input, &mut out, &mut err);
    let (out, err) = (out.as_slice(), err.as_slice());
    assert!(rt; answer == status);
    is_said(rt, out, printed);
    match told {
        "?" => assert!(rt; !err.is_empty()),
        _ => is_said(rt, err, told),
    }
}

/// Command lines that are refused.
const REFUSED: &[&[&str]] = &[
    &["node"],
    &["node", "walk"],
    &["node", "run"],
    &["node", "sim"],
    &["node", "sim", "--genesis", "g"],
    &["node", "sim", "--script", "s"],
    &[
        "node",
        "sim",
        "--genesis",
        "g",
        "--script",
        "s",
        "--log",
        "l",
    ],
    &[
        "node",
        "sim",
        "--genesis",
        "g",
        "--script",
        "s",
        "--clients",
        "0",
    ],
    &[
        "node",
        "sim",
        "--genesis",
        "g",
        "--script",
        "s",
        "--clients",
        "9",
    ],
    &[
        "node",
        "sim",
        "--genesis",
        "g",
        "--script",
        "s",
        "--explain",
    ],
    &[
        "node",
        "replay",
        "--genesis",
        "g",
        "--log",
        "l",
        "--explain",
    ],
    &["node", "replay", "--log", "l"],
    &["node", "id"],
    &["node", "id", "text", "f"],
    &["node", "id", "block", "f", "g"],
    &["node", "id", "block", "f", "--genesis", "g"],
    &["node", "show"],
    &["node", "show", "text", "f"],
    &["node", "show", "genesis"],
    &["node", "show", "--scheme", "rsa", "block", "f"],
    &["node", "check", "f"],
    &["node", "check", "--genesis", "g", "f", "g"],
    &["node", "check", "--genesis", "g", "--slot", "-1", "f"],
    &[
        "node",
        "check",
        "--genesis",
        "g",
        "--slot",
        "18446744073709551616",
        "f",
    ],
    &["node", "replay", "--genesis", "g", "--script", "s"],
    &["node", "run", "--genesis", "g"],
    &["node", "run", "--genesis", "g", "--script"],
    &["node", "run", "--genesis", "g", "--script", "s", "t"],
    &[
        "node",
        "run",
        "--genesis",
        "g",
        "--script",
        "s",
        "--script",
        "t",
    ],
];

#[test]
fn refused_command_lines(rt: HostRuntime) {
    for words in REFUSED {
        ends(&rt, *words, 2, "", "?");
    }
}

/// Command lines that are answered by the program alone, and what is printed.
const ANSWERED: &[(&[&str], &str)] = &[
    (&["node", "--help"], "The chain database of a node\n.."),
    (&["node", "run", "--help"], "Run a script.."),
    (&["node", "sim", "--help"], "Have peers send blocks.."),
    (&["node", "replay", "--help"], "Open a log.."),
    (&["node", "id", "--help"], "Print the identifier.."),
    (&["node", "check", "--help"], "Say whether.."),
    (&["node", "show", "--help"], "Print what a transaction.."),
    (&["node", "serve", "--help"], "Stay.."),
    (&["node", "--version"], "node 0.1.0\n"),
];

#[test]
fn help_and_version(rt: HostRuntime) {
    for (words, printed) in ANSWERED {
        ends(&rt, *words, 0, *printed, "");
    }
}

/// Makes a folder that this test alone writes to: the first of these names that is free.
pub fn own_folder(rt: &(impl Abort + Files + AllocGlobal)) -> String {
    for number in 0..1000u64 {
        let path = format!(in rt.alloc(); "/tmp/node_tests_{number}").expect(rt, MEMORY);
        if fs::create_dir(rt, path.as_str()).is_ok() {
            return path;
        }
    }
    panic!(rt; "no folder is free")
}

/// The lines of a genesis behind its network and k.
pub const OTHER_NUMBERS: &str = "min_fee_a = 1
min_fee_b = 100
min_utxo = 10
max_tx_size = 4096
max_body_size = 65536
max_volatile = 100
max_mempool = 100
";

/// Its outputs: 1,200 lovelace to the key of 32 bytes 01.
pub const OUTPUT: &str = "[[output]]
key = \"0101010101010101010101010101010101010101010101010101010101010101\"
coin = 1200
";

/// A genesis.
pub const GENESIS: &[&str] = &["network = 0\nk = 2\n", OTHER_NUMBERS, OUTPUT];

/// Writes parts to the file of this name in a folder, and answers its path.
pub fn write_file(
    rt: &(impl Abort + Files + AllocGlobal),
    folder: &str,
    name: &str,
    parts: &[&str],
) -> String {
    let mut text = String::new(rt.alloc());
    for part in parts {
        text.push_str(part).expect(rt, MEMORY);
    }
    let path = format!(in rt.alloc(); "{folder}/{name}").expect(rt, MEMORY);
    fs::write(rt, path.as_str(), text.as_bytes()).expect(rt, "a file");
    path
}

/// The script of a file is run under the genesis of another, with this status, and this is printed and told.
fn runs(
    rt: &(impl Abort
        + Files<File = File>
        + AllocGlobal
        + Threads
        + Wait
        + Process
        + Copy
        + Send
        + Sync
        + 'static),
    genesis: &str,
    script: &str,
    (status, printed, told): (u8, &str, &str),
) {
    let words = ["node", "run", "--script", script, "--genesis", genesis];
    ends(rt, words.as_slice(), status, printed, told);
}

/// Removes a folder.
pub fn remove(rt: &(impl Abort + Files + AllocGlobal), folder: &str) {
    fs::remove_dir_all(rt, folder).expect(rt, "a folder");
}

/// Scripts that can't be read, and what is told.
const NO_SCRIPTS: &[(&str, &str)] = &[
    ("no/such.script", "cannot read no/such.script\n"),
    ("/", "read failed\n"),
];

/// Files that can't be read as a genesis, which is read first: a folder and a file without end neither.
const NO_GENESIS: &[(&str, &str)] = &[
    ("no/such.toml", "cannot read no/such.toml\n"),
    ("/", "cannot read /\n"),
    ("/dev/zero", "cannot read /dev/zero\n"),
];

#[test]
fn files_that_cannot_be_read(rt: HostRuntime) {
    let folder = own_folder(&rt);
    let genesis = write_file(&rt, &folder, "genesis.toml", GENESIS);
    for (path, told) in NO_SCRIPTS {
        runs(&rt, &genesis, *path, (1, "", *told));
    }
    for (path, told) in NO_GENESIS {
        runs(&rt, *path, "no/such.script", (1, "", *told));
    }
    remove(&rt, &folder);
}

/// Texts of genesis files with a fault, in parts, and what is told of them.
const FAULTS: &[(&[&str], &str)] = &[
    (
        &["network = 0\nk =\n", OTHER_NUMBERS, OUTPUT],
        "genesis: 1 NotToml\n",
    ),
    (&[], "genesis: 2 BadShape\n"),
    (&["k = 0\n", OTHER_NUMBERS, OUTPUT], "genesis: 2 BadShape\n"),
    (
        &["network = 0\nk = 0\n", OTHER_NUMBERS, OUTPUT],
        "genesis: 3 OutOfRange\n",
    ),
    (
        &[
            "network = 0\nk = 2\n",
            OTHER_NUMBERS,
            "[[output]]\nkey = \"01010101010101010101010101010101010101010101010101010101010101\"\ncoin = 0\n",
        ],
        "genesis: 4 BadAddress\n",
    ),
    (
        &[
            "network = 0\nk = 2\n",
            OTHER_NUMBERS,
            "[[output]]\nkey = \"0101010101010101010101010101010101010101010101010101010101010101\"\ncoin = 0\n",
        ],
        "genesis: 5 BadCoin\n",
    ),
    (
        &["network = 0\nk = 2\n", OTHER_NUMBERS, "output = []\n"],
        "genesis: 6 BadOutputs\n",
    ),
];

// The first fault of the genesis is told, and no script is opened.
#[test]
fn faults_of_the_genesis(rt: HostRuntime) {
    let folder = own_folder(&rt);
    for (parts, told) in FAULTS {
        let genesis = write_file(&rt, &folder, "genesis.toml", parts);
        runs(&rt, &genesis, "no/such.script", (1, "", *told));
    }
    // Bytes that are no text.
    let genesis = write_file(&rt, &folder, "bytes", &[]);
    fs::write(&rt, genesis.as_str(), b"# \xff\n".as_slice()).expect(&rt, "a file");
    let told = "genesis: 1 NotToml\n";
    runs(&rt, &genesis, "no/such.script", (1, "", told));
    remove(&rt, &folder);
}

/// A writer that takes nothing.
#[derive(Drop)]
struct Closed {}

impl Write for Closed {
    fn write(&mut self, _buf: &[u8]) -> io::Result<usize> {
        Err(io::Error::from(io::ErrorKind::Other))
    }

    fn flush(&mut self) -> io::Result<()> {
        Ok(())
    }
}

/// Scripts of files with the status, what is printed and what is told.
const SCRIPTS: &[(&str, (u8, &str, &str))] = &[
    (
        "block A1 genesis 1\narrive A1\ntip",
        (0, "arrive A1: kept back 0 added 1\ntip: 1 A1\n", ""),
    ),
    (
        "tip\ntip tip\ntip\n",
        (1, "tip: 0 genesis\n", "line 2: BadLine\n"),
    ),
    (
        "tip\narrive A1\n",
        (1, "tip: 0 genesis\n", "line 2: UnknownName\n"),
    ),
    ("raw A1 80\n\nraw A1 80\n", (1, "", "line 3: NameTaken\n")),
    (
        "block A1 genesis 9223372036854775808\n",
        (1, "", "line 1: NotBuilt\n"),
    ),
];

#[test]
fn scripts_of_files(rt: HostRuntime) {
    let folder = own_folder(&rt);
    let genesis = write_file(&rt, &folder, "genesis.toml", GENESIS);
    for (text, end) in SCRIPTS {
        let script = write_file(&rt, &folder, "some.script", &[*text]);
        runs(&rt, &genesis, &script, *end);
    }
    remove(&rt, &folder);
}

/// These words end with status 1 where standard output takes nothing, and that is told.
fn fails_to_write(
    rt: &(impl Abort
        + Files<File = File>
        + AllocGlobal
        + Threads
        + Wait
        + Process
        + Copy
        + Send
        + Sync
        + 'static),
    words: &[&str],
) {
    let words = words_of(rt, words);
    let mut err = Vec::new(rt.alloc());
    let mut input = b"".as_slice();
    let status = start(rt, words.as_slice(), &mut input, &mut Closed {}, &mut err);
    assert!(rt; status == 1);
    assert!(rt; err.as_slice() == b"write failed\n".as_slice());
}

#[test]
fn output_that_is_closed(rt: HostRuntime) {
    let folder = own_folder(&rt);
    let genesis = write_file(&rt, &folder, "genesis.toml", GENESIS);
    let script = write_file(&rt, &folder, "some.script", &["tip\n"]);
    let words = [
        "node",
        "run",
        "--genesis",
        genesis.as_str(),
        "--script",
        script.as_str(),
    ];
    fails_to_write(&rt, words.as_slice());
    fails_to_write(&rt, ["node", "--help"].as_slice());
    remove(&rt, &folder);
}
