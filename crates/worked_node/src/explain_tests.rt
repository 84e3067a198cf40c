//! Faults of a script that are explained, and what is refused or not selected.

use super::start_tests::{GENESIS, MEMORY, ends, own_folder, remove, write_file};
use hosting::Process;
use std::fs::File;
use std::process::Abort;
use std::rt::Files;
use std::sync::Wait;
use std::thread::Threads;

/// The script of a file ends by a fault under the genesis of another. With the flag the same is printed and told, and
/// then a line on what the fault is about.
pub fn explains(
    rt: &(impl Abort
        + Files<File = File>
        + AllocGlobal
        + Threads
        + Wait
        + Process
        + Copy
        + Send
        + Sync
        + 'static),
    genesis: &str,
    script: &str,
    (printed, fault, hint): (&str, &str, &str),
) {
    let words = ["node", "run", "--genesis", genesis, "--script", script];
    ends(rt, words.as_slice(), 1, printed, fault);
    let words = [
        "node",
        "run",
        "--explain",
        "--genesis",
        genesis,
        "--script",
        script,
    ];
    let told = format!(in rt.alloc(); "{fault}# {hint}\n").expect(rt, MEMORY);
    ends(rt, words.as_slice(), 1, printed, told.as_str());
}

/// Scripts with what is printed, the fault that is told, and what it is about.
const SCRIPTS: &[(&str, (&str, &str, &str))] = &[
    (
        "tip\nwalk A\n",
        (
            "tip: 0 genesis\n",
            "line 2: BadLine\n",
            "line 2, column 1: \"walk\" begins no line of a script",
        ),
    ),
    (
        "arrive\n",
        (
            "",
            "line 1: BadLine\n",
            "line 1, column 1: \"arrive\" is the last word, and a name has to follow",
        ),
    ),
    (
        "seed K 0101010101010101010101010101010101010101010101010101010101010101\n",
        (
            "",
            "line 1: NotBuilt\n",
            "line 1, column 8: \"0101010101010101010101010101010101010101010101010101010101010101\" \
says a secret key, where the scheme has none",
        ),
    ),
    (
        "tip tip\n",
        (
            "",
            "line 1: BadLine\n",
            "line 1, column 5: \"tip\" is a word too many",
        ),
    ),
    (
        "block A1 genesis 01\n",
        (
            "",
            "line 1: BadLine\n",
            "line 1, column 18: \"01\" is not a number below 2^64 without a zero in front",
        ),
    ),
    (
        "block A1 01 1\n",
        (
            "",
            "line 1: BadLine\n",
            "line 1, column 10: \"01\" is not a name or genesis",
        ),
    ),
    (
        "tx T\nmint S - x\n",
        (
            "",
            "line 2: BadLine\n",
            "line 2, column 10: \"x\" is not a number below 2^64 without a zero in front, or one behind a sign",
        ),
    ),
    (
        "raw A 8\n",
        (
            "",
            "line 1: BadLine\n",
            "line 1, column 7: \"8\" is not hexadecimal digits of whole bytes",
        ),
    ),
    (
        "tx T\nmint S 8 5\n",
        (
            "",
            "line 2: BadLine\n",
            "line 2, column 8: \"8\" is not hexadecimal digits of whole bytes or -",
        ),
    ),
    (
        "tx T\nout K 1\n",
        (
            "",
            "line 2: BadLine\n",
            "line 2, column 5: \"K\" is not key or script",
        ),
    ),
    (
        "balance key K\n",
        (
            "",
            "line 1: BadLine\n",
            "line 1, column 9: \"key\" is not script",
        ),
    ),
    (
        "arrive A  B\n",
        (
            "",
            "line 1: BadLine\n",
            "line 1, column 10: \"\" stands where one space has to stand between two words",
        ),
    ),
    (
        "tip\tA\n",
        (
            "",
            "line 1: BadLine\n",
            "line 1, column 4: \"tip\" goes on with a byte that is not printable ASCII",
        ),
    ),
    (
        "\ntx T\n# no end\n",
        (
            "",
            "line 2: BadLine\n",
            "line 2, column 1: \"tx\" begins a transaction that has no end",
        ),
    ),
    (
        "fee 5\n",
        (
            "",
            "line 1: BadLine\n",
            "line 1, column 1: \"fee\" stands outside of a transaction",
        ),
    ),
    (
        "tx T\ntip\n",
        (
            "",
            "line 2: BadLine\n",
            "line 2, column 1: \"tip\" stands inside of a transaction",
        ),
    ),
    (
        "block A1 genesis 1\nblock B1 A1 2 T",
        (
            "",
            "line 2: UnknownName\n",
            "line 2, column 15: \"T\" is bound to nothing of the kind that is asked for",
        ),
    ),
    (
        "tx T\nend\ntx U\nin T 0\nin V 0\n",
        (
            "",
            "line 5: UnknownName\n",
            "line 5, column 4: \"V\" is bound to nothing of the kind that is asked for",
        ),
    ),
    (
        "raw A1 80\nblock B1 A1 2\n",
        (
            "",
            "line 2: UnknownName\n",
            "line 2, column 10: \"A1\" is bound to nothing of the kind that is asked for",
        ),
    ),
    (
        "raw A1 80\nwhy A1\n",
        (
            "",
            "line 2: UnknownName\n",
            "line 2, column 5: \"A1\" is bound to nothing of the kind that is asked for",
        ),
    ),
    (
        "raw A1 80\ndiscard A1\n",
        (
            "",
            "line 2: UnknownName\n",
            "line 2, column 9: \"A1\" is bound to nothing of the kind that is asked for",
        ),
    ),
    (
        "discard\n",
        (
            "",
            "line 1: BadLine\n",
            "line 1, column 1: \"discard\" is the last word, and a name has to follow",
        ),
    ),
    (
        "forge A1 9223372036854775808\narrive A1\n",
        (
            "forge A1: refused 2 OutOfRange\n",
            "line 2: UnknownName\n",
            "line 2, column 8: \"A1\" is bound to nothing of the kind that is asked for",
        ),
    ),
    (
        "open F\nforge A1 9223372036854775808\nforward F A1\n",
        (
            "open F: ok\nforge A1: refused 2 OutOfRange\n",
            "line 3: UnknownName\n",
            "line 3, column 9: \"F\" is bound to nothing of the kind that is asked for, or a name behind it is",
        ),
    ),
    (
        "raw A1 80\n\nraw A1 80\n",
        (
            "",
            "line 3: NameTaken\n",
            "line 3, column 5: \"A1\" is bound already",
        ),
    ),
    (
        "block A1 genesis 9223372036854775808\n",
        (
            "",
            "line 1: NotBuilt\n",
            "line 1, column 18: \"9223372036854775808\" is out of range",
        ),
    ),
    (
        "key K 00\n",
        (
            "",
            "line 1: NotBuilt\n",
            "line 1, column 7: \"00\" has another length than it has to have",
        ),
    ),
    (
        "script S 00\n",
        (
            "",
            "line 1: NotBuilt\n",
            "line 1, column 10: \"00\" is the text of no native script",
        ),
    ),
    (
        "tx T\nin genesis 0\nin genesis 0\n",
        (
            "",
            "line 3: NotBuilt\n",
            "line 3, column 4: \"genesis\" stands there twice, or is too much",
        ),
    ),
];

#[test]
fn faults_of_scripts(rt: HostRuntime) {
    let folder = own_folder(&rt);
    let genesis = write_file(&rt, &folder, "genesis.toml", GENESIS);
    for (text, end) in SCRIPTS {
        let script = write_file(&rt, &folder, "some.script", &[*text]);
        explains(&rt, &genesis, &script, *end);
    }
    remove(&rt, &folder);
}

/// A line of 98 bytes.
const COMMENT: &str =
    "# a script of which every line but the last one is this comment, in 98 bytes \
with its line feed .\n";

/// A text that has this part `count` times.
pub fn many(rt: &(impl Abort + AllocGlobal), part: &str, count: u32) -> String {
    let mut text = String::new(rt.alloc());
    for _ in 0..count {
        text.push_str(part).expect(rt, MEMORY);
    }
    text
}

// The last byte of `tip` is the one that is too many.
#[test]
fn a_script_that_is_too_long(rt: HostRuntime) {
    let folder = own_folder(&rt);
    let genesis = write_file(&rt, &folder, "genesis.toml", GENESIS);
    let comments = many(&rt, COMMENT, 42_799);
    assert!(rt; comments.len() == 4_194_302);
    let parts = [comments.as_str(), "tip"];
    let script = write_file(&rt, &folder, "some.script", parts.as_slice());
    let end = (
        "",
        "line 42800: BadLine\n",
        "line 42800, column 1: \"tip\" begins a line that goes on past the greatest length of a script",
    );
    explains(&rt, &genesis, &script, end);
    remove(&rt, &folder);
}

// A fault of a script is explained on a log too, and nothing is told where there is none.
#[test]
fn a_script_on_a_log(rt: HostRuntime) {
    let folder = own_folder(&rt);
    let genesis = write_file(&rt, &folder, "genesis.toml", GENESIS);
    let script = write_file(&rt, &folder, "some.script", &["tip\narrive A1\n"]);
    let log = format!(in rt.alloc(); "{folder}/log").expect(&rt, MEMORY);
    let words = [
        "node",
        "run",
        "--genesis",
        genesis.as_str(),
        "--script",
        script.as_str(),
        "--log",
        log.as_str(),
        "--explain",
    ];
    let told = "line 2: UnknownName
# line 2, column 8: \"A1\" is bound to nothing of the kind that is asked for
";
    ends(&rt, words.as_slice(), 1, "tip: 0 genesis\n", told);
    let script = write_file(&rt, &folder, "some.script", &["tip\n"]);
    let words = [
        "node",
        "run",
        "--genesis",
        genesis.as_str(),
        "--script",
        script.as_str(),
        "--explain",
    ];
    ends(&rt, words.as_slice(), 0, "tip: 0 genesis\n", "");
    remove(&rt, &folder);
}

/// A script of whose lines two are explained, what they print, and what the notes are.
const REFUSED: (&str, &str, &str) = (
    "tx T\nend\nsubmit T\nblock B1 genesis 2\nblock B2 B1 3\narrive B2\narrive B1\n",
    "submit T: refused 2 NoInputs
arrive B2: kept back 0 added 0
arrive B1: kept back 0 added 2
",
    "submit T: refused 2 NoInputs
# no inputs
arrive B2: kept back 0 added 0
# waits for B1
arrive B1: kept back 0 added 2
",
);

// What is refused and what isn't selected is explained with the flag alone, on a new core and on a log.
#[test]
fn what_is_refused_or_not_selected(rt: HostRuntime) {
    let (lines, plain, told) = REFUSED;
    let folder = own_folder(&rt);
    let genesis = write_file(&rt, &folder, "genesis.toml", GENESIS);
    let script = write_file(&rt, &folder, "some.script", &[lines]);
    let log = format!(in rt.alloc(); "{folder}/log").expect(&rt, MEMORY);
    let words = [
        "node",
        "run",
        "--genesis",
        genesis.as_str(),
        "--script",
        script.as_str(),
        "--explain",
        "--log",
        log.as_str(),
    ];
    let (without, _) = words.split_at(6);
    ends(&rt, without, 0, plain, "");
    let (new_core, _) = words.split_at(7);
    ends(&rt, new_core, 0, told, "");
    ends(&rt, words.as_slice(), 0, told, "");
    remove(&rt, &folder);
}

// What was printed before a fault stands, and so does what was told of it.
#[test]
fn a_note_before_a_fault(rt: HostRuntime) {
    let folder = own_folder(&rt);
    let genesis = write_file(&rt, &folder, "genesis.toml", GENESIS);
    let script = write_file(
        &rt,
        &folder,
        "some.script",
        &["tx T\nend\nsubmit T\narrive T\n"],
    );
    let words = [
        "node",
        "run",
        "--explain",
        "--genesis",
        genesis.as_str(),
        "--script",
        script.as_str(),
    ];
    let told = "line 4: UnknownName
# line 4, column 8: \"T\" is bound to nothing of the kind that is asked for
";
    let printed = "submit T: refused 2 NoInputs\n# no inputs\n";
    ends(&rt, words.as_slice(), 1, printed, told);
    remove(&rt, &folder);
}
