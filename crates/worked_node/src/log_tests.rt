//! Runs on logs in files.

use super::start_tests::{GENESIS, MEMORY, ends, own_folder, remove, write_file};
use hosting::Process;
use std::fs;
use std::fs::{File, OpenOptions};
use std::process::Abort;
use std::rt::Files;
use std::sync::Wait;
use std::thread::Threads;

/// Three blocks of a chain, of which the first one is then never rolled back.
const THREE: &str = "block A1 genesis 1
block A2 A1 2
block A3 A2 3
arrive A1
arrive A2
arrive A3
";

const THREE_KEPT: &str = "arrive A1: kept back 0 added 1
arrive A2: kept back 0 added 1
arrive A3: kept back 0 added 1
";

/// A fourth one.
const FOUR: &str = "block A1 genesis 1
block A2 A1 2
block A3 A2 3
block A4 A3 8
arrive A1
arrive A2
arrive A3
arrive A4
";

const FOUR_KEPT: &str = "arrive A1: kept back 0 added 1
arrive A2: kept back 0 added 1
arrive A3: kept back 0 added 1
arrive A4: kept back 0 added 1
";

/// What a fork and the chain's next block are answered on the log of those three blocks.
const ON_THE_LOG: &str = "block A1 genesis 1
block A2 A1 2
block B1 genesis 4
block B2 B1 5
block B3 B2 6
block B4 B3 7
tip
arrive B1
arrive A2
arrive B2
arrive B3
arrive B4
tip
";

const ON_THE_LOG_TOLD: &str = "tip: 1 A1
arrive B1: refused 4 TooOld
arrive A2: kept back 0 added 1
arrive B2: kept back 0 added 0
arrive B3: kept back 0 added 0
arrive B4: kept back 0 added 0
tip: 2 A2
";

/// The paths that the tests of a folder use.
#[derive(Drop)]
struct Paths {
    genesis: String,
    script: String,
    log: String,
}

impl Paths {
    /// Those of a folder, with this script.
    fn of(rt: &(impl Abort + Files + AllocGlobal), folder: &str, script: &str) -> Paths {
        Paths {
            genesis: write_file(rt, folder, "genesis.toml", GENESIS),
            script: write_file(rt, folder, "some.script", &[script]),
            log: format!(in rt.alloc(); "{folder}/blocks.log").expect(rt, MEMORY),
        }
    }
}

/// The script is run on the log, with this status, and this is printed and told.
fn runs_on_log(
    rt: &(impl Abort
        + Files<File = File>
        + AllocGlobal
        + Threads
        + Wait
        + Process
        + Copy
        + Send
        + Sync
        + 'static),
    paths: &Paths,
    (status, printed, told): (u8, &str, &str),
) {
    let words = [
        "node",
        "run",
        "--genesis",
        paths.genesis.as_str(),
        "--script",
        paths.script.as_str(),
        "--log",
        paths.log.as_str(),
    ];
    ends(rt, words.as_slice(), status, printed, told);
}

/// The log is opened, with this status, and this is printed and told.
fn replays(
    rt: &(impl Abort
        + Files<File = File>
        + AllocGlobal
        + Threads
        + Wait
        + Process
        + Copy
        + Send
        + Sync
        + 'static),
    paths: &Paths,
    (status, printed, told): (u8, &str, &str),
) {
    let words = [
        "node",
        "replay",
        "--log",
        paths.log.as_str(),
        "--genesis",
        paths.genesis.as_str(),
    ];
    ends(rt, words.as_slice(), status, printed, told);
}

/// The bytes of the log.
fn log_bytes(rt: &(impl Abort + Files + AllocGlobal), paths: &Paths) -> Vec<u8> {
    fs::read(rt, paths.log.as_str()).expect(rt, "a log")
}

/// The log gets these bytes.
fn write_log(rt: &(impl Abort + Files + AllocGlobal), paths: &Paths, bytes: &[u8]) {
    fs::write(rt, paths.log.as_str(), bytes).expect(rt, "a log");
}

// With one block that is never rolled back the log has 78 bytes, with two of them 188.
#[test]
fn log_after_a_run(rt: HostRuntime) {
    let folder = own_folder(&rt);
    for (script, told, size, height) in [
        (THREE, THREE_KEPT, 78, "height 1\n"),
        (FOUR, FOUR_KEPT, 188, "height 2\n"),
    ] {
        let paths = Paths::of(&rt, &folder, script);
        let _ = fs::remove_file(&rt, paths.log.as_str());
        runs_on_log(&rt, &paths, (0, told, ""));
        assert!(&rt; log_bytes(&rt, &paths).len() == size);
        replays(&rt, &paths, (0, height, ""));
        assert!(&rt; log_bytes(&rt, &paths).len() == size);
    }
    remove(&rt, &folder);
}

// A core that is opened on the log goes on from there, and what it was opened on is never rolled back.
#[test]
fn run_on_a_log(rt: HostRuntime) {
    let folder = own_folder(&rt);
    runs_on_log(&rt, &Paths::of(&rt, &folder, THREE), (0, THREE_KEPT, ""));
    let paths = Paths::of(&rt, &folder, ON_THE_LOG);
    runs_on_log(&rt, &paths, (0, ON_THE_LOG_TOLD, ""));
    replays(&rt, &paths, (0, "height 1\n", ""));
    remove(&rt, &folder);
}

// A gate that is neither open nor closed is closed; another byte of a record is damage, and nothing is written then.
#[test]
fn damaged_logs(rt: HostRuntime) {
    let folder = own_folder(&rt);
    let paths = Paths::of(&rt, &folder, THREE);
    runs_on_log(&rt, &paths, (0, THREE_KEPT, ""));
    let mut bytes = log_bytes(&rt, &paths);
    assert!(&rt; bytes.len() == 78);
    bytes[77] = 2;
    write_log(&rt, &paths, &bytes);
    replays(&rt, &paths, (0, "height 1\n", ""));
    bytes[77] = 0;
    assert!(&rt; log_bytes(&rt, &paths) == bytes);
    bytes[10] ^= 1;
    write_log(&rt, &paths, &bytes);
    replays(&rt, &paths, (1, "", "log: damaged at 0\n"));
    runs_on_log(&rt, &paths, (1, "", "log: damaged at 0\n"));
    assert!(&rt; log_bytes(&rt, &paths) == bytes);
    remove(&rt, &folder);
}

// A file that is missing, and one that is empty.
#[test]
fn logs_that_are_none(rt: HostRuntime) {
    let folder = own_folder(&rt);
    let paths = Paths::of(&rt, &folder, "tip\n");
    let missing = format!(in rt.alloc(); "cannot read {}\n", paths.log).expect(&rt, MEMORY);
    replays(&rt, &paths, (1, "", missing.as_str()));
    write_log(&rt, &paths, b"");
    replays(&rt, &paths, (0, "height 0\n", ""));
    assert!(&rt; log_bytes(&rt, &paths).as_slice() == b"\x00".as_slice());
    runs_on_log(&rt, &paths, (0, "tip: 0 genesis\n", ""));
    assert!(&rt; log_bytes(&rt, &paths).as_slice() == b"\x00".as_slice());
    remove(&rt, &folder);
}

/// A record of the one byte 80, with the SHA-256 of it, and a closed gate.
const NO_BLOCK: &[u8] = b"\x01\x00\x00\x00\x01\
\x76\xbe\x8b\x52\x8d\x00\x75\xf7\xaa\xe9\x8d\x6f\xa5\x7a\x6d\x3c\
\x83\xae\x48\x0a\x84\x69\xe6\x68\xd7\xb0\xaf\x96\x89\x95\xac\x71\
\x80\x00";

// A log whose only block is none. It isn't written to.
#[test]
fn log_with_an_invalid_block(rt: HostRuntime) {
    let folder = own_folder(&rt);
    let paths = Paths::of(&rt, &folder, THREE);
    write_log(&rt, &paths, NO_BLOCK);
    replays(&rt, &paths, (1, "", "log: invalid block 1\n"));
    runs_on_log(&rt, &paths, (1, "", "log: invalid block 1\n"));
    assert!(&rt; log_bytes(&rt, &paths).as_slice() == NO_BLOCK);
    remove(&rt, &folder);
}

// The blocks that came before a fault of the script are on the log.
#[test]
fn log_after_a_fault(rt: HostRuntime) {
    let folder = own_folder(&rt);
    let text = format!(in rt.alloc(); "{THREE}tip tip\n").expect(&rt, MEMORY);
    let paths = Paths::of(&rt, &folder, text.as_str());
    runs_on_log(&rt, &paths, (1, THREE_KEPT, "line 7: BadLine\n"));
    replays(&rt, &paths, (0, "height 1\n", ""));
    let no_script = Paths {
        genesis: format!(in rt.alloc(); "{}", paths.genesis).expect(&rt, MEMORY),
        script: format!(in rt.alloc(); "{folder}/none.script").expect(&rt, MEMORY),
        log: format!(in rt.alloc(); "{folder}/other.log").expect(&rt, MEMORY),
    };
    let told = format!(in rt.alloc(); "cannot read {}\n", no_script.script).expect(&rt, MEMORY);
    runs_on_log(&rt, &no_script, (1, "", told.as_str()));
    assert!(&rt; log_bytes(&rt, &no_script).as_slice() == b"\x00".as_slice());
    remove(&rt, &folder);
}

// Where another program has the log, it is neither run on nor replayed, and stays as it was; later it is.
#[test]
fn log_of_another_program(rt: HostRuntime) {
    let folder = own_folder(&rt);
    let paths = Paths::of(&rt, &folder, THREE);
    runs_on_log(&rt, &paths, (0, THREE_KEPT, ""));
    let bytes = log_bytes(&rt, &paths);
    let told = format!(in rt.alloc(); "cannot read {}\n", paths.log).expect(&rt, MEMORY);
    let mut options = OpenOptions::new();
    let other = options
        .read(true)
        .write(true)
        .open(&rt, paths.log.as_str())
        .expect(&rt, "a log");
    assert!(&rt; other.try_lock().is_ok());
    replays(&rt, &paths, (1, "", told.as_str()));
    runs_on_log(&rt, &paths, (1, "", told.as_str()));
    assert!(&rt; log_bytes(&rt, &paths) == bytes);
    drop(other);
    replays(&rt, &paths, (0, "height 1\n", ""));
    remove(&rt, &folder);
}

/// Beginnings of files that are no log, and how many zeros follow. The last three have a zero for a gate, but no
/// length of a block behind it, or one that is too short for what follows.
const NO_LOGS: &[(&[u8], usize)] = &[
    (b"network = 0\nk = 2\n", 0),
    (b"block A1 genesis 1\narrive A1\n", 0),
    (b"\x89PNG\r\n\x1a\n", 100_000),
    (b"\x7fELF\x02\x01\x01\x00", 1_100_000),
    (b"\x00\x01\x00\x00\x00\x10", 50_000),
    (b"\x00\x00\x00\x18ftypmp42", 10_000),
    (b"\x00", 1_048_614),
];

// What isn't a log is refused, and no byte of it is changed.
#[test]
fn files_that_are_no_log(rt: HostRuntime) {
    let folder = own_folder(&rt);
    let paths = Paths::of(&rt, &folder, "tip\n");
    let told = format!(in rt.alloc(); "cannot read {}\n", paths.log).expect(&rt, MEMORY);
    for (beginning, more) in NO_LOGS {
        let mut bytes = (*beginning).to_vec(rt.alloc()).expect(&rt, MEMORY);
        bytes.resize(bytes.len() + *more, 0).expect(&rt, MEMORY);
        write_log(&rt, &paths, &bytes);
        replays(&rt, &paths, (1, "", told.as_str()));
        runs_on_log(&rt, &paths, (1, "", told.as_str()));
        assert!(&rt; log_bytes(&rt, &paths) == bytes);
    }
    remove(&rt, &folder);
}

/// Four blocks of a chain, of which the first two are then never rolled back.
const TWO_LOGGED: &str = "block A1 genesis 1
block A2 A1 5
block A3 A2 6
block A4 A3 8
arrive A1
arrive A2
arrive A3
arrive A4
";

/// The record of the first one, whose hash is that of `cases`, which another SHA-256 gave.
const FIRST_LISTED: &str = "record 1
  place 0
  size 40
  block 3b232b00fdf18aa5f2e408bd66e32ceb313459697b54313151494910541c08aa
  number 1
  slot 1
";

/// That of the second one.
const SECOND_LISTED: &str = "record 2
  place 77
  size 73
  block 96f42fc392da943a5ebb5c35bb3f5bb0667b1eaffafe4804452df4423d3e7504
  number 2
  slot 5
";

/// Both as JSON.
const FIRST_AS_JSON: &str =
    "{\"hash\":\"3b232b00fdf18aa5f2e408bd66e32ceb313459697b54313151494910541c08aa\",\"number\":1,\"place\":0,\
    \"record\":1,\"size\":40,\"slot\":1}";

const SECOND_AS_JSON: &str =
    "{\"hash\":\"96f42fc392da943a5ebb5c35bb3f5bb0667b1eaffafe4804452df4423d3e7504\",\"number\":2,\"place\":77,\
    \"record\":2,\"size\":73,\"slot\":5}";

/// The log in the file as one document, with this status, and this is printed and told.
fn describes(
    rt: &(impl Abort
        + Files<File = File>
        + AllocGlobal
        + Threads
        + Wait
        + Process
        + Copy
        + Send
        + Sync
        + 'static),
    paths: &Paths,
    (status, printed, told): (u8, &str, &str),
) {
    let words = ["node", "show", "--json", "log", paths.log.as_str()];
    ends(rt, words.as_slice(), status, printed, told);
}

/// The log in the file is listed, with this status, and this is printed and told.
fn lists(
    rt: &(impl Abort
        + Files<File = File>
        + AllocGlobal
        + Threads
        + Wait
        + Process
        + Copy
        + Send
        + Sync
        + 'static),
    paths: &Paths,
    (status, printed, told): (u8, &str, &str),
) {
    let words = ["node", "show", "log", paths.log.as_str()];
    ends(rt, words.as_slice(), status, printed, told);
}

// At rest, with a record that was being written, and with a digest of the second one that isn't its own.
#[test]
fn log_record_by_record(rt: HostRuntime) {
    let folder = own_folder(&rt);
    let paths = Paths::of(&rt, &folder, TWO_LOGGED);
    runs_on_log(&rt, &paths, (0, FOUR_KEPT, ""));
    let records = format!(in rt.alloc(); "{FIRST_LISTED}{SECOND_LISTED}").expect(&rt, MEMORY);
    let clean = format!(in rt.alloc(); "{records}end clean\n").expect(&rt, MEMORY);
    lists(&rt, &paths, (0, clean.as_str(), ""));
    let mut bytes = log_bytes(&rt, &paths);
    assert!(&rt; bytes.len() == 188);
    bytes
        .extend_from_slice(b"\x00\x00\x00\x28\x01".as_slice())
        .expect(&rt, MEMORY);
    write_log(&rt, &paths, &bytes);
    let torn = format!(in rt.alloc(); "{records}end torn\n").expect(&rt, MEMORY);
    lists(&rt, &paths, (0, torn.as_str(), ""));
    bytes[90] ^= 1;
    write_log(&rt, &paths, &bytes);
    lists(&rt, &paths, (1, FIRST_LISTED, "log: damaged at 77\n"));
    assert!(&rt; log_bytes(&rt, &paths) == bytes);
    remove(&rt, &folder);
}

// A record that has no block, and a file that is no log.
#[test]
fn odd_logs_are_listed(rt: HostRuntime) {
    let folder = own_folder(&rt);
    let paths = Paths::of(&rt, &folder, THREE);
    write_log(&rt, &paths, NO_BLOCK);
    let listed = "record 1\n  place 0\n  size 1\n  no block\nend clean\n";
    lists(&rt, &paths, (0, listed, ""));
    write_log(&rt, &paths, b"network = 0\n");
    let told = format!(in rt.alloc(); "{} is no log\n", paths.log).expect(&rt, MEMORY);
    lists(&rt, &paths, (1, "", told.as_str()));
    remove(&rt, &folder);
}

/// The log in the file, as one document, has those two records and this end.
fn ends_as(
    rt: &(impl Abort
        + Files<File = File>
        + AllocGlobal
        + Threads
        + Wait
        + Process
        + Copy
        + Send
        + Sync
        + 'static),
    paths: &Paths,
    end: &str,
) {
    let document = format!(in rt.alloc();
        "{{\"blocks\":[{FIRST_AS_JSON},{SECOND_AS_JSON}],\"end\":\"{end}\"}}\n"
    ).expect(rt, MEMORY);
    describes(rt, paths, (0, document.as_str(), ""));
}

// At rest, with a record that was being written, and damaged in the second record: then the document has no end.
#[test]
fn log_as_a_document(rt: HostRuntime) {
    let folder = own_folder(&rt);
    let paths = Paths::of(&rt, &folder, TWO_LOGGED);
    runs_on_log(&rt, &paths, (0, FOUR_KEPT, ""));
    ends_as(&rt, &paths, "clean");
    let mut bytes = log_bytes(&rt, &paths);
    assert!(&rt; bytes.len() == 188);
    bytes
        .extend_from_slice(b"\x00\x00\x00\x28\x01".as_slice())
        .expect(&rt, MEMORY);
    write_log(&rt, &paths, &bytes);
    ends_as(&rt, &paths, "torn");
    bytes[90] ^= 1;
    write_log(&rt, &paths, &bytes);
    let damaged = format!(in rt.alloc(); "{{\"blocks\":[{FIRST_AS_JSON}").expect(&rt, MEMORY);
    describes(&rt, &paths, (1, damaged.as_str(), "log: damaged at 77\n"));
    remove(&rt, &folder);
}

/// The document of a log whose only block is none.
const NO_BLOCK_AS_JSON: &str =
    "{\"blocks\":[{\"hash\":null,\"number\":null,\"place\":0,\"record\":1,\"size\":1,\"slot\":null}],\
    \"end\":\"clean\"}\n";

// One without a record, one whose record has no block, and a file that is none, of which nothing is printed.
#[test]
fn odd_logs_as_documents(rt: HostRuntime) {
    let folder = own_folder(&rt);
    let paths = Paths::of(&rt, &folder, THREE);
    write_log(&rt, &paths, b"\x00");
    describes(&rt, &paths, (0, "{\"blocks\":[],\"end\":\"clean\"}\n", ""));
    write_log(&rt, &paths, NO_BLOCK);
    describes(&rt, &paths, (0, NO_BLOCK_AS_JSON, ""));
    write_log(&rt, &paths, b"network = 0\n");
    let told = format!(in rt.alloc(); "{} is no log\n", paths.log).expect(&rt, MEMORY);
    describes(&rt, &paths, (1, "", told.as_str()));
    remove(&rt, &folder);
}
