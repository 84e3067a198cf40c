//! A node that stays: its lanes in files.

use super::start_tests::{GENESIS, MEMORY, ends, own_folder, remove, write_file};
use hosting::Process;
use std::fs;
use std::fs::File;
use std::process::Abort;
use std::rt::Files;
use std::sync::Wait;
use std::thread::Threads;

/// Three blocks of a chain, as a peer sends them. A program in Python computed these texts and their hashes.
const BLOCKS: &str =
    "82840101f6582076be8b528d0075f7aae98d6fa57a6d3c83ae480a8469e668d7b0af968995ac7180
8284020258203b232b00fdf18aa5f2e408bd66e32ceb313459697b54313151494910541c08aa582076be8b528d0075f7aae98d6fa57a6d3c83ae480\
a8469e668d7b0af968995ac7180
no block
8284030358207ef6c46265e4addb11b8be1fa2440e53f4231a25c55a089a8a9c95e9308b995f582076be8b528d0075f7aae98d6fa57a6d3c83ae480\
a8469e668d7b0af968995ac7180
";

/// A client who waits for all three, asks, and has the node end.
const ASKED: &str = "{\"jsonrpc\":\"2.0\",\"method\":\"nextBlock\",\"id\":1}
{\"jsonrpc\":\"2.0\",\"method\":\"nextBlock\",\"id\":2}
{\"jsonrpc\":\"2.0\",\"method\":\"nextBlock\",\"id\":3}
{\"jsonrpc\":\"2.0\",\"method\":\"queryTip\",\"id\":4}
{\"jsonrpc\":\"2.0\",\"method\":\"flush\",\"id\":5}
{\"jsonrpc\":\"2.0\",\"method\":\"stop\",\"id\":6}
";

/// What it is told in order; what stands between depends on how far the node then is.
const TOLD: &[&str] = &[
    "{\"jsonrpc\":\"2.0\",\"result\":{\"direction\":\"forward\",\"block\":{\"number\":1,\
\"hash\":\"3b232b00fdf18aa5f2e408bd66e32ceb313459697b54313151494910541c08aa\",\"slot\":1,",
    ",\"id\":1}\n{\"jsonrpc\":\"2.0\",\"result\":{\"direction\":\"forward\",\"block\":{\"number\":2,\
\"hash\":\"7ef6c46265e4addb11b8be1fa2440e53f4231a25c55a089a8a9c95e9308b995f\",\"slot\":2,",
    ",\"id\":2}\n{\"jsonrpc\":\"2.0\",\"result\":{\"direction\":\"forward\",\"block\":{\"number\":3,\
\"hash\":\"4d6b3bb5b386c66f861e2812291db26a9784ca9f751c5f19e89c203b64a6972c\",\"slot\":3,",
    ",\"id\":3}\n{\"jsonrpc\":\"2.0\",\"result\":{\"number\":3,\
\"hash\":\"4d6b3bb5b386c66f861e2812291db26a9784ca9f751c5f19e89c203b64a6972c\",\"slot\":3},\"id\":4}
{\"jsonrpc\":\"2.0\",\"result\":{\"durable\":1},\"id\":5}
{\"jsonrpc\":\"2.0\",\"result\":{\"stopping\":true},\"id\":6}
",
];

/// The paths of a node's files in a folder.
#[derive(Drop)]
struct Paths {
    genesis: String,
    log: String,
    blocks: String,
    /// A client's lane, with a colon between its paths.
    lane: String,
    told: String,
}

impl Paths {
    /// Those in this folder, with a client who asks this.
    fn of(rt: &(impl Abort + Files + AllocGlobal), folder: &str, asked: &str) -> Paths {
        let ask = write_file(rt, folder, "ask", &[asked]);
        Paths {
            genesis: write_file(rt, folder, "genesis.toml", GENESIS),
            log: format!(in rt.alloc(); "{folder}/blocks.log").expect(rt, MEMORY),
            blocks: write_file(rt, folder, "blocks", &[BLOCKS]),
            lane: format!(in rt.alloc(); "{ask}:{folder}/told").expect(rt, MEMORY),
            told: format!(in rt.alloc(); "{folder}/told").expect(rt, MEMORY),
        }
    }

    /// The node serves until its client says stop or the last lane has ended, with this flag if one is named.
    fn serve(
        &self,
        rt: &(impl Abort
            + Files<File = File>
            + AllocGlobal
            + Threads
            + Wait
            + Process
            + Copy
            + Send
            + Sync
            + 'static),
        rest: &[&str],
    ) {
        let mut words = Vec::new(rt.alloc());
        let first = [
            "node",
            "serve",
            "--genesis",
            &*self.genesis,
            "--lane",
            &*self.lane,
        ];
        words.extend_from_slice(first.as_slice()).expect(rt, MEMORY);
        words.extend_from_slice(rest).expect(rt, MEMORY);
        ends(rt, words.as_slice(), 0, "", "");
    }

    /// What the client was told has these texts, one behind the other.
    fn was_told(&self, rt: &(impl Abort + Files + AllocGlobal), texts: &[&str]) {
        has_in_order(rt, &self.told, texts);
    }
}

/// The file of this path has these texts, one behind the other.
fn has_in_order(rt: &(impl Abort + Files + AllocGlobal), path: &str, texts: &[&str]) {
    let told = fs::read_to_string(rt, path).expect(rt, "a text");
    let mut rest = told.as_str();
    for text in texts {
        let (_, behind) = rest.split_once(*text).expect(rt, "the text");
        rest = behind;
    }
}

#[test]
fn serves_and_goes_on_with_its_log(rt: HostRuntime) {
    let folder = own_folder(&rt);
    let paths = Paths::of(&rt, &folder, ASKED);
    let rest = ["--log", &*paths.log, "--peer", &*paths.blocks];
    paths.serve(&rt, rest.as_slice());
    paths.was_told(&rt, TOLD);
    // What was durable is there again, and what wasn't is gone.
    let asked = "{\"jsonrpc\":\"2.0\",\"method\":\"queryHeight\",\"id\":7}\n";
    let again = Paths::of(&rt, &folder, asked);
    let rest = ["--log", &*again.log, "--until-closed"];
    again.serve(&rt, rest.as_slice());
    again.was_told(&rt, &["{\"jsonrpc\":\"2.0\",\"result\":1,\"id\":7}\n"]);
    remove(&rt, &folder);
}

/// What a node has in the end that was sent these blocks, of whose chain all but two are durable, part by part; the rest
/// depends on how far it was.
const FIGURES: &[&str] = &[
    "# HELP chaindb_chain_height Blocks of the selected chain.
# TYPE chaindb_chain_height gauge
chaindb_chain_height 3
# HELP chaindb_chain_slot Slot of the selected chain's last block.
# TYPE chaindb_chain_slot gauge
chaindb_chain_slot 3
",
    "\nchaindb_immutable_blocks 1\n",
    "\nchaindb_durable_blocks 1\n",
    "\nchaindb_kept_blocks 3\n",
    "\nchaindb_live_blocks 2\n",
    "\nchaindb_mempool_transactions 0\n",
    "\nchaindb_unspent_outputs 1\n",
    "\nchaindb_arrivals_total 4\n",
    "\nchaindb_arrivals_kept_total 3\n",
    "\nchaindb_arrivals_refused_total{number=\"1\",reason=\"TooLarge\"} 0
chaindb_arrivals_refused_total{number=\"2\",reason=\"Malformed\"} 1
chaindb_arrivals_refused_total{number=\"3\",reason=\"BodyHashMismatch\"} 0
chaindb_arrivals_refused_total{number=\"4\",reason=\"TooOld\"} 0
chaindb_arrivals_refused_total{number=\"5\",reason=\"Known\"} 0
chaindb_arrivals_refused_total{number=\"6\",reason=\"Clash\"} 0
chaindb_arrivals_refused_total{number=\"7\",reason=\"VolatileFull\"} 0
",
    "\nchaindb_failed_flushes_total 0\n",
    "\nchaindb_memory_refusals_total 0\n",
];

/// What one has that goes on behind the durable block, and is sent the same again.
const FIGURES_AGAIN: &[&str] = &[
    "\nchaindb_chain_height 3\n",
    "\nchaindb_arrivals_total 4\n",
    "\nchaindb_arrivals_kept_total 2\n",
    "{number=\"2\",reason=\"Malformed\"} 1\n",
    "{number=\"4\",reason=\"TooOld\"} 1\n",
];

#[test]
fn writes_down_what_it_counts(rt: HostRuntime) {
    let folder = own_folder(&rt);
    let paths = Paths::of(&rt, &folder, ASKED);
    let figures = format!(in rt.alloc(); "{folder}/figures").expect(&rt, MEMORY);
    let rest = [
        "--log",
        &*paths.log,
        "--peer",
        &*paths.blocks,
        "--metrics",
        &*figures,
    ];
    paths.serve(&rt, rest.as_slice());
    has_in_order(&rt, &figures, FIGURES);
    paths.serve(&rt, rest.as_slice());
    has_in_order(&rt, &figures, FIGURES_AGAIN);
    remove(&rt, &folder);
}

#[test]
fn figures_overwrite_nothing_else(rt: HostRuntime) {
    let folder = own_folder(&rt);
    let genesis = write_file(&rt, &folder, "genesis.toml", GENESIS);
    write_file(&rt, &folder, "notes", &["# mine\n"]);
    write_file(&rt, &folder, "free.next", &["mine too\n"]);
    for name in ["notes", "free", "genesis.toml", "new.log", "no/such"] {
        let path = format!(in rt.alloc(); "{folder}/{name}").expect(&rt, MEMORY);
        let log = format!(in rt.alloc(); "{folder}/new.log").expect(&rt, MEMORY);
        let told = format!(in rt.alloc();
            "cannot write figures to {path}, or something else stands there\n"
        ).expect(&rt, MEMORY);
        let words = [
            "node",
            "serve",
            "--until-closed",
            "--genesis",
            &*genesis,
            "--log",
            &*log,
            "--metrics",
            &*path,
        ];
        ends(&rt, words.as_slice(), 1, "", told.as_str());
    }
    let notes = format!(in rt.alloc(); "{folder}/notes").expect(&rt, MEMORY);
    let next = format!(in rt.alloc(); "{folder}/free.next").expect(&rt, MEMORY);
    has_in_order(&rt, &notes, &["# mine\n"]);
    has_in_order(&rt, &next, &["mine too\n"]);
    remove(&rt, &folder);
}

#[test]
fn ends_with_its_last_lane(rt: HostRuntime) {
    let folder = own_folder(&rt);
    // Without a log nothing is made durable.
    let asked = "{\"jsonrpc\":\"2.0\",\"method\":\"flush\",\"id\":1}
{\"jsonrpc\":\"2.0\",\"method\":\"queryBlock\",\"params\":{\"number\":1},\"id\":2}
";
    let paths = Paths::of(&rt, &folder, asked);
    paths.serve(&rt, &["--until-closed", "--workers", "1"]);
    paths.was_told(
        &rt,
        &[
            "{\"jsonrpc\":\"2.0\",\"error\":{\"code\":5000,\"message\":\"flush failed\"},\"id\":1}
{\"jsonrpc\":\"2.0\",\"result\":null,\"id\":2}\n",
        ],
    );
    remove(&rt, &folder);
}

#[test]
fn streams_that_cannot_be_opened(rt: HostRuntime) {
    let folder = own_folder(&rt);
    let genesis = write_file(&rt, &folder, "genesis.toml", GENESIS);
    // A lane that can't be opened ends alone, here with the node, whose last one it is.
    let words = [
        "node",
        "serve",
        "--genesis",
        &*genesis,
        "--lane",
        "no/such:none",
        "--peer",
        "no/such",
        "--until-closed",
    ];
    ends(&rt, words.as_slice(), 0, "", "");
    let words = ["node", "serve", "--genesis", &*genesis, "--log", "/"];
    ends(&rt, words.as_slice(), 1, "", "cannot read /\n");
    remove(&rt, &folder);
}

/// Command lines of a node that are refused: one without a genesis, a lane of one path, too few workers and too many,
/// an option of other commands, and nine peers.
const REFUSED: &[&[&str]] = &[
    &["node", "serve"],
    &["node", "serve", "--genesis", "g", "--lane", "ask"],
    &["node", "serve", "--genesis", "g", "--workers", "0"],
    &["node", "serve", "--genesis", "g", "--workers", "17"],
    &["node", "serve", "--genesis", "g", "--script", "s"],
    &[
        "node",
        "serve",
        "--genesis",
        "g",
        "--peer",
        "1",
        "--peer",
        "2",
        "--peer",
        "3",
        "--peer",
        "4",
        "--peer",
        "5",
        "--peer",
        "6",
        "--peer",
        "7",
        "--peer",
        "8",
        "--peer",
        "9",
    ],
];

#[test]
fn refused_nodes(rt: HostRuntime) {
    for words in REFUSED {
        ends(&rt, *words, 2, "", "?");
    }
}

#[test]
fn as_many_lanes_as_may_be(rt: HostRuntime) {
    let mut words = Vec::new(rt.alloc());
    let first = ["node", "serve", "--genesis", "no/such"];
    words
        .extend_from_slice(first.as_slice())
        .expect(&rt, MEMORY);
    for _ in 0..60 {
        words
            .extend_from_slice(["--lane", "ask:tell"].as_slice())
            .expect(&rt, MEMORY);
    }
    ends(&rt, words.as_slice(), 1, "", "cannot read no/such\n");
    words.push("--stdio").expect(&rt, MEMORY);
    ends(&rt, words.as_slice(), 2, "", "?");
}
