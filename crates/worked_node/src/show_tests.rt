//! What texts are, line by line and as JSON documents. The texts and their identifiers are those of `cases`, which
//! another SHA-256 gave.

use super::id_tests::PAYMENT;
use super::start_tests::{GENESIS, ends, ends_on, own_folder, remove, write_file};
use hosting::Process;
use std::fs::File;
use std::process::Abort;
use std::rt::Files;
use std::sync::Wait;
use std::thread::Threads;

/// The payment, whose signature is good under the scheme for tests.
const PAYMENT_SHOWN: &str =
    "transaction afd9fff1a7c82f9259b208652b718624b06a4648eaca7288e41ea8f5646e34e1
size 190
input 0000000000000000000000000000000000000000000000000000000000000000#0
output 0
  address key 0 72cd6e8422c407fb6d098690f1130b7ded7ec2f7f5e1d30bd9d521f015363793
  coin 910
fee 290
signature 0101010101010101010101010101010101010101010101010101010101010101 good
scripts hold
";

/// Under Ed25519 it isn't.
const SHOWN_BY_ED25519: &str =
    "transaction afd9fff1a7c82f9259b208652b718624b06a4648eaca7288e41ea8f5646e34e1
size 190
input 0000000000000000000000000000000000000000000000000000000000000000#0
output 0
  address key 0 72cd6e8422c407fb6d098690f1130b7ded7ec2f7f5e1d30bd9d521f015363793
  coin 910
fee 290
signature 0101010101010101010101010101010101010101010101010101010101010101 bad
scripts hold
";

/// A first block without transactions.
const BLOCK: &[&str] = &[
    "82840101f6582076be8b528d0075f7aae98d6fa57a6d3c83ae480a8469e668d7b0af968995ac7180",
];

const BLOCK_SHOWN: &str = "block 3b232b00fdf18aa5f2e408bd66e32ceb313459697b54313151494910541c08aa
size 40
number 1
slot 1
previous null
body_hash 76be8b528d0075f7aae98d6fa57a6d3c83ae480a8469e668d7b0af968995ac71
body_size 1
transactions 0
";

/// The script that asks for all of none.
const SCRIPT_SHOWN: &str = "script 310e8ad6fd176849a5667f8309d828a7aa48dd2d56e308ebe790babd1c7daf88
  all
";

/// The genesis of these tests.
const GENESIS_SHOWN: &str = "network 0
scheme test
min_fee_a 1
min_fee_b 100
min_utxo 10
max_tx_size 4096
max_body_size 65536
k 2
max_volatile 100
max_mempool 100
supply 1200
output 0
  address key 0 72cd6e8422c407fb6d098690f1130b7ded7ec2f7f5e1d30bd9d521f015363793
  coin 1200
";

/// The payment as a document.
const PAYMENT_JSON: &str =
    "{\"end\":null,\"fee\":290,\"id\":\"afd9fff1a7c82f9259b208652b718624b06a4648eaca7288e41ea8f5646e34e1\",\
    \"inputs\":[{\"index\":0,\
    \"transaction\":\"0000000000000000000000000000000000000000000000000000000000000000\"}],\"mint\":[],\
    \"outputs\":[{\"address\":{\"hash\":\"72cd6e8422c407fb6d098690f1130b7ded7ec2f7f5e1d30bd9d521f015363793\",\
    \"kind\":\"key\",\"network\":0},\"assets\":[],\"coin\":910}],\"scripts\":[],\"scripts_hold\":true,\
    \"signatures\":[{\"good\":true,\
    \"key\":\"0101010101010101010101010101010101010101010101010101010101010101\"}],\"size\":190,\
    \"start\":null}\n";

/// The block.
const BLOCK_JSON: &str =
    "{\"body_hash\":\"76be8b528d0075f7aae98d6fa57a6d3c83ae480a8469e668d7b0af968995ac71\",\"body_size\":1,\
    \"hash\":\"3b232b00fdf18aa5f2e408bd66e32ceb313459697b54313151494910541c08aa\",\"number\":1,\
    \"previous\":null,\"size\":40,\"slot\":1,\"transactions\":[]}\n";

/// The genesis.
const GENESIS_JSON: &str =
    "{\"era2_slot\":null,\"k\":2,\"max_body_size\":65536,\"max_mempool\":100,\"max_tx_size\":4096,\
    \"max_volatile\":100,\"max_volatile_bytes\":null,\"min_fee_a\":1,\"min_fee_b\":100,\"min_utxo\":10,\
    \"network\":0,\
    \"outputs\":[{\"address\":{\"hash\":\"72cd6e8422c407fb6d098690f1130b7ded7ec2f7f5e1d30bd9d521f015363793\",\
    \"kind\":\"key\",\"network\":0},\"coin\":1200}],\"per_asset\":null,\"scheme\":\"test\",\"supply\":1200}\n";

/// A value of 5 lovelace and of two assets of one policy, the first of which has the empty name, and the second 2^53
/// units: the least number that a document has in quotes.
const VALUE: &[u8] = b"8205a1 5820 0101010101010101010101010101010101010101010101010101010101010101
a2 4001 4161 1b0020000000000000";

const VALUE_SHOWN: &str = "coin 5
asset 0101010101010101010101010101010101010101010101010101010101010101 - 1
asset 0101010101010101010101010101010101010101010101010101010101010101 61 9007199254740992
";

const VALUE_JSON: &str = "{\"assets\":[{\"name\":\"\",\
    \"policy\":\"0101010101010101010101010101010101010101010101010101010101010101\",\"quantity\":1},\
    {\"name\":\"61\",\"policy\":\"0101010101010101010101010101010101010101010101010101010101010101\",\
    \"quantity\":\"9007199254740992\"}],\"coin\":5}\n";

/// Command lines that name nothing to be shown, and what clap's first line tells.
const UNNAMED: &[(&[&str], &str)] = &[
    (
        &["node", "show", "text"],
        "error: KIND is none of transaction, block, script, value, genesis and log\n..",
    ),
    (
        &["node", "show", "genesis"],
        "error: there is no FILE, which a genesis has to have\n..",
    ),
    (
        &["node", "show", "--scheme", "rsa", "script"],
        "error: SCHEME is none of test and ed25519\n..",
    ),
    (
        &["node", "id", "value"],
        "error: KIND is none of transaction, block and script\n..",
    ),
];

#[test]
fn nothing_to_be_shown(rt: HostRuntime) {
    for (words, told) in UNNAMED {
        ends(&rt, *words, 2, "", *told);
    }
}

/// The text of this kind in a file has these lines.
fn shows(
    rt: &(impl Abort
        + Files<File = File>
        + AllocGlobal
        + Threads
        + Wait
        + Process
        + Copy
        + Send
        + Sync
        + 'static),
    (kind, file): (&str, &str),
    printed: &str,
) {
    let words = ["node", "show", kind, file];
    ends(rt, words.as_slice(), 0, printed, "");
}

/// The transaction in a file has these lines under Ed25519.
fn shows_by_ed25519(
    rt: &(impl Abort
        + Files<File = File>
        + AllocGlobal
        + Threads
        + Wait
        + Process
        + Copy
        + Send
        + Sync
        + 'static),
    file: &str,
    printed: &str,
) {
    let words = ["node", "show", "--scheme", "ed25519", "transaction", file];
    ends(rt, words.as_slice(), 0, printed, "");
}

/// The text of this kind in a file is this document.
fn shows_json(
    rt: &(impl Abort
        + Files<File = File>
        + AllocGlobal
        + Threads
        + Wait
        + Process
        + Copy
        + Send
        + Sync
        + 'static),
    (kind, file): (&str, &str),
    printed: &str,
) {
    let words = ["node", "show", "--json", kind, file];
    ends(rt, words.as_slice(), 0, printed, "");
}

/// The genesis in a file isn't shown, for this fault.
fn refuses_genesis(
    rt: &(impl Abort
        + Files<File = File>
        + AllocGlobal
        + Threads
        + Wait
        + Process
        + Copy
        + Send
        + Sync
        + 'static),
    file: &str,
    told: &str,
) {
    let words = ["node", "show", "genesis", file];
    ends(rt, words.as_slice(), 1, "", told);
}

#[test]
fn texts_line_by_line(rt: HostRuntime) {
    let folder = own_folder(&rt);
    let payment = write_file(&rt, &folder, "payment", PAYMENT);
    shows(&rt, ("transaction", payment.as_str()), PAYMENT_SHOWN);
    shows_by_ed25519(&rt, payment.as_str(), SHOWN_BY_ED25519);
    let block = write_file(&rt, &folder, "block", BLOCK);
    shows(&rt, ("block", block.as_str()), BLOCK_SHOWN);
    let genesis = write_file(&rt, &folder, "genesis.toml", GENESIS);
    shows(&rt, ("genesis", genesis.as_str()), GENESIS_SHOWN);
    let bad = write_file(&rt, &folder, "bad.toml", &["k = 0\n"]);
    refuses_genesis(&rt, bad.as_str(), "genesis: 2 BadShape\n");
    remove(&rt, &folder);
}

#[test]
fn texts_as_documents(rt: HostRuntime) {
    let folder = own_folder(&rt);
    let payment = write_file(&rt, &folder, "payment", PAYMENT);
    shows_json(&rt, ("transaction", payment.as_str()), PAYMENT_JSON);
    let block = write_file(&rt, &folder, "block", BLOCK);
    shows_json(&rt, ("block", block.as_str()), BLOCK_JSON);
    let genesis = write_file(&rt, &folder, "genesis.toml", GENESIS);
    shows_json(&rt, ("genesis", genesis.as_str()), GENESIS_JSON);
    remove(&rt, &folder);
}

#[test]
fn value_on_standard_input(rt: HostRuntime) {
    let words = ["node", "show", "value"];
    ends_on(&rt, words.as_slice(), VALUE, (0, VALUE_SHOWN, ""));
    let told = "standard input is no value: CBOR of something else\n";
    ends_on(&rt, words.as_slice(), b"820580".as_slice(), (1, "", told));
    let told =
        "standard input is no value: malformed CBOR: the key at byte 5 is not after the key before it\n";
    let keys_back = b"82 05 a2 02 00 01 00".as_slice();
    ends_on(&rt, words.as_slice(), keys_back, (1, "", told));
    let json = ["node", "show", "--json", "value"];
    ends_on(&rt, json.as_slice(), VALUE, (0, VALUE_JSON, ""));
}

#[test]
fn script_on_standard_input(rt: HostRuntime) {
    let words = ["node", "show", "script"];
    let shown = (0, SCRIPT_SHOWN, "");
    ends_on(&rt, words.as_slice(), b"82 01 80".as_slice(), shown);
    let told = "standard input is no script: malformed CBOR: the text ends before its item does\n";
    ends_on(&rt, words.as_slice(), b"8201".as_slice(), (1, "", told));
}
