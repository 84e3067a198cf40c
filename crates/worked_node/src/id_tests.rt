//! Identifiers of texts, in files and on standard input. The texts and their identifiers are those of `cases`, which
//! another SHA-256 gave.

use super::start_tests::{MEMORY, ends, ends_on, own_folder, remove, write_file};
use hosting::Process;
use std::fs;
use std::fs::File;
use std::process::Abort;
use std::rt::Files;
use std::sync::Wait;
use std::thread::Threads;

/// A payment of 910 of the 1,200 lovelace of a genesis, in lines.
pub const PAYMENT: &[&str] = &[
    "83a3 0081825820 0000000000000000000000000000000000000000000000000000000000000000 00\n",
    "0181825821 60 72cd6e8422c407fb6d098690f1130b7ded7ec2f7f5e1d30bd9d521f015363793 19038e\n",
    "02190122\n",
    "a1 0081825820 0101010101010101010101010101010101010101010101010101010101010101\n",
    "5840 7720038b2e76ccb282aafeb87e011adf346efe4af0e408c41b734fcfbbcedf12\n",
    "\t7720038b2e76ccb282aafeb87e011adf346efe4af0e408c41b734fcfbbcedf12\n",
    "f6\n",
];

/// Kinds of texts, the text in parts, and what is printed.
const TEXTS: &[(&str, &[&str], &str)] = &[
    (
        "transaction",
        PAYMENT,
        "afd9fff1a7c82f9259b208652b718624b06a4648eaca7288e41ea8f5646e34e1\n",
    ),
    (
        "block",
        &["82840101f6582076be8b528d0075f7aae98d6fa57a6d3c83ae480a8469e668d7b0af968995ac7180"],
        "3b232b00fdf18aa5f2e408bd66e32ceb313459697b54313151494910541c08aa\n",
    ),
    // The block of two transactions is another one than the same without them.
    (
        "block",
        &[
            "828402055820 3b232b00fdf18aa5f2e408bd66e32ceb313459697b54313151494910541c08aa\n",
            "5820 76be8b528d0075f7aae98d6fa57a6d3c83ae480a8469e668d7b0af968995ac71 80",
        ],
        "96f42fc392da943a5ebb5c35bb3f5bb0667b1eaffafe4804452df4423d3e7504\n",
    ),
    ("script", &["820180"], ALWAYS),
    ("script", &[" 8 20\n\n1\t80 \n"], ALWAYS),
];

/// The hash of the script that asks for all of none.
const ALWAYS: &str = "310e8ad6fd176849a5667f8309d828a7aa48dd2d56e308ebe790babd1c7daf88\n";

/// The text of the kind has the identifier that is printed.
fn has_identifier(
    rt: &(impl Abort
        + Files<File = File>
        + AllocGlobal
        + Threads
        + Wait
        + Process
        + Copy
        + Send
        + Sync
        + 'static),
    folder: &str,
    (kind, parts, printed): (&str, &[&str], &str),
) {
    let file = write_file(rt, folder, "text", parts);
    let words = ["node", "id", kind, file.as_str()];
    ends(rt, words.as_slice(), 0, printed, "");
}

#[test]
fn identifiers_of_texts(rt: HostRuntime) {
    let folder = own_folder(&rt);
    for text in TEXTS {
        has_identifier(&rt, &folder, *text);
    }
    remove(&rt, &folder);
}

// A dash is standard input, and so is no path.
#[test]
fn texts_on_standard_input(rt: HostRuntime) {
    let words = ["node", "id", "script", "-"];
    let text = b"820180\n".as_slice();
    ends_on(&rt, words.as_slice(), text, (0, ALWAYS, ""));
    let (without, _) = words.split_at(3);
    ends_on(&rt, without, text, (0, ALWAYS, ""));
    let told = "standard input is no script: malformed CBOR: the text ends before its item does\n";
    ends_on(&rt, without, b"8201".as_slice(), (1, "", told));
    let told = "standard input: the character at place 3 is no hexadecimal digit\n";
    ends_on(&rt, without, b"82-1".as_slice(), (1, "", told));
    let words = ["node", "id", "--binary", "script"];
    ends_on(
        &rt,
        words.as_slice(),
        b"\x82\x01\x80".as_slice(),
        (0, ALWAYS, ""),
    );
}

// Bytes that are read themselves are no digits, and no line feed is left out.
#[test]
fn bytes_of_a_file(rt: HostRuntime) {
    let folder = own_folder(&rt);
    let file = write_file(&rt, &folder, "bytes", &[]);
    fs::write(&rt, file.as_str(), b"\x82\x01\x80".as_slice()).expect(&rt, "a file");
    let words = ["node", "id", "script", file.as_str(), "--binary"];
    ends(&rt, words.as_slice(), 0, ALWAYS, "");
    fs::write(&rt, file.as_str(), b"\x82\x01\x80\n".as_slice()).expect(&rt, "a file");
    let told = format!(in rt.alloc();
        "{file} is no script: malformed CBOR: the text goes on at byte 3 behind its item\n"
    ).expect(&rt, MEMORY);
    ends(&rt, words.as_slice(), 1, "", told.as_str());
    remove(&rt, &folder);
}

/// Kinds of texts, texts that are none, and what is told behind the path.
const NONE: &[(&str, &str, &str)] = &[
    (
        "transaction",
        "820180",
        " is no transaction: CBOR of something else\n",
    ),
    (
        "transaction",
        "",
        " is no transaction: malformed CBOR: the text ends before its item does\n",
    ),
    (
        "script",
        "82018000",
        " is no script: malformed CBOR: the text goes on at byte 3 behind its item\n",
    ),
    // A head of two bytes for a number below 24, and a text string.
    (
        "script",
        "82 1803 80",
        " is no script: malformed CBOR: byte 2 makes a number that has a shorter form\n",
    ),
    (
        "script",
        "82 01 6161",
        " is no script: malformed CBOR: byte 2 begins no item\n",
    ),
    ("block", "820180", " is no block: CBOR of something else\n"),
    (
        "block",
        "82 84 01 01 f6 5f",
        " is no block: malformed CBOR: byte 5 begins no item\n",
    ),
    (
        "block",
        "82840101f658200000000000000000000000000000000000000000000000000000000000000000 80",
        " is no block: the body has another hash than the header names\n",
    ),
    // Places are counted from 1, and blanks have some.
    (
        "script",
        "82 0x80\n",
        ": the character at place 5 is no hexadecimal digit\n",
    ),
    (
        "script",
        "0x820180\n",
        ": the character at place 2 is no hexadecimal digit\n",
    ),
    (
        "script",
        "8201\r\n80\n",
        ": the character at place 5 is no hexadecimal digit\n",
    ),
    (
        "script",
        "820g1",
        ": the character at place 4 is no hexadecimal digit\n",
    ),
    (
        "script",
        "82 01 8 \n",
        ": the digit at place 7 is the last of an odd number\n",
    ),
    (
        "block",
        "8",
        ": the digit at place 1 is the last of an odd number\n",
    ),
];

/// The text is none of the kind, and this is told behind its path.
fn is_none(
    rt: &(impl Abort
        + Files<File = File>
        + AllocGlobal
        + Threads
        + Wait
        + Process
        + Copy
        + Send
        + Sync
        + 'static),
    folder: &str,
    (kind, text, told): (&str, &str, &str),
) {
    let file = write_file(rt, folder, "text", &[text]);
    let told = format!(in rt.alloc(); "{file}{told}").expect(rt, MEMORY);
    let words = ["node", "id", kind, file.as_str()];
    ends(rt, words.as_slice(), 1, "", told.as_str());
}

#[test]
fn texts_of_none(rt: HostRuntime) {
    let folder = own_folder(&rt);
    for none in NONE {
        is_none(&rt, &folder, *none);
    }
    remove(&rt, &folder);
}

/// Files that can't be read, of which one has no end, and what is told.
const UNREAD: &[(&str, &str)] = &[
    ("no/such", "cannot read no/such\n"),
    ("/", "cannot read /\n"),
    ("/dev/zero", "cannot read /dev/zero\n"),
];

#[test]
fn texts_that_cannot_be_read(rt: HostRuntime) {
    for (path, told) in UNREAD {
        let words = ["node", "id", "block", *path];
        ends(&rt, words.as_slice(), 1, "", *told);
    }
}
