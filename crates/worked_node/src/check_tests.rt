//! Whether a transaction is valid, on a genesis, on a log and after a script.

use super::id_tests::PAYMENT;
use super::start_tests::{GENESIS, MEMORY, ends, own_folder, remove, write_file};
use hosting::Process;
use std::fs;
use std::fs::File;
use std::process::Abort;
use std::rt::Files;
use std::sync::Wait;
use std::thread::Threads;

/// The payment with a signature of 64 bytes 09, which isn't good.
const BADLY_SIGNED: &[&str] = &[
    "83a3 0081825820 0000000000000000000000000000000000000000000000000000000000000000 00\n",
    "0181825821 60 72cd6e8422c407fb6d098690f1130b7ded7ec2f7f5e1d30bd9d521f015363793 19038e\n",
    "02190122\n",
    "a1 0081825820 0101010101010101010101010101010101010101010101010101010101010101\n",
    "5840 0909090909090909090909090909090909090909090909090909090909090909\n",
    "0909090909090909090909090909090909090909090909090909090909090909\n",
    "f6\n",
];

/// What is printed of it.
const BAD_SIGNATURE: &str = "10 BadSignature
# the signature by key 0101010101010101010101010101010101010101010101010101010101010101 is not good
";

/// What is printed of the payment where a block has it.
const SPENT: &str = "5 MissingInput
# output 0 of transaction 0000000000000000000000000000000000000000000000000000000000000000 is not unspent
";

/// The same payment in a script.
const SAME: &str = "key K 0101010101010101010101010101010101010101010101010101010101010101
tx T
in genesis 0
out key K 910
fee 290
sign K
end
";

/// A payment of 900 that is valid from slot 5 on and before slot 10. Another SHA-256 gave its signature.
const FROM_5_TO_10: &[&str] = &[
    "83a5 0081825820 0000000000000000000000000000000000000000000000000000000000000000 00\n",
    "0181825821 60 72cd6e8422c407fb6d098690f1130b7ded7ec2f7f5e1d30bd9d521f015363793 190384\n",
    "0219012c 030a 0805\n",
    "a1 0081825820 0101010101010101010101010101010101010101010101010101010101010101\n",
    "5840 382f62757fed74c450ca1275fa7e97fe2214a51137e4c2550a9bc2003c2b4c45\n",
    "382f62757fed74c450ca1275fa7e97fe2214a51137e4c2550a9bc2003c2b4c45\n",
    "f6\n",
];

/// What is printed of it in the slot after genesis, and in slot 10.
const IN_SLOT_1: &str = "1 OutsideInterval
# slot 1 is outside the transaction's interval, from slot 5 on and before slot 10
";

const IN_SLOT_10: &str = "1 OutsideInterval
# slot 10 is outside the transaction's interval, from slot 5 on and before slot 10
";

/// It waits.
const SUBMITTED: &str = "submit T\n";

/// It stands in the first of three blocks, which is then never rolled back.
const ARRIVED: &str = "block A1 genesis 1 T
block A2 A1 2
block A3 A2 3
arrive A1
arrive A2
arrive A3
";

/// What that prints.
const KEPT: &str = "arrive A1: kept back 0 added 1
arrive A2: kept back 0 added 1
arrive A3: kept back 0 added 1
";

/// The transaction of a file is judged under the genesis of a folder, with these options too; and with this status this
/// is printed and told.
fn checks(
    rt: &(impl Abort
        + Files<File = File>
        + AllocGlobal
        + Threads
        + Wait
        + Process
        + Copy
        + Send
        + Sync
        + 'static),
    folder: &str,
    (options, file): (&[&str], &str),
    (status, printed, told): (u8, &str, &str),
) {
    let genesis = write_file(rt, folder, "genesis.toml", GENESIS);
    let mut words = Vec::new(rt.alloc());
    for word in ["node", "check", "--genesis", genesis.as_str(), file] {
        words.push(word).expect(rt, MEMORY);
    }
    for word in options {
        words.push(*word).expect(rt, MEMORY);
    }
    ends(rt, words.as_slice(), status, printed, told);
}

// On the genesis alone one is valid, and with another signature it isn't.
#[test]
fn checks_on_a_genesis(rt: HostRuntime) {
    let folder = own_folder(&rt);
    let none: &[&str] = &[];
    let payment = write_file(&rt, &folder, "payment", PAYMENT);
    checks(&rt, &folder, (none, payment.as_str()), (0, "valid\n", ""));
    let bad = write_file(&rt, &folder, "bad", BADLY_SIGNED);
    checks(&rt, &folder, (none, bad.as_str()), (1, BAD_SIGNATURE, ""));
    let script = write_file(&rt, &folder, "script", &["820180"]);
    let told = format!(in rt.alloc();
        "{script} is no transaction: CBOR of something else\n"
    ).expect(&rt, MEMORY);
    checks(
        &rt,
        &folder,
        (none, script.as_str()),
        (1, "", told.as_str()),
    );
    let odd = write_file(&rt, &folder, "odd", &["830\n"]);
    let told = format!(in rt.alloc();
        "{odd}: the digit at place 3 is the last of an odd number\n"
    ).expect(&rt, MEMORY);
    checks(&rt, &folder, (none, odd.as_str()), (1, "", told.as_str()));
    remove(&rt, &folder);
}

/// The same after a script.
fn checks_after(
    rt: &(impl Abort
        + Files<File = File>
        + AllocGlobal
        + Threads
        + Wait
        + Process
        + Copy
        + Send
        + Sync
        + 'static),
    folder: &str,
    (script, file): (&str, &str),
    end: (u8, &str, &str),
) {
    let options = ["--script", script];
    checks(rt, folder, (options.as_slice(), file), end);
}

/// The same on a log.
fn checks_on(
    rt: &(impl Abort
        + Files<File = File>
        + AllocGlobal
        + Threads
        + Wait
        + Process
        + Copy
        + Send
        + Sync
        + 'static),
    folder: &str,
    (log, file): (&str, &str),
    end: (u8, &str, &str),
) {
    let options = ["--log", log];
    checks(rt, folder, (options.as_slice(), file), end);
}

/// The script of a file is run on a log.
fn runs_on(
    rt: &(impl Abort
        + Files<File = File>
        + AllocGlobal
        + Threads
        + Wait
        + Process
        + Copy
        + Send
        + Sync
        + 'static),
    (genesis, script, log): (&str, &str, &str),
) {
    let words = [
        "node",
        "run",
        "--genesis",
        genesis,
        "--script",
        script,
        "--log",
        log,
    ];
    ends(rt, words.as_slice(), 0, KEPT, "");
}

// After a script that spends its input, or by which it waits already, it isn't taken. Of the script nothing is printed
// but its fault.
#[test]
fn checks_after_a_script(rt: HostRuntime) {
    let folder = own_folder(&rt);
    let payment = write_file(&rt, &folder, "payment", PAYMENT);
    let file = payment.as_str();
    let spent = write_file(&rt, &folder, "spent.script", &[SAME, ARRIVED]);
    checks_after(&rt, &folder, (spent.as_str(), file), (1, SPENT, ""));
    let waits = write_file(&rt, &folder, "waits.script", &[SAME, SUBMITTED]);
    checks_after(&rt, &folder, (waits.as_str(), file), (1, "known\n", ""));
    let other = write_file(
        &rt,
        &folder,
        "other.script",
        &["block A1 genesis 1\narrive A1\n"],
    );
    checks_after(&rt, &folder, (other.as_str(), file), (0, "valid\n", ""));
    let bad = write_file(&rt, &folder, "bad.script", &["tip\nwalk A\n"]);
    checks_after(
        &rt,
        &folder,
        (bad.as_str(), file),
        (1, "", "line 2: BadLine\n"),
    );
    checks_after(
        &rt,
        &folder,
        ("no/such", file),
        (1, "", "cannot read no/such\n"),
    );
    remove(&rt, &folder);
}

// In the slot that is named, and in the one after the tip's where none is.
#[test]
fn checks_in_a_slot(rt: HostRuntime) {
    let folder = own_folder(&rt);
    let payment = write_file(&rt, &folder, "payment", FROM_5_TO_10);
    let file = payment.as_str();
    checks(&rt, &folder, (&[], file), (1, IN_SLOT_1, ""));
    checks(&rt, &folder, (&["--slot", "5"], file), (0, "valid\n", ""));
    checks(&rt, &folder, (&["--slot", "9"], file), (0, "valid\n", ""));
    checks(&rt, &folder, (&["--slot", "10"], file), (1, IN_SLOT_10, ""));
    remove(&rt, &folder);
}

// The log has the block with the payment, and stays as it was; a missing one isn't made.
#[test]
fn checks_on_a_log(rt: HostRuntime) {
    let folder = own_folder(&rt);
    let payment = write_file(&rt, &folder, "payment", PAYMENT);
    let genesis = write_file(&rt, &folder, "genesis.toml", GENESIS);
    let script = write_file(&rt, &folder, "some.script", &[SAME, ARRIVED]);
    let log = format!(in rt.alloc(); "{folder}/log").expect(&rt, MEMORY);
    let told = format!(in rt.alloc(); "cannot read {log}\n").expect(&rt, MEMORY);
    checks_on(
        &rt,
        &folder,
        (log.as_str(), payment.as_str()),
        (1, "", told.as_str()),
    );
    runs_on(&rt, (genesis.as_str(), script.as_str(), log.as_str()));
    let bytes = fs::read(&rt, log.as_str()).expect(&rt, "a log");
    checks_on(
        &rt,
        &folder,
        (log.as_str(), payment.as_str()),
        (1, SPENT, ""),
    );
    let after = fs::read(&rt, log.as_str()).expect(&rt, "a log");
    assert!(&rt; after == bytes);
    remove(&rt, &folder);
}
