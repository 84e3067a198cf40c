//! What is shown of values, scripts, transactions and blocks, line by line.

use super::blocks::FIRST;
use super::fixture::{KEY_HASH, MEMORY, ONES, POLICY, TWOS, ZEROS, boxed, check, hex, is_text};
use super::full_blocks::BOTH;
use super::transaction_making::{MINTING_ID, PAYING_ID};
use super::transactions::read;
use super::verdicts::{BADLY, SIGNED};
use block::CheckedBlock;
use showing::{show_block, show_script, show_transaction, show_value};
use std::alloc::AllocError;
use std::process::Abort;
use timelock::Script;
use value::Value;
use witness_pool::{TestScheme, plain};

/// These pieces are shown, one after the other.
fn is_shown(rt: &(impl Abort + AllocGlobal), pieces: &[&str], shown: Result<String, AllocError>) {
    is_text(rt, pieces, shown.expect(rt, MEMORY).as_str());
}

/// 5 lovelace and two policies. The first has the empty name and two longer ones, the shorter of which stands first.
pub const VALUE: &[&str] = &[
    "8205 a2 5820",
    ONES,
    "a3 40 01 41ff 1818 420000 1bffffffffffffffff 5820",
    TWOS,
    "a1 40 1b8000000000000000",
];

const VALUE_SHOWN: &[&str] = &[
    "coin 5\nasset ",
    ONES,
    " - 1\nasset ",
    ONES,
    " ff 24\nasset ",
    ONES,
    " 0000 18446744073709551615\nasset ",
    TWOS,
    " - 9223372036854775808\n",
];

#[test]
fn values_shown(rt: HostRuntime) {
    let bytes = hex(&rt, VALUE);
    let (value, _) = Value::read(rt.alloc(), &bytes).expect(&rt, "a value");
    let value = boxed(&rt, value);
    is_shown(&rt, VALUE_SHOWN, show_value(rt.alloc(), &value));
    let coin = boxed(&rt, Value::of_coin(rt.alloc(), u64::MAX));
    is_shown(
        &rt,
        &["coin 18446744073709551615\n"],
        show_value(rt.alloc(), &coin),
    );
}

/// The script that asks for three of a key, two slots, one of nothing, and all of one slot.
pub const NESTED: &[&str] = &[
    "830303 85 82005820",
    ONES,
    "82041818 8205190100 820280 82018182040a",
];

/// Its hash.
pub const NESTED_HASH: &str = "c49fe5140b1032ecb2dcff750a6e5a818384992c4ebcfd2048ea76410db1f8e2";

const NESTED_SHOWN: &[&str] = &[
    "script ",
    NESTED_HASH,
    "\n  at_least 3\n    key ",
    ONES,
    "\n    starts 24\n    ends 256\n    any\n    all\n      starts 10\n",
];

#[test]
fn scripts_shown(rt: HostRuntime) {
    let script = Script::decode(rt.alloc(), &hex(&rt, NESTED)).expect(&rt, "a script");
    let script = boxed(&rt, script);
    is_shown(&rt, NESTED_SHOWN, show_script(rt.alloc(), &script));
}

/// The script that asks for all of one that starts at slot 5, and what is shown of it.
pub const ALL_OF_ONE: &[u8] = b"\x82\x01\x81\x82\x04\x05";

const ALL_OF_ONE_SHOWN: &str =
    "script 628626760b0f2d91f81228c7f37fcdb040599ab5dc73563e3749dd4a02d93b3d\n  all\n    starts 5\n";

// Whichever allocation is refused, the script isn't read or isn't shown for lack of memory, or all of it is shown.
#[test]
fn refused_memory(rt: HostRuntime) {
    let Ok(script) = Script::decode(rt.alloc(), ALL_OF_ONE) else {
        return;
    };
    if let Ok(lines) = show_script(rt.alloc(), &script) {
        check(&rt, "whole", lines.as_str() == ALL_OF_ONE_SHOWN);
    }
}

/// What a transaction in parts is shown as under the scheme for tests.
fn is_transaction_shown(rt: &(impl Abort + AllocGlobal), parts: &[&str], pieces: &[&str]) {
    let checked = plain::<TestScheme>(rt.alloc(), read(rt, parts)).expect(rt, MEMORY);
    let checked = boxed(rt, checked);
    is_shown(rt, pieces, show_transaction(rt.alloc(), &checked));
}

/// The payment, whose signature is good, with the script that asks for all of none.
const SIGNED_SHOWN: &[&str] = &[
    "transaction ",
    PAYING_ID,
    "\nsize 195\ninput ",
    ZEROS,
    "#0\noutput 0\n  address key 0 ",
    KEY_HASH,
    "\n  coin 910\nfee 290\nsignature ",
    ONES,
    " good\nscript ",
    POLICY,
    "\n  all\nscripts hold\n",
];

/// The same badly signed.
const BADLY_SHOWN: &[&str] = &[
    "transaction ",
    PAYING_ID,
    "\nsize 195\ninput ",
    ZEROS,
    "#0\noutput 0\n  address key 0 ",
    KEY_HASH,
    "\n  coin 910\nfee 290\nsignature ",
    ONES,
    " bad\nscript ",
    POLICY,
    "\n  all\nscripts hold\n",
];

/// Nothing is spent; 2 lovelace go to a key on network 0, and 1 to a script on network 15.
/// It holds from slot 7 on and before slot 9, and burns 2 of the policy's asset ff. Its one script asks for one of
/// none.
pub const BURNING: &[&str] = &[
    "83 a6 00 80 01 82 82 5821 60",
    KEY_HASH,
    "02 82 5821 7f",
    POLICY,
    "01 02 00 03 09 08 07 09 a1 5820",
    POLICY,
    "a1 41ff 21 a1 01 81 820280 f6",
];

/// Its identifier, and the hash of the script that asks for one of none.
pub const BURNING_ID: &str = "7a46970ba26deabe3644ec5009d877039a64dbf9fc4b9771bba9aee6cf15ea94";

pub const ANY_HASH: &str = "4fe508587f6e34eeaf6229b70c9e3d2dad87b2860ae1b21a991efac7309626f6";

const BURNING_SHOWN: &[&str] = &[
    "transaction ",
    BURNING_ID,
    "\nsize 133\noutput 0\n  address key 0 ",
    KEY_HASH,
    "\n  coin 2\noutput 1\n  address script 15 ",
    POLICY,
    "\n  coin 1\nfee 0\nend 9\nstart 7\nmint ",
    POLICY,
    " ff -2\nscript ",
    ANY_HASH,
    "\n  any\nscripts fail\n",
];

#[test]
fn transactions_shown(rt: HostRuntime) {
    is_transaction_shown(&rt, SIGNED, SIGNED_SHOWN);
    is_transaction_shown(&rt, BADLY, BADLY_SHOWN);
    is_transaction_shown(&rt, BURNING, BURNING_SHOWN);
}

const FIRST_SHOWN: &[&str] = &[
    "block 3b232b00fdf18aa5f2e408bd66e32ceb313459697b54313151494910541c08aa\nsize 40\n",
    "number 1\nslot 1\nprevious null\n",
    "body_hash 76be8b528d0075f7aae98d6fa57a6d3c83ae480a8469e668d7b0af968995ac71\n",
    "body_size 1\ntransactions 0\n",
];

const BOTH_SHOWN: &[&str] = &[
    "block 335cfac94359ea28baa73baa594f0aec1352f61336e39bfb915eff98956c23b0\nsize 536\n",
    "number 2\nslot 5\n",
    "previous 3b232b00fdf18aa5f2e408bd66e32ceb313459697b54313151494910541c08aa\n",
    "body_hash bbfbd26cb295c5678715ef2cda0d469ef1f746970c2fbb7c5a78984bd5f803f7\n",
    "body_size 464\ntransactions 2\n  transaction ",
    PAYING_ID,
    "\n  size 190\n  input ",
    ZEROS,
    "#0\n  output 0\n    address key 0 ",
    KEY_HASH,
    "\n    coin 910\n  fee 290\n  signature ",
    ONES,
    " bad\n  scripts hold\n  transaction ",
    MINTING_ID,
    "\n  size 273\n  input ",
    ZEROS,
    "#0\n  output 0\n    address key 0 ",
    KEY_HASH,
    "\n    coin 800\n    asset ",
    POLICY,
    " - 5\n  fee 400\n  mint ",
    POLICY,
    " - 5\n  signature ",
    ONES,
    " bad\n  script ",
    POLICY,
    "\n    all\n  scripts hold\n",
];

/// What a block is shown as under the scheme for tests.
fn is_block_shown(rt: &(impl Abort + AllocGlobal), bytes: &[u8], pieces: &[&str]) {
    let block = CheckedBlock::<TestScheme>::read(rt.alloc(), bytes).expect(rt, "a block");
    let block = boxed(rt, block);
    is_shown(rt, pieces, show_block(rt.alloc(), &block));
}

#[test]
fn blocks_shown(rt: HostRuntime) {
    is_block_shown(&rt, &FIRST, FIRST_SHOWN);
    is_block_shown(&rt, &hex(&rt, BOTH), BOTH_SHOWN);
}
