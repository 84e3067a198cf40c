//! What is told of values, scripts, transactions and blocks as JSON documents.

use super::blocks::FIRST;
use super::fixture::{KEY_HASH, MEMORY, ONES, POLICY, TWOS, ZEROS, boxed, check, hex, is_text};
use super::full_blocks::BOTH;
use super::shown::{ALL_OF_ONE, ANY_HASH, BURNING, BURNING_ID, NESTED, NESTED_HASH, VALUE};
use super::transaction_making::{MINTING_ID, PAYING_ID};
use super::transactions::read;
use super::verdicts::{BADLY, SIGNED};
use block::CheckedBlock;
use describing::{block_json, script_json, transaction_json, value_json};
use std::alloc::AllocError;
use std::process::Abort;
use timelock::Script;
use value::Value;
use witness_pool::{TestScheme, plain};

/// These pieces are told, one after the other.
fn is_told(rt: &(impl Abort + AllocGlobal), pieces: &[&str], told: Result<String, AllocError>) {
    is_text(rt, pieces, told.expect(rt, MEMORY).as_str());
}

const VALUE_TOLD: &[&str] = &[
    "{\"assets\":[{\"name\":\"\",\"policy\":\"",
    ONES,
    "\",\"quantity\":1},{\"name\":\"ff\",\"policy\":\"",
    ONES,
    "\",\"quantity\":24},{\"name\":\"0000\",\"policy\":\"",
    ONES,
    "\",\"quantity\":\"18446744073709551615\"},{\"name\":\"\",\"policy\":\"",
    TWOS,
    "\",\"quantity\":\"9223372036854775808\"}],\"coin\":5}\n",
];

#[test]
fn values_told(rt: HostRuntime) {
    let bytes = hex(&rt, VALUE);
    let (value, _) = Value::read(rt.alloc(), &bytes).expect(&rt, "a value");
    let value = boxed(&rt, value);
    is_told(&rt, VALUE_TOLD, value_json(rt.alloc(), &value));
}

/// What a value of this coin alone is told as.
fn is_coin_told(rt: &(impl Abort + AllocGlobal), coin: u64, text: &str) {
    let value = boxed(rt, Value::of_coin(rt.alloc(), coin));
    is_told(rt, &[text], value_json(rt.alloc(), &value));
}

// Up to the last whole number below 2^53 they are numbers, and strings from there on.
#[test]
fn coins_told(rt: HostRuntime) {
    is_coin_told(
        &rt,
        9_007_199_254_740_991,
        "{\"assets\":[],\"coin\":9007199254740991}\n",
    );
    is_coin_told(
        &rt,
        9_007_199_254_740_992,
        "{\"assets\":[],\"coin\":\"9007199254740992\"}\n",
    );
    is_coin_told(
        &rt,
        u64::MAX,
        "{\"assets\":[],\"coin\":\"18446744073709551615\"}\n",
    );
}

const NESTED_TOLD: &[&str] = &[
    "{\"condition\":{\"at_least\":3,\"of\":[{\"key\":\"",
    ONES,
    "\"},{\"starts\":24},{\"ends\":256},{\"any\":[]},{\"all\":[{\"starts\":10}]}]},\"hash\":\"",
    NESTED_HASH,
    "\"}\n",
];

#[test]
fn scripts_told(rt: HostRuntime) {
    let script = Script::decode(rt.alloc(), &hex(&rt, NESTED)).expect(&rt, "a script");
    let script = boxed(&rt, script);
    is_told(&rt, NESTED_TOLD, script_json(rt.alloc(), &script));
}

const ALL_OF_ONE_TOLD: &str = "{\"condition\":{\"all\":[{\"starts\":5}]},\
    \"hash\":\"628626760b0f2d91f81228c7f37fcdb040599ab5dc73563e3749dd4a02d93b3d\"}\n";

// Whichever allocation is refused, the script isn't read or isn't told for lack of memory, or all of it is told.
#[test]
fn refused_memory(rt: HostRuntime) {
    let Ok(script) = Script::decode(rt.alloc(), ALL_OF_ONE) else {
        return;
    };
    if let Ok(text) = script_json(rt.alloc(), &script) {
        check(&rt, "whole", text.as_str() == ALL_OF_ONE_TOLD);
    }
}

/// What a transaction in parts is told as under the scheme for tests.
fn is_transaction_told(rt: &(impl Abort + AllocGlobal), parts: &[&str], pieces: &[&str]) {
    let checked = plain::<TestScheme>(rt.alloc(), read(rt, parts)).expect(rt, MEMORY);
    let checked = boxed(rt, checked);
    is_told(rt, pieces, transaction_json(rt.alloc(), &checked));
}

/// The payment, whose signature is good, with the script that asks for all of none.
const SIGNED_TOLD: &[&str] = &[
    "{\"end\":null,\"fee\":290,\"id\":\"",
    PAYING_ID,
    "\",\"inputs\":[{\"index\":0,\"transaction\":\"",
    ZEROS,
    "\"}],\"mint\":[],\"outputs\":[{\"address\":{\"hash\":\"",
    KEY_HASH,
    "\",\"kind\":\"key\",\"network\":0},\"assets\":[],\"coin\":910}],",
    "\"scripts\":[{\"condition\":{\"all\":[]},\"hash\":\"",
    POLICY,
    "\"}],\"scripts_hold\":true,\"signatures\":[{\"good\":true,\"key\":\"",
    ONES,
    "\"}],\"size\":195,\"start\":null}\n",
];

/// The same badly signed.
const BADLY_TOLD: &[&str] = &[
    "{\"end\":null,\"fee\":290,\"id\":\"",
    PAYING_ID,
    "\",\"inputs\":[{\"index\":0,\"transaction\":\"",
    ZEROS,
    "\"}],\"mint\":[],\"outputs\":[{\"address\":{\"hash\":\"",
    KEY_HASH,
    "\",\"kind\":\"key\",\"network\":0},\"assets\":[],\"coin\":910}],",
    "\"scripts\":[{\"condition\":{\"all\":[]},\"hash\":\"",
    POLICY,
    "\"}],\"scripts_hold\":true,\"signatures\":[{\"good\":false,\"key\":\"",
    ONES,
    "\"}],\"size\":195,\"start\":null}\n",
];

const BURNING_TOLD: &[&str] = &[
    "{\"end\":9,\"fee\":0,\"id\":\"",
    BURNING_ID,
    "\",\"inputs\":[],\"mint\":[{\"name\":\"ff\",\"policy\":\"",
    POLICY,
    "\",\"quantity\":-2}],\"outputs\":[{\"address\":{\"hash\":\"",
    KEY_HASH,
    "\",\"kind\":\"key\",\"network\":0},\"assets\":[],\"coin\":2},{\"address\":{\"hash\":\"",
    POLICY,
    "\",\"kind\":\"script\",\"network\":15},\"assets\":[],\"coin\":1}],",
    "\"scripts\":[{\"condition\":{\"any\":[]},\"hash\":\"",
    ANY_HASH,
    "\"}],\"scripts_hold\":false,\"signatures\":[],\"size\":133,\"start\":7}\n",
];

#[test]
fn transactions_told(rt: HostRuntime) {
    is_transaction_told(&rt, SIGNED, SIGNED_TOLD);
    is_transaction_told(&rt, BADLY, BADLY_TOLD);
    is_transaction_told(&rt, BURNING, BURNING_TOLD);
}

const FIRST_TOLD: &[&str] = &[
    "{\"body_hash\":\"76be8b528d0075f7aae98d6fa57a6d3c83ae480a8469e668d7b0af968995ac71\",\"body_size\":1,",
    "\"hash\":\"3b232b00fdf18aa5f2e408bd66e32ceb313459697b54313151494910541c08aa\",\"number\":1,",
    "\"previous\":null,\"size\":40,\"slot\":1,\"transactions\":[]}\n",
];

const BOTH_TOLD: &[&str] = &[
    "{\"body_hash\":\"bbfbd26cb295c5678715ef2cda0d469ef1f746970c2fbb7c5a78984bd5f803f7\",\"body_size\":464,",
    "\"hash\":\"335cfac94359ea28baa73baa594f0aec1352f61336e39bfb915eff98956c23b0\",\"number\":2,",
    "\"previous\":\"3b232b00fdf18aa5f2e408bd66e32ceb313459697b54313151494910541c08aa\",\"size\":536,\"slot\":5,",
    "\"transactions\":[{\"end\":null,\"fee\":290,\"id\":\"",
    PAYING_ID,
    "\",\"inputs\":[{\"index\":0,\"transaction\":\"",
    ZEROS,
    "\"}],\"mint\":[],\"outputs\":[{\"address\":{\"hash\":\"",
    KEY_HASH,
    "\",\"kind\":\"key\",\"network\":0},\"assets\":[],\"coin\":910}],\"scripts\":[],\"scripts_hold\":true,",
    "\"signatures\":[{\"good\":false,\"key\":\"",
    ONES,
    "\"}],\"size\":190,\"start\":null},{\"end\":null,\"fee\":400,\"id\":\"",
    MINTING_ID,
    "\",\"inputs\":[{\"index\":0,\"transaction\":\"",
    ZEROS,
    "\"}],\"mint\":[{\"name\":\"\",\"policy\":\"",
    POLICY,
    "\",\"quantity\":5}],\"outputs\":[{\"address\":{\"hash\":\"",
    KEY_HASH,
    "\",\"kind\":\"key\",\"network\":0},\"assets\":[{\"name\":\"\",\"policy\":\"",
    POLICY,
    "\",\"quantity\":5}],\"coin\":800}],\"scripts\":[{\"condition\":{\"all\":[]},\"hash\":\"",
    POLICY,
    "\"}],\"scripts_hold\":true,\"signatures\":[{\"good\":false,\"key\":\"",
    ONES,
    "\"}],\"size\":273,\"start\":null}]}\n",
];

/// What a block is told as under the scheme for tests.
fn is_block_told(rt: &(impl Abort + AllocGlobal), bytes: &[u8], pieces: &[&str]) {
    let block = CheckedBlock::<TestScheme>::read(rt.alloc(), bytes).expect(rt, "a block");
    let block = boxed(rt, block);
    is_told(rt, pieces, block_json(rt.alloc(), &block));
}

#[test]
fn blocks_told(rt: HostRuntime) {
    is_block_told(&rt, &FIRST, FIRST_TOLD);
    is_block_told(&rt, &hex(&rt, BOTH), BOTH_TOLD);
}
