//! The texts of two transactions, what is read of them, and their parts.

use super::fixture::{KEY_HASH, MEMORY, NINES, ONES, boxed, check, hex, is_spelled};
use cbor::CborFault;
use ident::{KeyHash, ScriptHash, TxId};
use std::process::Abort;
use tx::{Address, Credential, Input, KeyWitness, Tx};

/// The body that spends place 0 of the transaction of 32 zero bytes, leaves 910 lovelace to the key of 32 bytes 01, and
/// pays a fee of 290.
pub const PAYING_BODY: &str = "a3 \
    00 81 825820 0000000000000000000000000000000000000000000000000000000000000000 00 \
    01 81 825821 60 72cd6e8422c407fb6d098690f1130b7ded7ec2f7f5e1d30bd9d521f015363793 19038e 02190122";

/// The body that spends the same, mints 5 of a policy, and leaves it with 800 lovelace to the same key for a fee of
/// 400.
pub const MINTING_BODY: &str = "a4 \
    00 81 825820 0000000000000000000000000000000000000000000000000000000000000000 00 \
    01 81 825821 60 72cd6e8422c407fb6d098690f1130b7ded7ec2f7f5e1d30bd9d521f015363793 \
    82190320 a15820 310e8ad6fd176849a5667f8309d828a7aa48dd2d56e308ebe790babd1c7daf88 a14005 02190190 \
    09 a15820 310e8ad6fd176849a5667f8309d828a7aa48dd2d56e308ebe790babd1c7daf88 a14005";

/// The payment, with a signature of 64 bytes 09 of that key.
pub const PAYING: &[&str] = &[
    "83",
    PAYING_BODY,
    "a1 0081825820",
    ONES,
    "5840",
    NINES,
    NINES,
    "f6",
];

/// The minting, with that signature and the policy's script.
pub const MINTING: &[&str] = &[
    "83",
    MINTING_BODY,
    "a2 0081825820",
    ONES,
    "5840",
    NINES,
    NINES,
    "0181820180 f6",
];

/// The transaction that a text in parts is.
pub fn read(rt: &(impl Abort + AllocGlobal), parts: &[&str]) -> Tx {
    Tx::decode(rt.alloc(), &hex(rt, parts)).expect(rt, "a transaction")
}

/// The transactions of texts in parts.
pub fn read_all(rt: &(impl Abort + AllocGlobal), texts: &[&[&str]]) -> Vec<Tx> {
    let mut txs = Vec::new(rt.alloc());
    for parts in texts {
        txs.push(read(rt, *parts)).expect(rt, MEMORY);
    }
    txs
}

/// A transaction has this text in parts.
pub fn has_text(rt: &(impl Abort + AllocGlobal), tx: &Tx, parts: &[&str]) {
    let text = tx.encode().expect(rt, MEMORY);
    is_spelled(rt, parts, &text);
    check(rt, "size", tx.size() == text.len() as u64);
}

/// An address whose first byte is this and whose others are 9, as far as there is one.
fn address(first: u8) -> Option<Address> {
    let mut bytes = [9; 33];
    bytes[0] = first;
    Address::from_bytes(&bytes)
}

/// The address of this first byte is that of the network and the credential.
fn is_address(rt: &impl Abort, first: u8, network: u8, payment: Credential) {
    let mut bytes = [9; 33];
    bytes[0] = first;
    let found = address(first).expect(rt, "an address");
    check(rt, "bytes", found.to_bytes() == bytes);
    check(rt, "network", found.network() == network);
    check(rt, "payment", found.payment() == payment);
    check(rt, "again", Address::new(network, payment) == Some(found));
}

#[test]
fn addresses(rt: HostRuntime) {
    let key = Credential::Key(KeyHash::from_bytes([9; 32]));
    let script = Credential::Script(ScriptHash::from_bytes([9; 32]));
    for network in [0, 15u8] {
        is_address(&rt, 0x60 | network, network, key);
        is_address(&rt, 0x70 | network, network, script);
    }
    for first in [0x00, 0x50, 0x5f, 0x80, 0xe1, 0xff] {
        check(&rt, "another kind", address(first).is_none());
    }
    for network in [16, 255] {
        check(&rt, "no network", Address::new(network, key).is_none());
    }
}

/// This place of the transaction of 32 such bytes.
fn input(transaction: u8, index: u16) -> Input {
    let transaction = TxId::from_bytes([transaction; 32]);
    Input { transaction, index }
}

#[test]
fn order_of_inputs(rt: HostRuntime) {
    check(&rt, "by identifier", input(0, 65535) < input(1, 0));
    check(&rt, "by place", input(1, 0) < input(1, 1));
    check(&rt, "equal", input(1, 1) == input(1, 1));
}

#[test]
fn key_of_a_signature(rt: HostRuntime) {
    let witness = KeyWitness::new([1; 32], [9; 64]);
    is_spelled(&rt, &[KEY_HASH], witness.key_hash().as_bytes());
}

/// The text of a transaction that spends one input and leaves nothing.
const SPENDING: &[u8] =
    b"\x83\xa3\x00\x81\x82\x58\x200123456789abcdef0123456789abcdef\x07\x01\x80\x02\x00\xa0\xf6";

// Whichever allocation is refused, the transaction isn't read for lack of memory, or nothing is written of it.
#[test]
fn refused_memory(rt: HostRuntime) {
    let mut out = Vec::new(rt.alloc());
    match Tx::decode(rt.alloc(), SPENDING) {
        Ok(tx) => {
            let is_written = boxed(&rt, tx).write(&mut out).is_ok();
            let want = if is_written { SPENDING } else { &[] };
            check(&rt, "goes round", out.as_slice() == want);
        }
        Err(fault) => check(&rt, "memory", fault == CborFault::OutOfMemory),
    }
}
