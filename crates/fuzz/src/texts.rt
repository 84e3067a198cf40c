//! Texts that are changed, read, and written again: where they are read, the same bytes are to be written.

use crate::changing::{change, put};
use crate::network::copy;
use crate::random::Random;
use crate::tally::Tally;
use std::alloc::Global;
use timelock::Script;
use tx::Tx;
use value::Value;

/// What is read.
#[derive(Clone, Copy)]
pub enum Kind {
    Item,
    Value,
    Script,
    Payment,
    Block,
}

/// Two values: lovelace alone, and beside two assets of one policy.
pub const VALUES: [&[u8]; 2] = [
    b"\x19\x03\x20",
    b"\x82\x19\x03\x20\xa1\x58\x20\
\x01\x01\x01\x01\x01\x01\x01\x01\x01\x01\x01\x01\x01\x01\x01\x01\
\x01\x01\x01\x01\x01\x01\x01\x01\x01\x01\x01\x01\x01\x01\x01\x01\
\xa2\x40\x05\x43abc\x1a\x00\x01\x00\x00",
];

/// Two native scripts: from slot 100 on, one of two, up to slot 500 and any of none; and the signature of a key.
pub const SCRIPTS: [&[u8]; 2] = [
    b"\x82\x01\x82\x82\x04\x18\x64\x83\x03\x01\x82\x82\x05\x19\x01\xf4\x82\x02\x80",
    b"\x82\x00\x58\x20\
\x01\x01\x01\x01\x01\x01\x01\x01\x01\x01\x01\x01\x01\x01\x01\x01\
\x01\x01\x01\x01\x01\x01\x01\x01\x01\x01\x01\x01\x01\x01\x01\x01",
];

/// Copies of texts.
pub fn copies(alloc: Global, texts: &[&[u8]]) -> Vec<Vec<u8>> {
    let mut all = Vec::new(alloc);
    for text in texts {
        let _ = all.push(copy(alloc, *text));
    }
    all
}

/// Writes the item of the bytes again.
fn item_again(alloc: Global, bytes: &[u8]) -> Option<Vec<u8>> {
    match cbor::decode(alloc, bytes) {
        Ok(item) => cbor::encode(alloc, &item).ok(),
        Err(_) => None,
    }
}

/// Writes the value that the bytes begin with again, and puts what stands behind it.
fn value_again(alloc: Global, bytes: &[u8]) -> Option<Vec<u8>> {
    let mut out = Vec::new(alloc);
    match Value::read(alloc, bytes) {
        Ok((value, rest)) => {
            let _ = value.write(&mut out);
            put(&mut out, rest);
            Some(out)
        }
        Err(_) => None,
    }
}

/// Writes the native script of the bytes again.
fn script_again(alloc: Global, bytes: &[u8]) -> Option<Vec<u8>> {
    match Script::decode(alloc, bytes) {
        Ok(script) => script.encode().ok(),
        Err(_) => None,
    }
}

/// Writes the transaction of the bytes again.
fn payment_again(alloc: Global, bytes: &[u8]) -> Option<Vec<u8>> {
    match Tx::decode(alloc, bytes) {
        Ok(tx) => tx.encode().ok(),
        Err(_) => None,
    }
}

/// Writes the block of the bytes again.
fn block_again(alloc: Global, bytes: &[u8]) -> Option<Vec<u8>> {
    match block::look(alloc, bytes) {
        Ok(Ok(block)) => block::write(
            alloc,
            block.header().number,
            block.header().slot,
            block.header().previous,
            block.transactions(),
        )
        .ok(),
        Ok(Err(_)) | Err(_) => None,
    }
}

/// What is written of what the bytes are read as, or none where they aren't read.
fn again(alloc: Global, kind: Kind, bytes: &[u8]) -> Option<Vec<u8>> {
    match kind {
        Kind::Item => item_again(alloc, bytes),
        Kind::Value => value_again(alloc, bytes),
        Kind::Script => script_again(alloc, bytes),
        Kind::Payment => payment_again(alloc, bytes),
        Kind::Block => block_again(alloc, bytes),
    }
}

/// Whether the text, which is read as something, is that of an item too, or begins with one as values may.
fn is_item(alloc: Global, kind: Kind, bytes: &[u8]) -> bool {
    match kind {
        Kind::Value => cbor::read(alloc, bytes).is_ok(),
        _ => cbor::decode(alloc, bytes).is_ok(),
    }
}

/// Counts what comes of these bytes.
fn count(alloc: Global, kind: Kind, bytes: &[u8], tally: &mut Tally) {
    match again(alloc, kind, bytes) {
        Some(written) => {
            let same = written.as_slice() == bytes;
            tally.count(true, same && is_item(alloc, kind, bytes));
        }
        None => tally.count(false, true),
    }
}

/// `rounds` rounds of changed texts of this kind.
pub fn run(
    alloc: Global,
    kind: Kind,
    texts: &[Vec<u8>],
    rounds: u64,
    random: &mut Random,
    tally: &mut Tally,
) {
    let mut changed = Vec::new(alloc);
    for _ in 0..rounds {
        let text = random.pick(texts);
        let other = random.pick(texts);
        change(&mut changed, text, other, random);
        count(alloc, kind, &changed, tally);
    }
}
