//! The texts of blocks and payments, written without the types that they are read into.
//!
//! Where memory runs out a text is cut short. It is then refused by what is measured, and nothing is printed of that.
//! So no function here has a second way out, which keeps the proofs short.

use draft::{Signer, Signing, TestSigner};
use ident::{BlockHash, KeyHash, TxId};
use std::alloc::Global;
use std::slice;

/// Who signs under the scheme for tests, unless it is said otherwise. Everything is paid to who signs.
pub const TEST_SIGNER: TestSigner = TestSigner {
    key: [1; 32],
    signing: Signing::Good,
};

/// What stands in the witnesses of a transaction before the one key.
const WITNESS: &[u8] = b"\xa1\x00\x81\x82\x58\x20";

/// How many outputs of 1 lovelace a payment makes that makes outputs.
pub const MADE: u64 = 1_000;

/// How much lovelace the first output of the genesis holds, from which all others are made.
const SUPPLY: u64 = 1_000_000_000_000;

/// A payment: what it spends, how much lovelace its first output holds, and how many others of 1 lovelace there are.
#[derive(Clone, Copy)]
pub struct Payment {
    pub source: TxId,
    pub index: u16,
    pub coin: u64,
    pub ones: u64,
}

/// Puts the hash of the block of this text behind others.
pub fn put_hash(alloc: Global, hashes: &mut Vec<Vec<u8>>, text: &[u8]) {
    if let Ok(Ok(found)) = block::look(alloc, text) {
        let mut hash = Vec::new(alloc);
        put(&mut hash, found.point().hash.as_bytes());
        let _ = hashes.push(hash);
    }
}

/// The identifier under which the outputs of the genesis are spent.
pub fn genesis_id() -> TxId {
    TxId::from_bytes([0; 32])
}

/// Puts bytes behind a text.
pub fn put(out: &mut Vec<u8>, bytes: &[u8]) {
    let _ = out.extend_from_slice(bytes);
}

/// Puts the head of an array of `count` items behind a text.
pub fn put_array(out: &mut Vec<u8>, count: u64) {
    let _ = cbor::write_array(out, count);
}

/// Puts an output of `coin` lovelace to the key of this hash behind a text.
pub fn put_output(out: &mut Vec<u8>, hash: &KeyHash, coin: u64) {
    put(out, b"\x82\x58\x21\x60");
    put(out, hash.as_bytes());
    let _ = cbor::write_unsigned(out, coin);
}

/// Puts what stands before the witnesses of a payment to a key without a fee behind a text: its head, and its body.
fn put_body(out: &mut Vec<u8>, key: &[u8; 32], payment: Payment) {
    put(out, b"\x83\xa3\x00\x81\x82\x58\x20");
    put(out, payment.source.as_bytes());
    let _ = cbor::write_unsigned(out, u64::from(payment.index));
    put(out, b"\x01");
    put_array(out, payment.ones.saturating_add(1));
    let hash = KeyHash::of_key(key);
    put_output(out, &hash, payment.coin);
    for _ in 0..payment.ones {
        put_output(out, &hash, 1);
    }
    put(out, b"\x02\x00");
}

/// The identifier of the transaction of this head and body.
fn id_of(text: &[u8]) -> TxId {
    match text.split_first() {
        Some((_head, body)) => TxId::of_body(body),
        None => genesis_id(),
    }
}

/// Puts the text of a payment by this signer behind another, which has nothing yet, and answers its identifier.
fn put_payment<K: Signer>(out: &mut Vec<u8>, signer: &K, payment: Payment) -> TxId {
    let key = signer.public_key();
    put_body(out, &key, payment);
    let id = id_of(out);
    put(out, WITNESS);
    put(out, &key);
    put(out, b"\x58\x40");
    put(out, &signer.signature(id.as_bytes()));
    put(out, b"\xf6");
    id
}

/// Puts the texts of the payments that spend the outputs of a transaction behind the others, those of `count` outputs
/// from the second one on, each of this much lovelace. They are signed under the scheme for tests.
pub fn put_payments(alloc: Global, texts: &mut Vec<Vec<u8>>, source: TxId, coin: u64, count: u16) {
    put_payments_by(alloc, &TEST_SIGNER, texts, source, coin, count);
}

/// The same, signed by this signer.
pub fn put_payments_by<K: Signer>(
    alloc: Global,
    signer: &K,
    texts: &mut Vec<Vec<u8>>,
    source: TxId,
    coin: u64,
    count: u16,
) {
    for index in 0..count {
        let payment = Payment {
            source,
            index: index.saturating_add(1),
            coin,
            ones: 0,
        };
        let mut text = Vec::new(alloc);
        put_payment(&mut text, signer, payment);
        let _ = texts.push(text);
    }
}

/// Where a chain of texts ends: how many blocks it has, and the hash of the last.
#[derive(Clone, Copy)]
pub struct End {
    pub height: u64,
    pub hash: Option<BlockHash>,
}

impl End {
    /// That of a chain without a block.
    pub fn genesis() -> End {
        End {
            height: 0,
            hash: None,
        }
    }

    /// The text of the block with this body that comes next, in the slot that is `late` later than its number. It is
    /// then the end.
    pub fn next_text(&mut self, alloc: Global, late: u64, body: &[u8]) -> Vec<u8> {
        let number = self.height.saturating_add(1);
        let slot = number.saturating_add(late);
        match block::write_with_body(alloc, number, slot, self.hash, body) {
            Ok((text, hash)) => {
                self.height = number;
                self.hash = Some(hash);
                text
            }
            Err(_) => Vec::new(alloc),
        }
    }

    /// The text of the block of these transactions that comes next.
    pub fn next_of(&mut self, alloc: Global, txs: &[Vec<u8>]) -> Vec<u8> {
        let mut body = Vec::new(alloc);
        put_array(&mut body, txs.len() as u64);
        for tx in txs {
            put(&mut body, tx);
        }
        self.next_text(alloc, 0, &body)
    }

    /// Puts the text of the next block behind the others. It has no transaction.
    pub fn put_next(&mut self, alloc: Global, texts: &mut Vec<Vec<u8>>, late: u64) {
        let _ = texts.push(self.next_text(alloc, late, b"\x80"));
    }

    /// Puts the text of the next block behind the others. Its one transaction spends an output that there isn't, so
    /// that no valid chain has it.
    pub fn put_bad(&mut self, alloc: Global, texts: &mut Vec<Vec<u8>>, late: u64) {
        let payment = Payment {
            source: genesis_id(),
            index: u16::MAX,
            coin: 1,
            ones: 0,
        };
        let mut body = Vec::new(alloc);
        put_array(&mut body, 1);
        let mut tx = Vec::new(alloc);
        put_payment(&mut tx, &TEST_SIGNER, payment);
        put(&mut body, &tx);
        let _ = texts.push(self.next_text(alloc, late, &body));
    }

    /// Puts the texts of the next `blocks` blocks behind the others.
    pub fn put_chain(&mut self, alloc: Global, texts: &mut Vec<Vec<u8>>, blocks: u64) {
        for _ in 0..blocks {
            self.put_next(alloc, texts, 0);
        }
    }
}

/// A chain each of whose blocks has one payment, which spends the first output of the one before and makes many others.
#[derive(Clone, Copy)]
pub struct Growing {
    pub end: End,
    /// The last of these payments, or the genesis.
    pub source: TxId,
    /// How much lovelace its first output holds.
    coin: u64,
}

impl Growing {
    /// That of a chain without a block.
    pub fn genesis() -> Growing {
        Growing {
            end: End::genesis(),
            source: genesis_id(),
            coin: SUPPLY,
        }
    }

    /// The text of the block that comes next, signed under the scheme for tests.
    pub fn next_text(&mut self, alloc: Global) -> Vec<u8> {
        self.next_text_by(alloc, &TEST_SIGNER)
    }

    /// The same, signed by this signer.
    pub fn next_text_by<K: Signer>(&mut self, alloc: Global, signer: &K) -> Vec<u8> {
        self.coin = self.coin.saturating_sub(MADE);
        let payment = Payment {
            source: self.source,
            index: 0,
            coin: self.coin,
            ones: MADE,
        };
        let mut text = Vec::new(alloc);
        self.source = put_payment(&mut text, signer, payment);
        self.end.next_of(alloc, slice::from_ref(&text))
    }
}
