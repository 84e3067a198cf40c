//! Blocks in bytes that are borrowed.

ghost use Rattle.std.specs.Prelude.{◌≡◌, ◌↔◌, ℕ, List, IsTrue, IfOk, IfErr, OnErr};
ghost use Rattle.model.specs.Block.{block_hash_of};
ghost use Rattle.block.specs.Read.{IsRead, IsBadBytes, IsUnread};
ghost use Rattle.block.specs.Facts.{AreFactsOf};
ghost use Rattle.block.specs.View.{header_of};

use crate::block::Block;
use crate::checked_block::{CheckedBlock, check_all};
use crate::facts::Facts;
use crate::fault::BadBytes;
use crate::header::Header;
use crate::reading;
use cbor::CborFault;
use ident::{BlockHash, BodyHash, Point};
use std::alloc::{AllocError, Global};
use std::marker::Model;
use tx::Tx;
use witness_pool::SigScheme;

/// The largest size of a block, in bytes.
pub const MAX_BLOCK_SIZE: usize = 1_048_576;

/// A block in bytes that are borrowed: it was read and hashed, and of its bytes none are copied.
#[derive(Drop)]
pub struct BlockRef<'a> {
    bytes: &'a [u8],
    facts: Facts,
    transactions: Vec<Tx>,
}

impl<'a> Model for BlockRef<'a> {
    ghost use Rattle.model.specs.Block as model;
    ghost use Rattle.model.specs.Codes.{coded_block};

    ghost Value = { model.Block };

    ghost coded = { coded_block };

    ghost use Rattle.block.specs.Facts.{block_of, AreFactsOf};

    ghost view = { λ b. block_of b.facts b.transactions.items };

    ghost invariant = { λ b. AreFactsOf b.facts b.transactions.items b.bytes.now };
}

impl<'a> BlockRef<'a> {
    /// The text of the block.
    pub fn bytes(&self) -> &'a [u8]
        ensures { IsRead self.now result.now }
    {
        self.bytes
    }

    /// The hash of the block, computed when it was read.
    pub fn hash(&self) -> BlockHash
        ensures { result.bytes ≡ block_hash_of self.now }
    {
        self.facts.hash
    }

    /// How many blocks the chain has up to this one, below 2^63.
    pub fn number(&self) -> u64
        ensures { result ≡ self.now.header.number }
    {
        self.facts.header.number
    }

    /// The place of the block on its chain: its number and its hash.
    pub fn point(&self) -> Point
        ensures number { result.number ≡ self.now.header.number }
        ensures hash { result.hash.bytes ≡ block_hash_of self.now }
    {
        Point {
            number: self.facts.header.number,
            hash: self.facts.hash,
        }
    }

    /// What is known of the block and its transactions, apart from the bytes. The transactions are moved.
    pub(crate) fn into_parts(self) -> (Facts, Vec<Tx>)
        ensures { (bytes : List ℕ) → IsRead self.entry bytes → AreFactsOf result.0 result.1.items bytes }
    {
        (self.facts, self.transactions)
    }

    /// The header of the block.
    pub fn header(&self) -> &Header
        ensures { header_of result.now ≡ self.now.header }
    {
        &self.facts.header
    }

    /// The transactions of the block, without verdicts, in order. Copies nothing.
    pub fn transactions(&self) -> &[Tx]
        ensures { result.now ≡ self.now.transactions }
    {
        &self.transactions
    }

    /// The block with a copy of the bytes, in two allocations, and without its transactions.
    pub fn into_block(self, alloc: Global) -> Result<Block, AllocError>
        ensures { IfOk result (λ b. b ≡ self.entry) }
    {
        let bytes = Vec::from_slice(alloc, self.bytes)?;
        Ok(Block::of_parts(alloc, bytes, self.facts)?)
    }

    /// The block with a copy of the bytes and with the verdicts on its transactions, which are moved. One call of the
    /// scheme and one digest for each signature.
    pub fn into_checked_block<S: SigScheme>(
        self,
        alloc: Global,
    ) -> Result<CheckedBlock<S>, AllocError>
        ensures { IfOk result (λ b. b ≡ self.entry) }
    {
        let bytes = Vec::from_slice(alloc, self.bytes)?;
        let transactions = check_all(alloc, self.transactions)?;
        Ok(CheckedBlock::of_parts(alloc, bytes, self.facts, transactions)?)
    }
}

/// Whether two body hashes are the same.
fn is_same(a: &BodyHash, b: &BodyHash) -> bool
    ensures { IsTrue result ↔ (a.now.bytes ≡ b.now.bytes) }
{
    a == b
}

/// The block that the bytes spell, or the first reason why they are none: [`crate::read`] without the copy. Err where
/// memory runs out, which is asked for while transactions are read, and never by a block without transactions, nor by
/// bytes that don't begin with the head of an array of two. The cost grows with the bytes: one digest of the body's
/// text, one of the header's, and those that identify transactions and scripts.
pub fn look(alloc: Global, bytes: &[u8]) -> Result<Result<BlockRef<'_>, BadBytes>, AllocError>
    ensures block { IfOk result (λ found. IfOk found (λ b. IsRead b bytes.now)) }
    ensures bad { IfOk result (λ found. IfErr found (λ bad. IsBadBytes bytes.now bad)) }
    ensures memory { OnErr result (IsUnread bytes.now) }
{
    if bytes.len() > MAX_BLOCK_SIZE {
        return Ok(Err(BadBytes::TooLarge));
    }
    let parts = match reading::parts_of(alloc, bytes) {
        Ok(parts) => parts,
        Err(CborFault::Malformed) => return Ok(Err(BadBytes::Malformed)),
        Err(CborFault::OutOfMemory) => return Err(AllocError),
    };
    if !is_same(&BodyHash::of_body(parts.body_text), &parts.header.body_hash) {
        return Ok(Err(BadBytes::BodyHashMismatch));
    }
    let facts = Facts {
        hash: BlockHash::of_header(parts.header_text),
        header: parts.header,
        body_size: parts.body_text.len(),
    };
    Ok(Ok(BlockRef {
        bytes,
        facts,
        transactions: parts.transactions,
    }))
}
