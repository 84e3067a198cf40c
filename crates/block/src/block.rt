//! Blocks, as their texts and what their headers say.

ghost use Rattle.std.specs.Prelude.{◌≡◌, ◌↔◌, [], option_map, IsTrue, IfOk, IfErr};
ghost use Rattle.model.specs.Block.{block_text, block_hash_of, body_size_of};
ghost use Rattle.block.specs.View.{bytes_of, header_of};
ghost use Rattle.block.specs.Read.{IsRead, IsReadFault};
ghost use Rattle.block.specs.Facts.{block_in, AreFactsIn};

use crate::block_ref::look;
use crate::facts::Facts;
use crate::fault::ReadFault;
use crate::header::Header;
use ident::{BlockHash, Point};
use std::alloc::{AllocError, AllocFailed, Global};
use std::fmt;
use std::marker::Model;
use std::sync::Arc;

/// What the owners of a block share.
#[derive(Drop)]
struct Inner {
    bytes: Vec<u8>,
    facts: Facts,
}

/// A block that was read, as its text and what its header says: its transactions stand in its bytes alone, from which
/// [`crate::CheckedBlock::from_block`] reads them again. The owners of a block share one allocation.
#[derive(Drop)]
pub struct Block {
    inner: Arc<Inner>,
}

impl Model for Block {
    ghost use Rattle.model.specs.Block as model;
    ghost use Rattle.model.specs.Codes.{coded_block};

    ghost Value = { model.Block };

    ghost coded = { coded_block };

    ghost use Rattle.block.specs.Facts.{block_in, AreFactsIn};

    ghost view = { λ b. block_in b.inner.value.facts b.inner.value.bytes.items };

    ghost invariant = { λ b. AreFactsIn b.inner.value.facts b.inner.value.bytes.items };
}

impl Block {
    /// The text of the block (RFC 8949, section 4.2.1), at most 1,048,576 bytes. Copies nothing.
    pub fn bytes(&self) -> &[u8]
        ensures { IsRead self.now result.now }
    {
        &self.inner.bytes
    }

    /// The hash of the block: the SHA-256 digest (FIPS 180-4) of its header's text. It was computed when
    /// the block was read.
    pub fn hash(&self) -> BlockHash
        ensures { result.bytes ≡ block_hash_of self.now }
    {
        self.inner.facts.hash
    }

    /// The header of the block.
    pub fn header(&self) -> &Header
        ensures { header_of result.now ≡ self.now.header }
    {
        &self.inner.facts.header
    }

    /// How many blocks the chain has up to this one, below 2^63.
    pub fn number(&self) -> u64
        ensures { result ≡ self.now.header.number }
    {
        self.inner.facts.header.number
    }

    /// The slot of time in which the block was made, below 2^63.
    pub fn slot(&self) -> u64
        ensures { result ≡ self.now.header.slot }
    {
        self.inner.facts.header.slot
    }

    /// The hash of the block before, None for the first block of a chain.
    pub fn previous(&self) -> Option<BlockHash>
        ensures { option_map bytes_of result ≡ self.now.header.previous }
    {
        self.inner.facts.header.previous
    }

    /// The size of the body's text, in bytes.
    pub fn body_size(&self) -> usize
        ensures { result ≡ body_size_of self.now }
    {
        self.inner.facts.body_size
    }

    /// Whether the block has no transactions.
    pub fn is_empty(&self) -> bool
        ensures { IsTrue result ↔ (self.now.transactions ≡ []) }
    {
        self.body_size() == 1
    }

    /// The place of the block on its chain: its number and its hash.
    pub fn point(&self) -> Point
        ensures number { result.number ≡ self.now.header.number }
        ensures hash { result.hash.bytes ≡ block_hash_of self.now }
        // It is that of the one block that has this text.
        ensures read { IsRead self.now (block_text self.now) }
    {
        Point {
            number: self.number(),
            hash: self.inner.facts.hash,
        }
    }

    /// Whether these bytes are the text of the block. Linear in the bytes.
    pub fn has_text(&self, bytes: &[u8]) -> bool
        ensures { IsTrue result ↔ (block_text self.now ≡ bytes.now) }
    {
        same_bytes(self.bytes(), bytes)
    }

    /// One more owner of the block, in constant time and with no allocation. Err where 2^63 - 1 owners
    /// are reached.
    pub fn try_clone(&self) -> Result<Block, AllocError>
        ensures same { IfOk result (λ b. b ≡ self.now) }
        // What is shared is what was read.
        ensures read { IsRead self.now (block_text self.now) }
    {
        let inner = Arc::try_clone(&self.inner)?;
        Ok(Block { inner })
    }
}

impl PartialEq for Block {
    ghost use Rattle.std.specs.Prelude.{bytes_eq};
    ghost use Rattle.block.specs.Same.{same_texts_laws};

    ghost eq = { λ a b. bytes_eq (block_text a) (block_text b) };

    ghost laws = { same_texts_laws };

    /// Whether the two are the same block, which is so just where their texts are the same. Linear in the bytes.
    fn eq(&self, other: &Block) -> bool
        ensures exact { result ≡ bytes_eq (block_text self.now) (block_text other.now) }
        ensures same { IsTrue result ↔ (self.now ≡ other.now) }
    {
        self.bytes() == other.bytes()
    }
}

impl fmt::Debug for Block {
    ghost use Rattle.std.specs.Prelude.{Some, codes};
    ghost use Rattle.block.specs.Texts.{block_shown};

    ghost debug_output = { λ block. Some (block_shown (codes "Block") block) };

    /// Writes `Block`, and in brackets the number and the hash in 64 lower case hexadecimal digits.
    fn fmt<W: fmt::Write>(&self, f: &mut fmt::Formatter<W>) -> fmt::Result {
        let number = self.number();
        let hash = self.hash();
        write!(f, "Block({number} {hash})")
    }
}

/// Whether the bytes are the same.
fn same_bytes(bytes: &[u8], other: &[u8]) -> bool
    ensures { IsTrue result ↔ (bytes.now ≡ other.now) }
{
    bytes == other
}

impl Block {
    /// A block of its own of these bytes and what they were read as, which are moved in. Where there is no memory for
    /// it the bytes come back.
    pub(crate) fn of_parts(
        alloc: Global,
        bytes: Vec<u8>,
        facts: Facts,
    ) -> Result<Block, AllocFailed<Vec<u8>>>
        requires { AreFactsIn facts bytes.items }
        ensures block { IfOk result (λ b. b ≡ block_in facts bytes.items) }
        ensures back { IfErr result (λ failed. failed.value ≡ bytes) }
    {
        match Arc::new(alloc, Inner { bytes, facts }) {
            Ok(inner) => Ok(Block { inner }),
            Err(AllocFailed { value }) => Err(AllocFailed { value: value.bytes }),
        }
    }
}

/// The block that the bytes spell (RFC 8949, section 4.2.1), with a copy of them. Else the first of these
/// faults that applies:
/// - TooLarge: there are more than 1,048,576 bytes;
/// - Malformed: the bytes are the text of no block;
/// - BodyHashMismatch: the header names another hash than the SHA-256 digest (FIPS 180-4) of the body's text;
/// - OutOfMemory: memory ran out, which may stand for Malformed and BodyHashMismatch, but comes only where the bytes
///   begin with the head of an array of two, and at the text of a block without transactions only where that is read,
///   for the copy.
///
/// The cost grows with the bytes: a digest of the body's text, one of the header's, those that identify transactions
/// and scripts, and one copy of the bytes.
///
/// ```text
/// let block = block::read(alloc, &bytes)?;
/// let place = block.point(); // its number and its hash
/// ```
pub fn read(alloc: Global, bytes: &[u8]) -> Result<Block, ReadFault>
    ensures ok { IfOk result (λ b. IsRead b bytes.now) }
    ensures fault { IfErr result (λ e. IsReadFault bytes.now e) }
{
    match look(alloc, bytes)? {
        Ok(found) => Ok(found.into_block(alloc)?),
        Err(bad) => Err(ReadFault::from(bad)),
    }
}
