//! Blocks with the verdicts on their transactions.

ghost use Rattle.std.specs.Prelude.{◌≡◌, ◌↔◌, ◌<◌, IsTrue, option_map, IfOk, IfErr};
ghost use Rattle.std.specs.List.{AllByRecursion};
ghost use Rattle.model.specs.Limits.{number_limit};
ghost use Rattle.model.specs.Transaction.{IsTransaction};
ghost use Rattle.model.specs.Block.{block_text, block_hash_of, body_size_of};
ghost use Rattle.block.specs.View.{bytes_of, header_of};
ghost use Rattle.block.specs.Read.{IsRead, IsReadFault};
ghost use Rattle.block.specs.Facts.{block_of, AreFactsOf};

use crate::block::Block;
use crate::block_ref::look;
use crate::facts::Facts;
use crate::fault::ReadFault;
use crate::header::Header;
use crate::reading;
use cbor::CborFault;
use ident::{BlockHash, Point};
use std::alloc::{AllocError, AllocFailed, Global};
use std::fmt;
use std::marker::Model;
use std::sync::Arc;
use tx::Tx;
use witness_pool::{CheckedTx, SigScheme, plain};

/// A block that was read, with the verdicts on each of its transactions: whether its signatures are good, which keys
/// signed, and whether its scripts hold. They are computed once. The owners of a block share what it has.
#[derive(Drop)]
pub struct CheckedBlock<S: SigScheme> {
    block: Block,
    transactions: Arc<Vec<CheckedTx<S>>>,
}

impl<S: SigScheme> Model for CheckedBlock<S> {
    ghost use Rattle.model.specs.Block as model;
    ghost use Rattle.model.specs.Codes.{coded_block};

    ghost Value = { model.Block };

    ghost coded = { coded_block };

    ghost use Rattle.block.specs.HeldChecked.{IsHeldChecked};

    ghost view = { λ b. b.block };

    ghost invariant = { IsHeldChecked };
}

impl<S: SigScheme> CheckedBlock<S> {
    /// The block without its transactions. Copies nothing.
    pub fn block(&self) -> &Block
        ensures { result.now ≡ self.now }
    {
        &self.block
    }

    /// The text of the block (RFC 8949, section 4.2.1), at most 1,048,576 bytes. Copies nothing.
    pub fn bytes(&self) -> &[u8]
        ensures { IsRead self.now result.now }
    {
        self.block.bytes()
    }

    /// The hash of the block: the SHA-256 digest (FIPS 180-4) of its header's text. It was computed when
    /// the block was read.
    pub fn hash(&self) -> BlockHash
        ensures { result.bytes ≡ block_hash_of self.now }
    {
        self.block.hash()
    }

    /// The header of the block.
    pub fn header(&self) -> &Header
        ensures { header_of result.now ≡ self.now.header }
    {
        self.block.header()
    }

    /// How many blocks the chain has up to this one, below 2^63.
    pub fn number(&self) -> u64
        ensures { result ≡ self.now.header.number }
    {
        self.block.number()
    }

    /// The slot of time in which the block was made, below 2^63.
    pub fn slot(&self) -> u64
        ensures slot { result ≡ self.now.header.slot }
        ensures small { result < number_limit }
    {
        self.block.slot()
    }

    /// The hash of the block before, None for the first block of a chain.
    pub fn previous(&self) -> Option<BlockHash>
        ensures { option_map bytes_of result ≡ self.now.header.previous }
    {
        self.block.previous()
    }

    /// The size of the body's text, in bytes.
    pub fn body_size(&self) -> usize
        ensures { result ≡ body_size_of self.now }
    {
        self.block.body_size()
    }

    /// The transactions of the block with their verdicts, in order. Copies nothing.
    pub fn transactions(&self) -> &[CheckedTx<S>]
        ensures transactions { result.now ≡ self.now.transactions }
        // Each of them has a text.
        ensures shapes { AllByRecursion IsTransaction self.now.transactions }
    {
        &self.transactions
    }

    /// Whether these bytes are the text of the block. Linear in the bytes.
    pub fn has_text(&self, bytes: &[u8]) -> bool
        ensures { IsTrue result ↔ (block_text self.now ≡ bytes.now) }
    {
        self.block.has_text(bytes)
    }

    /// The place of the block on its chain: its number and its hash.
    pub fn point(&self) -> Point
        ensures number { result.number ≡ self.now.header.number }
        ensures hash { result.hash.bytes ≡ block_hash_of self.now }
    {
        self.block.point()
    }

    /// One more owner of the block, in constant time and with no allocation. Err where 2^63 - 1 owners
    /// are reached.
    pub fn try_clone(&self) -> Result<CheckedBlock<S>, AllocError>
        ensures same { IfOk result (λ b. b ≡ self.now) }
        // What is shared is what was read.
        ensures read { IsRead self.now (block_text self.now) }
    {
        Ok(CheckedBlock {
            block: self.block.try_clone()?,
            transactions: Arc::try_clone(&self.transactions)?,
        })
    }

    /// The block with its transactions, which are read from its text again, and the verdicts on these. The text is
    /// shared. Err where memory runs out. The cost grows with the bytes: one digest for each transaction and each
    /// script, and for each signature one call of the scheme and one digest.
    pub fn from_block(alloc: Global, block: &Block) -> Result<CheckedBlock<S>, AllocError>
        ensures { IfOk result (λ b. b ≡ block.now) }
    {
        let parts = match reading::parts_of(alloc, block.bytes()) {
            Ok(parts) => parts,
            Err(CborFault::Malformed) => unreachable!(),
            Err(CborFault::OutOfMemory) => return Err(AllocError),
        };
        let transactions = check_all(alloc, parts.transactions)?;
        Ok(CheckedBlock {
            block: block.try_clone()?,
            transactions: Arc::new(alloc, transactions)?,
        })
    }

    /// The block that the bytes spell, with the verdicts on its transactions: [`crate::read`] and then the verdicts.
    /// One call of the scheme and one digest for each signature.
    ///
    /// ```text
    /// let block = CheckedBlock::<TestScheme>::read(alloc, &bytes)?;
    /// let good = block.transactions().iter().all(|tx| tx.is_signed());
    /// ```
    pub fn read(alloc: Global, bytes: &[u8]) -> Result<CheckedBlock<S>, ReadFault>
        ensures ok { IfOk result (λ b. IsRead b bytes.now) }
        ensures fault { IfErr result (λ e. IsReadFault bytes.now e) }
    {
        match look(alloc, bytes)? {
            Ok(found) => Ok(found.into_checked_block(alloc)?),
            Err(bad) => Err(ReadFault::from(bad)),
        }
    }
}

impl<S: SigScheme> PartialEq for CheckedBlock<S> {
    ghost use Rattle.std.specs.Prelude.{bytes_eq};
    ghost use Rattle.block.specs.Same.{same_texts_laws};

    ghost eq = { λ a b. bytes_eq (block_text a) (block_text b) };

    ghost laws = { same_texts_laws };

    /// Whether the two are the same block, which is so just where their texts are the same. Linear in the bytes.
    fn eq(&self, other: &CheckedBlock<S>) -> bool
        ensures exact { result ≡ bytes_eq (block_text self.now) (block_text other.now) }
        ensures same { IsTrue result ↔ (self.now ≡ other.now) }
    {
        self.bytes() == other.bytes()
    }
}

impl<S: SigScheme> fmt::Debug for CheckedBlock<S> {
    ghost use Rattle.std.specs.Prelude.{Some, codes};
    ghost use Rattle.block.specs.Texts.{block_shown};

    ghost debug_output = { λ block. Some (block_shown (codes "CheckedBlock") block) };

    /// Writes `CheckedBlock`, and in brackets the number and the hash in 64 lower case hexadecimal digits.
    fn fmt<W: fmt::Write>(&self, f: &mut fmt::Formatter<W>) -> fmt::Result {
        let number = self.number();
        let hash = self.hash();
        write!(f, "CheckedBlock({number} {hash})")
    }
}

/// The transactions with their verdicts, in order.
pub fn check_all<S: SigScheme>(
    alloc: Global,
    transactions: Vec<Tx>,
) -> Result<Vec<CheckedTx<S>>, AllocError>
    ensures { IfOk result (λ checked. checked.items ≡ transactions.items) }
{
    let mut checked = Vec::with_capacity(alloc, transactions.len())?;
    for tx in transactions {
        checked.push(plain::<S>(alloc, tx)?)?;
    }
    Ok(checked)
}

impl<S: SigScheme> CheckedBlock<S> {
    /// A block of its own of these bytes and what they were read as, which are moved in. Where there is no memory for
    /// it the bytes come back.
    pub(crate) fn of_parts(
        alloc: Global,
        bytes: Vec<u8>,
        facts: Facts,
        transactions: Vec<CheckedTx<S>>,
    ) -> Result<CheckedBlock<S>, AllocFailed<Vec<u8>>>
        requires { AreFactsOf facts transactions.items bytes.items }
        ensures block { IfOk result (λ b. b ≡ block_of facts transactions.items) }
        ensures back { IfErr result (λ failed. failed.value ≡ bytes) }
    {
        let Ok(transactions) = Arc::new(alloc, transactions) else {
            return Err(AllocFailed { value: bytes });
        };
        let block = Block::of_parts(alloc, bytes, facts)?;
        Ok(CheckedBlock {
            block,
            transactions,
        })
    }
}
