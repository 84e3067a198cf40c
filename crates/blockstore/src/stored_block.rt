//! A block as the store has it.

ghost use Rattle.std.specs.Prelude.{◌≡◌, ◌↔◌, IsTrue};
ghost use Rattle.blockstore.specs.Stored.{unmarked, marked};

use crate::live_block::LiveBlock;
use block::{Block, CheckedBlock};
use std::marker::Model;
use witness_pool::SigScheme;

/// A live block, and whether it is known that no valid chain will ever have it.
#[derive(Drop)]
pub struct StoredBlock<S: SigScheme> {
    block: LiveBlock<S>,
    invalid: bool,
}

impl<S: SigScheme> Model for StoredBlock<S> {
    ghost use Rattle.blockstore.specs.Stored.{Stored, coded_stored};

    ghost Value = { Stored };

    ghost coded = { coded_stored };

    ghost use Rattle.blockstore.specs.HeldBlock.{stored_of};

    ghost view = { stored_of };
}

/// Whether the two are the same block. Linear in the bytes.
fn is_same(block: &Block, other: &Block) -> bool
    ensures { IsTrue result ↔ (block.now ≡ other.now) }
{
    *block == *other
}

impl<S: SigScheme> StoredBlock<S> {
    /// The block without a mark.
    pub(crate) fn new(block: LiveBlock<S>) -> StoredBlock<S>
        ensures { result ≡ unmarked block }
    {
        StoredBlock {
            block,
            invalid: false,
        }
    }

    /// The block without its transactions. Copies nothing.
    pub fn block(&self) -> &Block
        ensures { result.now ≡ self.now.block }
    {
        self.block.block()
    }

    /// The block in the form in which it is held.
    pub fn live(&self) -> &LiveBlock<S>
        ensures { result.now ≡ self.now.block }
    {
        &self.block
    }

    /// Holds the block with its transactions from now on, if it is this one and held as its text alone.
    pub(crate) fn hold(&mut self, block: CheckedBlock<S>)
        ensures { self.new ≡ self.old }
    {
        if self.block.is_unread() && is_same(self.block.block(), block.block()) {
            self.block = LiveBlock::checked(block);
        }
    }

    /// Whether it was marked as one that no valid chain will ever have.
    pub fn is_invalid(&self) -> bool
        ensures { result ≡ self.now.invalid }
    {
        self.invalid
    }

    /// Marks the block as one that no valid chain will ever have.
    pub(crate) fn mark(&mut self)
        ensures { self.new ≡ marked self.old }
    {
        self.block.let_go();
        self.invalid = true;
    }

    /// Holds the block as its text alone from now on.
    pub(crate) fn let_go(&mut self)
        ensures { self.new ≡ self.old }
    {
        self.block.let_go();
    }

    /// Takes the mark off, if there is one.
    pub(crate) fn unmark(&mut self)
        ensures { self.new ≡ unmarked self.old.block }
    {
        self.invalid = false;
    }
}
