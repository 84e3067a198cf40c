//! Where a chain ends.

ghost use Rattle.std.specs.Prelude.{◌≡◌, ◌↔◌, ◌+◌, IsTrue};
ghost use Rattle.model.specs.Block as model;
ghost use Rattle.model.specs.Chain.{tip_at, Follows};
ghost use Rattle.model.specs.Chain as chain;
ghost use Rattle.block.specs.View.{header_of, tip_of};

use crate::block::Block;
use crate::header::Header;
use ident::BlockHash;

/// Where a chain ends: the number, slot and hash of its last block, or 0, 0 and none.
#[derive(Clone, Copy, Debug, PartialEq, Eq)]
pub struct Tip {
    pub number: u64,
    pub slot: u64,
    pub hash: Option<BlockHash>,
}

/// Whether the number is the next one after the other.
fn is_next(before: u64, number: u64) -> bool
    ensures { IsTrue result ↔ (number ≡ before + 1) }
{
    before < number && number - before == 1
}

impl Tip {
    /// The end of the chain without a block.
    pub fn genesis() -> Tip
        ensures { tip_of result ≡ chain.genesis_tip }
    {
        Tip {
            number: 0,
            slot: 0,
            hash: None,
        }
    }

    /// The end of a chain that ends in this block.
    pub fn at(block: &Block) -> Tip
        ensures { tip_of result ≡ tip_at block.now }
    {
        Tip {
            number: block.number(),
            slot: block.slot(),
            hash: Some(block.hash()),
        }
    }

    /// Whether the block may come next, by its header alone: it has the next number, names the last block as the one
    /// before it, and has a later slot.
    pub fn precedes(&self, block: &Block) -> bool
        ensures { IsTrue result ↔ Follows (tip_of self.now) block.now }
    {
        self.precedes_header(block.header())
    }

    /// The same of a block that has this header.
    pub fn precedes_header(&self, header: &Header) -> bool
        ensures { (b : model.Block) → b.header ≡ header_of header.now →
            IsTrue result ↔ Follows (tip_of self.now) b }
    {
        is_next(self.number, header.number)
            && header.previous == self.hash
            && self.slot < header.slot
    }
}
