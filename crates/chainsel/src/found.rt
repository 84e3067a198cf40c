//! The blocks that a search has found dead.

ghost use Rattle.std.specs.Prelude.{◌≡◌, ◌≢◌, ◌↔◌, [], ◌∷◌, ◌++◌, IsTrue, OnOk};
ghost use Rattle.std.specs.List.{AllByRecursion};
ghost use Rattle.chainsel.specs.Founds.{AreHashesOf};

use ident::BlockHash;
use std::alloc::{AllocError, Global};
use std::collections::BTreeSet;

/// The hashes of blocks that were found dead, in the order in which they were. Each call takes a look-up, whose time
/// grows with the logarithm of how many there are.
#[derive(Drop)]
pub struct Found {
    hashes: Vec<BlockHash>,
    known: BTreeSet<[u8; 32]>,
    ghost same: { AreHashesOf known hashes.items },
}

impl Found {
    /// None. Takes no memory.
    pub fn new(alloc: Global) -> Found
        ensures { result.hashes.items ≡ [] }
    {
        Found {
            hashes: Vec::new(alloc),
            known: BTreeSet::new(alloc),
        }
    }

    /// Whether the block with this hash isn't among them.
    pub fn lacks(&self, hash: BlockHash) -> bool
        ensures { IsTrue result ↔ AllByRecursion (λ other. other.bytes ≢ hash.bytes) self.now.hashes.items }
    {
        !self.known.contains(hash.as_bytes())
    }

    /// Takes in one more. Err where memory runs out.
    pub fn push(&mut self, hash: BlockHash) -> Result<(), AllocError>
        ensures { OnOk result (self.new.hashes.items ≡ self.old.hashes.items ++ hash ∷ []) }
    {
        self.hashes.reserve(1)?;
        if self.known.insert(*hash.as_bytes()).is_err() {
            return Err(AllocError);
        }
        self.hashes.push_reserved(hash);
        Ok(())
    }

    /// The hashes.
    pub fn into_hashes(self) -> Vec<BlockHash>
        ensures { result.items ≡ self.hashes.items }
    {
        let Found { hashes, known: _ } = self;
        hashes
    }
}
