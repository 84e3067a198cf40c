//! The keys under which live blocks are found beside their hashes.

ghost use Rattle.std.specs.Prelude.{◌≡◌, option_map};
ghost use Rattle.block.specs.View.{bytes_of as hash_bytes};
ghost use Rattle.blockstore.specs.Keys.{IsLinkOf, IsAgeOf, first_link, last_link};

use crate::hash_key::HashKey;
use block::Block;
use ident::BlockHash;

/// The hash as a key, if there is one.
pub fn key_of(hash: Option<BlockHash>) -> Option<HashKey>
    ensures { result ≡ option_map hash_bytes hash }
{
    match hash {
        Some(hash) => Some(HashKey::of(hash)),
        None => None,
    }
}

/// A block behind the one that it follows: those that follow one block, or none, stand next to each other.
#[derive(Clone, Copy, PartialEq, Eq, PartialOrd, Ord)]
pub struct Link {
    pub previous: Option<HashKey>,
    pub hash: HashKey,
}

impl Link {
    /// The least of those whose blocks name the one with this hash as the block before them; where there is no hash, of
    /// those whose blocks name none.
    pub fn first(previous: Option<BlockHash>) -> Link
        ensures { result ≡ first_link (option_map hash_bytes previous) }
    {
        Link {
            previous: key_of(previous),
            hash: HashKey::least(),
        }
    }

    /// The greatest of them.
    pub fn last(previous: Option<BlockHash>) -> Link
        ensures { result ≡ last_link (option_map hash_bytes previous) }
    {
        Link {
            previous: key_of(previous),
            hash: HashKey::greatest(),
        }
    }

    /// The link of the block.
    pub fn of(block: &Block) -> Link
        ensures { IsLinkOf block.now result }
    {
        Link {
            previous: key_of(block.previous()),
            hash: HashKey::of(block.hash()),
        }
    }
}

/// A block at its number: the one with the least number stands first.
#[derive(Clone, Copy, PartialEq, Eq, PartialOrd, Ord)]
pub struct Age {
    pub number: u64,
    pub hash: HashKey,
}

impl Age {
    /// The age of the block.
    pub fn of(block: &Block) -> Age
        ensures { IsAgeOf block.now result }
    {
        Age {
            number: block.number(),
            hash: HashKey::of(block.hash()),
        }
    }
}
