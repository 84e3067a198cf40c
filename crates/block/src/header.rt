//! Headers of blocks.

use ident::{BlockHash, BodyHash};

/// Numbers and slots of blocks are below 2^63.
pub const NUMBER_LIMIT: u64 = 1 << 63;

/// What a block says of itself: its place on the chain, the block before it and the hash of its body.
#[derive(Clone, Copy, Debug, PartialEq, Eq)]
pub struct Header {
    /// How many blocks the chain has up to this one: 1 for the first, below 2^63 in a block's text.
    pub number: u64,
    /// The slot of time in which the block was made, below 2^63 in a block's text.
    pub slot: u64,
    /// The hash of the block before, None for the first block of a chain.
    pub previous: Option<BlockHash>,
    /// The SHA-256 digest (FIPS 180-4) that the body is to have.
    pub body_hash: BodyHash,
}
