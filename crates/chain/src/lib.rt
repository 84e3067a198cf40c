//! The selected chain, of which the first blocks may have left memory: their hashes stay, and an index finds blocks by
//! these.
//!
//! ```text
//! let mut chain = Chain::from_blocks(alloc, blocks);
//! chain.forget(flushed)?; // these are on a disk
//! match chain.get(number) {
//!     Some(block) => .., // in memory
//!     None => .., // none has this number, or it left memory: `chain.hash_of(number)` tells which
//! }
//! index.reserve(up_to - index.len())?;
//! index.push_up_to(&chain, up_to); // the blocks up to this number are indexed
//! if let Some(number) = index.number_of(&chain, hash) {
//!     .. // the block of this number has the hash
//! }
//! ```
#![tactic(auto)]

mod chain;
mod index;
mod shown;

pub use chain::Chain;
pub use index::HashIndex;
