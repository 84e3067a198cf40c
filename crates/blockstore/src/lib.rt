//! The store of live blocks: those that may still come into a selected chain, found by hash and by predecessor.
//!
//! ```text
//! let mut store = BlockStore::<TestScheme>::new(alloc, Capacity { blocks: 2160, bytes: None });
//! store.insert(block)?; // or why not: Known, Clash, VolatileFull
//! for next in &store.successors(Some(tip))? {
//!     println!(rt; "{}", next.block().number())?;
//! }
//! store.drop_up_to(immutable_tip);
//! ```
#![tactic(auto)]

mod capacity;
mod hash_key;
mod insert_fault;
mod keys;
mod live_block;
mod placed_block;
mod reach;
mod shelf;
mod shown;
mod store;
mod stored_block;
mod unconnected;

pub use capacity::Capacity;
pub use insert_fault::InsertFault;
pub use live_block::LiveBlock;
pub use store::BlockStore;
pub use stored_block::StoredBlock;
pub use unconnected::Unconnected;
