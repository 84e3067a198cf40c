//! An ordered map whose versions share what they have in common, so that a program can keep thousands of them.
//!
//! A copy of a [`PersistentMap`] takes no memory and the same short time at any length. A change of a copy then takes
//! memory for a few dozen nodes, those on the way to the key, and leaves every other version as it was. A change of a
//! map that shares nothing is made in place.
//!
//! ```text
//! let mut balances = PersistentMap::new(alloc);
//! balances.insert(7, Arc::new(alloc, 100)?)?;
//! let before = balances.try_clone()?;
//! balances.insert(7, Arc::new(alloc, 90)?)?;
//! before.get(&7)      // Some(&100)
//! balances.get(&7)    // Some(&90)
//! ```
//!
//! Where n entries are kept, `get`, `insert` and `remove` take time in proportion to log n, and the last two memory
//! in proportion to log n where nodes are shared. An entry takes 48 bytes and those of its key in a block of its own,
//! and the block of its value.
//!
//! The crate stands on `std` alone. What each call answers is proved. That a tree stays shallow, at most about twice
//! the binary logarithm of n, and that versions share their nodes is tested.
//!
//! In contracts a map is the list of its entries in order. A type that keeps one in a field, and that is to be seen as
//! a finite map (`FinMap`), cites the lemmas of `proofs/ForCallers.antt`, and no others of this crate.
#![tactic(auto)]

mod iter;
mod node;
mod persistent_map;
mod shown;
mod tree;

pub use iter::Iter;
pub use persistent_map::PersistentMap;
