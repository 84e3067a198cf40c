//! Which chain is selected when a block comes: the longest valid one of live blocks through the immutable tip, where
//! that is longer than the selected one, and of several the one with the least hash at its end.
//!
//! ```text
//! let selection = chainsel::select(alloc, &store, &db, &chain, &block)?;
//! match selection.choice {
//!     Choice::Keep => .., // the chain stays
//!     Choice::Switch(switch) => .., // roll `back` blocks back, put `blocks` on, and commit what is prepared
//! }
//! for hash in selection.invalid {
//!     store.mark_invalid(hash); // never in a valid chain
//! }
//! // where the chain stays: selection.side for db.keep_side
//! ```
#![tactic(auto)]

mod beside;
mod found;
mod furthest;
mod links;
mod search;
mod selecting;
mod selection;
mod shown;
mod sifting;
mod way;

pub use selecting::{immutable, select};
pub use selection::{Choice, Selection, Switch};
