//! The ledger of a chain: what blocks make of the outputs that it opens with, one after the other.
//!
//! ```text
//! let mut state = LedgerState::new(alloc, &genesis)?;
//! for block in &blocks {
//!     state = apply_block(&state, block)?; // or why not: WrongNumber, .., TxFault(index, reason)
//! }
//! println!(rt; "{} lovelace of fees after slot {}", state.fees(), state.slot())?;
//! ```
#![tactic(auto)]

mod applying;
mod block_diff;
mod block_fault;
mod ledger_state;
mod opening;
mod shown;
mod transactions;

pub use applying::{apply_block, apply_block_diff, misfit_before};
pub use block_diff::{BlockDiff, undo_block};
pub use block_fault::{ApplyFault, BlockFault};
pub use genesis::{Genesis, GenesisFault};
pub use ledger_state::LedgerState;
