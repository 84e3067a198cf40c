//! The mempool: transactions that wait to come into a block, in the order in which they came.
//!
//! ```text
//! let mut mempool = Mempool::<TestScheme>::new(alloc, 100, state.utxo())?;
//! match mempool.submit(state.params(), state.slot() + 1, &bytes)? {
//!     SubmitReply::Added => .., // it waits
//!     SubmitReply::Refused(reason) => println!(rt; "{reason}")?,
//!     SubmitReply::Malformed | SubmitReply::Known | SubmitReply::Full => ..,
//! }
//! let told = mempool.evaluate(state.params(), slot, &bytes)?; // what it would be answered, and why
//! // Another chain is selected.
//! let resynced = mempool.resync(state.params(), state.utxo(), state.slot() + 1)?;
//! mempool.put(resynced);
//! ```
#![tactic(auto)]

mod evaluation;
mod mempool;
mod picking;
mod reply;
mod shown;
mod waiting;

pub use evaluation::Evaluation;
pub use mempool::{Mempool, Resynced};
pub use reply::SubmitReply;
