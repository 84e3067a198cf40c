//! The ledger database: the state of a chain, and what each of its last blocks changed, so that a fork from any of them
//! can be judged without applying the chain anew.
//!
//! ```text
//! let mut db = LedgerDb::new(alloc, LedgerState::new(alloc, &genesis)?, genesis.k());
//! let prepared = db.fork(0, &blocks)?; // or why not: the first block that isn't applied, and its first fault
//! db.commit(prepared);                 // the blocks are applied
//! // Where these were two at least:
//! let prepared = db.fork(2, &others)?;
//! db.commit(prepared); // the last two blocks are rolled back, and the others stand in their place
//! ```
#![tactic(auto)]

mod applying;
mod diffs;
mod fork_fault;
mod ledger_db;
mod prepared;
mod shown;

pub use fork_fault::ForkFault;
pub use ledger_db::LedgerDb;
pub use prepared::Prepared;
