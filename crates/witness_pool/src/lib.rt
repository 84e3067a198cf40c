//! Verdicts on transactions: which signatures are good, which keys signed, whether the scripts hold. Computed once, and
//! kept beside the transaction by its type.
//!
//! ```text
//! let checked: CheckedTx<TestScheme> = plain(alloc, tx)?; // on this thread
//! let all: Vec<CheckedTx<TestScheme>> = Pool::new(OpenGate).check(rt, alloc, 4, txs)?; // by four workers, in order
//! let good = all.iter().all(|checked| checked.is_signed());
//! ```
#![tactic(auto)]

mod checked_tx;
mod dealing;
mod ed25519_scheme;
mod gate;
mod pool;
mod pool_fault;
mod scheme;
mod shown;
mod test_scheme;
mod verdicts;

pub use checked_tx::{CheckedTx, plain};
pub use ed25519_scheme::Ed25519;
pub use gate::{Gate, OpenGate};
pub use pool::{MAX_WORKERS, Pool};
pub use pool_fault::PoolFault;
pub use scheme::SigScheme;
pub use test_scheme::TestScheme;
