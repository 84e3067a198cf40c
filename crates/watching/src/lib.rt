//! An index that follows: the unspent outputs and the history of each address, who holds an asset, and where each
//! transaction was put onto the chain, kept by a follower's instructions alone. It knows of no chain database: whoever
//! is told blocks and rollbacks can keep an index, a wallet or an explorer beside a node. It keeps all outputs, or
//! those of some addresses alone, or those that hold some of an asset of some policies.
//!
//! ```text
//! let which = Which::all(); // or Which::addresses(alloc, &[address])?, or Which::policies(alloc, &[policy])?
//! let utxo = core.utxo(); // a new core has what the genesis granted
//! let mut watch = Watch::new(alloc, Tip::genesis(), utxo, k, which)?;
//! match core.next(follower)? {
//!     Some(Instruction::AddBlock(block)) => watch.add_block(&block)?,
//!     Some(Instruction::RollBack(point)) => watch.roll_back(&point)?,
//!     None => .., // the outputs are those of the selected chain
//! }
//! for (input, output) in watch.outputs(&address).iter() { .. }
//! for (inclusion, transaction) in watch.history(&address).iter() { .. }
//! for Holder { address, amount } in watch.holders(&policy, b"name")?.iter() { .. }
//! ```
#![tactic(auto)]

mod advance;
mod balance;
mod change;
mod difference;
mod histories;
mod history;
mod holders;
mod inclusion;
mod inclusions;
mod index;
mod laws;
mod owner;
mod owners;
mod shown;
mod tables;
mod tx_key;
mod watch;
mod watch_fault;
mod which;

pub use history::{History, HistoryEntries};
pub use holders::Holder;
pub use inclusion::Inclusion;
pub use laws::{
    follows_the_told, histories_are_the_chains, holders_are_one, inclusions_are_the_chains,
    index_is_the_nodes, next_are_taken, none_is_left_out, outputs_are_the_chains,
    outputs_are_the_ledgers, outputs_are_the_tolds, points_are_kept, reach_stays, told_are_taken,
    watched_are_left, watched_are_meant, which_stays,
};
pub use watch::Watch;
pub use watch_fault::WatchFault;
pub use which::Which;
