//! What answers a client's lane of a running node: each line is read as a request, the call is made of the core that
//! threads share, and the reply is written.
//!
//! ```text
//! let mut clerk = Clerk::new(alloc, rt, &shared, caller, host); // in a thread of its own
//! attend(alloc, &mut clerk, &mut reader, &mut writer)?; // until the client ends the lane
//! ```
#![tactic(auto)]

mod block_telling;
mod chain_telling;
mod clerk;
mod following;
mod host;
mod node;
mod pending_reply;
mod reasons;
mod shown;
mod submitting;
mod unspent;
mod utxo_telling;

pub use clerk::Clerk;
pub use host::{Ending, FlushFault, Host};
