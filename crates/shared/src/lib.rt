//! One core for many threads: a lock, the journal of all calls, and the height in a word that is read without the lock.
//! It begins from a genesis, or from a chain that a core was opened on (`Opened::on`).
//!
//! ```text
//! // In a function for every `B: Room` and `M: Mailroom`, which a program calls with `Brand` for both, on
//! // opened = Opened::<TestScheme>::new(alloc, genesis, 3)? and inbox = inbox::Opened::new(alloc, 8)?.
//! let (shared, mut callers) = opened.named::<B>()?;
//! let (mut peers, end) = inbox.named::<M>()?;
//! let mut adder = Adder::new(alloc, end, callers.remove(0), Pool::new(OpenGate), 4);
//! // Each thread has a caller of its own, or the adder, or the end of a peer.
//! peers[2].send(rt, bytes)?; // the third peer sends a first block
//! let added = adder.run(rt, &shared, 1)?; // 1: it brought one arrival; waits for the lock
//! let height = shared.height(&mut callers[0]); // 1, without the lock
//! let follower = shared.open(rt, &mut callers[0])?; // FollowerId { number: 0 }
//! let told = shared.next(rt, &mut callers[1], follower)?; // Some(Instruction::AddBlock(block)): that block
//! let tip = shared.tip(rt, &mut callers[1]); // its number is 1; a question stands in no journal
//! let forged = shared.forge(rt, &mut callers[1], 2)?; // the block that comes next in slot 2, for a peer to send
//! ```
#![tactic(auto)]

mod adder;
mod call;
mod caller;
mod caller_seat;
mod desk;
mod handles;
mod heights;
mod held;
mod journal;
mod journal_entry;
pub mod laws;
mod meeting;
mod open_fault;
mod opened;
mod questions;
mod reader;
mod room;
mod sealing;
mod shared;
mod shown;

pub use adder::Adder;
pub use caller::Caller;
pub use open_fault::OpenFault;
pub use opened::{MAX_CALLERS, Opened};
pub use questions::ChainTip;
pub use room::Room;
pub use shared::Shared;
