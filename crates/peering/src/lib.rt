//! What a peer sends on a stream of bytes: blocks, in lines of hexadecimal digits, or each behind its length. What a
//! block is, and whether it is good, is no part of this crate.
//!
//! ```text
//! while let Some(sent) = next_sent(alloc, &mut reader, Framing::Binary)? {
//!     match sent {
//!         Sent::Block(bytes) => .., // for the node to judge
//!         Sent::Malformed | Sent::TooLarge => .., // the stream goes on behind it
//!     }
//! }
//! ```
#![tactic(auto)]

mod framed;
mod lines;
mod peer_fault;
mod sent;
mod stream;

pub use peer_fault::PeerFault;
pub use sent::{Framing, MAX_BLOCK, Sent, next_sent};
