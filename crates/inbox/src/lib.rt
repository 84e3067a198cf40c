//! An inbox: what several peers send, for one who takes it in.
//!
//! ```text
//! let opened = Opened::new(alloc, 8)?;
//! // In a function for every `M: Mailroom`, which a program calls with `std::marker::Brand`:
//! let (mut peers, mut adder) = opened.named::<M>()?;
//! // Each thread has an end of its own.
//! peers[0].send(rt, bytes)?; // Full gives the bytes back
//! let arrival = adder.take(rt); // None where the inbox is empty
//! let finished = finish(peers, adder); // how many were sent and taken
//! ```
#![tactic(auto)]

mod adder_end;
mod arrival;
mod faults;
mod finished;
mod mailroom;
mod opened;
mod passes;
mod peer_end;
mod shown;
mod telling;

pub use adder_end::AdderEnd;
pub use arrival::Arrival;
pub use faults::{Full, InboxFault};
pub use finished::{Finished, finish};
pub use mailroom::Mailroom;
pub use opened::{MAX_CAPACITY, Opened};
pub use peer_end::{PEERS, PeerEnd};
