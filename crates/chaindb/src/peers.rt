//! A queue of bytes that eight peers send and one adder takes.
//!
//! [`Opened::new`] makes it, and [`Opened::named`] gives its nine ends: a [`PeerEnd`] for each peer, and an
//! [`AdderEnd`], which an adder (`threads`) takes from.

pub use inbox::{
    AdderEnd, Arrival, Full, InboxFault, MAX_CAPACITY, Mailroom, Opened, PEERS, PeerEnd,
};
