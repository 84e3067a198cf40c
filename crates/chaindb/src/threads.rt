//! One core for many threads.
//!
//! [`Opened::new`] or [`Opened::on`] makes it, and [`Opened::named`] gives the [`Shared`] core with a [`Caller`] for
//! each thread. An [`Adder`] brings what peers sent, and checks signatures with several workers.

pub use shared::{Adder, Caller, ChainTip, MAX_CALLERS, OpenFault, Opened, Room, Shared};
