//! Simulations: peers send blocks to a core that clients follow, each in a thread of its own.
//!
//! ```text
//! let clients = Clients::new(3).expect(rt, "1 to 8 clients");
//! let setup = Setup { clients, when_full: WhenFull::Discard };
//! // Waits for all threads that it starts.
//! sim::<TestScheme, _, _, _, _>(rt, genesis, Scheme::Test, &mut script, &mut out, setup, &OpenGate)?;
//! ```
#![tactic(auto)]

mod clients;
mod course;
mod simulations;
mod summary;
mod threads;

pub use clients::{Clients, MAX_CLIENTS};
pub use simulations::{Setup, sim};
pub use summary::Summary;
