//! Native scripts (the multi-signature and time-lock scripts of Shelley-MA): read from their text and made of parts,
//! written, copied, hashed, and judged for a transaction's signatures and interval.
#![tactic(auto)]

mod copying;
mod fault;
mod fitting;
mod holding;
mod interval;
mod nesting;
mod reading;
mod script;
mod timelock;
mod writing;

pub use fault::ScriptFault;
pub use interval::Interval;
pub use script::Script;
pub use timelock::{Timelock, Timelocks};
