//! Where bytes stop being the text of an item of deterministic CBOR (RFC 8949, sections 3 and 4.2.1): the place of the
//! first byte that cannot stand there, and why.
//!
//! ```text
//! first_misfit(b"\x82\x01\x80"); // None: an array of the number 1 and an empty array
//! first_misfit(b"\x82\x01\x5f"); // byte 2 begins no item
//! ```
#![tactic(auto)]

mod argument;
mod initial;
mod misfit;
mod stop;
mod walk;

pub use misfit::{Misfit, first_misfit};
