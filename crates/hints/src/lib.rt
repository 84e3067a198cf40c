//! What is told of a fault beside its name: which word of a script or which key of a genesis file it is about, and
//! where that stands.
//!
//! ```text
//! if let Some(hint) = GenesisHint::of_bytes(alloc, &bytes)? {
//!     println!(rt; "{hint}")?;
//! }
//! ```
#![tactic(auto)]

mod genesis_hint;
mod genesis_place;
mod genesis_spot;
mod place;
mod script_form;
mod script_hint;
mod script_names;

pub use genesis_hint::GenesisHint;
pub use genesis_spot::Trouble;
pub use place::Place;
pub use script_hint::ScriptHint;
