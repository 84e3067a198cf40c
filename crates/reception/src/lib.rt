//! Who takes in what peers send: an adder, and one who keeps places free for what it brings, if that is to be.
//!
//! ```text
//! let mut reception = Reception { adder, keeper: Keeper::new(caller, Places::of(&genesis)), when_full: WhenFull::Discard };
//! reception.bring_next(rt, alloc, &shared)?; // what the core did with the next arrival, if there is one
//! ```
#![tactic(auto)]

mod keeper;
mod reception;
mod shown;

pub use keeper::{Keeper, Places, WhenFull};
pub use reception::Reception;
