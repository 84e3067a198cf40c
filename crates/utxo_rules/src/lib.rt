//! The unspent outputs of a chain, and the rules that a transaction has to keep to spend some of them.
//!
//! ```text
//! check(alloc, &params, &utxo, slot, &tx)?; // the first reason against it, if there is one
//! explain(alloc, &params, slot, &utxo, &tx)?; // the same with what it is about, to be shown to who made it
//! let (after, diff) = applied_diff(utxo, tx.tx())?;
//! let before = undone(after, &diff)?; // the same outputs as before
//! ```
//!
//! These take outputs that are given away, and copy nothing that isn't shared. [`apply_diff`] and [`undo`] do the same
//! to outputs that are borrowed, and leave them as they were where memory runs out.
#![tactic(auto)]

mod applying;
mod balance;
mod check_fault;
mod conditions;
mod detail;
mod diff;
mod entries;
mod entry;
mod era;
mod explaining;
mod first_witnesses;
mod firsts;
mod hashes;
mod imbalance;
mod params;
mod reason;
mod rules;
mod showing;
mod shown;
mod spent;
mod undoing;
mod utxo;
mod witnesses;

pub use applying::{applied, applied_diff, apply, apply_diff};
pub use check_fault::CheckFault;
pub use detail::{AssetId, Detail};
pub use diff::Diff;
pub use entries::{Entries, EntriesOf};
pub use era::{Era, SecondEra};
pub use explaining::{explain, explain_early, explain_late};
pub use params::Params;
pub use reason::Reason;
pub use rules::{check, check_early, check_late};
pub use undoing::{undo, undone};
pub use utxo::Utxo;
