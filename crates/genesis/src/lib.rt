//! The genesis: what a network agrees on before its first block, read from a TOML document.
//!
//! ```text
//! let genesis = Genesis::from_toml(alloc, &text)?;
//! println!(rt; "{} lovelace at {} addresses", genesis.supply(), genesis.outputs().len())?;
//! ```
#![tactic(auto)]

mod document;
mod genesis;
mod genesis_document;
mod genesis_fault;
mod grants;
mod placing;
mod scheme;
mod settings;
pub mod stages;
mod table;

pub use genesis::Genesis;
pub use genesis_document::GenesisDocument;
pub use genesis_fault::GenesisFault;
pub use grants::Grant;
pub use scheme::Scheme;
pub use utxo_rules::{Params, SecondEra};
