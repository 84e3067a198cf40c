//! The language of scripts: lines that define keys, native scripts, transactions, blocks and bytes, and lines that ask
//! something of a node. This crate knows what a line means where some names are bound; it runs nothing.
#![tactic(auto)]

mod adding;
mod asset_words;
mod bound_names;
mod building;
mod defining;
mod digits;
mod fault;
mod follower_names;
mod key;
mod key_signer;
mod known;
mod line;
mod lookup;
mod name;
mod name_table;
mod name_words;
mod names;
mod number;
mod obeying;
mod open_tx;
mod part;
mod place_words;
mod points;
mod request;
mod sending;
mod shown;
mod stop;
mod tx_names;
mod words;

pub use fault::LineFault;
pub use line::Form;
pub use name::Name;
pub use names::{LinePlace, MAX_SCRIPT_SIZE, Names};
pub use part::Owner;
pub use request::{KeyAddress, Request};
pub use sending::SendRequest;
pub use stop::Stop;
