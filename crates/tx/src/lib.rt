//! Transactions of the Shelley-MA era and their parts: read from their text, made of parts in any order, and written.
#![tactic(auto)]

mod address;
mod address_fault;
mod address_text;
mod body;
mod body_writer;
mod copying;
mod input;
mod key_witness;
mod keys;
mod laws;
mod lists;
mod nesting;
mod output;
mod parts;
mod parts_fault;
mod ranked;
mod tx;
mod witness_writer;
mod witnesses;

pub use address::{ADDRESS_SIZE, Address, Credential};
pub use address_fault::AddressFault;
pub use copying::clone_outputs;
pub use input::Input;
pub use key_witness::KeyWitness;
pub use laws::{address_read_again, one_tx_of_parts};
pub use lists::MAX_OUTPUTS;
pub use nesting::{MAX_SCRIPT_NESTING, MAX_TX_NESTING};
pub use output::Output;
pub use parts::TxParts;
pub use parts_fault::PartsFault;
pub use tx::Tx;
