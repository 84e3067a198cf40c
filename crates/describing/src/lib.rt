//! What a value, a native script, a transaction, a block or a genesis is, as one JSON document (RFC 8259) for programs:
//! a value without spaces, whose members stand in the order of their names, and a line feed. Bytes are lower case
//! hexadecimal. Numbers below 2^53 are JSON numbers, and from there on strings of their decimal digits, since many
//! readers hold each number as a double; a negative quantity goes by its absolute value. Of signatures it is told
//! whether the scheme has them good, and of scripts whether they hold, as the type of a checked transaction keeps it.
//!
//! ```text
//! let block = CheckedBlock::<TestScheme>::read(alloc, &bytes)?;
//! let text = block_json(alloc, &block)?; // {"body_hash":"..","body_size":1,"hash":"..","number":1,"previous":null,..
//! let tx = plain::<Ed25519>(alloc, Tx::decode(alloc, &bytes)?)?;
//! let text = transaction_json(alloc, &tx)?; // {"end":null,"fee":290,"id":"..","inputs":[{"index":0,..
//! let text = script_json(alloc, &Script::decode(alloc, b"\x82\x04\x05")?)?; // {"condition":{"starts":5},"hash":".."}
//! ```
#![tactic(auto)]

mod blocks;
mod documents;
mod geneses;
mod parts;
mod records;
mod scripts;
mod transactions;
mod values;

pub use blocks::block_json;
pub use geneses::genesis_json;
pub use records::record_json;
pub use scripts::script_json;
pub use transactions::transaction_json;
pub use values::value_json;
