//! What a value, a native script, a transaction, a block, a genesis or a record of a log is, as lines for people: one
//! fact a line, in the order of its text. A line is words and what they say, numbers are decimal and bytes lower case
//! hexadecimal, and what belongs to a line is indented by two spaces more than that. Of signatures it is told whether
//! the scheme has them good, and of scripts whether they hold, as the type of a checked transaction keeps it.
//!
//! ```text
//! let block = CheckedBlock::<TestScheme>::read(alloc, &bytes)?;
//! let lines = show_block(alloc, &block)?; // block HASH, size 40, number 1, slot 1, previous null, ..
//! let tx = plain::<Ed25519>(alloc, Tx::decode(alloc, &bytes)?)?;
//! let lines = show_transaction(alloc, &tx)?; // transaction ID, size 190, input ID#0, output 0, ..
//! let lines = show_script(alloc, &Script::decode(alloc, b"\x82\x04\x05")?)?; // script HASH, and indented starts 5
//! ```
#![tactic(auto)]

mod blocks;
mod geneses;
mod lines;
mod records;
mod scripts;
mod transactions;
mod values;

pub use blocks::show_block;
pub use geneses::show_genesis;
pub use records::show_record;
pub use scripts::show_script;
pub use transactions::show_transaction;
pub use values::show_value;
