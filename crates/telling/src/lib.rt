//! What is told of one text: its identifier, what it is, line by line or as a JSON document, and of a transaction what
//! a submission of it would be answered. The bytes may be written as hexadecimal text. [`Form`] has a genesis and the
//! records of a log too.
#![tactic(auto)]

mod evaluation_text;
mod fault;
mod form;
mod hex_text;
mod identifier;
mod kind;
mod line;
mod misreading;
mod shown;
mod verdict;

pub use fault::TellFault;
pub use form::Form;
pub use hex_text::{HexFault, bytes_of_hex};
pub use identifier::print_identifier;
pub use kind::Kind;
pub use misreading::Misreading;
pub use shown::print_shown;
pub use verdict::{Verdict, print_verdict};
