//! Identifiers of what a chain has, each 32 bytes, and points on it.
//!
//! ```text
//! let id = TxId::of_body(&body); // the SHA-256 digest of the body's text
//! let same: TxId = id.to_string(alloc)?.as_str().parse()?;
//! ```
#![tactic(auto)]

mod digest;
mod fault;
mod hex_text;
mod id;
mod point;

pub use fault::IdentFault;
pub use hex_text::Hex;
pub use id::{
    BlockHash, BlockKind, BodyHash, BodyKind, Id, KeyHash, KeyKind, ScriptHash, ScriptKind, TxId,
    TxKind,
};
pub use point::Point;
