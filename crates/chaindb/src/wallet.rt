//! Transactions, and what they are made with.
//!
//! A [`Draft`] is a transaction in the making: its parts are added one by one, each [`Signer`] signs its identifier,
//! and [`Draft::finish`] makes a [`Tx`] of it, whose bytes are submitted.
//!
//! Where keys are elsewhere, as in a hardware wallet, it is a draft of signatures, `Draft<KeyWitness>`. [`Draft::body`]
//! is what a device shows, and [`Draft::id`] what it signs; [`Draft::add_signature`] takes the signature, and
//! [`SigScheme::verify`](crate::SigScheme::verify) tells whether it is good. `docs/WALLET.md` goes the whole way.

pub use draft::{Draft, DraftFault, Signer, Signing, TestSigner};
pub use ed25519::SecretKey;
pub use timelock::{Interval, Script, ScriptFault, Timelock, Timelocks};
pub use tx::{
    Address, AddressFault, Credential, Input, KeyWitness, Output, PartsFault, Tx, TxParts,
};
pub use value::{Amounts, AssetFault, AssetQuantity, Mint, Value};
