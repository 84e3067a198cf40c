//! Signatures by Ed25519 (RFC 8032, 5.1): keys, signing, and which signatures are good.
//!
//! Beside what the standard asks, a key or an R of small order is refused. Nothing is promised of the time that a call
//! takes, nor that memory is cleared.
#![tactic(auto)]

mod addend;
mod constants;
mod factors;
mod field_element;
mod point;
mod scalar;
mod secret_key;
mod shown;
mod verification;

pub use constants::curve_constants;
pub use secret_key::SecretKey;
pub use verification::verify;
