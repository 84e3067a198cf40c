//! A transaction in the making: its parts are added one by one, and it is signed and finished.
//!
//! ```text
//! let key = [1; 32];
//! let owner = Credential::Key(KeyHash::of_key(&key));
//! let address = Address::new(0, owner).unwrap(); // there are the networks 0 to 15
//! let mut draft = Draft::new(alloc);
//! draft.spend(Input { transaction: TxId::from_bytes([0; 32]), index: 0 })?; // the first output of a genesis
//! draft.pay(address, 910, Vec::new(alloc))?; // 910 lovelace, and no other assets
//! draft.set_fee(290)?;
//! let again = draft.set_fee(300); // Err(DraftFault::NotBuilt), and the fee is still 290 lovelace
//! draft.sign(TestSigner { key, signing: Signing::Good })?; // or an `ed25519::SecretKey`
//! let tx = draft.finish()?; // its text has 190 bytes, and its own identifier is signed
//! ```
//!
//! Where the key isn't here, as in a hardware wallet, the draft has signatures for signers:
//!
//! ```text
//! let mut draft: Draft<KeyWitness> = Draft::new(alloc); // and the same parts
//! let body = draft.body()?; // what a device shows before it signs: 84 bytes
//! let id = draft.id()?; // the digest of these, of which a signature is made elsewhere
//! draft.add_signature(key, signature)?;
//! let tx = draft.finish()?; // the same transaction, if the signature is the one that the key makes
//! ```
#![tactic(auto)]

mod draft;
mod draft_fault;
mod keyed;
mod laws;
mod shown;
mod signer;
mod unsigned;
mod values;

pub use draft::Draft;
pub use draft_fault::DraftFault;
pub use laws::{good_signature_verifies, one_body_of_draft, one_text_signed_elsewhere};
pub use signer::{Signer, Signing, TestSigner};
