//! The transaction between its line `tx` and its line `end`.

use crate::key_signer::KeySigner;
use draft::Draft;

/// A transaction in the making, with its name and the number of its line `tx`.
#[derive(Drop)]
pub struct OpenTx {
    pub name: Vec<u8>,
    pub line: u64,
    pub draft: Draft<KeySigner>,
}
