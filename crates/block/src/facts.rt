//! What is known of a block.

use crate::header::Header;
use ident::BlockHash;

/// What is known of a block once its bytes are read, beside them and its transactions.
#[derive(Clone, Copy)]
pub struct Facts {
    /// The SHA-256 digest (FIPS 180-4) of the header's text.
    pub hash: BlockHash,
    pub header: Header,
    /// The size of the body's text, in bytes.
    pub body_size: usize,
}
