//! The scheme of signatures by Ed25519.

use crate::scheme::SigScheme;

/// Ed25519 (RFC 8032, 5.1): a signature is good where [`ed25519::verify`] says so. A key or an R of small order is
/// refused: under such a key one signature would be good for many messages.
#[derive(Clone, Copy, Debug)]
pub struct Ed25519;

impl SigScheme for Ed25519 {
    ghost use Rattle.ed25519.specs.Verifying.{verifies};

    ghost verifies = { verifies };

    fn verify(key: &[u8; 32], message: &[u8; 32], signature: &[u8; 64]) -> bool {
        ed25519::verify(key, message.as_slice(), signature)
    }
}
