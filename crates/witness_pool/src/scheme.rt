//! Signature schemes.

/// A signature scheme: which signatures are good is all that transactions ask of it. Its meaning is a function of the
/// bytes alone, so every node gives the same answer.
pub trait SigScheme {
    ghost use Rattle.std.specs.Prelude.{◌≡◌};
    ghost use Rattle.model.specs.Signature.{Verifies};

    /// What the scheme means.
    ghost verifies: { Verifies };

    /// Whether the signature of the message is good for the key.
    fn verify(key: &[u8; 32], message: &[u8; 32], signature: &[u8; 64]) -> bool
        ensures { result ≡ verifies key.now message.now signature.now };
}
