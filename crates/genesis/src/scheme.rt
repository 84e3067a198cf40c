//! The scheme by which the signatures of a network are judged.

ghost use Rattle.std.specs.Prelude.{◌≡◌};
ghost use Rattle.genesis.specs.Document.{scheme_of};
ghost use Rattle.genesis.specs.Meaning.{scheme_name};

/// The scheme by which signatures are judged.
#[derive(Clone, Copy, Debug, PartialEq, Eq)]
pub enum Scheme {
    /// The scheme for tests, under which whoever knows a public key can sign for it.
    Test,
    /// Ed25519 (RFC 8032).
    Ed25519,
}

impl Scheme {
    /// The scheme of this name, `test` or `ed25519`.
    pub fn of_name(name: &str) -> Option<Scheme>
        ensures { result ≡ scheme_of name.now }
    {
        match name {
            "test" => Some(Scheme::Test),
            "ed25519" => Some(Scheme::Ed25519),
            _ => None,
        }
    }

    /// Its name in a genesis document: `test` or `ed25519`.
    pub fn name(self) -> &'static str
        ensures { result.now ≡ scheme_name self }
    {
        match self {
            Scheme::Test => "test",
            Scheme::Ed25519 => "ed25519",
        }
    }
}
