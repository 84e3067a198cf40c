//! What a text may be of.

ghost use Rattle.std.specs.Prelude.{◌≡◌};
ghost use Rattle.telling.specs.Kinds.{kind_named, has_identifier};

/// What a text may be of.
#[derive(Clone, Copy, Debug, PartialEq, Eq)]
pub enum Kind {
    /// A transaction, whose identifier is the SHA-256 digest of its body's text.
    Transaction,
    /// A block, whose hash is that of its header's text.
    Block,
    /// A native script, whose hash is that of a byte 0 and its text.
    Script,
    /// A value, as an output of a transaction holds it. It has no identifier.
    Value,
}

impl Kind {
    /// The kind of this name: `transaction`, `block`, `script` or `value`.
    pub fn of_name(name: &str) -> Option<Kind>
        ensures { result ≡ kind_named name.now }
    {
        if name == "transaction" {
            return Some(Kind::Transaction);
        }
        if name == "block" {
            return Some(Kind::Block);
        }
        if name == "script" {
            return Some(Kind::Script);
        }
        if name == "value" {
            return Some(Kind::Value);
        }
        None
    }

    /// Whether a text of this kind has an identifier.
    pub fn has_identifier(self) -> bool
        ensures { result ≡ has_identifier self }
    {
        self != Kind::Value
    }
}
