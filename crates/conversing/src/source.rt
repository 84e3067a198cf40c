//! What followers are told.

use std::alloc::AllocError;

/// What followers are told, each of whom has a number.
pub trait Source: Drop {
    ghost use Rattle.std.specs.Prelude.{◌≡◌, ◌≢◌, ℕ, List, Bool, false, Ok, None, IfOk, IfSome, OnErr};

    /// Whether the follower of a number is to be told something.
    ghost has_news: { Self → ℕ → Bool };

    /// From what it was the telling of this line to the follower of a number leads to what it is then.
    ghost tells: { Self → ℕ → Self → List ℕ → Type 0 };

    /// From what it was these bytes lead to what it is then, with this reply.
    ghost takes: { Self → List ℕ → Self → List ℕ → Type 0 };

    /// What the follower of this number is told next, if anything. Otherwise, and where memory runs out, nothing
    /// changes.
    fn told(&mut self, number: u64) -> Result<Option<Vec<u8>>, AllocError>
        ensures line { IfOk result (λ told. IfSome told (λ line. tells self.old number self.new line.items)) }
        ensures none { result ≡ Ok None → has_news self.old number ≡ false }
        ensures same { result ≡ Ok None → self.new ≡ self.old }
        ensures err { OnErr result (self.new ≡ self.old) }
        ensures others { (other : ℕ) → other ≢ number → has_news self.new other ≡ has_news self.old other };

    /// These bytes arrive: the reply. Whoever follows may then be to be told something. Where memory runs out nothing
    /// changes.
    fn arrive(&mut self, bytes: &[u8]) -> Result<Vec<u8>, AllocError>
        ensures ok { IfOk result (λ reply. takes self.old bytes.now self.new reply.items) }
        ensures err { OnErr result (self.new ≡ self.old) };
}
