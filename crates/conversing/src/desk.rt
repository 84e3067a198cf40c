//! What answers lines.

use std::alloc::AllocError;

/// What answers lines.
pub trait Desk {
    ghost use Rattle.std.specs.Prelude.{◌≡◌, ℕ, List, IfOk, OnErr};

    /// From what it was a line leads to what it is then, with this reply.
    ghost answers: { Self → List ℕ → Self → List ℕ → Type 0 };

    /// The reply to a line, which is empty where none is sent. Where memory runs out nothing changes.
    fn answer(&mut self, line: &[u8]) -> Result<Vec<u8>, AllocError>
        ensures ok { IfOk result (λ reply. answers self.old line.now self.new reply.items) }
        ensures err { OnErr result (self.new ≡ self.old) };
}
