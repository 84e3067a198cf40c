//! Who is given the blocks of a log while it is opened.

ghost use Rattle.std.specs.Prelude.{◌≡◌, ℕ, List, [], ◌∷◌, ◌++◌};
ghost use Rattle.immlog.specs.Views.{blocks_of};

use crate::blocks::Blocks;

/// Who is given the blocks of a log, one after the other, while it is opened. So what is made of them needs no copy of
/// all of them.
pub trait Sink {
    /// The blocks that it was given, the first one first.
    ghost given: { Self → List (List ℕ) };

    /// What no block changes.
    ghost Kept: { Type 0 };

    ghost kept: { Self → Self.Kept };

    /// Gives it the next block. What becomes of it isn't told here: whoever makes something of the blocks tells it
    /// afterwards.
    fn give(&mut self, block: &[u8])
        ensures given { Self.given self.new ≡ Self.given self.old ++ block.now ∷ [] }
        ensures kept { Self.kept self.new ≡ Self.kept self.old };
}

/// Makes nothing of the blocks.
#[derive(Drop)]
pub struct Nobody {
    given: Blocks,
}

impl Nobody {
    /// It was given no block.
    pub fn new() -> Nobody
        ensures { blocks_of result.given ≡ [] }
    {
        Nobody {
            given: Blocks::new(),
        }
    }
}

impl Sink for Nobody {
    ghost given = { λ s. blocks_of s.given };

    ghost Kept = { Unit {0} };

    ghost kept = { λ _. tt };

    fn give(&mut self, block: &[u8]) {
        self.given.add(block);
    }
}
