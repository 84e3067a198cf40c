//! Blocks that only proofs read.

ghost use Rattle.std.specs.Prelude.{◌≡◌, [], ◌∷◌, ◌++◌};
ghost use Rattle.immlog.specs.Views.{blocks_of, noted};

use http_server::Log as Noted;

/// Blocks that only proofs read: they take no memory.
#[derive(Drop)]
pub struct Blocks {
    pub noted: Noted<Noted<u8, ()>, ()>,
}

/// These bytes, as proofs alone read them. Takes no memory.
pub fn note_bytes(bytes: &[u8]) -> Noted<u8, ()>
    ensures { noted result.items ≡ bytes.now }
{
    let mut so_far = Noted::new();
    for byte in bytes {
        so_far = so_far.and(byte, &());
    }
    so_far
}

impl Blocks {
    /// No block.
    pub fn new() -> Blocks
        ensures { blocks_of result ≡ [] }
    {
        Blocks {
            noted: Noted::new(),
        }
    }

    /// Notes a block behind the others.
    pub fn add(&mut self, block: &[u8])
        ensures { blocks_of self.new ≡ blocks_of self.old ++ block.now ∷ [] }
    {
        self.noted = self.noted.and(&note_bytes(block), &());
    }
}
