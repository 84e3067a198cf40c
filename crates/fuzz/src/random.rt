//! Numbers that look as if they came by chance, the same ones for the same seed.

/// A generator of numbers: Marsaglia's xorshift with a product behind it (xorshift64*).
#[derive(Drop)]
pub struct Random {
    state: u64,
}

/// What the state is multiplied with.
const FACTOR: u64 = 0x2545_F491_4F6C_DD1D;

impl Random {
    /// The numbers of this seed.
    pub fn new(seed: u64) -> Random {
        Random {
            state: seed.wrapping_mul(FACTOR) | 1,
        }
    }

    /// The next number.
    fn next(&mut self) -> u64 {
        let mut state = self.state;
        state ^= state >> 12;
        state ^= state << 25;
        state ^= state >> 27;
        self.state = state;
        state.wrapping_mul(FACTOR) >> 32
    }

    /// A number below this bound, and 0 where that is 0.
    pub fn below(&mut self, bound: usize) -> usize {
        self.next().checked_rem(bound as u64).unwrap_or(0) as usize
    }

    /// A byte.
    pub fn byte(&mut self) -> u8 {
        (self.next() % 256) as u8
    }

    /// One of the texts; none where there are none.
    pub fn pick<'a>(&mut self, texts: &'a [Vec<u8>]) -> &'a [u8] {
        match texts.get(self.below(texts.len())) {
            Some(text) => text,
            None => &[],
        }
    }
}
