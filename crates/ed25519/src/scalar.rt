//! Numbers of 256 bits, and their arithmetic modulo L.

ghost use Rattle.std.specs.Prelude.{take, drop, ◌≡◌, ℕ, ◌+◌, ◌*◌, ◌%◌, ◌^◌, ◌<◌, ◌≤◌, nat_lt, IsTrue, ◌↔◌};
ghost use Rattle.ed25519.specs.Arithmetic.{prime};
ghost use Rattle.ed25519.specs.Points.{order};
ghost use Rattle.ed25519.specs.Encoding.{little_endian, to_bytes};
ghost use Rattle.ed25519.specs.Keys.{pruned};
ghost use Rattle.ed25519.specs.Inside.{AreWords, words};

use std::marker::Model;

/// A number below 2 ^ 256, as four words, the lowest first.
#[derive(Drop)]
pub struct Scalar {
    w0: u64,
    w1: u64,
    w2: u64,
    w3: u64,
}

impl Model for Scalar {
    ghost Value = { ℕ };

    ghost view = { λ s. words s.w0 s.w1 s.w2 s.w3 };

    ghost invariant = { λ s. AreWords s.w0 s.w1 s.w2 s.w3 };
}

/// The sum of two words and a carry: its word, and above that the next carry.
fn carry(a: u64, b: u64, over: u128) -> u128
    requires { over < 2 ^ 64 }
    ensures { result ≡ a + b + over }
{
    a as u128 + b as u128 + over
}

/// The word of the eight bytes from here on.
fn word(bytes: &[u8; 32], i: usize) -> u64
    requires { i + 8 ≤ 32 }
    ensures { result ≡ little_endian (take 8 (drop i bytes.now)) }
{
    u64::from_le_bytes([
        bytes[i],
        bytes[i + 1],
        bytes[i + 2],
        bytes[i + 3],
        bytes[i + 4],
        bytes[i + 5],
        bytes[i + 6],
        bytes[i + 7],
    ])
}

impl Scalar {
    /// The number of bytes, the lowest one first.
    pub fn from_bytes(bytes: &[u8; 32]) -> Scalar
        ensures { result ≡ little_endian bytes.now }
    {
        Scalar {
            w0: word(bytes, 0),
            w1: word(bytes, 8),
            w2: word(bytes, 16),
            w3: word(bytes, 24),
        }
    }

    /// The number of four words, the lowest first.
    pub fn from_words(w0: u64, w1: u64, w2: u64, w3: u64) -> Scalar
        ensures { result ≡ words w0 w1 w2 w3 }
    {
        Scalar { w0, w1, w2, w3 }
    }

    /// The bytes of the number, the lowest one first.
    pub fn to_bytes(&self) -> [u8; 32]
        ensures { result ≡ to_bytes 32 self.now }
    {
        let mut bytes = [0; 32];
        let (low, high) = bytes.split_at_mut(16);
        let (first, second) = low.split_at_mut(8);
        let (third, fourth) = high.split_at_mut(8);
        first.copy_from_slice(&self.w0.to_le_bytes());
        second.copy_from_slice(&self.w1.to_le_bytes());
        third.copy_from_slice(&self.w2.to_le_bytes());
        fourth.copy_from_slice(&self.w3.to_le_bytes());
        bytes
    }

    /// The number, which is below 2 ^ 255, with this highest bit.
    pub fn with_top_bit(&self, bit: u64) -> Scalar
        requires { (self.now < 2 ^ 255) × (bit < 2) }
        ensures { result ≡ self.now + 2 ^ 255 * bit }
    {
        Scalar {
            w0: self.w0,
            w1: self.w1,
            w2: self.w2,
            w3: self.w3 % 0x8000_0000_0000_0000 + bit * 0x8000_0000_0000_0000,
        }
    }

    /// The number as a secret scalar is made of it: the lowest three bits and the highest cleared, the second highest
    /// set.
    pub fn pruned(&self) -> Scalar
        ensures { result ≡ pruned self.now }
    {
        Scalar {
            w0: self.w0 / 8 * 8,
            w1: self.w1,
            w2: self.w2,
            w3: self.w3 % 0x4000_0000_0000_0000 + 0x4000_0000_0000_0000,
        }
    }

    /// The words, the lowest first.
    pub fn parts(&self) -> (u64, u64, u64, u64)
        ensures value { self.now ≡ words result.0 result.1 result.2 result.3 }
        ensures sizes { AreWords result.0 result.1 result.2 result.3 }
    {
        (self.w0, self.w1, self.w2, self.w3)
    }

    /// The number less L, and whether it is at least L; the former means nothing where it is not. 2 ^ 256 - L is added:
    /// where that is carried past 256 bits, the number was at least L.
    fn less_order(&self) -> (Scalar, bool)
        ensures reached { IsTrue result.1 ↔ order ≤ self.now }
        ensures less { IsTrue result.1 → result.0 + order ≡ self.now }
    {
        let t0 = carry(self.w0, 0xa7ed_9ce5_a30a_2c13, 0);
        let t1 = carry(self.w1, 0xeb21_0621_5d08_6329, t0 >> 64);
        let t2 = carry(self.w2, 0xffff_ffff_ffff_ffff, t1 >> 64);
        let t3 = carry(self.w3, 0xefff_ffff_ffff_ffff, t2 >> 64);
        let less = Scalar {
            w0: (t0 & 0xffff_ffff_ffff_ffff) as u64,
            w1: (t1 & 0xffff_ffff_ffff_ffff) as u64,
            w2: (t2 & 0xffff_ffff_ffff_ffff) as u64,
            w3: (t3 & 0xffff_ffff_ffff_ffff) as u64,
        };
        (less, t3 >> 64 == 1)
    }

    /// Whether the number is below L.
    pub fn is_below_order(&self) -> bool
        ensures { result ≡ nat_lt self.now order }
    {
        !self.less_order().1
    }

    /// Whether the number without its highest bit is below p, which 19 more show.
    pub fn is_below_prime(&self) -> bool
        ensures { result ≡ nat_lt (self.now % 2 ^ 255) prime }
    {
        let t0 = carry(self.w0, 19, 0);
        let t1 = carry(self.w1, 0, t0 >> 64);
        let t2 = carry(self.w2, 0, t1 >> 64);
        let t3 = carry(self.w3 % 0x8000_0000_0000_0000, 0, t2 >> 64);
        t3 < 0x8000_0000_0000_0000
    }

    /// Twice the number plus a bit, modulo L.
    fn doubled_plus(&self, bit: u64) -> Scalar
        requires { (self.now < order) × (bit < 2) }
        ensures value { result ≡ (2 * self.now + bit) % order }
        ensures below { result < order }
    {
        let twice = Scalar {
            w0: self.w0 % 0x8000_0000_0000_0000 * 2 + bit,
            w1: self.w1 % 0x8000_0000_0000_0000 * 2 + self.w0 / 0x8000_0000_0000_0000,
            w2: self.w2 % 0x8000_0000_0000_0000 * 2 + self.w1 / 0x8000_0000_0000_0000,
            w3: self.w3 % 0x8000_0000_0000_0000 * 2 + self.w2 / 0x8000_0000_0000_0000,
        };
        let (less, reached) = twice.less_order();
        if reached { less } else { twice }
    }

    /// 256 times the number plus a byte, modulo L.
    fn with_byte(self, byte: u8) -> Scalar
        requires { self < order }
        ensures value { result ≡ (256 * self + byte) % order }
        ensures below { result < order }
    {
        let mut number = self;
        for i in 0..8u32 {
            number = number.doubled_plus((byte >> (7 - i) & 1) as u64);
        }
        number
    }

    /// The number of bytes, the lowest one first, modulo L.
    pub fn reduced(bytes: &[u8; 64]) -> Scalar
        ensures value { result ≡ little_endian bytes.now % order }
        ensures below { result < order }
    {
        let mut number = Scalar {
            w0: 0,
            w1: 0,
            w2: 0,
            w3: 0,
        };
        for i in 0..64 {
            number = number.with_byte(bytes[63 - i]);
        }
        number
    }

    /// The sum modulo L.
    pub fn plus(&self, other: &Scalar) -> Scalar
        requires { (self.now < order) × (other.now < order) }
        ensures value { result ≡ (self.now + other.now) % order }
        ensures below { result < order }
    {
        let t0 = carry(self.w0, other.w0, 0);
        let t1 = carry(self.w1, other.w1, t0 >> 64);
        let t2 = carry(self.w2, other.w2, t1 >> 64);
        let t3 = carry(self.w3, other.w3, t2 >> 64);
        let sum = Scalar {
            w0: (t0 & 0xffff_ffff_ffff_ffff) as u64,
            w1: (t1 & 0xffff_ffff_ffff_ffff) as u64,
            w2: (t2 & 0xffff_ffff_ffff_ffff) as u64,
            w3: (t3 & 0xffff_ffff_ffff_ffff) as u64,
        };
        let (less, reached) = sum.less_order();
        if reached { less } else { sum }
    }

    /// The product modulo L.
    pub fn times(&self, other: &Scalar) -> Scalar
        requires { other.now < order }
        ensures value { result ≡ (self.now * other.now) % order }
        ensures below { result < order }
    {
        let zero = Scalar::from_words(0, 0, 0, 0);
        let sum = with_word_times(zero, self.w3, other);
        let sum = with_word_times(sum, self.w2, other);
        let sum = with_word_times(sum, self.w1, other);
        with_word_times(sum, self.w0, other)
    }
}

/// 2 ^ 64 times `start`, and the word times the factor, modulo L.
fn with_word_times(start: Scalar, word: u64, factor: &Scalar) -> Scalar
    requires { (start < order) × (factor.now < order) }
    ensures value { result ≡ (start * 2 ^ 64 + word * factor.now) % order }
    ensures below { result < order }
{
    let mut sum = start;
    for i in 0..64u32 {
        sum = sum.doubled_plus(0);
        if (word >> (63 - i)) & 1 == 1 {
            sum = sum.plus(factor);
        }
    }
    sum
}
