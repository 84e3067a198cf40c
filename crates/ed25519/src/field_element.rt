//! Numbers modulo p = 2 ^ 255 - 19 (RFC 8032, 5.1.1).

ghost use Rattle.std.specs.Prelude.{◌≡◌, ℕ, ◌+◌, ◌-◌, ◌*◌, ◌/◌, ◌%◌, ◌^◌, ◌<◌, ◌==◌};
ghost use Rattle.ed25519.specs.Arithmetic.{minus, plus, power, prime, times};
ghost use Rattle.ed25519.specs.Inside.{IsLoose, limbs, words};

use crate::scalar::Scalar;
use std::marker::Model;

/// The bits of a digit, in a word of 64 bits.
const DIGIT: u64 = 0x7_ffff_ffff_ffff;

/// The bits of a digit, in a word of 128 bits.
const WIDE_DIGIT: u128 = 0x7_ffff_ffff_ffff;

/// A number modulo p, as five digits in base 2 ^ 51, the lowest first, each of which may be a little more than the
/// base: so a sum carries once, and each product of two digits is one of words of 64 bits.
#[derive(Drop)]
pub struct FieldElement {
    a0: u64,
    a1: u64,
    a2: u64,
    a3: u64,
    a4: u64,
}

impl Model for FieldElement {
    ghost Value = { ℕ };

    ghost view = { λ f. limbs f.a0 f.a1 f.a2 f.a3 f.a4 % prime };

    ghost invariant = { λ f. IsLoose f.a0 f.a1 f.a2 f.a3 f.a4 };
}

/// The number of five digits of a product: what is more than 51 bits of one is carried to the next, and of the last,
/// 19 times, to the first.
fn carried(r0: u128, r1: u128, r2: u128, r3: u128, r4: u128) -> FieldElement
    requires { (r0 < 2 ^ 112) × (r1 < 2 ^ 112) × (r2 < 2 ^ 112) × (r3 < 2 ^ 112) × (r4 < 2 ^ 107) }
    ensures { result ≡ limbs r0 r1 r2 r3 r4 % prime }
{
    let s1 = r1 + (r0 >> 51);
    let s2 = r2 + (s1 >> 51);
    let s3 = r3 + (s2 >> 51);
    let s4 = r4 + (s3 >> 51);
    // From here on words of 64 bits, which are quicker.
    let s0 = (r0 & WIDE_DIGIT) as u64 + 19 * ((s4 >> 51) as u64);
    FieldElement {
        a0: s0 & DIGIT,
        a1: (s1 & WIDE_DIGIT) as u64 + (s0 >> 51),
        a2: (s2 & WIDE_DIGIT) as u64,
        a3: (s3 & WIDE_DIGIT) as u64,
        a4: (s4 & WIDE_DIGIT) as u64,
    }
}

/// The number of five digits of at most 58 bits, each of which carries once.
fn settled(r0: u64, r1: u64, r2: u64, r3: u64, r4: u64) -> FieldElement
    requires { (r0 < 2 ^ 58) × (r1 < 2 ^ 58) × (r2 < 2 ^ 58) × (r3 < 2 ^ 58) × (r4 < 2 ^ 58) }
    ensures { result ≡ limbs r0 r1 r2 r3 r4 % prime }
{
    FieldElement {
        a0: (r0 & DIGIT) + 19 * (r4 >> 51),
        a1: (r1 & DIGIT) + (r0 >> 51),
        a2: (r2 & DIGIT) + (r1 >> 51),
        a3: (r3 & DIGIT) + (r2 >> 51),
        a4: (r4 & DIGIT) + (r3 >> 51),
    }
}

impl FieldElement {
    /// The number of five digits of 51 bits.
    pub const fn from_digits(a0: u64, a1: u64, a2: u64, a3: u64, a4: u64) -> FieldElement
        requires { (a0 < 2 ^ 51) × (a1 < 2 ^ 51) × (a2 < 2 ^ 51) × (a3 < 2 ^ 51) × (a4 < 2 ^ 51) }
        ensures { result ≡ limbs a0 a1 a2 a3 a4 % prime }
    {
        FieldElement { a0, a1, a2, a3, a4 }
    }

    /// The number of four words, the lowest first, without its highest bit.
    pub fn from_words(w0: u64, w1: u64, w2: u64, w3: u64) -> FieldElement
        ensures { result ≡ words w0 w1 w2 w3 % 2 ^ 255 % prime }
    {
        FieldElement {
            a0: w0 % 0x8_0000_0000_0000,
            a1: w0 / 0x8_0000_0000_0000 + w1 % 0x40_0000_0000 * 0x2000,
            a2: w1 / 0x40_0000_0000 + w2 % 0x200_0000 * 0x400_0000,
            a3: w2 / 0x200_0000 + w3 % 0x1000 * 0x80_0000_0000,
            a4: w3 / 0x1000 % 0x8_0000_0000_0000,
        }
    }

    /// Zero.
    pub fn zero() -> FieldElement
        ensures { result ≡ 0 }
    {
        FieldElement::from_digits(0, 0, 0, 0, 0)
    }

    /// One.
    pub fn one() -> FieldElement
        ensures { result ≡ 1 }
    {
        FieldElement::from_digits(1, 0, 0, 0, 0)
    }

    /// A copy.
    pub fn copy(&self) -> FieldElement
        ensures same { result ≡ self.now }
        ensures below { self.now < prime }
    {
        FieldElement {
            a0: self.a0,
            a1: self.a1,
            a2: self.a2,
            a3: self.a3,
            a4: self.a4,
        }
    }

    /// The sum.
    pub fn plus(&self, other: &FieldElement) -> FieldElement
        ensures { result ≡ plus self.now other.now }
    {
        settled(
            self.a0 + other.a0,
            self.a1 + other.a1,
            self.a2 + other.a2,
            self.a3 + other.a3,
            self.a4 + other.a4,
        )
    }

    /// The difference: twice p is added first, digit by digit, so that none is below 0.
    pub fn minus(&self, other: &FieldElement) -> FieldElement
        ensures { result ≡ minus self.now other.now }
    {
        settled(
            self.a0 + 0x1f_ffff_ffff_ffb4 - other.a0,
            self.a1 + 0x1f_ffff_ffff_fffc - other.a1,
            self.a2 + 0x1f_ffff_ffff_fffc - other.a2,
            self.a3 + 0x1f_ffff_ffff_fffc - other.a3,
            self.a4 + 0x1f_ffff_ffff_fffc - other.a4,
        )
    }

    /// The product.
    pub fn times(&self, other: &FieldElement) -> FieldElement
        ensures { result ≡ times self.now other.now }
    {
        let a0 = self.a0 as u128;
        let a1 = self.a1 as u128;
        let a2 = self.a2 as u128;
        let a3 = self.a3 as u128;
        let a4 = self.a4 as u128;
        let b0 = other.a0 as u128;
        let b1 = other.a1 as u128;
        let b2 = other.a2 as u128;
        let b3 = other.a3 as u128;
        let b4 = other.a4 as u128;
        // Made in 64 bits, so that each product below is one of words of 64 bits. 2 ^ 255 is 19 modulo p.
        let c1 = (19 * other.a1) as u128;
        let c2 = (19 * other.a2) as u128;
        let c3 = (19 * other.a3) as u128;
        let c4 = (19 * other.a4) as u128;
        carried(
            a0 * b0 + a1 * c4 + a2 * c3 + a3 * c2 + a4 * c1,
            a0 * b1 + a1 * b0 + a2 * c4 + a3 * c3 + a4 * c2,
            a0 * b2 + a1 * b1 + a2 * b0 + a3 * c4 + a4 * c3,
            a0 * b3 + a1 * b2 + a2 * b1 + a3 * b0 + a4 * c4,
            a0 * b4 + a1 * b3 + a2 * b2 + a3 * b1 + a4 * b0,
        )
    }

    /// The square.
    pub fn squared(&self) -> FieldElement
        ensures { result ≡ times self.now self.now }
    {
        let a0 = self.a0 as u128;
        let a1 = self.a1 as u128;
        let a2 = self.a2 as u128;
        let a3 = self.a3 as u128;
        let a4 = self.a4 as u128;
        let b0 = (2 * self.a0) as u128;
        let b1 = (2 * self.a1) as u128;
        let c3 = (19 * self.a3) as u128;
        let c4 = (19 * self.a4) as u128;
        carried(
            a0 * a0 + 2 * (a1 * c4 + a2 * c3),
            b0 * a1 + 2 * (a2 * c4) + a3 * c3,
            b0 * a2 + a1 * a1 + 2 * (a3 * c4),
            b0 * a3 + b1 * a2 + a4 * c4,
            b0 * a4 + b1 * a3 + a2 * a2,
        )
    }

    /// The number squared so many times.
    pub fn squared_times(&self, count: u32) -> FieldElement
        ensures { result ≡ power self.now (2 ^ count) }
    {
        let mut square = self.copy();
        for _i in 0..count {
            square = square.squared();
        }
        square
    }

    /// The powers 2 ^ 250 - 1 and 11, of which both long powers below are made.
    fn long_powers(&self) -> (FieldElement, FieldElement)
        ensures { (result.0 ≡ power self.now (2 ^ 250 - 1)) × (result.1 ≡ power self.now 11) }
    {
        let two = self.squared();
        let nine = two.squared_times(2).times(self);
        let eleven = nine.times(&two);
        let five_bits = eleven.squared().times(&nine);
        let ten_bits = five_bits.squared_times(5).times(&five_bits);
        let twenty_bits = ten_bits.squared_times(10).times(&ten_bits);
        let forty_bits = twenty_bits.squared_times(20).times(&twenty_bits);
        let fifty_bits = forty_bits.squared_times(10).times(&ten_bits);
        let hundred_bits = fifty_bits.squared_times(50).times(&fifty_bits);
        let two_hundred_bits = hundred_bits.squared_times(100).times(&hundred_bits);
        let all_bits = two_hundred_bits.squared_times(50).times(&fifty_bits);
        (all_bits, eleven)
    }

    /// The power (p - 5) / 8, which is 2 ^ 252 - 3.
    pub fn root_power(&self) -> FieldElement
        ensures { result ≡ power self.now ((prime - 5) / 8) }
    {
        let (all_bits, _eleven) = self.long_powers();
        all_bits.squared_times(2).times(self)
    }

    /// The inverse, and 0 of 0: the power p - 2, which is 2 ^ 255 - 21.
    pub fn inverse(&self) -> FieldElement
        ensures { result ≡ power self.now (prime - 2) }
    {
        let (all_bits, eleven) = self.long_powers();
        all_bits.squared_times(5).times(&eleven)
    }

    /// The digits of the number below p. The first carries tell whether p is to be taken off once.
    fn digits(&self) -> (u64, u64, u64, u64, u64)
        ensures value { limbs result.0 result.1 result.2 result.3 result.4 ≡ self.now }
        ensures small { (result.0 < 2 ^ 51) × (result.1 < 2 ^ 51) × (result.2 < 2 ^ 51) × (result.3 < 2 ^ 51)
            × (result.4 < 2 ^ 51) }
    {
        let over = (self.a0 + 19) >> 51;
        let over = (self.a1 + over) >> 51;
        let over = (self.a2 + over) >> 51;
        let over = (self.a3 + over) >> 51;
        let over = (self.a4 + over) >> 51;
        let s0 = self.a0 + 19 * over;
        let s1 = self.a1 + (s0 >> 51);
        let s2 = self.a2 + (s1 >> 51);
        let s3 = self.a3 + (s2 >> 51);
        let s4 = self.a4 + (s3 >> 51);
        (s0 & DIGIT, s1 & DIGIT, s2 & DIGIT, s3 & DIGIT, s4 & DIGIT)
    }

    /// Whether two numbers are the same.
    pub fn equals(&self, other: &FieldElement) -> bool
        ensures { result ≡ (self.now == other.now) }
    {
        let a = self.digits();
        let b = other.digits();
        (a.0 == b.0) & (a.1 == b.1) & (a.2 == b.2) & (a.3 == b.3) & (a.4 == b.4)
    }

    /// The lowest bit.
    pub fn lowest_bit(&self) -> u64
        ensures { result ≡ self.now % 2 }
    {
        self.digits().0 & 1
    }

    /// The number below p, as a scalar.
    pub fn to_scalar(&self) -> Scalar
        ensures { result ≡ self.now }
    {
        let a = self.digits();
        Scalar::from_words(
            a.0 + a.1 % 0x2000 * 0x8_0000_0000_0000,
            a.1 / 0x2000 + a.2 % 0x400_0000 * 0x40_0000_0000,
            a.2 / 0x400_0000 + a.3 % 0x80_0000_0000 * 0x200_0000,
            a.3 / 0x80_0000_0000 + a.4 * 0x1000,
        )
    }
}
