//! Points of the curve (RFC 8032, 5.1.2 to 5.1.4).

ghost use Rattle.std.specs.Prelude.{◌≡◌, ℕ, ◌+◌, ◌*◌, ◌^◌};
ghost use Rattle.ed25519.specs.Arithmetic.{root_of_minus_one, times};
ghost use Rattle.ed25519.specs.Points.{added, base_point, curve_d, doubled, has_small_order, multiple, neutral};
ghost use Rattle.ed25519.specs.Points.{point_at, same_point};
ghost use Rattle.ed25519.specs.declared.point.Point.{Point};
ghost use Rattle.ed25519.specs.Encoding.{encoded};
ghost use Rattle.ed25519.specs.Decoding.{decoded, root_of_ratio, with_sign, x_of};
ghost use Rattle.ed25519.specs.Addends.{AreSmallMultiples, addend_of};

use crate::addend::Addend;
use crate::factors::Factors;
use crate::field_element::FieldElement;
use crate::scalar::Scalar;
use std::array;

/// A point in extended coordinates: it is (x / z, y / z), and t / z is the product of the two.
#[derive(Drop)]
pub struct Point {
    pub x: FieldElement,
    pub y: FieldElement,
    pub z: FieldElement,
    pub t: FieldElement,
}

/// Twice the curve's d, by its digits.
pub fn twice_curve_d() -> FieldElement
    ensures { result ≡ times 2 curve_d }
{
    FieldElement::from_digits(
        1859910466990425,
        932731440258426,
        1072319116312658,
        1815898335770999,
        633789495995903,
    )
}

/// The curve's d, by its digits.
fn curve_d() -> FieldElement
    ensures { result ≡ curve_d }
{
    FieldElement::from_digits(
        929955233495203,
        466365720129213,
        1662059464998953,
        2033849074728123,
        1442794654840575,
    )
}

/// A square root of -1, by its digits.
fn root_of_minus_one() -> FieldElement
    ensures { result ≡ root_of_minus_one }
{
    FieldElement::from_digits(
        1718705420411056,
        234908883556509,
        2233514472574048,
        2117202627021982,
        765476049583133,
    )
}

/// A root of u / v, where there is one.
fn root_of(u: &FieldElement, v: &FieldElement) -> Option<FieldElement>
    ensures { result ≡ root_of_ratio u.now v.now }
{
    let cube = v.squared().times(v);
    let seventh = cube.squared().times(v);
    let x = u.times(&cube).times(&u.times(&seventh).root_power());
    let check = v.times(&x.squared());
    if check.equals(u) {
        Some(x)
    } else if check.equals(&FieldElement::zero().minus(u)) {
        Some(x.times(&root_of_minus_one()))
    } else {
        None
    }
}

/// x or -x, whose lowest bit is `sign`; none where x is 0 and `sign` 1.
fn with_sign(x: FieldElement, sign: u64) -> Option<FieldElement>
    ensures { result ≡ with_sign x sign }
{
    if sign == 1 && x.equals(&FieldElement::zero()) {
        None
    } else if x.lowest_bit() == sign {
        Some(x)
    } else {
        Some(FieldElement::zero().minus(&x))
    }
}

/// The x of a point with this y, whose lowest bit is `sign`, if there is one.
fn x_of(y: &FieldElement, sign: u64) -> Option<FieldElement>
    ensures { result ≡ x_of y.now sign }
{
    let square = y.squared();
    let u = square.minus(&FieldElement::one());
    let v = curve_d().times(&square).plus(&FieldElement::one());
    match root_of(&u, &v) {
        Some(x) => with_sign(x, sign),
        None => None,
    }
}

impl Point {
    /// The neutral point.
    pub fn neutral() -> Point
        ensures { result ≡ neutral }
    {
        Point {
            x: FieldElement::zero(),
            y: FieldElement::one(),
            z: FieldElement::one(),
            t: FieldElement::zero(),
        }
    }

    /// The point (x, y).
    fn at(x: FieldElement, y: FieldElement) -> Point
        ensures { result ≡ point_at x y }
    {
        let t = x.times(&y);
        Point {
            x,
            y,
            z: FieldElement::one(),
            t,
        }
    }

    /// The base point.
    pub fn base() -> Point
        ensures { result ≡ base_point }
    {
        Point::at(
            FieldElement::from_digits(
                1738742601995546,
                1146398526822698,
                2070867633025821,
                562264141797630,
                587772402128613,
            ),
            FieldElement::from_digits(
                1801439850948184,
                1351079888211148,
                450359962737049,
                900719925474099,
                1801439850948198,
            ),
        )
    }

    /// The sum.
    pub fn plus(&self, other: &Point) -> Factors
        ensures { result ≡ added self.now other.now }
    {
        let a = self.y.minus(&self.x).times(&other.y.minus(&other.x));
        let b = self.y.plus(&self.x).times(&other.y.plus(&other.x));
        let c = self.t.times(&twice_curve_d().times(&other.t));
        let d = self.z.times(&other.z.plus(&other.z));
        Factors::of_products(&a, &b, &c, &d)
    }

    /// The same, with a product and three sums of coordinates less to make.
    fn plus_addend(&self, other: &Addend) -> Factors
        ensures { (p : Point) → other.now ≡ addend_of p → result ≡ added self.now p }
    {
        let a = self.y.minus(&self.x).times(&other.y_minus_x);
        let b = self.y.plus(&self.x).times(&other.y_plus_x);
        let c = self.t.times(&other.twice_d_t);
        let d = self.z.times(&other.twice_z);
        Factors::of_products(&a, &b, &c, &d)
    }

    /// The multiples by 0 to 15: the neutral point, and then each the sum of the one before and the point.
    fn small_multiples(&self) -> [Addend; 16]
        ensures { AreSmallMultiples result self.now }
    {
        let once = Addend::of(self);
        let mut sum = Point::neutral();
        let mut multiples = array::from_fn(|_i| Addend::unset());
        multiples[0] = Addend::of(&sum);
        for i in 1..16 {
            sum = sum.plus_addend(&once).to_point();
            multiples[i] = Addend::of(&sum);
        }
        multiples
    }

    /// Whether the point is of small order, which is at most 8.
    pub fn has_small_order(&self) -> bool
        ensures { result ≡ has_small_order self.now }
    {
        let twice = doubled(&self.x, &self.y, &self.z);
        let eight_times = twice.doubled().doubled().to_point();
        eight_times.equals(&Point::neutral())
    }

    /// The multiple: its cost is that of 256 doublings and 79 sums, whatever the number is; which memory is read hangs on
    /// the number's digits.
    pub fn multiple(&self, scalar: &Scalar) -> Point
        ensures { result ≡ multiple 64 scalar.now self.now }
    {
        let multiples = self.small_multiples();
        let (w0, w1, w2, w3) = scalar.parts();
        let sum = through_word(Factors::neutral(), w3, &multiples);
        let sum = through_word(sum, w2, &multiples);
        let sum = through_word(sum, w1, &multiples);
        through_word(sum, w0, &multiples).to_point()
    }

    /// Whether two points are the same.
    pub fn equals(&self, other: &Point) -> bool
        ensures { result ≡ same_point self.now other.now }
    {
        self.x.times(&other.z).equals(&other.x.times(&self.z))
            && self.y.times(&other.z).equals(&other.y.times(&self.z))
    }

    /// The bytes of the point (RFC 8032, 5.1.2).
    pub fn encode(&self) -> [u8; 32]
        ensures { result ≡ encoded self.now }
    {
        let over = self.z.inverse();
        let x = self.x.times(&over);
        let y = self.y.times(&over);
        y.to_scalar().with_top_bit(x.lowest_bit()).to_bytes()
    }

    /// The point of bytes, if they are those of one (RFC 8032, 5.1.3).
    pub fn decode(bytes: &[u8; 32]) -> Option<Point>
        ensures { result ≡ decoded bytes.now }
    {
        let number = Scalar::from_bytes(bytes);
        let (w0, w1, w2, w3) = number.parts();
        let y = FieldElement::from_words(w0, w1, w2, w3);
        if number.is_below_prime() {
            match x_of(&y, w3 / 0x8000_0000_0000_0000) {
                Some(x) => Some(Point::at(x, y)),
                None => None,
            }
        } else {
            None
        }
    }
}

/// Twice the point (x / z, y / z), whatever its t is, which is not read.
pub fn doubled(x: &FieldElement, y: &FieldElement, z: &FieldElement) -> Factors
    ensures { (t : ℕ) → result ≡ doubled (record { x = x.now; y = y.now; z = z.now; t = t }) }
{
    let a = x.squared();
    let b = y.squared();
    let square = z.squared();
    let c = square.plus(&square);
    let h = a.plus(&b);
    let e = h.minus(&x.plus(y).squared());
    let g = a.minus(&b);
    let f = c.plus(&g);
    Factors { e, f, g, h }
}

/// The multiple of a number that goes on by one more word, where `start` is that of the number before it, and
/// `multiples` are those of the point by 0 to 15. The word's digits of four bits are read from the highest one on.
fn through_word(start: Factors, word: u64, multiples: &[Addend; 16]) -> Factors
    ensures { (p : Point) → AreSmallMultiples multiples.now p → (k m : ℕ) → start ≡ multiple k m p
        → result ≡ multiple (k + 16) (m * 2 ^ 64 + word) p }
{
    let mut sum = start;
    for i in 0..16u32 {
        let digit = (word >> (60 - 4 * i)) % 16;
        let sixteen_times = sum.doubled().doubled().doubled().doubled().to_point();
        sum = sixteen_times.plus_addend(&multiples[digit as usize]);
    }
    sum
}
