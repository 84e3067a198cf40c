//! A point whose coordinates are still products.

ghost use Rattle.std.specs.Prelude.{◌≡◌};
ghost use Rattle.ed25519.specs.Arithmetic.{minus, plus};
ghost use Rattle.ed25519.specs.Points.{added, doubled, neutral, of_factors};
ghost use Rattle.ed25519.specs.declared.point.Point.{Point};

use crate::field_element::FieldElement;
use crate::point::{Point, doubled};
use std::marker::Model;

/// A point as the formulas of sums leave it before their last lines (RFC 8032, 5.1.4): x = e f, y = g h, z = f g and
/// t = e h. A doubling doesn't read t, so where one follows that product is never made.
#[derive(Drop)]
pub struct Factors {
    pub e: FieldElement,
    pub f: FieldElement,
    pub g: FieldElement,
    pub h: FieldElement,
}

impl Model for Factors {
    ghost Value = { Point };

    ghost view = { λ p. of_factors p.e p.f p.g p.h };
}

impl Factors {
    /// The neutral point.
    pub fn neutral() -> Factors
        ensures { result ≡ neutral }
    {
        Factors {
            e: FieldElement::zero(),
            f: FieldElement::one(),
            g: FieldElement::one(),
            h: FieldElement::one(),
        }
    }

    /// What the products A, B, C and D of a sum make.
    pub fn of_products(
        a: &FieldElement,
        b: &FieldElement,
        c: &FieldElement,
        d: &FieldElement,
    ) -> Factors
        ensures { result ≡ of_factors (minus b.now a.now) (minus d.now c.now) (plus d.now c.now) (plus b.now a.now) }
    {
        Factors {
            e: b.minus(a),
            f: d.minus(c),
            g: d.plus(c),
            h: b.plus(a),
        }
    }

    /// The point with its coordinates, which are four products.
    pub fn to_point(&self) -> Point
        ensures { result ≡ self.now }
    {
        Point {
            x: self.e.times(&self.f),
            y: self.g.times(&self.h),
            z: self.f.times(&self.g),
            t: self.e.times(&self.h),
        }
    }

    /// The point added to itself.
    pub fn doubled(&self) -> Factors
        ensures { result ≡ doubled self.now }
    {
        doubled(
            &self.e.times(&self.f),
            &self.g.times(&self.h),
            &self.f.times(&self.g),
        )
    }
}
