//! What sums ask of a point that is added.

ghost use Rattle.std.specs.Prelude.{◌≡◌};
ghost use Rattle.ed25519.specs.Addends.{addend_of};

use crate::field_element::FieldElement;
use crate::point::{Point, twice_curve_d};

/// What a sum asks of the point that is added, computed once for all sums that add it.
#[derive(Drop)]
pub struct Addend {
    pub y_plus_x: FieldElement,
    pub y_minus_x: FieldElement,
    pub twice_z: FieldElement,
    pub twice_d_t: FieldElement,
}

impl Addend {
    /// The point, ready to be added.
    pub fn of(point: &Point) -> Addend
        ensures { result ≡ addend_of point.now }
    {
        Addend {
            y_plus_x: point.y.plus(&point.x),
            y_minus_x: point.y.minus(&point.x),
            twice_z: point.z.plus(&point.z),
            twice_d_t: twice_curve_d().times(&point.t),
        }
    }

    /// All zeros, which are the addend of no point: they stand in a table's places until these are filled.
    pub fn unset() -> Addend {
        Addend {
            y_plus_x: FieldElement::zero(),
            y_minus_x: FieldElement::zero(),
            twice_z: FieldElement::zero(),
            twice_d_t: FieldElement::zero(),
        }
    }
}
