//! Laws of the curve's constants (RFC 8032, 5.1).

ghost use Rattle.std.specs.Prelude.{◌≡◌, ◌%◌, true};
ghost use Rattle.ed25519.specs.Arithmetic.{plus, minus, times, root_of_minus_one};
ghost use Rattle.ed25519.specs.Points.{curve_d, base_point, order, multiple, neutral, same_point};

/// The constants are those that the standard describes: d is -121665 / 121666; the square of 2 ^ ((p - 1) / 4) is -1;
/// the y of B is 4 / 5 and its x is even, B is on the curve, where y y - x x = 1 + d x x y y, and [L]B is neutral.
pub fn curve_constants()
    ensures d { plus (times curve_d 121666) 121665 ≡ 0 }
    ensures root { plus (times root_of_minus_one root_of_minus_one) 1 ≡ 0 }
    ensures base_y { times 5 base_point.y ≡ 4 }
    ensures base_x { base_point.x % 2 ≡ 0 }
    ensures on_curve { minus (times base_point.y base_point.y) (times base_point.x base_point.x)
        ≡ plus 1 (times curve_d (times (times base_point.x base_point.x) (times base_point.y base_point.y))) }
    ensures order { same_point (multiple 64 order base_point) neutral ≡ true }
{}
