//! Whether something is added to sums or taken from them.

ghost use Rattle.std.specs.Prelude.{◌≡◌};
ghost use Rattle.value.specs.Quantities.{IsWithin, quantity_limit};

/// Whether something is added to sums or taken from them.
#[derive(Clone, Copy, Debug, PartialEq, Eq)]
pub enum Side {
    Added,
    Taken,
}

impl Side {
    ghost use Rattle.value.specs.Sides.{sided};

    /// By how much a sum changes where this quantity is added or taken.
    pub fn change_by(self, quantity: i128) -> i128
        requires { IsWithin quantity_limit quantity }
        ensures is { result ≡ sided self quantity }
        ensures within { IsWithin quantity_limit result }
    {
        match self {
            Side::Added => quantity,
            Side::Taken => -quantity,
        }
    }
}
