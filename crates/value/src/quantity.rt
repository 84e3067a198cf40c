//! Quantities of an asset: those of an output and those that are minted.

ghost use Rattle.std.specs.Prelude.{◌≡◌, ◌≢◌, ℕ, ℤ, pos, negsuc, ◌≤ℤ◌, ◌++◌, List, Option, ◌<◌, ◌≤◌, ◌+◌, length};
ghost use Rattle.std.specs.Prelude.{◌↔◌, IsTrue, option_map, OnOk, OnErr, vec_capacity};
ghost use Rattle.std.specs.Bool.{OnFalse};
ghost use Rattle.model.specs.Cbor.{Item, Unsigned, text_of};
ghost use Rattle.model.specs.Value.{item_of_number, IsMintedQuantity};
ghost use Rattle.value.specs.Quantities.{IsAlone, held_at, made_at, taken_away_at, minted_at, IsWithin, quantity_limit};

use std::alloc::AllocError;

/// No minted quantity is this or more.
const NUMBER_LIMIT: u64 = 1 << 63;

/// A quantity with its text.
pub trait Quantity: Copy {
    /// The item that says the quantity.
    ghost item_of: { Self → Item };

    /// The quantity as a whole number.
    ghost whole: { Self → ℤ };

    /// Holds of the quantities that the place allows.
    ghost is_quantity: { Self → Type 0 };

    /// The quantity that stands first, and the bytes after it.
    ghost quantity_at: { List ℕ → Option (Self × List ℕ) };

    /// The quantity that stands first, and the bytes after it. None where none stands there that the place
    /// allows.
    fn read(bytes: &[u8]) -> Option<(Self, &[u8])>
        ensures { option_map (λ x. (x.0, x.1.now)) result ≡ quantity_at bytes.now };

    /// Writes the text of the quantity.
    fn write(self, out: &mut Vec<u8>) -> Result<(), AllocError>
        ensures ok { OnOk result (out.new.items ≡ out.old.items ++ text_of (item_of self)) }
        ensures err { OnErr result (out.new.items ≡ out.old.items) }
        ensures full { OnErr result (vec_capacity out.old < length out.old.items + length (text_of (item_of self))) }
        ensures capacity { vec_capacity out.old ≤ vec_capacity out.new };

    /// The quantity, in the width in which quantities are added.
    fn to_whole(self) -> i128
        ensures is { result ≡ whole self }
        ensures within { IsWithin quantity_limit result }
        ensures said { whole self ≢ pos 0 → is_quantity self × IsAlone (item_of self) };

    /// Whether it is 0, which no text says.
    fn is_zero(self) -> bool
        ensures zero { IsTrue result ↔ (whole self ≡ pos 0) }
        ensures said { OnFalse result (is_quantity self × IsAlone (item_of self)) }
    {
        self.to_whole() == 0
    }
}

/// Of an output: 1 to 2^64 - 1.
impl Quantity for u64 {
    ghost item_of = { Unsigned };

    ghost whole = { pos };

    ghost is_quantity = { λ q. q ≢ 0 };

    ghost quantity_at = { held_at };

    #[tactic(auto, unfolding(crate::specs::Quantities::held_at, cbor::specs::Shapes::such_at))]
    fn read(bytes: &[u8]) -> Option<(u64, &[u8])> {
        let (quantity, rest) = cbor::unsigned(bytes)?;
        if quantity == 0 {
            return None;
        }
        Some((quantity, rest))
    }

    fn write(self, out: &mut Vec<u8>) -> Result<(), AllocError> {
        cbor::write_unsigned(out, self)
    }

    fn to_whole(self) -> i128 {
        i128::from(self)
    }
}

/// A quantity that is made: 1 to 2^63 - 1.
#[tactic(auto, unfolding(crate::specs::Quantities::made_at, cbor::specs::Shapes::as_at, cbor::specs::Shapes::such_at))]
fn made(bytes: &[u8]) -> Option<(i64, &[u8])>
    ensures { option_map (λ x. (x.0, x.1.now)) result ≡ made_at bytes.now }
{
    let (quantity, rest) = cbor::unsigned(bytes)?;
    if quantity == 0 || quantity >= NUMBER_LIMIT {
        return None;
    }
    Some((quantity as i64, rest))
}

/// A quantity that is taken away: -2^63 to -1.
#[tactic(auto, unfolding(crate::specs::Quantities::taken_away_at, cbor::specs::Shapes::as_at, cbor::specs::Shapes::such_at))]
fn taken_away(bytes: &[u8]) -> Option<(i64, &[u8])>
    ensures { option_map (λ x. (x.0, x.1.now)) result ≡ taken_away_at bytes.now }
{
    let (below, rest) = cbor::negative(bytes)?;
    if below >= NUMBER_LIMIT {
        return None;
    }
    Some((-1 - below as i64, rest))
}

/// Of what is minted: -2^63 to 2^63 - 1 without 0. What is taken away is below 0.
impl Quantity for i64 {
    ghost item_of = { item_of_number };

    ghost whole = { λ quantity. quantity };

    ghost is_quantity = { IsMintedQuantity };

    ghost quantity_at = { minted_at };

    #[tactic(auto, unfolding(crate::specs::Quantities::minted_at, cbor::specs::Shapes::either_at))]
    fn read(bytes: &[u8]) -> Option<(i64, &[u8])> {
        if let Some(made) = made(bytes) {
            return Some(made);
        }
        taken_away(bytes)
    }

    fn write(self, out: &mut Vec<u8>) -> Result<(), AllocError> {
        if self >= 0 {
            cbor::write_unsigned(out, self as u64)
        } else {
            cbor::write_negative(out, (-1 - self) as u64)
        }
    }

    fn to_whole(self) -> i128 {
        i128::from(self)
    }
}
