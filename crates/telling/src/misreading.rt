//! Why bytes are no text.

ghost use Rattle.std.specs.Prelude.{◌≡◌};
ghost use Rattle.telling.specs.Misreadings.{IsMisreading};

use thiserror::Error;
use wellformed::{Misfit, first_misfit};

/// Why bytes are not the text of what they were to be.
#[derive(Clone, Copy, Debug, PartialEq, Eq, Error)]
pub enum Misreading {
    /// They are the text of no item of CBOR.
    #[error("malformed CBOR: {0}")]
    NoItem(Misfit),
    /// They are that of an item, but not of what they were to be: it has another shape, or a number, a size or an order
    /// in it is none that may be. No place is told.
    #[error("CBOR of something else")]
    OtherItem,
}

/// Of bytes that are not the text of what they were to be, why. Linear in the bytes, and takes no memory.
pub fn misreading_of(bytes: &[u8]) -> Misreading
    ensures { IsMisreading bytes.now result }
{
    match first_misfit(bytes) {
        Some(misfit) => Misreading::NoItem(misfit),
        None => Misreading::OtherItem,
    }
}
