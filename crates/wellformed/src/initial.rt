//! The first bytes of items (RFC 8949, section 3).

ghost use Rattle.std.specs.Prelude.{◌↔◌, IsTrue};
ghost use Rattle.wellformed.specs.Parts.{MayBegin};

/// Whether the text of an item that nests at most so deep, which is 1 at least, begins with this byte.
pub fn begins_item(depth: u8, first: u8) -> bool
    ensures { IsTrue result ↔ MayBegin depth first }
{
    let low = first % 32;
    match first / 32 {
        0..=2 => low < 28,
        4 | 5 => low == 0 || (depth > 1 && low < 28),
        7 => low == 22,
        _ => false,
    }
}
