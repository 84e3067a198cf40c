//! Places in a text.

ghost use Rattle.std.specs.Prelude.{◌≡◌, ◌<◌, ◌-◌, ◌^◌};
ghost use Rattle.hints.specs.Places.{goes_on, next_place, place_after};
ghost use Rattle.hints.specs.PlaceView.{place_of};

use std::fmt;

/// A place in a text: its line and its column, counted from 0, and told from 1. A column counts characters.
#[derive(Clone, Copy, Debug)]
pub struct Place {
    pub line: u64,
    pub column: u64,
}

impl fmt::Display for Place {
    fn fmt<W: fmt::Write>(&self, f: &mut fmt::Formatter<W>) -> fmt::Result {
        let line = self.line.saturating_add(1);
        let column = self.column.saturating_add(1);
        write!(f, "line {line}, column {column}")
    }
}

/// Whether the byte goes on with a character of UTF-8.
fn goes_on(byte: u8) -> bool
    ensures { result ≡ goes_on byte }
{
    byte >= 128 && byte < 192
}

impl Place {
    /// The place after one more byte.
    fn next(self, byte: u8) -> Place
        requires line { self.line < 2 ^ 64 - 1 }
        requires column { self.column < 2 ^ 64 - 1 }
        ensures { place_of result ≡ next_place (place_of self) byte }
    {
        if byte == b'\n' {
            return Place {
                line: self.line + 1,
                column: 0,
            };
        }
        if goes_on(byte) {
            return self;
        }
        Place {
            line: self.line,
            column: self.column + 1,
        }
    }

    /// The place after these bytes.
    pub fn after(bytes: &[u8]) -> Place
        ensures { place_of result ≡ place_after bytes.now }
    {
        let mut place = Place { line: 0, column: 0 };
        for byte in bytes.iter() {
            place = place.next(*byte);
        }
        place
    }
}
