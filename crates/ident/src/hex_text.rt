//! Bytes as hexadecimal text.

use std::fmt;

/// Bytes that are written in hexadecimal: two lower case digits for each, the high four bits first.
#[derive(Clone, Copy, Debug, PartialEq, Eq)]
pub struct Hex<'a>(pub &'a [u8]);

impl<'a> fmt::Display for Hex<'a> {
    ghost use Rattle.std.specs.Prelude.{Some};
    ghost use Rattle.hex.specs.Hex.{encode_lower};

    ghost output = { λ bytes. Some (encode_lower bytes.0.now) };

    /// Writes the digits.
    fn fmt<W: fmt::Write>(&self, f: &mut fmt::Formatter<W>) -> fmt::Result {
        for byte in self.0 {
            let byte = *byte;
            write!(f, "{byte:02x}")?;
        }
        Ok(())
    }
}
