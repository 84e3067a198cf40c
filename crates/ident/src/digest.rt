//! What the identifiers have in common: 32 bytes, made by SHA-256 (FIPS 180-4) and written in
//! hexadecimal.

ghost use Rattle.std.specs.Prelude.{◌≡◌, ◌++◌};
ghost use Rattle.sha2.specs.Sha256.{sha256};
ghost use Rattle.hex.specs.Hex.{encode_lower};
ghost use Rattle.ident.specs.Bytes.{sized, read_hex};

use crate::fault::IdentFault;
use hex::{FromHex, FromHexError};
use sha2::{Digest, Sha256};
use std::str;

/// The SHA-256 digest of the text.
pub fn digest_of(text: &[u8]) -> [u8; 32]
    ensures { result ≡ sha256 text.now }
{
    Sha256::digest(text)
}

/// The SHA-256 digest of the two pieces, one after the other.
pub fn digest_of_pieces(first: &[u8], second: &[u8]) -> [u8; 32]
    ensures { result ≡ sha256 (first.now ++ second.now) }
{
    let mut hasher = Sha256::new();
    hasher.update(first);
    hasher.update(second);
    hasher.finalize()
}

/// The bytes of the slice, if there are 32.
pub fn from_slice(bytes: &[u8]) -> Result<[u8; 32], IdentFault>
    ensures { result ≡ sized bytes.now }
{
    <[u8; 32]>::try_from(bytes).map_err(|_| IdentFault::WrongLength { bytes: bytes.len() })
}

/// The bytes that 64 hexadecimal digits spell, in either case.
pub fn from_hex(text: &str) -> Result<[u8; 32], IdentFault>
    ensures { result ≡ read_hex text.now }
{
    match <[u8; 32] as FromHex>::from_hex(text) {
        Ok(bytes) => Ok(bytes),
        Err(FromHexError::OddLength) => Err(IdentFault::OddDigits),
        Err(FromHexError::InvalidHexCharacter { c, index }) => Err(IdentFault::NotADigit {
            character: c,
            index,
        }),
        Err(FromHexError::InvalidStringLength) => Err(IdentFault::WrongLength {
            bytes: text.len() / 2,
        }),
        Err(FromHexError::OutOfMemory) => unreachable!(),
    }
}

/// The 64 lower case hexadecimal digits of the bytes.
pub fn hex_text<'a>(bytes: &[u8; 32], buffer: &'a mut [u8; 64]) -> &'a str
    ensures { result.now ≡ encode_lower bytes.now }
{
    hex::encode_to_slice(bytes.as_slice(), buffer).unwrap();
    str::from_utf8(buffer).unwrap()
}
