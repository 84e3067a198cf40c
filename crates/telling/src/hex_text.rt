//! Bytes that are written as hexadecimal text.

ghost use Rattle.std.specs.Prelude.{◌≡◌, ◌<◌, length, position, reverse, take_while, IfOk, IfErr, IfSome};
ghost use Rattle.hex.specs.Hex.{decode_of, is_hex_digit};
ghost use Rattle.telling.specs.HexText.{is_blank, is_stray, digits_of, stray_place, last_place, IsHexFault};

use std::alloc::{AllocError, Global};
use thiserror::Error;

/// Why a text spells no bytes. Places are counted in bytes, from 1.
#[derive(Clone, Copy, Debug, PartialEq, Eq, Error)]
pub enum HexFault {
    /// The first character that is neither a digit nor a blank stands at this place.
    #[error("the character at place {0} is no hexadecimal digit")]
    NoDigit(usize),
    /// There is an odd number of digits, of which the last one stands at this place.
    #[error("the digit at place {0} is the last of an odd number")]
    OddDigit(usize),
    /// Memory ran out.
    #[error("out of memory")]
    OutOfMemory,
}

/// Whether the character may stand between digits: a space, a tab or a line feed.
fn is_blank(byte: u8) -> bool
    ensures { result ≡ is_blank byte }
{
    byte == b' ' || (byte == b'\t' || byte == b'\n')
}

/// Whether it is a hexadecimal digit, in either case.
fn is_digit(byte: u8) -> bool
    ensures { result ≡ is_hex_digit byte }
{
    match byte {
        b'A'..=b'F' => true,
        b'a'..=b'f' => true,
        b'0'..=b'9' => true,
        _ => false,
    }
}

/// Whether it is neither.
fn is_stray(byte: u8) -> bool
    ensures { result ≡ is_stray byte }
{
    !(is_blank(byte) || is_digit(byte))
}

/// The index of the first character that is neither, if there is one.
fn first_stray(text: &[u8]) -> Option<usize>
    ensures first { result ≡ position is_stray text.now }
    ensures within { IfSome result (λ index. index < length text.now) }
{
    text.iter().position(|byte| is_stray(*byte))
}

/// The place of that character.
fn stray_place(text: &[u8]) -> Option<usize>
    ensures { result ≡ stray_place text.now }
{
    match first_stray(text) {
        Some(index) => Some(index + 1),
        None => None,
    }
}

/// The characters that aren't blank.
fn digits_of(alloc: Global, text: &[u8]) -> Result<Vec<u8>, AllocError>
    ensures { IfOk result (λ digits. digits.items ≡ digits_of text.now) }
{
    text.iter()
        .copied()
        .filter(|byte| !is_blank(*byte))
        .collect(alloc)
}

/// How many blanks stand at the end.
fn blanks_behind(text: &[u8]) -> usize
    ensures { result ≡ length (take_while is_blank (reverse text.now)) }
{
    text.iter()
        .rev()
        .take_while(|byte| is_blank(**byte))
        .count()
}

/// The place of the last character that isn't blank, and 0 where there is none.
fn last_place(text: &[u8]) -> usize
    ensures { result ≡ last_place text.now }
{
    text.len().saturating_sub(blanks_behind(text))
}

/// The bytes that hexadecimal text spells, in either case. Spaces, tabs and line feeds may stand anywhere in it. Err at
/// the first other character that is no digit, and where there is none at the last digit of an odd number. Linear in
/// the text.
///
/// ```text
/// bytes_of_hex(alloc, b"82 01\n80")?; // [0x82, 0x01, 0x80]
/// bytes_of_hex(alloc, b"82 0x")?; // HexFault::NoDigit(5)
/// ```
pub fn bytes_of_hex(alloc: Global, text: &[u8]) -> Result<Vec<u8>, HexFault>
    ensures ok { IfOk result (λ bytes. decode_of (digits_of text.now) ≡ Ok bytes.items) }
    ensures fault { IfErr result (IsHexFault text.now) }
{
    if let Some(place) = stray_place(text) {
        return Err(HexFault::NoDigit(place));
    }
    let Ok(digits) = digits_of(alloc, text) else {
        return Err(HexFault::OutOfMemory);
    };
    if digits.len() % 2 == 1 {
        return Err(HexFault::OddDigit(last_place(text)));
    }
    match hex::decode(alloc, digits.as_slice()) {
        Ok(bytes) => Ok(bytes),
        // They are an even number of digits, so nothing but memory is wanting.
        Err(_) => Err(HexFault::OutOfMemory),
    }
}
