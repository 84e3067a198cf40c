//! Lines between bars, which may have any bytes.

use hex::FromHex;
use std::alloc::AllocError;

/// What a byte behind a backslash stands for, where it isn't the beginning of two hexadecimal digits.
fn escaped(byte: u8) -> u8 {
    match byte {
        b'n' => b'\n',
        b't' => b'\t',
        b'r' => b'\r',
        other => other,
    }
}

/// The byte that two hexadecimal digits say, or a question mark.
fn byte_of_digits(high: u8, low: u8) -> u8 {
    let byte = <[u8; 1]>::from_hex([high, low].as_slice()).unwrap_or([b'?']);
    byte[0]
}

/// The byte that stands first, and how many bytes of the line it takes.
fn first_byte(rest: &[u8]) -> Option<(u8, usize)> {
    match rest {
        [b'\\', b'x', high, low, ..] => Some((byte_of_digits(*high, *low), 4)),
        [b'\\', byte, ..] => Some((escaped(*byte), 2)),
        [byte, ..] => Some((*byte, 1)),
        [] => None,
    }
}

/// Puts what stands between bars behind bytes.
fn put_unescaped(bytes: &mut Vec<u8>, inside: &[u8]) -> Result<(), AllocError> {
    let mut at: usize = 0;
    for _ in 0..inside.len() {
        let rest = inside.get(at..).unwrap_or(b"".as_slice());
        let Some((byte, taken)) = first_byte(rest) else {
            break;
        };
        bytes.push(byte)?;
        at = at.saturating_add(taken);
    }
    Ok(())
}

/// Puts the bytes that a line stands for behind others: those between its bars, where it begins and ends with one, or
/// itself.
pub fn put_bytes(bytes: &mut Vec<u8>, line: &str) -> Result<(), AllocError> {
    match line.as_bytes() {
        [b'|', inside @ .., b'|'] => put_unescaped(bytes, inside),
        plain => bytes.extend_from_slice(plain),
    }
}
