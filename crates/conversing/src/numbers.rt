//! Numbers of requests and replies.

ghost use Rattle.std.specs.Prelude.{◌≡◌, ◌++◌, OnOk};
ghost use Rattle.serde_json.specs.View.{view};
ghost use Rattle.conversing.specs.Numbers.{is_digit, number_from, parse_number, number_of, number_text};

use serde_json::Value;
use std::alloc::AllocError;
use std::io::Write;

/// The first number that is spelled as a string of decimal digits, 2^53: below it a double has each whole number (RFC
/// 8259, section 6), so those are spelled as JSON numbers.
pub const PLAIN_NUMBER_LIMIT: u64 = 9_007_199_254_740_992;

/// Whether the byte is a decimal digit.
fn is_digit(b: u8) -> bool
    ensures { result ≡ is_digit b }
{
    b >= b'0' && b <= b'9'
}

/// The number that digits say, if it is below 2^64.
fn number_from(digits: &[u8]) -> Option<u64>
    ensures { result ≡ number_from 0 digits.now }
{
    let mut number: u64 = 0;
    for digit in digits {
        if !is_digit(*digit) {
            return None;
        }
        number = number
            .checked_mul(10)?
            .checked_add(u64::from(*digit - b'0'))?;
    }
    Some(number)
}

/// The number below 2^64 that decimal digits say, without a zero in front.
fn parse_number(digits: &[u8]) -> Option<u64>
    ensures { result ≡ parse_number digits.now }
{
    match digits {
        [] => None,
        [b'0', _, ..] => None,
        _ => number_from(digits),
    }
}

/// The number below 2^64 that a value is, as a number or as a string of decimal digits.
pub(crate) fn number_of(value: &Value) -> Option<u64>
    ensures { result ≡ number_of (view value.now) }
{
    match value.as_str() {
        Some(digits) => parse_number(digits.as_bytes()),
        None => value.as_u64(),
    }
}

/// Appends a number: as a JSON number below 2^53, and as a string of decimal digits from there on.
pub(crate) fn put_number(line: &mut Vec<u8>, number: u64) -> Result<(), AllocError>
    ensures { OnOk result (line.new.items ≡ line.old.items ++ number_text number) }
{
    if number < PLAIN_NUMBER_LIMIT {
        match write!(line, "{number}") {
            Ok(()) => Ok(()),
            Err(_) => Err(AllocError),
        }
    } else {
        match write!(line, "\"{number}\"") {
            Ok(()) => Ok(()),
            Err(_) => Err(AllocError),
        }
    }
}
