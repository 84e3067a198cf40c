//! Numbers of a script.

ghost use Rattle.std.specs.Prelude.{◌≡◌};
ghost use Rattle.script.specs.Text.{parse_number, number_from};

use crate::words::is_digit;

/// The number that digits say, if it is below 2^64.
fn number_from(digits: &[u8]) -> Option<u64>
    ensures { result ≡ number_from 0 digits.now }
{
    let mut number: u64 = 0;
    for digit in digits {
        if !is_digit(*digit) {
            return None;
        }
        number = number
            .checked_mul(10)?
            .checked_add(u64::from(*digit - b'0'))?;
    }
    Some(number)
}

/// The number that a word says: decimal, without a zero in front, below 2^64.
pub fn parse_number(word: &[u8]) -> Option<u64>
    ensures { result ≡ parse_number word.now }
{
    match word {
        [] => None,
        [b'0', _, ..] => None,
        _ => number_from(word),
    }
}
