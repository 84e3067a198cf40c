//! Why bytes or text are no identifier.

use thiserror::Error;

/// What is wrong with the bytes or the hexadecimal text of an identifier.
#[derive(Clone, Copy, Debug, PartialEq, Eq, Error)]
pub enum IdentFault {
    /// The text has an odd number of digits.
    #[error("an odd number of hexadecimal digits")]
    OddDigits,
    /// There are `bytes` bytes, and not 32.
    #[error("{bytes} bytes in place of 32")]
    WrongLength { bytes: usize },
    /// The character at this index, in bytes, is no hexadecimal digit.
    #[error("{character:?} at index {index} is no hexadecimal digit")]
    NotADigit { character: char, index: usize },
}
