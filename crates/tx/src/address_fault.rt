//! Why a text is no address.

use thiserror::Error;

/// What is wrong with the text of an address, the first of these that is.
#[derive(Clone, Copy, Debug, PartialEq, Eq, Error)]
pub enum AddressFault {
    /// The text has an odd number of digits.
    #[error("an odd number of hexadecimal digits")]
    OddDigits,
    /// The text has the digits of `bytes` bytes, and not of 33.
    #[error("{bytes} bytes in place of 33")]
    WrongLength { bytes: usize },
    /// The character at this index, in bytes, is no hexadecimal digit.
    #[error("{character:?} at index {index} is no hexadecimal digit")]
    NotADigit { character: char, index: usize },
    /// The bytes are those of another kind of address: it has a staking part, say.
    #[error("neither the address of a key alone nor that of a script alone")]
    OtherKind,
}
