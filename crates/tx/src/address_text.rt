//! Addresses as text: 66 hexadecimal digits.

ghost use Rattle.std.specs.Prelude.{◌≡◌, Some, IfOk, IfErr};
ghost use Rattle.ident.specs.Bytes.{seen};
ghost use Rattle.model.specs.Transaction as model;
ghost use Rattle.tx.specs.AddressText.{address_text, bytes_of_text, address_of_text, SpellsAddress};
ghost use Rattle.tx.specs.View.{address_of};

use crate::address::{ADDRESS_SIZE, Address};
use crate::address_fault::AddressFault;
use hex::{FromHex, FromHexError};
use ident::Hex;
use std::fmt;
use std::str::FromStr;

/// The bytes that 66 hexadecimal digits spell, in either case.
fn bytes_of_text(text: &str) -> Result<[u8; ADDRESS_SIZE], AddressFault>
    ensures { result ≡ bytes_of_text text.now }
{
    match <[u8; ADDRESS_SIZE] as FromHex>::from_hex(text) {
        Ok(bytes) => Ok(bytes),
        Err(FromHexError::OddLength) => Err(AddressFault::OddDigits),
        Err(FromHexError::InvalidHexCharacter { c, index }) => Err(AddressFault::NotADigit {
            character: c,
            index,
        }),
        Err(FromHexError::InvalidStringLength) => Err(AddressFault::WrongLength {
            bytes: text.len() / 2,
        }),
        Err(FromHexError::OutOfMemory) => unreachable!(),
    }
}

/// The address that 66 hexadecimal digits spell, in either case.
#[tactic(auto, unfolding(crate::specs::Reading::address_of_bytes))]
fn address_of_text(text: &str) -> Result<Address, AddressFault>
    ensures { seen address_of result ≡ address_of_text text.now }
{
    let bytes = bytes_of_text(text)?;
    Address::from_bytes(&bytes).ok_or(AddressFault::OtherKind)
}

impl fmt::Display for Address {
    ghost output = { λ address. Some (address_text (address_of address)) };

    /// Writes the 33 bytes in 66 lower case hexadecimal digits.
    fn fmt<W: fmt::Write>(&self, f: &mut fmt::Formatter<W>) -> fmt::Result {
        let bytes = self.to_bytes();
        let digits = Hex(&bytes);
        write!(f, "{digits}")
    }
}

impl FromStr for Address {
    type Err = AddressFault;

    ghost from_str_gives = { λ text r. seen address_of r ≡ address_of_text text };

    /// The address that 66 hexadecimal digits spell, in either case. Err where they spell none, in this order:
    /// `OddDigits`, then `WrongLength` with half the number of digits, then `NotADigit` with the first character that
    /// is none, then `OtherKind`.
    fn from_str(text: &str) -> Result<Address, AddressFault>
        ensures gives { seen address_of result ≡ address_of_text text.now }
        ensures some { IfOk result (λ address. SpellsAddress (address_of address) text.now) }
        ensures none { IfErr result (λ _. (address : model.Address) → SpellsAddress address text.now → ⊥) }
    {
        address_of_text(text)
    }
}
