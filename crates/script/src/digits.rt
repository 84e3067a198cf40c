//! Hexadecimal digits in a line.

ghost use Rattle.std.specs.Prelude.{◌≡◌, ◌==◌, IfOk, IsSome, None, Some, if◌then◌else◌, length, option_map};
ghost use Rattle.std.specs.List.{list_all};
ghost use Rattle.hex.specs.Hex.{is_hex_digit};
ghost use Rattle.model.specs.Limits.{hash_size};
ghost use Rattle.script.specs.Line.{digits_bytes, said_bytes};

use hex::FromHex;
use std::alloc::{AllocError, Global};

/// Hexadecimal digits of either case in a line, which say one byte or more.
#[derive(Clone, Copy)]
pub struct Digits<'a> {
    pub text: &'a [u8],
    pub ghost says: { IsSome (digits_bytes text.now) },
}

/// Whether the byte is a hexadecimal digit of either case.
fn is_hex_digit(b: u8) -> bool
    ensures { result ≡ is_hex_digit b }
{
    match b {
        b'A'..=b'F' | b'a'..=b'f' | b'0'..=b'9' => true,
        _ => false,
    }
}

/// Whether each byte is a hexadecimal digit.
fn are_hex_digits(word: &[u8]) -> bool
    ensures { result ≡ list_all is_hex_digit word.now }
{
    word.iter().all(|b| is_hex_digit(*b))
}

impl<'a> Digits<'a> {
    /// The digits that a word is, if there are digits alone and their number is even.
    pub fn of_word(word: &'a [u8]) -> Option<Digits<'a>>
        ensures { option_map (λ d. said_bytes d.text.now) result ≡ digits_bytes word.entry.now }
    {
        if word.is_empty() {
            return None;
        }
        if word.len() % 2 == 1 {
            return None;
        }
        if !are_hex_digits(word) {
            return None;
        }
        Some(Digits { text: word })
    }

    /// The 32 bytes of a key that they say, where they say that many. Takes no memory.
    pub fn key(&self) -> Option<[u8; 32]>
        ensures { result ≡ (if length (said_bytes self.now.text.now) == hash_size
            then Some (said_bytes self.now.text.now) else None) }
    {
        <[u8; 32]>::from_hex(self.text).ok()
    }

    /// The bytes that they say.
    pub fn bytes(&self, alloc: Global) -> Result<Vec<u8>, AllocError>
        ensures { IfOk result (λ bytes. bytes.items ≡ said_bytes self.now.text.now) }
    {
        match hex::decode(alloc, self.text) {
            Ok(bytes) => Ok(bytes),
            Err(_) => Err(AllocError),
        }
    }
}
