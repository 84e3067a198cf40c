//! Bytes written in words: hexadecimal, names of bytes, and either a given number of times.

use std::alloc::{AllocError, Global};

/// Bytes that have a name.
#[derive(Drop)]
struct Named<'a> {
    name: &'a str,
    bytes: Vec<u8>,
}

/// The names that were given to bytes so far.
#[derive(Drop)]
pub struct NamedBytes<'a> {
    alloc: Global,
    named: Vec<Named<'a>>,
}

/// A word without the number of times that it stands for, and that number, where it is one.
fn repeated(word: &str) -> Option<(&str, u64)> {
    match word.split_once('*') {
        Some((once, times)) => Some((once, times.parse::<u64>().ok()?)),
        None => Some((word, 1)),
    }
}

impl<'a> NamedBytes<'a> {
    /// No names.
    pub fn new(alloc: Global) -> NamedBytes<'a> {
        NamedBytes {
            alloc,
            named: Vec::new(alloc),
        }
    }

    /// Gives words a name, and answers whether each has a meaning and the name had none.
    pub fn bind(&mut self, name: &'a str, words: &str) -> Result<bool, AllocError> {
        let mut bytes = Vec::new(self.alloc);
        if self.put_words(&mut bytes, name)? || !self.put_words(&mut bytes, words)? {
            return Ok(false);
        }
        self.named.push(Named { name, bytes })?;
        Ok(true)
    }

    /// The bytes of a name.
    fn get(&self, name: &str) -> Option<&[u8]> {
        for named in &self.named {
            if named.name == name {
                return Some(&named.bytes);
            }
        }
        None
    }

    /// Puts the bytes of a word without a number behind others, if it has a meaning.
    fn put_once(&self, bytes: &mut Vec<u8>, word: &str) -> Result<bool, AllocError> {
        if let Some(named) = self.get(word) {
            bytes.extend_from_slice(named)?;
            return Ok(true);
        }
        match hex::decode(self.alloc, word) {
            Ok(decoded) => {
                bytes.extend_from_slice(&decoded)?;
                Ok(true)
            }
            Err(_) => Ok(false),
        }
    }

    /// Puts the bytes of a word behind others, if it has a meaning.
    fn put(&self, bytes: &mut Vec<u8>, word: &str) -> Result<bool, AllocError> {
        let Some((once, times)) = repeated(word) else {
            return Ok(false);
        };
        let mut one = Vec::new(self.alloc);
        let is_known = self.put_once(&mut one, once)?;
        if is_known {
            put_times(bytes, &one, times)?;
        }
        Ok(is_known)
    }

    /// Puts the bytes that words stand for behind others, one after the other, up to the first word without a meaning,
    /// and answers whether each has one.
    pub fn put_words(&self, bytes: &mut Vec<u8>, words: &str) -> Result<bool, AllocError> {
        for word in words.split_whitespace() {
            if !self.put(bytes, word)? {
                return Ok(false);
            }
        }
        Ok(true)
    }
}

/// Puts bytes `times` times behind others.
fn put_times(bytes: &mut Vec<u8>, one: &[u8], times: u64) -> Result<(), AllocError> {
    for _ in 0..times {
        bytes.extend_from_slice(one)?;
    }
    Ok(())
}
