//! Under what a script is judged: the keys that signed, and an interval.

use crate::hex_words::NamedBytes;
use ident::KeyHash;
use std::alloc::{AllocError, Global};
use timelock::{Interval, Script};

/// The keys that signed, and the interval.
#[derive(Drop)]
pub struct Conditions {
    alloc: Global,
    keys: Vec<KeyHash>,
    interval: Interval,
}

impl Conditions {
    /// No key, and an interval that is open on both sides.
    pub fn new(alloc: Global) -> Conditions {
        Conditions {
            alloc,
            keys: Vec::new(alloc),
            interval: Interval {
                start: None,
                end: None,
            },
        }
    }

    /// Takes in the key of a hash, and answers whether it is one.
    fn put_key(&mut self, named: &NamedBytes<'_>, value: &str) -> Result<bool, AllocError> {
        let mut hash = Vec::new(self.alloc);
        if !named.put_words(&mut hash, value)? {
            return Ok(false);
        }
        match KeyHash::try_from(hash.as_slice()) {
            Ok(key) => {
                self.keys.push(key)?;
                Ok(true)
            }
            Err(_) => Ok(false),
        }
    }

    /// Takes in conditions, each with its value, and answers whether they are some.
    pub fn put_all(&mut self, named: &NamedBytes<'_>, words: &str) -> Result<bool, AllocError> {
        let mut left = words.split_whitespace();
        for _ in 0..words.len() {
            let Some(name) = left.next() else {
                return Ok(true);
            };
            let Some(value) = left.next() else {
                return Ok(false);
            };
            if !self.put(named, name, value)? {
                return Ok(false);
            }
        }
        Ok(true)
    }

    /// Takes in a condition with its value, and answers whether it is one.
    fn put(&mut self, named: &NamedBytes<'_>, name: &str, value: &str) -> Result<bool, AllocError> {
        match name {
            "from" => {
                self.interval.start = value.parse::<u64>().ok();
                Ok(self.interval.start.is_some())
            }
            "until" => {
                self.interval.end = value.parse::<u64>().ok();
                Ok(self.interval.end.is_some())
            }
            "key" => self.put_key(named, value),
            _ => Ok(false),
        }
    }

    /// Whether a script holds.
    pub fn are_met(&self, script: &Script) -> bool {
        script.holds(&self.keys, self.interval)
    }
}
