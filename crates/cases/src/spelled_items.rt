//! The texts of items, values, mints and scripts.

use crate::spelled::{Spelled, Unread, put_number, put_unknown};
use cbor::{CborFault, Item, decode, encode, read};
use std::alloc::{AllocError, Global};
use timelock::Script;
use value::{Mint, Policy, Value};

/// An item, with what is written of it and of its copy: both are written where it is known that it has a text.
#[derive(Drop)]
pub struct WrittenItem {
    item: Item,
    text: Vec<u8>,
    text_of_copy: Vec<u8>,
}

/// What is written of the copy of the item that bytes are.
fn written_copy(alloc: Global, bytes: &[u8]) -> Result<Vec<u8>, CborFault> {
    let item = decode(alloc, bytes)?;
    let copy = item.try_clone(alloc)?;
    Ok(encode(alloc, &copy)?)
}

/// What is written of the item that bytes are.
fn written(alloc: Global, bytes: &[u8]) -> Result<Vec<u8>, CborFault> {
    let item = decode(alloc, bytes)?;
    Ok(encode(alloc, &item)?)
}

impl Spelled for WrittenItem {
    fn read_whole(alloc: Global, bytes: &[u8]) -> Result<WrittenItem, Unread> {
        let text = written(alloc, bytes)?;
        let text_of_copy = written_copy(alloc, bytes)?;
        Ok(WrittenItem {
            item: decode(alloc, bytes)?,
            text,
            text_of_copy,
        })
    }

    fn left_behind(alloc: Global, bytes: &[u8]) -> Option<usize> {
        let (_, length) = read(alloc, bytes).ok()?;
        bytes.len().checked_sub(length)
    }

    fn put_text(&self, out: &mut Vec<u8>) -> Result<(), AllocError> {
        out.extend_from_slice(&self.text)
    }

    fn put_text_of_copy(&self, out: &mut Vec<u8>) -> Result<(), AllocError> {
        out.extend_from_slice(&self.text_of_copy)
    }

    fn tell(&self, name: &str, out: &mut String) -> Result<(), AllocError> {
        let (kind, number) = kind_and_number(&self.item);
        match name {
            "kind" => out.push_str(kind),
            "number" => put_number(out, number),
            _ => put_unknown(out),
        }
    }
}

/// The kind of an item, and its number: n of the number n and of -1 - n, and else how many parts it has.
fn kind_and_number(item: &Item) -> (&'static str, u64) {
    match item {
        Item::Unsigned(n) => ("unsigned", *n),
        Item::Negative(n) => ("negative", *n),
        Item::Bytes(bytes) => ("bytes", bytes.len() as u64),
        Item::Array(members) => ("array", members.as_slice().len() as u64),
        Item::Map(entries) => ("map", entries.as_slice().len() as u64),
        Item::Null => ("null", 0),
    }
}

/// How many tokens there are of all policies.
fn count_tokens<Q>(policies: &[Policy<Q>]) -> u64 {
    let mut count: u64 = 0;
    for policy in policies {
        count = count.saturating_add(policy.tokens.len() as u64);
    }
    count
}

/// The greatest quantity of an asset, 0 where there is none.
fn greatest(policies: &[Policy<u64>]) -> u64 {
    let mut most = 0;
    for policy in policies {
        for token in &policy.tokens {
            most = token.quantity.max(most);
        }
    }
    most
}

impl Spelled for Value {
    fn read_whole(alloc: Global, bytes: &[u8]) -> Result<Value, Unread> {
        match Value::read(alloc, bytes)? {
            (value, []) => Ok(value),
            _ => Err(Unread::Followed),
        }
    }

    fn left_behind(alloc: Global, bytes: &[u8]) -> Option<usize> {
        let (_, rest) = Value::read(alloc, bytes).ok()?;
        Some(rest.len())
    }

    fn put_text(&self, out: &mut Vec<u8>) -> Result<(), AllocError> {
        self.write(out)
    }

    fn put_text_of_copy(&self, out: &mut Vec<u8>) -> Result<(), AllocError> {
        self.try_clone()?.write(out)
    }

    fn tell(&self, name: &str, out: &mut String) -> Result<(), AllocError> {
        let number = match name {
            "coin" => self.coin(),
            "policies" => self.assets().len() as u64,
            "assets" => count_tokens(self.assets()),
            "most" => greatest(self.assets()),
            _ => return put_unknown(out),
        };
        put_number(out, number)
    }
}

/// Puts the quantity of the first token behind a text, if there is one.
fn put_first(out: &mut String, policies: &[Policy<i64>]) -> Result<(), AllocError> {
    let Some(policy) = policies.first() else {
        return out.push_str("none");
    };
    match policy.tokens.first() {
        Some(token) => write!(out, "{}", token.quantity),
        None => out.push_str("none"),
    }
}

impl Spelled for Mint {
    fn read_whole(alloc: Global, bytes: &[u8]) -> Result<Mint, Unread> {
        match Mint::read(alloc, bytes)? {
            (mint, []) => Ok(mint),
            _ => Err(Unread::Followed),
        }
    }

    fn left_behind(alloc: Global, bytes: &[u8]) -> Option<usize> {
        let (_, rest) = Mint::read(alloc, bytes).ok()?;
        Some(rest.len())
    }

    fn put_text(&self, out: &mut Vec<u8>) -> Result<(), AllocError> {
        self.write(out)
    }

    fn put_text_of_copy(&self, out: &mut Vec<u8>) -> Result<(), AllocError> {
        self.try_clone()?.write(out)
    }

    fn tell(&self, name: &str, out: &mut String) -> Result<(), AllocError> {
        match name {
            "policies" => put_number(out, self.policies().len() as u64),
            "assets" => put_number(out, count_tokens(self.policies())),
            "first" => put_first(out, self.policies()),
            _ => put_unknown(out),
        }
    }
}

impl Spelled for Script {
    fn read_whole(alloc: Global, bytes: &[u8]) -> Result<Script, Unread> {
        Ok(Script::decode(alloc, bytes)?)
    }

    fn left_behind(alloc: Global, bytes: &[u8]) -> Option<usize> {
        let (_, rest) = Script::read(alloc, bytes).ok()?;
        Some(rest.len())
    }

    fn put_text(&self, out: &mut Vec<u8>) -> Result<(), AllocError> {
        out.extend_from_slice(&self.encode()?)
    }

    fn put_text_of_copy(&self, out: &mut Vec<u8>) -> Result<(), AllocError> {
        self.try_clone()?.write(out)
    }

    fn tell(&self, name: &str, out: &mut String) -> Result<(), AllocError> {
        match name {
            "hash" => write!(out, "{}", self.hash()),
            "nesting" => put_number(out, self.nesting() as u64),
            _ => put_unknown(out),
        }
    }
}
