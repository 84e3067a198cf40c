//! Which names the lines of a script bind, and which ones they ask for.

use std::alloc::{AllocError, Global};

/// What a name is bound to.
#[derive(Clone, Copy, PartialEq, Eq)]
pub enum Sort {
    Key,
    Script,
    Tx,
    /// A block that another one may go on from.
    Block,
    Raw,
    Follower,
}

/// What a line asks for by a name.
#[derive(Clone, Copy)]
pub enum Wanted {
    Just(Sort),
    /// The bytes of a block, or others.
    Bytes,
}

impl Wanted {
    fn takes(self, sort: Sort) -> bool {
        match self {
            Wanted::Just(wanted) => wanted == sort,
            Wanted::Bytes => sort == Sort::Block || sort == Sort::Raw,
        }
    }
}

/// How sure it is that a name is bound.
#[derive(Clone, Copy)]
pub enum Sure {
    No,
    /// A line would have bound it that may have bound nothing.
    Maybe,
    Yes,
}

/// A name that a line binds.
#[derive(Clone, Copy)]
struct Binding<'t> {
    sort: Sort,
    name: &'t str,
    /// Whether the line binds it whatever the node does.
    is_sure: bool,
}

/// The names that the lines so far bind.
#[derive(Drop)]
pub struct BoundSoFar<'t> {
    bindings: Vec<Binding<'t>>,
    /// The transaction that has no end so far.
    open: Option<&'t str>,
}

impl<'t> BoundSoFar<'t> {
    pub fn new(alloc: Global) -> BoundSoFar<'t> {
        BoundSoFar {
            bindings: Vec::new(alloc),
            open: None,
        }
    }

    /// Whether a transaction has no end so far.
    pub fn is_open(&self) -> bool {
        self.open.is_some()
    }

    fn bind(&mut self, sort: Sort, name: &'t str, is_sure: bool) -> Result<(), AllocError> {
        match self.bindings.push(Binding {
            sort,
            name,
            is_sure,
        }) {
            Ok(()) => Ok(()),
            Err(_) => Err(AllocError),
        }
    }

    /// One more line, which has no fault. A follower may not be opened, and a block not be forged.
    pub fn note(&mut self, line: &'t str) -> Result<(), AllocError> {
        if line == "end" {
            return match self.open.take() {
                Some(name) => self.bind(Sort::Tx, name, true),
                None => Ok(()),
            };
        }
        let mut words = line.split(' ');
        let (Some(first), Some(name)) = (words.next(), words.next()) else {
            return Ok(());
        };
        match first {
            "key" | "seed" => self.bind(Sort::Key, name, true),
            "script" => self.bind(Sort::Script, name, true),
            "block" => self.bind(Sort::Block, name, true),
            "raw" => self.bind(Sort::Raw, name, true),
            "forge" => self.bind(Sort::Block, name, false),
            "open" | "watch" => self.bind(Sort::Follower, name, false),
            "tx" => {
                self.open = Some(name);
                Ok(())
            }
            _ => Ok(()),
        }
    }

    /// Whether the name is bound to what is wanted.
    pub fn has(&self, wanted: Wanted, name: &str) -> Sure {
        let mut sure = Sure::No;
        for binding in &self.bindings {
            if wanted.takes(binding.sort) && binding.name == name {
                if binding.is_sure {
                    return Sure::Yes;
                }
                sure = Sure::Maybe;
            }
        }
        sure
    }
}

/// What the word at this place of a line asks for by a name, counted from 0. None where it asks for nothing.
pub fn wanted_at(words: &[&str], place: usize) -> Option<Wanted> {
    let first = words.first().copied()?;
    let sort = match (first, place) {
        ("in" | "submit" | "where", 1) => Sort::Tx,
        ("sign" | "badsign", 1) => Sort::Key,
        ("with" | "mint", 1) => Sort::Script,
        ("next" | "close" | "forward", 1) => Sort::Follower,
        ("arrive" | "arrive-cut" | "arrive-ext", 1) => return Some(Wanted::Bytes),
        ("out", 2) if words.get(1) == Some(&"key") => Sort::Key,
        ("out", 2) => Sort::Script,
        ("out", _) if place >= 4 && place % 3 == 1 => Sort::Script,
        ("block", 2) | ("discard" | "why", 1) => Sort::Block,
        ("block", _) if place >= 4 => Sort::Tx,
        ("forward", _) if place >= 2 => Sort::Block,
        ("watch", _) if place >= 2 => Sort::Key,
        ("balance", 1) if words.len() == 2 => Sort::Key,
        ("balance", 2) => Sort::Script,
        _ => return None,
    };
    Some(Wanted::Just(sort))
}
